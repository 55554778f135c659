//! The words of the program, read.
ghost use Rattle.std.specs.Prelude.{◌≡◌, ◌≢◌, ◌==◌, ◌≤◌, ◌<◌, ◌++◌, ◌∷◌, [], All, length, ℕ, ℤ, map, take, decimal};
ghost use Rattle.std.specs.Prelude.{string_bytes, IfOk, IfErr, IsOkUnless, MatchOption, MatchResult};
ghost use Rattle.std.specs.Fmt.{signed_decimal};
ghost use Rattle.std.specs.List.{slice_split};
ghost use Rattle.lite_base.specs.Answers.{Answer};
ghost use Rattle.pollrun.specs.Request.{IsRequest, IsScript, IsShort, IsWritten, name_of, scripts_of};
ghost use Rattle.pollrun.specs.Job.{IsJob, pipe_in, scripts_in};
ghost use Rattle.pollrun.specs.Spelling.{spelled, spelled_list};
ghost use Rattle.pollrun.specs.declared.fault.Fault.TheVariants.{Arguments, Output};

use crate::fault::Fault;
use itoa::Buffer;
use lite_base::Poll;
use std::alloc::{AllocError, Global};

/// The most polls, and the most answers of a script.
const MOST: usize = 1000;

/// The largest number of a script; its negative is the least.
const LARGEST: i32 = 999_999;

/// A pipe over one script.
#[derive(Clone, Copy, Debug, PartialEq, Eq)]
pub enum Single {
    /// The script as it is.
    Plain,
    /// Each number twice as large.
    Double,
    /// The even numbers alone.
    Evens,
    /// The first two numbers.
    Take2,
    /// Every second number.
    Step2,
}

/// A pipe over two scripts.
#[derive(Clone, Copy, Debug, PartialEq, Eq)]
pub enum Paired {
    /// The one after the other.
    Chain,
    /// The numbers of both as they come, the first's before the second's.
    Or,
    /// The pairs of their numbers.
    Zip,
}

/// What stands between the scripts and what is printed.
#[derive(Clone, Copy, Debug, PartialEq, Eq)]
pub enum Pipe {
    One(Single),
    Two(Paired),
}

/// The answers of a script.
pub type Answers = Vec<Poll<Option<i32>>>;

/// A pipe, and the scripts that it takes.
#[derive(Drop)]
pub enum Job {
    One(Single, Answers),
    Two(Paired, Answers, Answers),
}

/// What the words ask for.
#[derive(Drop)]
pub struct Request {
    pub polls: usize,
    pub job: Job,
}

impl Request {
    /// Reads the words from left to right. `Fault::Arguments` says that they are no request, `Fault::Memory` that
    /// there was none for a script.
    pub fn read(alloc: Global, words: &[String]) -> Result<Request, Fault>
        ensures read { IfOk result (λ r. IsRequest (map string_bytes words.now) (pipe_in r.job) r.polls (scripts_in r.job)) }
        ensures refused { result ≡ Err Arguments → (pipe : _) (polls : _) (scripts : _)
            → IsRequest (map string_bytes words.now) pipe polls scripts → ⊥ }
        ensures failed { IfErr result (λ fault. fault ≢ Output) }
    {
        let [pipe, polls, scripts @ ..] = words else {
            return Err(Fault::Arguments);
        };
        let Some(pipe) = pipe_of(pipe.as_str()) else {
            return Err(Fault::Arguments);
        };
        let Some(polls) = polls_of(polls.as_str()) else {
            return Err(Fault::Arguments);
        };
        let job = job_of(alloc, pipe, scripts)?;
        Ok(Request { polls, job })
    }
}

fn job_of(alloc: Global, pipe: Pipe, scripts: &[String]) -> Result<Job, Fault>
    ensures read { IfOk result (λ job. IsJob pipe (map string_bytes scripts.now) job) }
    ensures refused { result ≡ Err Arguments → (l : _) → length l ≡ scripts_of pipe → All IsScript l
        → map string_bytes scripts.now ≢ map (spelled_list signed_decimal) l }
    ensures failed { IfErr result (λ fault. fault ≢ Output) }
{
    match (pipe, scripts) {
        (Pipe::One(pipe), [script]) => Ok(Job::One(pipe, script_of(alloc, script.as_str())?)),
        (Pipe::Two(pipe), [first, second]) => {
            let first = script_of(alloc, first.as_str())?;
            let second = script_of(alloc, second.as_str())?;
            Ok(Job::Two(pipe, first, second))
        }
        _ => Err(Fault::Arguments),
    }
}

fn pipe_of(word: &str) -> Option<Pipe>
    ensures { MatchOption result ((pipe : _) → word.now ≢ name_of pipe) (λ pipe. word.now ≡ name_of pipe) }
{
    match word {
        "plain" => Some(Pipe::One(Single::Plain)),
        "double" => Some(Pipe::One(Single::Double)),
        "evens" => Some(Pipe::One(Single::Evens)),
        "take2" => Some(Pipe::One(Single::Take2)),
        "step2" => Some(Pipe::One(Single::Step2)),
        "chain" => Some(Pipe::Two(Paired::Chain)),
        "or" => Some(Pipe::Two(Paired::Or)),
        "zip" => Some(Pipe::Two(Paired::Zip)),
        _ => None,
    }
}

fn polls_of(word: &str) -> Option<usize>
    ensures { MatchOption result ((n : ℕ) → n ≤ 1000 → word.now ≢ decimal n)
        (λ n. (n ≤ 1000) × (word.now ≡ decimal n)) }
{
    match word.parse::<usize>() {
        Ok(n) if n <= MOST && Buffer::new().format(n) == word => Some(n),
        _ => None,
    }
}

fn number_of(word: &str) -> Option<i32>
    ensures { MatchOption result ((z : ℤ) → IsShort z → word.now ≢ signed_decimal z)
        (λ z. IsShort z × (word.now ≡ signed_decimal z)) }
{
    match word.parse::<i32>() {
        Ok(z) if -LARGEST <= z && z <= LARGEST && Buffer::new().format(z) == word => Some(z),
        _ => None,
    }
}

fn answer_of(word: &str) -> Option<Poll<Option<i32>>>
    ensures { MatchOption result ((a : Answer ℤ) → IsWritten a → word.now ≢ spelled signed_decimal a)
        (λ a. IsWritten a × (word.now ≡ spelled signed_decimal a)) }
{
    match word {
        "P" => Some(Poll::Pending),
        "E" => Some(Poll::Ready(None)),
        _ => Some(Poll::Ready(Some(number_of(word)?))),
    }
}

fn script_of(alloc: Global, word: &str) -> Result<Answers, Fault>
    ensures read { IfOk result (λ script. IsScript script.items × (word.now ≡ spelled_list signed_decimal script.items)) }
    ensures refused { result ≡ Err Arguments → (script : _) → IsScript script → word.now ≢ spelled_list signed_decimal script }
    ensures failed { IfErr result (λ fault. fault ≢ Output) }
{
    let found = pieces_of(alloc, word)?;
    let pieces = found.as_slice();
    if pieces.len() > MOST {
        return Err(Fault::Arguments);
    }
    let mut script = Vec::new(alloc);
    for piece in pieces {
        let Some(answer) = answer_of(piece) else {
            return Err(Fault::Arguments);
        };
        script.push(answer)?;
    }
    Ok(script)
}

// The pieces between the commas, and of too many only one more than may be.
fn pieces_of(alloc: Global, word: &str) -> Result<Vec<&str>, AllocError>
    ensures { IfOk result (λ pieces. map (λ x. x.now) pieces.items ≡ take 1001 (slice_split (λ b. b == 44) word.now)) }
{
    word.split(',').take(MOST + 1).collect(alloc)
}
