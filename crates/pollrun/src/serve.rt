//! The program, over any writers.
ghost use Rattle.std.specs.Prelude.{◌≡◌, ◌≤◌, ◌+ℤ◌, ◌++◌, ◌⊎◌, ◌∷◌, [], List, length, map, IfErr, IfOk, OnOk, string_bytes};
ghost use Rattle.std.specs.Fmt.{signed_decimal};
ghost use Rattle.std.specs.Io.KnownBytes.{Appends, Keeps};
ghost use Rattle.lite_base.specs.Answers.{Answer};
ghost use Rattle.pollrun.specs.Fault.{line_of as line_of_fault};
ghost use Rattle.pollrun.specs.Job.{pipe_in, scripts_in};
ghost use Rattle.pollrun.specs.Request.{IsRequest};
ghost use Rattle.pollrun.specs.Served.{Prints, Served, is_even as evenness};
ghost use Rattle.pollrun.specs.declared.fault.Fault.TheVariants.{Arguments, BrokenPipe, Output};
ghost use Rattle.pollrun.specs.Spelling.{spelled_list};

use crate::fault::Fault;
use crate::request::{Answers, Job, Paired, Pipe, Request, Single};
use crate::spelling::{HasText, line_of};
use lite_base::{Context, Stream};
use lite_laws::run;
use lite_merge::make::{or, zip};
use lite_reshape::make::{chain, filter, step_by};
use lite_source::make::script;
use lite_stream::make::{map, take};
use std::alloc::{AllocError, Global};
use std::io::{self, ErrorKind, Write};

/// Reads the words `PIPE POLLS ANSWERS` from left to right, polls the pipe over the script that ANSWERS spells,
/// and writes what it answered to `out` as one line. Answers the status to end with.
///
/// 0: the line was written. 2: the words are no request; nothing was written to `out`, and
/// `pollrun: bad arguments` to `err`. 1: memory was refused, nothing was written to `out`, and
/// `pollrun: out of memory` to `err`; or `out` failed, and `pollrun: output failed` was written to `err`. 141: nobody
/// reads `out` any more, and nothing was written to `err`. An `err` that fails changes no status. The original has no
/// such program.
pub fn serve<A: Write, B: Write>(
    alloc: Global,
    cx: &mut Context<'_>,
    words: &[String],
    out: &mut A,
    err: &mut B,
) -> u8
    ensures printed { result ≡ 0 → Served (map string_bytes words.now) (A.contents out.old) (A.contents out.new) }
    ensures refused { result ≡ 2 → (pipe : _) (polls : _) (scripts : _) → IsRequest (map string_bytes words.now) pipe polls scripts
        → ⊥ }
    ensures silent { result ≡ 2 → Keeps (A.contents out.old) (A.contents out.new) }
    ensures status { (result ≤ 2) ⊎ (result ≡ 141) }
{
    match answer(alloc, cx, words, out) {
        Ok(()) => 0,
        Err(fault) => {
            let _ = report(fault, err);
            fault.status()
        }
    }
}

/// Writes the line that tells a fault. An error of `err` is handed on; some of the line may be written then.
pub fn report<B: Write>(fault: Fault, err: &mut B) -> io::Result<()>
    ensures { OnOk result (Appends (B.contents err.old) (B.contents err.new) (line_of_fault fault)) }
{
    err.write_all(fault.line().as_bytes())?;
    err.flush()
}

fn answer<A: Write>(
    alloc: Global,
    cx: &mut Context<'_>,
    words: &[String],
    out: &mut A,
) -> Result<(), Fault>
    ensures printed { IfOk result (λ _. Served (map string_bytes words.now) (A.contents out.old) (A.contents out.new)) }
    ensures refused { result ≡ Err Arguments → (pipe : _) (polls : _) (scripts : _)
        → IsRequest (map string_bytes words.now) pipe polls scripts → ⊥ }
    ensures silent { result ≡ Err Arguments → Keeps (A.contents out.old) (A.contents out.new) }
{
    let request = Request::read(alloc, words)?;
    let line = line_for(alloc, cx, request)?;
    print(line.as_str(), out)
}

fn print<A: Write>(line: &str, out: &mut A) -> Result<(), Fault>
    ensures written { IfOk result (λ _. Appends (A.contents out.old) (A.contents out.new) line.now) }
    ensures failed { IfErr result (λ fault. (fault ≡ Output) ⊎ (fault ≡ BrokenPipe)) }
{
    match written(line, out) {
        Ok(()) => Ok(()),
        Err(e) if e.kind() == ErrorKind::BrokenPipe => Err(Fault::BrokenPipe),
        Err(_) => Err(Fault::Output),
    }
}

fn written<A: Write>(line: &str, out: &mut A) -> io::Result<()>
    ensures { OnOk result (Appends (A.contents out.old) (A.contents out.new) line.now) }
{
    out.write_all(line.as_bytes())?;
    out.flush()
}

fn line_for(alloc: Global, cx: &mut Context<'_>, request: Request) -> Result<String, AllocError>
    ensures { IfOk result
        (λ line. Prints (pipe_in request.job) (scripts_in request.job) request.polls (string_bytes line)) }
{
    let Request { polls, job } = request;
    match job {
        Job::One(pipe, answers) => line_of_one(alloc, cx, pipe, answers, polls),
        Job::Two(pipe, first, second) => line_of_two(alloc, cx, pipe, first, second, polls),
    }
}

fn line_of_one(
    alloc: Global,
    cx: &mut Context<'_>,
    pipe: Single,
    answers: Answers,
    polls: usize,
) -> Result<String, AllocError>
    ensures { IfOk result (λ line. Prints (Pipe.One pipe) (answers.items ∷ []) polls (string_bytes line)) }
{
    let source = script(answers);
    match pipe {
        Single::Plain => polled(alloc, cx, source, polls),
        Single::Double => polled(alloc, cx, map(source, twice), polls),
        Single::Evens => polled(alloc, cx, filter(source, is_even), polls),
        Single::Take2 => polled(alloc, cx, take(source, 2), polls),
        Single::Step2 => polled(alloc, cx, step_by(source, 2), polls),
    }
}

fn line_of_two(
    alloc: Global,
    cx: &mut Context<'_>,
    pipe: Paired,
    first: Answers,
    second: Answers,
    polls: usize,
) -> Result<String, AllocError>
    ensures { IfOk result (λ line. Prints (Pipe.Two pipe) (first.items ∷ second.items ∷ []) polls (string_bytes line)) }
{
    match pipe {
        Paired::Chain => polled(alloc, cx, chain(script(first), script(second)), polls),
        Paired::Or => polled(alloc, cx, or(script(first), script(second)), polls),
        Paired::Zip => polled(alloc, cx, zip(script(first), script(second)), polls),
    }
}

fn twice(x: i32) -> i64
    ensures { result ≡ x +ℤ x }
{
    2 * i64::from(x)
}

fn is_even(x: &i32) -> bool
    ensures { result ≡ evenness x.now }
{
    x.unsigned_abs() % 2 == 0
}

/// The line of what a stream answers to so many polls.
fn polled<S>(
    alloc: Global,
    cx: &mut Context<'_>,
    mut stream: S,
    polls: usize,
) -> Result<String, AllocError>
where
    S: Stream + Drop,
    S::Item: HasText,
    requires { S.can_poll stream }
    ensures { IfOk result
        (λ line. (out : List (Answer S.Item)) × (last : S) × S.run stream out last × (length out ≡ polls)
        × (string_bytes line ≡ spelled_list S.Item.text out ++ 10 ∷ [])) }
{
    let mut answers = Vec::new(alloc);
    run(&mut stream, cx, polls, &mut answers)?;
    line_of(alloc, &answers)
}
