//! The words that a program is called with.
ghost use Rattle.programs.specs.Starting.{AreOthers, AsksFor, HasOthers, StartsBy, has_none};
ghost use Rattle.programs.specs.Statuses.{EndsUnstarted, EndsUnread};
ghost use Rattle.std.specs.Prelude.{◌≡◌, IfErr, IfOk, drop, false, true};
ghost use Rattle.std.specs.Process.{exit_status};

use crate::ending::{failed, help, misused};
use std::alloc::{AllocGlobal, Global};
use std::env::{self, Args, Env};
use std::io::{self, Eprint, ErrorKind, Print};
use std::process::ExitCode;

/// The words behind the name of the program, except `--quiet`.
#[derive(Debug, Drop)]
pub struct Command {
    /// The words, in their order. None of them is `--help`.
    pub words: Vec<String>,
    /// Whether `--quiet` was among them.
    pub quiet: bool,
}

/// What the words behind the name of a program ask for.
#[derive(Drop)]
enum Asked {
    /// To run with these words.
    Run(Command),
    /// To print the usage, since `--help` was among them.
    Help,
}

impl Command {
    /// Returns the words that this program was called with.
    ///
    /// The error is the status to end with. If `--help` is among the words, the usage was printed on standard output, and
    /// the status is that of [`help`]. It is 2 if a word is not UTF-8, and then the usage was printed on standard error. It
    /// is 1 if memory was refused.
    pub fn of<R>(rt: &R, name: &str, usage: &str) -> Result<Command, ExitCode>
    where
        R: Env + AllocGlobal + Print + Eprint,
        ensures others { IfOk result (λ command. AreOthers command.words.items) }
        ensures failed { IfErr result EndsUnstarted }
    {
        started(rt, name, usage, read_words(rt))
    }
}

// Returns the words that were read. If they ask for the usage, or were not read, that is printed.
fn started<R>(rt: &R, name: &str, usage: &str, read: io::Result<Asked>) -> Result<Command, ExitCode>
where
    R: Print + Eprint,
    ensures { StartsBy read result }
{
    match read {
        Ok(Asked::Run(command)) => Ok(command),
        Ok(Asked::Help) => Err(help(rt, name, usage)),
        Err(e) => Err(unread(rt, name, usage, &e)),
    }
}

// Prints why the words were not read, and returns the status to end with.
fn unread<R: Eprint>(rt: &R, name: &str, usage: &str, error: &io::Error) -> ExitCode
    ensures { EndsUnread error.now result }
{
    if error.kind() == ErrorKind::InvalidData {
        misused(rt, name, usage)
    } else {
        failed(rt, name, error)
    }
}

/// Returns `Ok` if the program was called without words.
///
/// The error is the status to end with. It is that of [`Command::of`] for `--help` and for words that were not read. If
/// there are other words, the usage was printed on standard error, and the status is 2.
pub fn without_words<R>(rt: &R, name: &str) -> Result<(), ExitCode>
where
    R: Env + AllocGlobal + Print + Eprint,
    ensures failed { IfErr result EndsUnstarted }
{
    let command = Command::of(rt, name, name)?;
    alone(rt, name, &command)
}

// Returns `Ok` if the command has no words. If it has, the usage is printed, and the error is the status 2.
fn alone<R: Eprint>(rt: &R, name: &str, command: &Command) -> Result<(), ExitCode>
    ensures none { IfOk result (λ _. has_none command.now ≡ true) }
    ensures some { IfErr result (λ status. (has_none command.now ≡ false) × (exit_status status ≡ 2)) }
{
    if command.quiet || !command.words.is_empty() {
        return Err(misused(rt, name, name));
    }
    Ok(())
}

// Reads the words of the process. `InvalidData`: one is not UTF-8.
fn read_words<R: Env + AllocGlobal>(rt: &R) -> io::Result<Asked>
    ensures { IfOk result HasOthers }
{
    asked_by(rt.alloc(), behind_name(env::args(rt)?))
}

// Returns the words behind the first, which is the name of the program.
fn behind_name(mut all: Args) -> Args
    ensures { result.rest.items ≡ drop 1 all.rest.items }
{
    let _ = all.next();
    all
}

// Returns what the words ask for.
fn asked_by(alloc: Global, words: Args) -> io::Result<Asked>
    ensures asks { IfOk result (AsksFor words.rest.items) }
    ensures others { IfOk result HasOthers }
{
    let mut command = Command {
        words: Vec::new(alloc),
        quiet: false,
    };
    for word in words {
        match word.as_str() {
            "--help" => return Ok(Asked::Help),
            "--quiet" => command.quiet = true,
            _ => command.words.push(word)?,
        }
    }
    Ok(Asked::Run(command))
}
