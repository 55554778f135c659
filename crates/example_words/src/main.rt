//! `example_words map` counts the words of standard input, and `example_words reduce` adds up such counts.
//!
//! A word is a maximal run of bytes that are not ASCII whitespace. Words are bytes, so no text is refused for its encoding.
//! `map` writes a line `word TAB count` for each word, sorted by the words' bytes. `reduce` reads such lines, sorted by word,
//! as `sort -m` merges the outputs of several `map`s. It writes them with the counts of each word added up.
//!
//! An error is one line on standard error, and the status 1; bad usage is the status 2. If the output is a pipe that nobody
//! reads any more, the program ends without a message, with the status 141 that a shell shows for a tool that SIGPIPE ended.
//!
//! If standard error is a terminal, it tells there once a second how much it has read, without the word `--quiet`.
#![tactic(auto)]

mod counts;
mod fault;
mod input;
mod map;
mod output;
mod record;
mod reduce;
mod sum;
mod words;

use fault::WordsError;
use futures_lite::AsyncReadExt;
use futures_lite::future::{BlockOn, Waits};
use futures_lite::io::{AssertAsync, AsyncBufRead, AsyncWrite, BufReader, BufWriter, CountedRead};
use map::map;
use programs::{Command, Watched, end, misused};
use reduce::reduce;
use std::alloc::AllocGlobal;
use std::io::IsTerminal;
use std::process::ExitCode;
use std::random::RandomSource;
use std::sync::Wait;

/// The name of the program.
const NAME: &str = "example_words";

/// How it is called.
const USAGE: &str = "example_words map [--quiet] | example_words reduce [--quiet]";

/// How many bytes are read in a row before the program yields.
const BYTES: usize = 1 << 20;

/// How many bytes a read of standard input or a write to standard output moves.
const BUFFER: usize = 1 << 16;

/// What the program is asked to do.
#[derive(Clone, Copy)]
enum Mode {
    /// To count the words of a text.
    Map,
    /// To add up counts.
    Reduce,
}

fn main(rt: HostRuntime) -> ExitCode {
    let command = match Command::of(&rt, NAME, USAGE) {
        Ok(command) => command,
        Err(status) => return status,
    };
    match mode_of(&command.words) {
        Some(mode) => end(&rt, NAME, run_standard(&rt, &rt, mode, command.quiet)),
        None => misused(&rt, NAME, USAGE),
    }
}

/// Returns what the words ask for. `None` is bad usage.
fn mode_of(words: &[String]) -> Option<Mode> {
    match words {
        [word] if word.as_str() == "map" => Some(Mode::Map),
        [word] if word.as_str() == "reduce" => Some(Mode::Reduce),
        _ => None,
    }
}

/// Runs from standard input to standard output. `rt` is the host as one that may wait.
fn run_standard<R>(host: &HostRuntime, rt: &R, mode: Mode, quiet: bool) -> Result<(), WordsError>
where
    R: Wait + RandomSource + AllocGlobal,
{
    let mut on = BlockOn::new(rt)?;
    let is_silent = quiet || !host.stderr().is_terminal();
    let input = AssertAsync::new(Watched::new(host.stdin(), host, NAME, is_silent));
    let Ok(mut reader) = BufReader::with_capacity(rt.alloc(), BUFFER, input.with_budget(BYTES))
    else {
        return Err(WordsError::Memory);
    };
    let output = AssertAsync::new(host.stdout());
    let Ok(mut writer) = BufWriter::with_capacity(rt.alloc(), BUFFER, output) else {
        return Err(WordsError::Memory);
    };
    run(&mut on.waits(), rt, mode, &mut reader, &mut writer)
}

/// Counts the words that the reader gives (`map`), or adds counts up (`reduce`), as `mode` says.
fn run<R, T, O>(
    waits: &mut Waits<'_>,
    rt: &R,
    mode: Mode,
    reader: &mut T,
    writer: &mut O,
) -> Result<(), WordsError>
where
    R: Wait + AllocGlobal,
    T: AsyncBufRead + CountedRead,
    O: AsyncWrite,
    requires { T.ranks.counts reader.old }
{
    match mode {
        Mode::Map => map(waits, rt, reader, writer),
        Mode::Reduce => reduce(waits, rt, reader, writer),
    }
}
