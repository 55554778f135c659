//! `linecount [--quiet]` prints how many lines standard input has.
//!
//! If standard error is a terminal, it tells there once a second how much it has read, without `--quiet`.
#![tactic(auto)]

mod fault;

use fault::CountError;
use futures_lite::io::{AssertAsync, BufReader, CountedRead};
use futures_lite::{AsyncBufRead, AsyncBufReadExt, AsyncReadExt, StreamExt, future};
use programs::{Command, Watched, end, misused};
use std::alloc::AllocGlobal;
use std::io::{self, ErrorKind, IsTerminal};
use std::process::ExitCode;
use std::random::RandomSource;
use std::sync::Wait;

/// The name of the program.
const NAME: &str = "linecount";

/// How it is called.
const USAGE: &str = "linecount [--quiet]";

/// How many bytes are read in a row before the program yields.
const BYTES: usize = 1 << 16;

/// How many lines are counted in a row before it does.
const LINES: usize = 1 << 12;

fn main(rt: HostRuntime) -> ExitCode {
    match Command::of(&rt, NAME, USAGE) {
        Ok(command) if command.words.is_empty() => end(&rt, NAME, printed(&rt, &rt, command.quiet)),
        Ok(_) => misused(&rt, NAME, USAGE),
        Err(status) => status,
    }
}

/// Counts the lines and prints their number. `rt` is the host as one that may wait.
fn printed<R>(host: &HostRuntime, rt: &R, quiet: bool) -> Result<(), CountError>
where
    R: Wait + RandomSource + AllocGlobal,
{
    let is_silent = quiet || !host.stderr().is_terminal();
    let input = AssertAsync::new(Watched::new(host.stdin(), host, NAME, is_silent));
    let Ok(reader) = BufReader::new(host.alloc(), input.with_budget(BYTES)) else {
        return Err(CountError::Memory);
    };
    let count = count_lines(rt, reader)?;
    match println!(host; "{count}") {
        Ok(()) => Ok(()),
        Err(e) => Err(CountError::Output(e)),
    }
}

/// Counts the lines of a reader.
fn count_lines<R, T>(rt: &R, reader: T) -> Result<u64, CountError>
where
    R: Wait + RandomSource + AllocGlobal,
    T: AsyncBufRead + CountedRead + Drop,
    requires counts { T.ranks.counts reader }
{
    let numbered = reader.lines(rt.alloc()).enumerate();
    let mut numbers = numbered.map(numbered_line).with_budget(LINES);
    let counted = numbers.try_fold(0, |_count: u64, number: u64| Ok::<u64, CountError>(number));
    match future::block_on(rt, counted) {
        Ok(counted) => counted,
        Err(_) => Err(CountError::Memory),
    }
}

/// Returns the number of a line, counted from 1, in place of the line.
fn numbered_line((before, line): (usize, io::Result<String>)) -> Result<u64, CountError> {
    let number = (before as u64).saturating_add(1);
    match line {
        Ok(_) => Ok(number),
        Err(e) if e.kind() == ErrorKind::InvalidData => Err(CountError::NotUtf8(number)),
        Err(e) => Err(CountError::Line(number, e)),
    }
}
