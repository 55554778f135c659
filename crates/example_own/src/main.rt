//! Futures, streams, readers and a writer of one's own, used on this thread.
#![tactic(auto)]

mod countdown;
mod counter;
mod dots;
mod evens;
mod futures_here;
mod later;
mod merge_sorted;
mod merged;
mod readers_here;
mod side;
mod streams_here;
mod table;
mod tally;
mod ticks;
mod total;
mod upper;

use programs::{end, without_words};
use std::alloc::AllocGlobal;
use std::io;
use std::process::ExitCode;
use std::random::RandomSource;
use std::sync::Wait;

/// The name of the program.
const NAME: &str = "example_own";

fn main(rt: HostRuntime) -> ExitCode {
    match without_words(&rt, NAME) {
        Ok(()) => end(&rt, NAME, show(&rt)),
        Err(status) => status,
    }
}

/// Uses each of them, and prints what it gave.
fn show<R>(rt: &R) -> io::Result<()>
where
    R: Wait + RandomSource + AllocGlobal + Print,
{
    futures_here::show(rt)?;
    streams_here::show(rt)?;
    merged::show(rt)?;
    readers_here::show(rt)
}
