//! Numbers in lines: the even ones are added up by threes, and each sum is written as a line. The output comes 64 KiB at
//! a time, and the rest at the end.
#![tactic(auto)]

mod fault;
mod input;
mod number;
mod output;
mod pipeline;
mod sums;

use fault::{Cause, PipelineError};
use futures_lite::AsyncReadExt;
use futures_lite::future::BlockOn;
use futures_lite::io::{AssertAsync, BufReader, BufWriter};
use pipeline::run;
use programs::{Command, Watched, end, misused};
use std::alloc::AllocGlobal;
use std::io::IsTerminal;
use std::process::ExitCode;
use std::random::RandomSource;
use std::sync::Wait;

/// The name of the program.
const NAME: &str = "example_pipeline";

/// How it is called.
const USAGE: &str = "example_pipeline [--quiet]";

/// How many bytes are read in a row before the program yields.
const BYTES: usize = 1 << 20;

/// How many bytes a read of standard input or a write to standard output moves.
const BUFFER: usize = 1 << 16;

fn main(rt: HostRuntime) -> ExitCode {
    match Command::of(&rt, NAME, USAGE) {
        Ok(command) if command.words.is_empty() => {
            end(&rt, NAME, run_standard(&rt, &rt, command.quiet))
        }
        Ok(_) => misused(&rt, NAME, USAGE),
        Err(status) => status,
    }
}

/// Runs the pipeline from standard input to standard output. `rt` is the host as one that may wait.
fn run_standard<R>(host: &HostRuntime, rt: &R, quiet: bool) -> Result<(), PipelineError>
where
    R: Wait + RandomSource + AllocGlobal,
{
    let Ok(mut on) = BlockOn::new(rt) else {
        return Err(no_memory());
    };
    let is_silent = quiet || !host.stderr().is_terminal();
    let input = AssertAsync::new(Watched::new(host.stdin(), host, NAME, is_silent));
    let Ok(mut reader) = BufReader::with_capacity(rt.alloc(), BUFFER, input.with_budget(BYTES))
    else {
        return Err(no_memory());
    };
    let output = AssertAsync::new(host.stdout());
    let Ok(mut writer) = BufWriter::with_capacity(rt.alloc(), BUFFER, output) else {
        return Err(no_memory());
    };
    run(&mut on.waits(), rt, &mut reader, &mut writer)
}

/// Returns that memory was refused before the first line.
fn no_memory() -> PipelineError {
    PipelineError {
        line: 1,
        cause: Cause::Memory,
    }
}
