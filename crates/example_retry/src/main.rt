//! A combinator of futures: it makes attempts until one succeeds.
#![tactic(auto)]

mod callers;
mod later;
mod make;
mod retry;

use callers::{paired, retried, waited};
use later::Later;
use programs::{end, without_words};
use std::alloc::AllocGlobal;
use std::io;
use std::process::ExitCode;
use std::random::RandomSource;
use std::sync::Wait;

/// The name of the program.
const NAME: &str = "example_retry";

fn main(rt: HostRuntime) -> ExitCode {
    match without_words(&rt, NAME) {
        Ok(()) => end(&rt, NAME, print(&rt)),
        Err(status) => status,
    }
}

/// Prints how attempts ended.
fn print<R>(rt: &R) -> io::Result<()>
where
    R: Wait + RandomSource + AllocGlobal + Print,
{
    let later = waited(
        rt,
        3,
        |n: u32| Later {
            left: n,
            reply: if n < 2 { Err(n) } else { Ok(n) },
        },
    )?;
    println!(rt; "{later:?}")?;
    let replied = retried(rt, 3, 2)?;
    prove!(matches!(replied, Ok(2)));
    println!(rt; "{replied:?}")?;
    let refused = retried(rt, 1, 2)?;
    prove!(matches!(refused, Err(1)));
    println!(rt; "{refused:?}")?;
    println!(rt; "{:?}", paired(rt, 7, 3, 2)?)
}
