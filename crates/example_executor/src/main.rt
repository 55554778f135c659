//! A small executor: futures of several types, each polled when it is new or woken, within a poll limit.
#![tactic(auto)]

mod executor;
mod fault;
mod outcomes;
mod task;

use futures_lite::future::{self, Either, Exhausted};
use futures_lite::{StreamExt, stream};
use outcomes::run_each;
use programs::{end, without_words};
use std::alloc::AllocGlobal;
use std::io;
use std::process::ExitCode;
use std::random::RandomSource;
use std::sync::Wait;

/// The name of the program.
const NAME: &str = "example_executor";

fn main(rt: HostRuntime) -> ExitCode {
    match without_words(&rt, NAME) {
        Ok(()) => end(&rt, NAME, print(&rt)),
        Err(status) => status,
    }
}

/// Prints what becomes of three futures.
fn print<R>(rt: &R) -> io::Result<()>
where
    R: Wait + RandomSource + AllocGlobal + Print,
{
    let numbers = stream::iter_vec(vec![in rt.alloc(); 1u8, 2, 3, 4]?);
    // It is pending after each number, and wakes its own task.
    let sum = numbers
        .with_budget(1)
        .fold(0u8, |sum: u8, x: u8| sum.wrapping_add(x));
    // So is this one, and it never ends.
    let endless = stream::repeat_with(|| 1u8)
        .with_budget(1)
        .fold(0u8, |sum: u8, x: u8| sum.wrapping_add(x));
    let futures = vec![in rt.alloc();
        Either::Right(Either::Right(endless)),
        Either::Right(Either::Left(sum)),
        Either::Left(future::ready(7u8)),
    ]?;
    for outcome in run_each(rt, futures, 10)? {
        match outcome {
            Ok(value) => println!(rt; "{value}")?,
            Err(Exhausted) => println!(rt; "its poll limit ended")?,
        }
    }
    Ok(())
}
