//! A bounded queue between two tasks of one thread.
#![tactic(auto)]

mod callers;
mod make;
mod queue;
mod receiver;
mod send_error;
mod sender;
mod transfer;

use callers::{evens, tripled};
use programs::{end, without_words};
use queue::Queue;
use std::alloc::AllocGlobal;
use std::io;
use std::process::ExitCode;
use std::random::RandomSource;
use std::sync::Wait;

/// The name of the program.
const NAME: &str = "example_queue";

fn main(rt: HostRuntime) -> ExitCode {
    match without_words(&rt, NAME) {
        Ok(()) => end(&rt, NAME, print(&rt)),
        Err(status) => status,
    }
}

/// Prints what came through a queue, and which items it refused.
fn print<R>(rt: &R) -> io::Result<()>
where
    R: Wait + RandomSource + AllocGlobal + Print,
{
    let numbers = vec![in rt.alloc(); 1u32, 2, 3, 4, 5]?;
    println!(rt; "{:?}", tripled(rt, numbers, 2)?)?;
    let mut queue = Queue::new(rt.alloc(), 3);
    for number in 1..5u32 {
        if let Err(refused) = queue.send(number) {
            println!(rt; "{refused:?}")?;
        }
    }
    queue.close();
    println!(rt; "{:?}", evens(rt, queue)?)
}
