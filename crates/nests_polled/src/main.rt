//! Nests of adapters in generic functions and in functions over scripts, whose contracts say what is known of each answer. Each
//! is polled once, and what it answers is printed.
#![tactic(auto)]

mod families;
mod nest;
mod once;
mod shown;
mod try_count;

use futures_lite::stream::{Script, script};
use futures_lite::{Context, Doorbell, Poll, Solo};
use std::alloc::{AllocError, Global};
use std::io;

fn main(rt: HostRuntime) -> io::Result<()> {
    let solo = Solo::new(&rt, Doorbell::spinning())?;
    let mut cx = solo.begin();
    let ran = show_all(&rt, &mut cx);
    cx.cancel();
    ran
}

fn show_all(rt: &HostRuntime, cx: &mut Context<'_>) -> io::Result<()> {
    show(rt, cx)?;
    show_streams(rt, cx)?;
    show_futures(rt, cx)
}

/// Prints what each nest answers, polled in one context.
fn show(rt: &HostRuntime, cx: &mut Context<'_>) -> io::Result<()> {
    let alloc = rt.alloc();
    println!(rt; "poll_nest {:?}", shown::nest(alloc, cx)?)?;
    println!(rt; "evens {:?}", shown::evens(alloc, cx)?)?;
    println!(rt; "hundredths {:?}", shown::hundredths(alloc, cx)?)?;
    println!(rt; "poll_count {:?}", shown::count(alloc, cx)?)?;
    println!(rt; "joined {:?}", shown::joined(alloc, cx)?)?;
    println!(rt; "flattened {:?}", shown::flattened(alloc, cx)?)?;
    println!(rt; "digits {:?}", shown::digits(alloc, cx)?)?;
    println!(rt; "paired {:?}", shown::paired(alloc, cx)?)?;
    println!(rt; "merged {:?}", shown::merged(alloc, cx)?)
}

/// A stream of these two numbers.
fn numbers(alloc: Global, first: u8, second: u8) -> Result<Script<u8>, AllocError> {
    let items = [Poll::Ready(Some(first)), Poll::Ready(Some(second))];
    Ok(script(Vec::from_array(alloc, items)?))
}

/// Prints what each stream answers that is polled once, over 0 and 2.
fn show_streams(rt: &HostRuntime, cx: &mut Context<'_>) -> io::Result<()> {
    let alloc = rt.alloc();
    println!(rt; "cycle {:?}", once::cycle(numbers(alloc, 0, 2)?, cx))?;
    println!(rt; "drain {:?}", once::drain(numbers(alloc, 0, 2)?, cx))?;
    println!(rt;
        "stop_after_future {:?}",
        once::stop_after_future(numbers(alloc, 0, 2)?, cx)
    )?;
    println!(rt;
        "race {:?}",
        once::race(numbers(alloc, 0, 2)?, numbers(alloc, 0, 2)?, cx)
    )?;
    println!(rt; "unfold {:?}", once::unfold(cx))?;
    println!(rt; "try_unfold {:?}", once::try_unfold(cx))?;
    println!(rt; "repeat_with {:?}", once::repeat_with(cx))?;
    println!(rt; "once_future {:?}", once::once_future(cx))?;
    println!(rt; "inspect {:?}", once::inspect(numbers(alloc, 0, 2)?, cx))?;
    println!(rt;
        "filter_map {:?}",
        once::filter_map(numbers(alloc, 0, 2)?, cx)
    )
}

/// Prints what each future answers that is polled once, over 0 and 2, or over an error.
fn show_futures(rt: &HostRuntime, cx: &mut Context<'_>) -> io::Result<()> {
    let alloc = rt.alloc();
    let results = [Poll::Ready(Some(Err(3u8)))];
    let results = script(Vec::from_array(alloc, results)?);
    println!(rt; "race of futures {:?}", once::race_of_futures(cx))?;
    println!(rt; "try_zip {:?}", once::try_zip(cx))?;
    println!(rt; "poll_once {:?}", once::poll_once(cx))?;
    println!(rt; "try_next {:?}", once::try_next(results, cx))?;
    println!(rt; "nth {:?}", once::nth(numbers(alloc, 0, 2)?, cx))?;
    println!(rt; "find_map {:?}", once::find_map(numbers(alloc, 0, 2)?, cx))?;
    println!(rt;
        "try_for_each {:?}",
        once::try_for_each(numbers(alloc, 0, 2)?, cx)
    )
}
