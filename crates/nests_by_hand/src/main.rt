//! Nests of adapters with contracts, polled by hand: what the polls answer is printed. Last come calls of `next`.
#![tactic(auto)]

mod calls;
mod closures;
mod nest;
mod twice;
mod unfolding;

use calls::{append_all, next_two};
use closures::hundredths;
use futures_lite::stream::script;
use futures_lite::{Doorbell, Poll, Solo};
use nest::{first_evens, small_evens, tripled};
use programs::{end, without_words};
use std::alloc::AllocGlobal;
use std::io;
use std::process::ExitCode;
use std::random::RandomSource;
use std::sync::Wait;
use twice::triples_agree;
use unfolding::below_two;

/// The name of the program.
const NAME: &str = "nests_by_hand";

fn main(rt: HostRuntime) -> ExitCode {
    match without_words(&rt, NAME) {
        Ok(()) => end(&rt, NAME, print(&rt)),
        Err(status) => status,
    }
}

/// Prints what the polls answer, and then the calls of `next`.
fn print<R>(rt: &R) -> io::Result<()>
where
    R: Wait + RandomSource + AllocGlobal + Print,
{
    for number in below_two(rt)? {
        println!(rt; "{number}")?;
    }
    let numbers = vec![in rt.alloc(); 1u32, 2, 3, 4, 500, 6]?;
    let divisors = vec![in rt.alloc(); 1u64, 7, 30]?;
    let (once, once_more) = (numbers.clone()?, numbers.clone()?);
    let solo = Solo::new(rt, Doorbell::spinning())?;
    let mut answers = Vec::new(rt.alloc());

    let mut cx = solo.begin();
    let ran = hundredths(divisors, &mut cx, 4, &mut answers)
        .and_then(|_| small_evens(numbers, &mut cx, 4, &mut answers))
        .and_then(|_| first_evens(once, 2, &mut cx, 3, &mut answers))
        .and_then(|_| tripled(once_more, &mut cx, &mut answers));
    cx.cancel();
    ran?;
    again(rt, &mut answers)?;

    for answer in answers {
        match answer {
            Poll::Ready(Some(x)) => println!(rt; "{x}")?,
            Poll::Ready(None) => println!(rt; "end")?,
            Poll::Pending => println!(rt; "pending")?,
        }
    }

    // The script goes on behind its end, where the second call begins.
    let mut numbers = script(vec![in rt.alloc();
        Poll::Ready(Some(1u32)),
        Poll::Ready(Some(2)),
        Poll::Ready(Some(3)),
        Poll::Ready(Some(4)),
        Poll::Ready(Some(5)),
        Poll::Ready(None),
        Poll::Ready(Some(6)),
    ]?);
    if let Some((first, second)) = next_two(rt, &mut numbers)? {
        println!(rt; "{first}, {second}")?;
    }
    let mut left = Vec::new(rt.alloc());
    append_all(rt, &mut numbers, &mut left)?;
    println!(rt; "{left:?}")?;
    append_all(rt, &mut numbers, &mut left)?;
    println!(rt; "{left:?}")
}

/// The same nest over two scripts that differ in their pendings alone: what each of them answers, one after the other.
fn again<R: RandomSource + AllocGlobal>(
    rt: &R,
    answers: &mut Vec<Poll<Option<u64>>>,
) -> io::Result<()> {
    let plain = script(vec![in rt.alloc(); Poll::Ready(Some(1u32)), Poll::Ready(Some(6))]?);
    let late = script(vec![in rt.alloc();
        Poll::Pending,
        Poll::Ready(Some(1u32)),
        Poll::Pending,
        Poll::Ready(Some(6)),
    ]?);
    let solo = Solo::new(rt, Doorbell::spinning())?;
    let mut answers_late = Vec::new(rt.alloc());
    let mut cx = solo.begin();
    let ran = triples_agree(plain, late, 2, &mut cx, 4, answers, &mut answers_late);
    cx.cancel();
    ran?;
    answers.append(&mut answers_late)?;
    Ok(())
}
