//! Two streams of one's own, adapted and consumed on this thread.
use crate::counter::Counter;
use crate::evens::{even_numbers, evens};
use crate::ticks::Ticks;
use crate::total::sum_of;
use futures_lite::future::{block_on, poll_fn};
use futures_lite::{Doorbell, Solo, Stream, StreamExt, stream};
use std::alloc::AllocGlobal;
use std::io;
use std::random::RandomSource;
use std::sync::Wait;

/// Polls the one, waits for each item of the other, filters and collects it, and prints what came.
pub fn show<R>(rt: &R) -> io::Result<()>
where
    R: Wait + RandomSource + AllocGlobal + Print,
{
    let mut ticks = Ticks { next: 1, end: 3 }.map(|x| x as u64 * 3);
    for _ in 0..3 {
        match block_on(rt, poll_fn(|cx| ticks.poll_next(cx)))? {
            Some(x) => println!(rt; "{x}")?,
            None => println!(rt; "end")?,
        }
    }
    let mut waited = stream::block_on(rt, Counter { next: 1, end: 3 });
    for _ in 0..3 {
        println!(rt; "{:?}", waited.next()?)?;
    }
    let solo = Solo::new(rt, Doorbell::spinning())?;
    let mut answers = Vec::new(rt.alloc());
    let mut cx = solo.begin();
    let ran = even_numbers(Counter { next: 97, end: 100 }, &mut cx, 2, &mut answers);
    cx.cancel();
    ran?;
    println!(rt; "{answers:?}")?;
    println!(rt; "{:?}", evens(rt, Counter { next: 1, end: 10 })?)?;
    println!(rt; "{}", sum_of(rt, vec![in rt.alloc(); 3u64, 4, 5]?)?)
}
