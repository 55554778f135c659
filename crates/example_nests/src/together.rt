//! Futures that are waited for together: the clauses say which value comes. And a stream that unfolds: no clause names its items.
ghost use Rattle.std.specs.Prelude.{◌≡◌, Err, IfOk, Ok};
ghost use Rattle.futures_lite.specs.Lists.{try_pair};

use futures_lite::future::{block_on, or, pending, race_with_seed, ready, try_zip};
use futures_lite::stream::unfold;
use futures_lite::{FutureExt, StreamExt};
use std::alloc::{AllocError, AllocGlobal};
use std::io;
use std::random::RandomSource;
use std::sync::Wait;

/// The first of two values that are both there.
pub fn preferred<R>(rt: &R, first: u32, second: u32) -> Result<u32, AllocError>
where
    R: Wait + RandomSource + AllocGlobal,
    ensures { IfOk result (λ v. v ≡ first) }
{
    block_on(rt, ready(first).or(ready(second)))
}

/// The first value. The second future is never ready.
pub fn only_first<R>(rt: &R, value: u32) -> Result<u32, AllocError>
where
    R: Wait + RandomSource + AllocGlobal,
    ensures { IfOk result (λ v. v ≡ value) }
{
    block_on(rt, or(ready(value), pending()))
}

/// The third value. The first two futures are never ready.
pub fn only_third<R>(rt: &R, value: u32) -> Result<u32, AllocError>
where
    R: Wait + RandomSource + AllocGlobal,
    ensures { IfOk result (λ v. v ≡ value) }
{
    block_on(rt, pending().or(pending().or(ready(value))))
}

/// The second value, whatever the seed. The first future is never ready.
pub fn raced<R>(rt: &R, value: u32, seed: u64) -> Result<u32, AllocError>
where
    R: Wait + RandomSource + AllocGlobal,
    ensures { IfOk result (λ v. v ≡ value) }
{
    block_on(rt, race_with_seed(pending(), ready(value), seed))
}

/// The value of both, whatever the seed.
pub fn raced_alike<R>(rt: &R, value: u32, seed: u64) -> Result<u32, AllocError>
where
    R: Wait + RandomSource + AllocGlobal,
    ensures { IfOk result (λ v. v ≡ value) }
{
    block_on(rt, race_with_seed(ready(value), ready(value), seed))
}

/// Both values, or the first error.
pub fn tried<R>(
    rt: &R,
    first: Result<u32, u32>,
    second: Result<u32, u32>,
) -> Result<Result<(u32, u32), u32>, AllocError>
where
    R: Wait + RandomSource + AllocGlobal,
    ensures { IfOk result (λ v. v ≡ try_pair first second) }
{
    block_on(rt, try_zip(ready(first), ready(second)))
}

/// Both values.
pub fn tried_both<R>(rt: &R, first: u32, second: u32) -> Result<Result<(u32, u32), u32>, AllocError>
where
    R: Wait + RandomSource + AllocGlobal,
    ensures { IfOk result (λ v. v ≡ Ok (first, second)) }
{
    block_on(
        rt,
        try_zip(ready(Ok::<u32, u32>(first)), ready(Ok::<u32, u32>(second))),
    )
}

/// The first future's error. The second is never ready.
pub fn failed_at_once<R>(rt: &R, error: u32) -> Result<Result<(u32, u32), u32>, AllocError>
where
    R: Wait + RandomSource + AllocGlobal,
    ensures { IfOk result (λ v. v ≡ Err error) }
{
    block_on(rt, try_zip(ready(Err::<u32, u32>(error)), pending()))
}

/// Prints a value of each.
pub fn print<R>(rt: &R) -> io::Result<()>
where
    R: Wait + RandomSource + AllocGlobal + Print,
{
    println!(rt; "{}", preferred(rt, 1, 2)?)?;
    println!(rt; "{}", only_first(rt, 1)?)?;
    println!(rt; "{}", only_third(rt, 3)?)?;
    println!(rt; "{}", raced(rt, 2, 42)?)?;
    println!(rt; "{}", raced_alike(rt, 4, 42)?)?;
    println!(rt; "{:?}", tried(rt, Ok(3), Err(4))?)?;
    println!(rt; "{:?}", tried_both(rt, 1, 2)?)?;
    println!(rt; "{:?}", failed_at_once(rt, 7)?)?;
    print_unfolded(rt)
}

/// Prints three numbers that a function unfolds from a seed. That the stream may be polled is found with no proof file.
fn print_unfolded<R>(rt: &R) -> io::Result<()>
where
    R: Wait + RandomSource + AllocGlobal + Print,
{
    let numbers = unfold(
        0,
        |n: u32| ready(if n < 3 { Some((n, n + 1)) } else { None }),
    );
    let all = block_on(rt, numbers.with_budget(2).collect::<Vec<u32>>(rt.alloc()))?;
    println!(rt; "{:?}", all.map_err(|_| AllocError)?)
}
