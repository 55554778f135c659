//! Nests whose items are counted and added up.
ghost use Rattle.std.specs.Prelude.{◌≡◌, ◌==◌, ◌%◌, ◌*◌, ◌+◌, ◌<◌, ◌^◌, IfOk, length, map, take};
ghost use Rattle.std.specs.List.{filter, fold};
ghost use Rattle.futures_lite.specs.Lists.{Lists, OfItems};

use futures_lite::StreamExt;
use futures_lite::future::block_on;
use futures_lite::stream::{Counted, iter_vec as iter};
use std::alloc::{AllocError, AllocGlobal};
use std::random::RandomSource;
use std::sync::Wait;

/// How many of the first `n` there are.
pub fn counted<R>(rt: &R, items: Vec<u32>, n: usize) -> Result<usize, AllocError>
where
    R: Wait + RandomSource + AllocGlobal,
    ensures { IfOk result (λ v. v ≡ length (take n items.items)) }
{
    number_of(rt, iter(items).take(n))
}

/// How many items any stream has.
pub fn number_of<R, S>(rt: &R, stream: S) -> Result<usize, AllocError>
where
    R: Wait + RandomSource + AllocGlobal,
    S: Counted<Item: Drop> + Drop,
    requires polls { S.can_poll stream }
    requires counts { S.ranks.counts stream }
    ensures { OfItems S.run stream (λ xs. length xs < 2 ^ 64 → IfOk result (λ v. v ≡ length xs)) }
{
    block_on(rt, stream.count())
}

/// The sum of the doubled even items, which wraps at 64 bits.
pub fn total<R>(rt: &R, items: Vec<u32>) -> Result<u64, AllocError>
where
    R: Wait + RandomSource + AllocGlobal,
    ensures { IfOk result
        (λ v. v ≡ fold (λ a x. (a + x) % 2 ^ 64) 0 (map (λ x. x * 2) (filter (λ x. x % 2 == 0) items.items))) }
{
    let evens = iter(items).filter(|x| *x % 2 == 0);
    let doubled = evens.map(|x: u32| x as u64 * 2);
    sum_of(rt, doubled)
}

/// The sum of the items of any stream, which wraps at 64 bits.
pub fn sum_of<R, S>(rt: &R, numbers: S) -> Result<u64, AllocError>
where
    R: Wait + RandomSource + AllocGlobal,
    S: Counted<Item = u64> + Drop,
    requires polls { S.can_poll numbers }
    requires counts { S.ranks.counts numbers }
    ensures { (xs : _) → Lists S.run numbers xs → IfOk result (λ v. v ≡ fold (λ a x. (a + x) % 2 ^ 64) 0 xs) }
{
    block_on(rt, numbers.fold(0u64, |a: u64, x: u64| a.wrapping_add(x)))
}
