//! What a caller knows of two streams that are merged in order.
ghost use Rattle.std.specs.Prelude.{◌≡◌, ◌==◌, ◌%◌, ◌*◌, ◌^◌, ◌++◌, IfOk, map};
ghost use Rattle.std.specs.List.{filter};
ghost use Rattle.std.specs.List.Sorted.{IsNonDecreasing, IsPermutation};
ghost use Rattle.futures_lite.specs.Lists.{Lists, OfItems};
ghost use Rattle.example_own.specs.MergeSorted.{merge_sorted};

use crate::counter::Counter;
use crate::merge_sorted::merge_sorted;
use futures_lite::StreamExt;
use futures_lite::future::block_on;
use futures_lite::stream::{Counted, iter_vec};
use std::alloc::{AllocError, AllocGlobal};
use std::io;
use std::random::RandomSource;
use std::sync::Wait;

/// Merges two vectors, and two counters, and prints what came.
pub fn show<R>(rt: &R) -> io::Result<()>
where
    R: Wait + RandomSource + AllocGlobal + Print,
{
    let left = vec![in rt.alloc(); 1u32, 4, 6]?;
    let right = vec![in rt.alloc(); 2u32, 4, 9]?;
    println!(rt; "{:?}", merged_in_order(rt, left, right)?)?;
    let thirds = Counter { next: 1, end: 5 };
    let numbers = Counter { next: 1, end: 6 };
    println!(rt; "{:?}", evens_merged(rt, thirds, numbers)?)
}

/// The items of both vectors, merged. `Err` where memory is refused.
pub fn merged<R>(rt: &R, left: Vec<u32>, right: Vec<u32>) -> Result<Vec<u32>, AllocError>
where
    R: Wait + RandomSource + AllocGlobal,
    ensures { IfOk result (λ v. v.items ≡ merge_sorted left.items right.items) }
{
    collected(rt, merge_sorted(iter_vec(left), iter_vec(right)))
}

/// The items of a stream, in a vector. `Err` where memory is refused.
fn collected<R, S>(rt: &R, stream: S) -> Result<Vec<u32>, AllocError>
where
    R: Wait + RandomSource + AllocGlobal,
    S: Counted<Item = u32> + Drop,
    requires { S.can_poll stream × S.ranks.counts stream }
    ensures { OfItems S.run stream (λ xs. IfOk result (λ v. v.items ≡ xs)) }
{
    block_on(rt, stream.collect::<Vec<u32>>(rt.alloc()))?.map_err(|_| AllocError)
}

/// The items of both vectors, each as often as it is in the two, and in order if both are. `Err` where memory is refused.
#[tactic(auto, using(crate::specs::InOrder::merge_in_order, crate::specs::InOrder::merge_permutes))]
pub fn merged_in_order<R>(rt: &R, left: Vec<u32>, right: Vec<u32>) -> Result<Vec<u32>, AllocError>
where
    R: Wait + RandomSource + AllocGlobal,
    ensures all { IfOk result (λ v. IsPermutation (left.items ++ right.items) v.items) }
    ensures order { IfOk result (λ v. IsNonDecreasing left.items → IsNonDecreasing right.items → IsNonDecreasing v.items) }
{
    let items = merged(rt, left, right)?;
    Ok(items)
}

/// The even numbers among the triples of one stream's items, which wrap at 32 bits, and the items of another. `Err` where
/// memory is refused.
pub fn evens_merged<R, S, T>(rt: &R, thirds: S, numbers: T) -> Result<Vec<u32>, AllocError>
where
    R: Wait + RandomSource + AllocGlobal,
    S: Counted<Item = u32> + Drop,
    T: Counted<Item = u32> + Drop,
    requires thirds { S.can_poll thirds × S.ranks.counts thirds }
    requires numbers { T.can_poll numbers × T.ranks.counts numbers }
    ensures { (xs ys : _) → Lists S.run thirds xs → Lists T.run numbers ys
        → IfOk result (λ v. v.items ≡ filter (λ n. n % 2 == 0) (merge_sorted (map (λ n. n * 3 % 2 ^ 32) xs) ys)) }
{
    let triples = thirds.map(|n: u32| n.wrapping_mul(3));
    let evens = merge_sorted(triples, numbers).filter(|n| *n % 2 == 0);
    collected(rt, evens)
}
