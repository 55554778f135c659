//! Nests that are asked something.
ghost use Rattle.std.specs.Prelude.{◌≡◌, ◌==◌, ◌%◌, IfOk, None, drop, nat_lt, take};
ghost use Rattle.std.specs.List.{last_or, list_all, position, prefix_len, slice_get};

use futures_lite::StreamExt;
use futures_lite::future::block_on;
use futures_lite::stream::iter_vec as iter;
use std::alloc::{AllocError, AllocGlobal};
use std::random::RandomSource;
use std::sync::Wait;

/// The first item from the first that is not below 10.
pub fn first_large<R>(rt: &R, items: Vec<u32>) -> Result<Option<u32>, AllocError>
where
    R: Wait + RandomSource + AllocGlobal,
    ensures { IfOk result (λ v. v ≡ slice_get (drop (prefix_len (λ x. nat_lt x 10) items.items) items.items) 0) }
{
    let mut large = iter(items).skip_while(|x| *x < 10);
    block_on(rt, large.next())
}

/// The last item before the first that is not below 10.
pub fn last_small<R>(rt: &R, items: Vec<u32>) -> Result<Option<u32>, AllocError>
where
    R: Wait + RandomSource + AllocGlobal,
    ensures { IfOk result (λ v. v ≡ last_or None (take (prefix_len (λ x. nat_lt x 10) items.items) items.items)) }
{
    block_on(rt, iter(items).take_while(|x| *x < 10).last())
}

/// Whether each is even.
pub fn all_even<R>(rt: &R, items: Vec<u32>) -> Result<bool, AllocError>
where
    R: Wait + RandomSource + AllocGlobal,
    ensures { IfOk result (λ v. v ≡ list_all (λ x. x % 2 == 0) items.items) }
{
    let mut numbers = iter(items);
    block_on(rt, numbers.all(|x: u32| x % 2 == 0))
}

/// The place of the first even item.
pub fn place_of_even<R>(rt: &R, items: Vec<u32>) -> Result<Option<usize>, AllocError>
where
    R: Wait + RandomSource + AllocGlobal,
    ensures { IfOk result (λ v. v ≡ position (λ x. x % 2 == 0) items.items) }
{
    let mut numbers = iter(items);
    block_on(rt, numbers.position(|x: u32| x % 2 == 0))
}
