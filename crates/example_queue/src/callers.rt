//! What callers know of a queue, and of a transfer.
ghost use Rattle.std.specs.Prelude.{◌≡◌, ◌==◌, ◌%◌, ◌*◌, IfOk, map};
ghost use Rattle.std.specs.List.{filter};

use crate::make::transfer;
use crate::queue::Queue;
use futures_lite::StreamExt;
use futures_lite::future::block_on;
use futures_lite::stream::iter_vec;
use std::alloc::{AllocError, AllocGlobal};
use std::random::RandomSource;
use std::sync::Wait;

/// Returns the numbers, tripled, which went through a queue.
///
/// `Err` is an allocation failure.
pub fn tripled<R>(rt: &R, numbers: Vec<u32>, bound: usize) -> Result<Vec<u64>, AllocError>
where
    R: Wait + RandomSource + AllocGlobal,
    ensures { IfOk result (λ v. v.items ≡ map (λ x. x * 3) numbers.items) }
{
    let tripled = iter_vec(numbers).map(|x: u32| x as u64 * 3).with_budget(2);
    block_on(rt, transfer(rt.alloc(), tripled, bound))?
}

/// Returns the even items that wait in a queue. An open queue blocks this for ever.
///
/// `Err` is an allocation failure.
pub fn evens<R>(rt: &R, queue: Queue<u32>) -> Result<Vec<u32>, AllocError>
where
    R: Wait + RandomSource + AllocGlobal,
    ensures { IfOk result (λ v. v.items ≡ filter (λ x. x % 2 == 0) queue.waiting) }
{
    let evens = queue.filter(|x| *x % 2 == 0);
    block_on(rt, evens.collect::<Vec<u32>>(rt.alloc()))?.map_err(|_| AllocError)
}
