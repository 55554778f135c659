//! What a caller knows of the items of a stream of its own.
ghost use Rattle.std.specs.Prelude.{◌≡◌, ◌<◌, ◌==◌, ◌≤◌, ◌%◌, IfOk};
ghost use Rattle.std.specs.List.{filter};
ghost use Rattle.futures_lite.specs.Answers.{EachItem, Recorded};
ghost use Rattle.example_own.specs.Numbers.{numbers_left};

use crate::counter::Counter;
use futures_lite::future::block_on;
use futures_lite::{Context, Poll, StreamExt, laws};
use std::alloc::{AllocError, AllocGlobal};
use std::random::RandomSource;
use std::sync::Wait;

/// Appends what `polls` polls answer of the even numbers of a counter that ends at 100 at the latest. Each item among them is
/// even and below 100. `Err` where memory for `out` is refused: then fewer were appended.
#[tactic(auto, using(crate::specs::Below::each_below, crate::specs::Below::even_left))]
pub fn even_numbers(
    counter: Counter,
    cx: &mut Context<'_>,
    polls: usize,
    out: &mut Vec<Poll<Option<u32>>>,
) -> Result<(), AllocError>
    requires { counter.end ≤ 100 }
    ensures { Recorded out.old out.new polls result (EachItem (λ n. (n % 2 ≡ 0) × (n < 100))) }
{
    let mut evens = counter.filter(|n| *n % 2 == 0);
    laws::run(&mut evens, cx, polls, out)
}

/// All even numbers of a counter. `Err` where memory is refused.
#[tactic(auto, using(crate::specs::Numbers::counter_lists))]
pub fn evens<R>(rt: &R, counter: Counter) -> Result<Vec<u32>, AllocError>
where
    R: Wait + RandomSource + AllocGlobal,
    ensures { IfOk result (λ v. v.items ≡ filter (λ n. n % 2 == 0) (numbers_left counter)) }
{
    let evens = counter.filter(|n| *n % 2 == 0);
    block_on(rt, evens.collect::<Vec<u32>>(rt.alloc()))?.map_err(|_| AllocError)
}
