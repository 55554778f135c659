//! Closures that ask something of their items.
ghost use Rattle.std.specs.Prelude.{◌<◌, ◌≤◌};
ghost use Rattle.std.specs.List.{AllByRecursion};
ghost use Rattle.futures_lite.specs.Answers.{EachItem, Recorded};

use futures_lite::{Context, Poll, StreamExt, laws, stream};
use std::alloc::AllocError;

/// Appends what `polls` polls answer of 100 divided by each number, none of which is 0. Each item among them is at most 100.
/// `Err` where memory for `out` is refused: then fewer were appended.
pub fn hundredths(
    numbers: Vec<u64>,
    cx: &mut Context<'_>,
    polls: usize,
    out: &mut Vec<Poll<Option<u64>>>,
) -> Result<(), AllocError>
    requires { AllByRecursion (λ x. 0 < x) numbers.items }
    ensures { Recorded out.old out.new polls result (EachItem (λ y. y ≤ 100)) }
{
    let mut quotients = stream::iter(numbers).map(
        |x: u64|
            requires { 0 < x }
        { 100 / x },
    );
    laws::run(&mut quotients, cx, polls, out)
}
