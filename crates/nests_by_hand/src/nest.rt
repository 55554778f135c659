//! Three nests over a vector, each polled by hand, and what their contracts say of the answers.
ghost use Rattle.std.specs.Prelude.{◌≡◌, ◌<◌, ◌*◌, ◌%◌, ◌++◌, map, take, nat_eq, IfOk};
ghost use Rattle.std.specs.List.{filter};
ghost use Rattle.futures_lite.specs.Answers.{EachItem, Front, Recorded, items, items_in};

use futures_lite::{Context, Poll, StreamExt, laws, stream};
use std::alloc::AllocError;

/// Appends what `polls` polls answer of the triples that are even and below 1000. Each item among them is so. `Err` where memory
/// for `out` is refused: then fewer were appended.
pub fn small_evens(
    numbers: Vec<u32>,
    cx: &mut Context<'_>,
    polls: usize,
    out: &mut Vec<Poll<Option<u64>>>,
) -> Result<(), AllocError>
    ensures { Recorded out.old out.new polls result (EachItem (λ x. (x % 2 ≡ 0) × (x < 1000))) }
{
    let tripled = stream::iter(numbers).map(|x| x as u64 * 3);
    let mut small = tripled.filter(|x| *x % 2 == 0 && *x < 1000);
    laws::run(&mut small, cx, polls, out)
}

/// Appends what `polls` polls answer of the first `count` even triples. However many polls those are, their items are the first
/// of the list that the same functions of lists give. `Err` where memory for `out` is refused: then fewer were appended.
pub fn first_evens(
    numbers: Vec<u32>,
    count: usize,
    cx: &mut Context<'_>,
    polls: usize,
    out: &mut Vec<Poll<Option<u64>>>,
) -> Result<(), AllocError>
    ensures { Recorded out.old out.new polls result
        (λ l. Front (items_in l) (take count (filter (λ x. nat_eq (x % 2) 0) (map (λ x. x * 3) numbers.items)))) }
{
    let tripled = stream::iter(numbers).map(|x| x as u64 * 3);
    let mut evens = tripled.filter(|x| *x % 2 == 0).take(count);
    laws::run(&mut evens, cx, polls, out)
}

/// Appends all triples, as items, in order. `Err` where memory for `out` is refused: then fewer were appended.
pub fn tripled(
    numbers: Vec<u32>,
    cx: &mut Context<'_>,
    out: &mut Vec<Poll<Option<u64>>>,
) -> Result<(), AllocError>
    ensures { IfOk result (λ _. out.new.items ≡ out.old.items ++ items (map (λ x. x * 3) numbers.items)) }
{
    let polls = numbers.len();
    let mut tripled = stream::iter(numbers).map(|x| x as u64 * 3);
    laws::run(&mut tripled, cx, polls, out)
}
