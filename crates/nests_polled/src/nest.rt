//! Nests compose: what is known of a nest of adapters is known by the contracts of the traits alone.
ghost use Rattle.std.specs.Prelude.{◌≡◌, ◌%◌, ◌<◌, ◌≤◌, ◌∷◌, []};
ghost use Rattle.futures.specs.Task.{Keeps};
ghost use Rattle.futures_lite.specs.Answers.{EachItem, Recorded};
ghost use Rattle.lite_base.specs.Registered.{Registered};

use futures_lite::stream::{Counted, Filter, Map, Script};
use futures_lite::{Context, Poll, Stream, StreamExt, laws};
use std::alloc::AllocError;

/// Polls a nest of two adapters over any stream whose rank counts. The answer is one that the nest's definition gives,
/// and a pending one leaves in `cx` what the nest says that it leaves.
pub fn poll_nest<S, U, F, P>(
    nest: &mut Filter<Map<S, F>, P>,
    cx: &mut Context<'_>,
) -> Poll<Option<U>>
where
    S: Counted,
    U: Drop,
    F: FnMut(S::Item) -> U,
    P: FnMut(&U) -> bool,
    requires { ⟦<Filter<Map<S, F>, P> as Stream>⟧.can_poll nest.old }
    ensures ran { ⟦<Filter<Map<S, F>, P> as Stream>⟧.run nest.old (result ∷ []) nest.new }
    ensures again { ⟦<Filter<Map<S, F>, P> as Stream>⟧.can_poll nest.new }
    ensures registered { Registered result (⟦<Filter<Map<S, F>, P> as Stream>⟧.registers nest.new) cx.new }
    ensures context { Keeps cx.old cx.new }
{
    nest.poll_next(cx)
}

/// Mixes each byte of a script with its place, from 1 on, leaves out the odd results, and appends the first `polls`
/// answers to `out`. `Err` where memory for `out` is refused: then fewer were appended.
pub fn evens(
    script: Script<u8>,
    cx: &mut Context<'_>,
    polls: usize,
    out: &mut Vec<Poll<Option<u64>>>,
) -> Result<(), AllocError>
    ensures even { Recorded out.old out.new polls result (EachItem (λ x. x % 2 ≡ 0)) }
{
    let mut place = 0u64;
    let mixed = script.map(move |x: u8| {
        place = place.wrapping_add(1);
        place ^ x as u64
    });
    let mut nest = mixed.filter(|x: &u64| *x % 2 == 0);
    laws::run(&mut nest, cx, polls, out)
}

/// Divides 100 by each item of a script, none of which is 0, leaves out the quotients below 2, and appends the first
/// `polls` answers to `out`. `Err` where memory for `out` is refused: then fewer were appended.
pub fn hundredths(
    script: Script<u8>,
    cx: &mut Context<'_>,
    polls: usize,
    out: &mut Vec<Poll<Option<u8>>>,
) -> Result<(), AllocError>
    requires { EachItem (λ x. 0 < x) script }
    ensures { Recorded out.old out.new polls result (EachItem (λ y. 2 ≤ y)) }
{
    let mut quotients = script
        .map(
            |x: u8|
                requires { 0 < x }
            { 100 / x },
        )
        .filter(|y: &u8| *y >= 2);
    laws::run(&mut quotients, cx, polls, out)
}
