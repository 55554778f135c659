//! Nests over two scripts that differ only in where they are pending. The answers of the two runs are the same, pendings
//! aside, as far as both go. `Err` where memory for an answer is refused: then fewer were appended.
ghost use Rattle.std.specs.Prelude.{◌≡◌};
ghost use Rattle.lite_base.specs.Answers.{strip};
ghost use Rattle.lite_base.specs.Calm.{NoPending};
ghost use Rattle.lite_laws.specs.Recorded.{Recorded};
ghost use Rattle.nests_agree.specs.Both.{Begins, BothAppended};

use crate::both::{TwoRuns, both_appended};
use lite_base::{Context, Poll};
use lite_future::make::{ready, yield_now, zip};
use lite_laws::run_calm;
use lite_reshape::make::{chain, filter, flat_map, then};
use lite_source::Script;
use lite_source::make::once;
use lite_stream::make::{map, take, take_while};
use std::alloc::AllocError;

/// Runs a nest that replaces items, leaves some out and cuts the stream off.
pub fn evens_agree(
    one: Script<u8>,
    other: Script<u8>,
    cx: &mut Context<'_>,
    runs: &mut TwoRuns<u8>,
) -> Result<(), AllocError>
    requires { strip one ≡ strip other }
    ensures { BothAppended Begins runs.old runs.new result }
{
    let mix = |x: u8| x ^ 1;
    let is_even = |x: &u8| *x % 2 == 0;
    let is_small = |x: &u8| *x < 100;
    let mut x = take(take_while(filter(map(one, mix), is_even), is_small), 3);
    let mut y = take(take_while(filter(map(other, mix), is_even), is_small), 3);
    both_appended(&mut x, &mut y, cx, runs)
}

/// Makes a future of each item that is pending once.
pub fn waits_agree(
    one: Script<u8>,
    other: Script<u8>,
    cx: &mut Context<'_>,
    runs: &mut TwoRuns<((), u8)>,
) -> Result<(), AllocError>
    requires { strip one ≡ strip other }
    ensures { BothAppended Begins runs.old runs.new result }
{
    let wait = |x: u8| zip(yield_now(), ready(x));
    let mut x = then(one, wait);
    let mut y = then(other, wait);
    both_appended(&mut x, &mut y, cx, runs)
}

/// Makes a stream of two items of each item.
pub fn lists_agree(
    one: Script<u8>,
    other: Script<u8>,
    cx: &mut Context<'_>,
    runs: &mut TwoRuns<u8>,
) -> Result<(), AllocError>
    requires { strip one ≡ strip other }
    ensures { BothAppended Begins runs.old runs.new result }
{
    let both = |x: u8| chain(once(x), once(x ^ 1));
    let mut x = flat_map(one, both);
    let mut y = flat_map(other, both);
    both_appended(&mut x, &mut y, cx, runs)
}

/// Runs a nest with futures over a script without a pending: none comes out.
pub fn none_waits(
    script: Script<u8>,
    cx: &mut Context<'_>,
    polls: usize,
    out: &mut Vec<Poll<Option<u8>>>,
) -> Result<(), AllocError>
    requires { NoPending script }
    ensures { Recorded out.old out.new polls result NoPending }
{
    let mixed = map(script, |x: u8| x ^ 1);
    let small = take_while(mixed, |x: &u8| *x < 100);
    let mut nest = take(then(small, |x: u8| ready(x)), 3);
    run_calm(&mut nest, cx, polls, out)
}
