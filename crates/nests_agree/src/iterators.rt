//! Two iterators over the same items.
ghost use Rattle.std.specs.Prelude.{◌≡◌};
ghost use Rattle.nests_agree.specs.Both.{Begins, BothAppended};

use crate::both::{TwoRuns, both_appended};
use lite_base::Context;
use lite_source::make::iter;
use std::alloc::AllocError;

/// Runs the streams of two vectors of the same items. The answers are the same, as far as both go. On `Ok` so many answers
/// were appended; `Err` where memory for an answer is refused: then fewer were. So of what follows.
#[tactic(auto, using(lite_source::specs::Laws::Iterators::vec_alike))]
pub fn vectors_agree(
    one: Vec<u8>,
    other: Vec<u8>,
    cx: &mut Context<'_>,
    runs: &mut TwoRuns<u8>,
) -> Result<(), AllocError>
    requires { one.items ≡ other.items }
    ensures { BothAppended Begins runs.old runs.new result }
{
    let mut x = iter(one);
    let mut y = iter(other);
    both_appended(&mut x, &mut y, cx, runs)
}

/// Of two arrays.
pub fn arrays_agree(
    one: [u8; 4],
    other: [u8; 4],
    cx: &mut Context<'_>,
    runs: &mut TwoRuns<u8>,
) -> Result<(), AllocError>
    requires { one ≡ other }
    ensures { BothAppended Begins runs.old runs.new result }
{
    let mut x = iter(one);
    let mut y = iter(other);
    both_appended(&mut x, &mut y, cx, runs)
}

/// Of two slices, by value.
pub fn slices_agree(
    one: &[u8],
    other: &[u8],
    cx: &mut Context<'_>,
    runs: &mut TwoRuns<u8>,
) -> Result<(), AllocError>
    requires { one.now ≡ other.now }
    ensures { BothAppended Begins runs.old runs.new result }
{
    let mut x = iter(one.iter().copied());
    let mut y = iter(other.iter().copied());
    both_appended(&mut x, &mut y, cx, runs)
}

/// Of the numbers from `start` up to `end`, twice.
#[tactic(auto, using(lite_source::specs::Laws::Iterators::range_alike))]
pub fn ranges_agree(
    start: u8,
    end: u8,
    cx: &mut Context<'_>,
    runs: &mut TwoRuns<u8>,
) -> Result<(), AllocError>
    ensures { BothAppended Begins runs.old runs.new result }
{
    let mut x = iter(start..end);
    let mut y = iter(start..end);
    both_appended(&mut x, &mut y, cx, runs)
}
