//! Clones of what two sources of references give.
ghost use Rattle.lite_base.specs.Alike.{SameAnswer};
ghost use Rattle.lite_base.specs.Answers.{ComparableBy, strip};
ghost use Rattle.lite_base.specs.Steady.{TakesNone};
ghost use Rattle.lite_reshape.specs.Cloned.{ClonedFrom, NoCloneRefused};
ghost use Rattle.nests_agree.specs.Both.{BothAppended};

use crate::both::{TwoRuns, both_appended};
use lite_base::{Context, SteadyStream, Stream};
use lite_reshape::Cloned;
use std::alloc::AllocError;

/// Clones of the items of two streams that are alike and take no memory. Where no clone was refused, they are the same: equal,
/// or, where the streams compare references by a relation, clones of what two that are in it refer to.
/// On `Ok` so many answers were appended; `Err` where memory for an answer is refused: then fewer were.
pub fn clones_agree<'a, T: Clone + 'a, S: SteadyStream<Item = &'a T>>(
    x: &mut Cloned<S>,
    y: &mut Cloned<S>,
    cx: &mut Context<'_>,
    runs: &mut TwoRuns<Result<T, AllocError>>,
) -> Result<(), AllocError>
    requires first { ⟦<Cloned<S> as Stream>⟧.can_poll x.old }
    requires second { ⟦<Cloned<S> as Stream>⟧.can_poll y.old }
    requires alike { ⟦<Cloned<S> as SteadyStream>⟧.alike x.old y.old }
    requires found { TakesNone S.run S.ample }
    ensures { BothAppended
        (λ l m. NoCloneRefused l → NoCloneRefused m
        → ComparableBy (SameAnswer (ClonedFrom S.same T.is_clone)) (strip l) (strip m))
        runs.old runs.new result }
{
    both_appended(x, y, cx, runs)
}
