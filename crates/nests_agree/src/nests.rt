//! A nest over any two steady sources that are alike.
ghost use Rattle.std.specs.Prelude.{◌≡◌};
ghost use Rattle.std.specs.Fn.{CalledAt};
ghost use Rattle.lite_base.specs.Alike.{SameAnswer, SameItem};
ghost use Rattle.lite_base.specs.Answers.{ComparableBy, strip};
ghost use Rattle.lite_base.specs.Calling.{AgreeFrom, AgreeOver, Answering, Calls};
ghost use Rattle.lite_laws.specs.Waits.{HoldsEach, IfWaits};
ghost use Rattle.nests_agree.specs.Both.{BothAppended};

use crate::both::{TwoRuns, both_appended};
use lite_base::{Context, Counted, SteadyStream, Stream};
use lite_reshape::Filter;
use lite_stream::{Map, Take};
use std::alloc::AllocError;

/// A nest over two streams that are alike and take no memory, by closures that agree. The answers are the same, pendings
/// aside, as far as both go. Where a run's last answer is pending, the context holds what the nest's source leaves in it.
/// On `Ok` so many answers were appended; `Err` where memory for an answer is refused: then fewer were.
pub fn nests_agree<S, U, F, P>(
    x: &mut Take<Filter<Map<S, F>, P>>,
    y: &mut Take<Filter<Map<S, F>, P>>,
    cx: &mut Context<'_>,
    runs: &mut TwoRuns<U>,
) -> Result<(), AllocError>
where
    S: Counted + SteadyStream,
    U: Drop,
    F: FnMut(S::Item) -> U,
    P: FnMut(&U) -> bool,
    requires first { ⟦<Take<Filter<Map<S, F>, P>> as Stream>⟧.can_poll x.old }
    requires second { ⟦<Take<Filter<Map<S, F>, P>> as Stream>⟧.can_poll y.old }
    requires alike { S.alike x.old.stream.stream.stream y.old.stream.stream.stream }
    requires calls { AgreeOver S.same (Calls F.FnMut) x.old.stream.stream.f y.old.stream.stream.f }
    requires tests { AgreeFrom (SameItem (Answering S.same (Calls F.FnMut))) (λ a b. a ≡ b)
        (CalledAt P.FnMut) x.old.stream.predicate y.old.stream.predicate }
    requires counts { y.old.n ≡ x.old.n }
    requires found { S.needs_none }
    ensures { BothAppended
        (λ l m. ComparableBy (SameAnswer (Answering S.same (Calls F.FnMut))) (strip l) (strip m)
        × IfWaits l (HoldsEach (S.registers x.new.stream.stream.stream) cx.new)
        × IfWaits m (HoldsEach (S.registers y.new.stream.stream.stream) cx.new))
        runs.old runs.new result }
{
    both_appended(x, y, cx, runs)
}
