//! Two runs that are recorded.
ghost use Rattle.std.specs.Prelude.{◌≡◌};
ghost use Rattle.lite_laws.specs.Both.{Agreed};
ghost use Rattle.lite_laws.specs.Waits.{HoldsEach, IfWaits};
ghost use Rattle.nests_agree.specs.Both.{BothAppended};

use lite_base::{Context, Poll, SteadyStream};
use lite_laws::run_both;
use std::alloc::AllocError;

/// How often each of two streams is polled, and the lists to which their answers are appended.
#[derive(Drop)]
pub struct TwoRuns<T> {
    pub polls: usize,
    pub more: usize,
    pub out: Vec<Poll<Option<T>>>,
    pub out_more: Vec<Poll<Option<T>>>,
}

/// Polls two streams that are alike, each as often as `runs` says, and appends what it answers to its list. Pendings
/// aside, one of the two lists of answers begins the other, as long as memory was found. Where a run's last answer is
/// pending, the context holds what its stream leaves in it. On `Ok` so many answers were appended; `Err` where memory for
/// an answer is refused: then fewer were.
pub fn both_appended<S: SteadyStream>(
    x: &mut S,
    y: &mut S,
    cx: &mut Context<'_>,
    runs: &mut TwoRuns<S::Item>,
) -> Result<(), AllocError>
    requires first { S.can_poll x.old }
    requires second { S.can_poll y.old }
    requires alike { S.alike x.old y.old }
    ensures { BothAppended
        (λ l m. Agreed S.same S.run S.ample S.needs_none x.old l x.new y.old m y.new
        × IfWaits l (HoldsEach (S.registers x.new) cx.new) × IfWaits m (HoldsEach (S.registers y.new) cx.new))
        runs.old runs.new result }
{
    let (polls, more) = (runs.polls, runs.more);
    run_both(x, y, cx, polls, more, &mut runs.out, &mut runs.out_more)
}
