ghost use Rattle.std.specs.Prelude.{◌≡◌, None};
ghost use Rattle.lite_reshape.specs.Uses.{ranks_of, Terminates-count, NoHint, laws_unhinted, through_counting};
ghost use Rattle.lite_reshape.specs.Uses.{ok_counting, through_steady_over, through_calm};
ghost use Rattle.lite_base.specs.Laws.Ranks.{one_less};
ghost use Rattle.lite_reshape.specs.Leaving.{Sifts};
ghost use Rattle.lite_reshape.specs.StepBy.{CanStep, StepsBy, step_by_parts};
ghost use Rattle.lite_reshape.specs.Laws.StepBy.{Countdown, steps_agreeing, steps_calming, steps_on, steps_relating, steps_arming};
ghost use Rattle.lite_stream.specs.Laws.Arming.{through_arms};

use lite_base::{
    ArmedStream, CalmStream, Context, Counted, OkCounted, Poll, PollSteps, SteadyStream, Stream,
    drive,
};

/// A stream that yields the first item of another stream, and each item after it whose number is a multiple
/// of a step.
///
/// Returned by [`step_by`](crate::make::step_by). One poll may skip many items, up to a kept one, `Pending`
/// or an end. The numbers continue across `Pending` and ends.
#[derive(Clone, Debug, Drop)]
pub struct StepBy<S> {
    pub(crate) stream: S,
    pub(crate) step: usize,
    pub(crate) i: usize,
}

impl<S: Stream<Item: Drop>> PollSteps for StepBy<S> {
    type Output = Option<S::Item>;

    ghost can_step = { CanStep S.can_poll };

    ghost step = { Sifts Countdown S.run (CanStep S.can_poll) (λ m. m.stream) (λ m. (m.step, m.i)) };

    ghost step_registers = { λ m. S.registers m.stream };

    ghost goes_on = { λ x y c h. h.0 };

    ghost finite = { λ x c. Terminates-count (λ m. m.i) (λ m n h. one_less h.1.2.1) x };

    fn poll_step(&mut self, cx: &mut Context<'_>) -> Option<Poll<Option<S::Item>>> {
        match self.stream.poll_next(cx) {
            Poll::Ready(Some(item)) => {
                if self.i == 0 {
                    self.i = self.step - 1;
                    Some(Poll::Ready(Some(item)))
                } else {
                    self.i -= 1;
                    None
                }
            }
            Poll::Ready(None) => Some(Poll::Ready(None)),
            Poll::Pending => Some(Poll::Pending),
        }
    }
}

impl<S: Stream<Item: Drop>> Stream for StepBy<S> {
    type Item = S::Item;

    ghost can_poll = { CanStep S.can_poll };

    ghost run = { StepsBy S.run };

    ghost registers = { λ m. S.registers m.stream };

    ghost hints = { NoHint };

    ghost laws = { laws_unhinted step_by_parts S.laws steps_relating
        (steps_on S.laws) };

    fn poll_next(&mut self, cx: &mut Context<'_>) -> Poll<Option<S::Item>> {
        drive(self, cx)
    }

    fn size_hint(&self) -> (usize, Option<usize>) {
        (0, None)
    }
}

impl<S: Counted<Item: Drop>> Counted for StepBy<S> {
    ghost ranks = { ranks_of (λ m. m.stream) S.ranks };

    ghost counting = { through_counting step_by_parts S.counting steps_relating };
}

impl<T: Drop, E: Drop, S: Counted<Item = Result<T, E>>> OkCounted for StepBy<S> {
    type Ok = T;

    type Err = E;

    ghost ok_ranks = { ranks_of (λ m. m.stream) S.ranks };

    ghost ok_counting = { ok_counting (through_counting step_by_parts S.counting steps_relating) };
}

impl<S: SteadyStream<Item: Drop>> SteadyStream for StepBy<S> {
    ghost ample = { StepsBy S.ample };

    ghost needs_none = { S.needs_none };

    ghost same = { S.same };

    ghost alike = { λ x y. S.alike x.stream y.stream × ((y.step ≡ x.step) × (y.i ≡ x.i)) };

    ghost steady = { through_steady_over step_by_parts S.same S.same S.steady steps_relating.following (steps_agreeing S.same) };
}

impl<S: CalmStream<Item: Drop>> CalmStream for StepBy<S> {
    ghost is_calm = { λ m. S.is_calm m.stream };

    ghost calm = { through_calm step_by_parts S.calm steps_calming };
}

impl<S: ArmedStream<Item: Drop>> ArmedStream for StepBy<S> {
    ghost armed = { through_arms step_by_parts S.armed steps_arming };
}
