ghost use Rattle.lite_merge.specs.Uses.{ok_counting, through_on};
ghost use Rattle.lite_stream.specs.Laws.Through.{laws_hinted};
ghost use Rattle.lite_merge.specs.Budgeted.{Budgets, PacedRegisters, budget_parts, budget_ranks};
ghost use Rattle.lite_merge.specs.Laws.Budgeted.{budget_counting, budget_steady, paces_relating, budget_arms};

use lite_base::{ArmedStream, Context, Counted, OkCounted, Poll, SteadyStream, Stream};

/// A stream that returns `Pending` once after a number of items in a row, so that another task can run.
///
/// Returned by [`with_budget`](crate::make::with_budget). It returns the results of another stream, in order.
/// After as many items as its budget without a `Pending` between them, it wakes the task and returns
/// `Pending` once. That poll does not poll the other stream. It is `Counted` over any stream: `ranks` counts
/// the items that may come before that.
#[derive(Clone, Debug, Drop)]
pub struct Budgeted<S> {
    pub(crate) stream: S,
    pub(crate) budget: usize,
    // How many items may come before it returns `Pending` by itself.
    pub(crate) left: usize,
    // Whether the last `Pending` was its own, so that it woke the task.
    pub(crate) paused: bool,
}

impl<S: Stream> Stream for Budgeted<S> {
    type Item = S::Item;

    ghost can_poll = { λ m. S.can_poll m.stream };

    ghost run = { Budgets S.run };

    ghost registers = { PacedRegisters S.registers };

    ghost hints = { λ m. S.hints m.stream };

    ghost laws = { laws_hinted budget_parts S.laws paces_relating (through_on budget_parts S.laws) };

    fn poll_next(&mut self, cx: &mut Context<'_>) -> Poll<Option<S::Item>> {
        if self.left == 0 {
            self.left = self.budget;
            self.paused = true;
            return cx.yield_now();
        }
        let next = self.stream.poll_next(cx);
        match &next {
            Poll::Ready(Some(_)) => self.left -= 1,
            Poll::Ready(None) => {}
            Poll::Pending => {
                self.left = self.budget;
                self.paused = false;
            }
        }
        next
    }

    fn size_hint(&self) -> (usize, Option<usize>) {
        self.stream.size_hint()
    }
}

impl<S: Stream> Counted for Budgeted<S> {
    ghost ranks = { budget_ranks };

    ghost counting = { budget_counting };
}

impl<T, E, S: Stream<Item = Result<T, E>>> OkCounted for Budgeted<S> {
    type Ok = T;

    type Err = E;

    ghost ok_ranks = { budget_ranks };

    ghost ok_counting = { ok_counting budget_counting };
}

// Whatever the two budgets are.
impl<S: SteadyStream> SteadyStream for Budgeted<S> {
    ghost ample = { Budgets S.ample };

    ghost needs_none = { S.needs_none };

    ghost same = { S.same };

    ghost alike = { λ x y. S.alike x.stream y.stream };

    ghost steady = { budget_steady S.same S.steady };
}

impl<S: ArmedStream> ArmedStream for Budgeted<S> {
    ghost armed = { budget_arms S.armed };
}
