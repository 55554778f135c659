ghost use Rattle.std.specs.Prelude.{⊤};
ghost use Rattle.lite_future.specs.PollOnce.{GivesFirst};
ghost use Rattle.lite_future.specs.Laws.PollOnce.{tells_calm, tells_laws};
ghost use Rattle.lite_base.specs.Laws.Armed.{arms_always};

use lite_base::{ArmedFuture, CalmFuture, Context, Future, Poll};
use std::fmt;

/// A future that polls another once, and is ready with the result.
///
/// Returned by [`poll_once`](crate::make::poll_once). The value is `Some(value)` if the other future was
/// ready, and `None` if it returned `Pending`.
#[derive(Drop)]
pub struct PollOnce<F> {
    pub(crate) f: F,
}

impl<F> fmt::Debug for PollOnce<F> {
    fn fmt<W: fmt::Write>(&self, f: &mut fmt::Formatter<W>) -> fmt::Result {
        f.debug_struct("PollOnce").finish()
    }
}

impl<F: Future> Future for PollOnce<F> {
    type Output = Option<F::Output>;

    ghost can_poll = { λ x. F.can_poll x.f };

    ghost run = { GivesFirst F.run };

    // It is never pending.
    ghost registers = { λ _ _. ⊤ };

    ghost laws = { tells_laws F.run F.can_poll };

    fn poll(&mut self, cx: &mut Context<'_>) -> Poll<Option<F::Output>> {
        match self.f.poll(cx) {
            Poll::Ready(x) => Poll::Ready(Some(x)),
            Poll::Pending => Poll::Ready(None),
        }
    }
}

impl<F: Future> CalmFuture for PollOnce<F> {
    ghost is_calm = { λ _. ⊤ };

    ghost calm = { tells_calm F.run };
}

impl<F: Future> ArmedFuture for PollOnce<F> {
    ghost armed = { arms_always };
}
