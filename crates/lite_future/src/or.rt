ghost use Rattle.std.specs.Prelude.{◌⊎◌};
ghost use Rattle.lite_future.specs.Or.{FutureOrs};
ghost use Rattle.lite_future.specs.Laws.Or.{ors_calm, ors_laws, ors_arms};

use crate::picks::poll_in_order;
use lite_base::{ArmedFuture, CalmFuture, Context, Future, Poll};

/// A future that resolves to the value of whichever of two futures is ready first. It prefers the first if
/// both are.
///
/// Returned by [`or`](crate::make::or). Each poll polls the second future only if the first returned
/// `Pending`. It is `Pending` if both are. Both futures are dropped with it, and not before. After its value
/// it may be polled again only if both futures may be polled again.
#[derive(Debug, Drop)]
pub struct Or<F1, F2> {
    pub(crate) future1: F1,
    pub(crate) future2: F2,
}

impl<F1: Future, F2: Future<Output = F1::Output>> Future for Or<F1, F2> {
    type Output = F1::Output;

    ghost can_poll = { λ x. F1.can_poll x.future1 × F2.can_poll x.future2 };

    ghost run = { FutureOrs F1.run F2.run };

    ghost registers = { λ x fact. F1.registers x.future1 fact ⊎ F2.registers x.future2 fact };

    ghost laws = { ors_laws F1.laws F2.laws };

    fn poll(&mut self, cx: &mut Context<'_>) -> Poll<F1::Output> {
        poll_in_order(&mut self.future1, &mut self.future2, cx)
    }
}

// One of the two that is never pending is enough.
impl<F1: CalmFuture, F2: CalmFuture<Output = F1::Output>> CalmFuture for Or<F1, F2> {
    ghost is_calm = { λ x. F1.is_calm x.future1 ⊎ F2.is_calm x.future2 };

    ghost calm = { ors_calm F1.calm F2.calm };
}

impl<F1: ArmedFuture, F2: ArmedFuture<Output = F1::Output>> ArmedFuture for Or<F1, F2> {
    ghost armed = { ors_arms F1.armed F2.armed };
}
