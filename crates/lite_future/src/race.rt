ghost use Rattle.std.specs.Prelude.{◌⊎◌};
ghost use Rattle.lite_future.specs.Race.{FutureRacesOn};
ghost use Rattle.lite_future.specs.Laws.Race.{races_calm, races_laws, races_arms};

use crate::picks::poll_in_order;
use lite_base::{ArmedFuture, CalmFuture, Context, Future, Poll};
use rand_core::Rng;

/// A future that resolves to the value of whichever of two futures is ready first, with no preference if both
/// are.
///
/// Returned by [`race`](crate::make::race) and [`race_with_seed`](crate::make::race_with_seed). Each poll
/// draws one word of the generator by `next_u32`. If its lowest bit is 1, it polls the first future first,
/// otherwise the second. It polls the other future only if this returned `Pending`. Both futures are dropped
/// with it, and not before. After its value it may be polled again only if both futures may be polled again.
#[derive(Debug, Drop)]
pub struct Race<F1, F2, G> {
    pub(crate) future1: F1,
    pub(crate) future2: F2,
    pub(crate) rng: G,
}

impl<F1, F2, G> Future for Race<F1, F2, G>
where
    F1: Future,
    F2: Future<Output = F1::Output>,
    G: Rng,
{
    type Output = F1::Output;

    ghost can_poll = { λ x. F1.can_poll x.future1 × F2.can_poll x.future2 };

    ghost run = { FutureRacesOn F1.run F2.run G.stream };

    ghost registers = { λ x fact. F1.registers x.future1 fact ⊎ F2.registers x.future2 fact };

    ghost laws = { races_laws G.stream F1.laws F2.laws };

    fn poll(&mut self, cx: &mut Context<'_>) -> Poll<F1::Output> {
        if self.rng.next_u32() % 2 == 1 {
            poll_in_order(&mut self.future1, &mut self.future2, cx)
        } else {
            poll_in_order(&mut self.future2, &mut self.future1, cx)
        }
    }
}

// As `or`, whichever is polled first.
impl<F1, F2, G> CalmFuture for Race<F1, F2, G>
where
    F1: CalmFuture,
    F2: CalmFuture<Output = F1::Output>,
    G: Rng,
{
    ghost is_calm = { λ x. F1.is_calm x.future1 ⊎ F2.is_calm x.future2 };

    ghost calm = { races_calm G.stream F1.calm F2.calm };
}

impl<F1, F2, G> ArmedFuture for Race<F1, F2, G>
where
    F1: ArmedFuture,
    F2: ArmedFuture<Output = F1::Output>,
    G: Rng,
{
    ghost armed = { races_arms G.stream F1.armed F2.armed };
}
