ghost use Rattle.lite_base.specs.Laws.Armed.{lent_arms};
ghost use Rattle.lite_base.specs.Laws.Calm.{lent_calm};
ghost use Rattle.lite_base.specs.Runs.{Lent};
ghost use Rattle.lite_base.specs.Laws.Lent.{lent_counting, lent_future_laws, lent_laws};
ghost use Rattle.lite_base.specs.Laws.Ranks.{lent_ok_counting};
ghost use Rattle.lite_base.specs.Ranks.{ranks_of};
ghost use Rattle.lite_base.specs.Laws.Steady.{lent_future_steady, lent_steady};

use crate::armed::ArmedStream;
use crate::calm::CalmStream;
use crate::counted::Counted;
use crate::future::{ArmedFuture, CalmFuture, Future, SteadyFuture};
use crate::ok_counted::OkCounted;
use crate::steady::SteadyStream;
use crate::stream::Stream;
use futures::task::{Context, Poll};

impl<F: Future> Future for &mut F {
    type Output = F::Output;

    ghost can_poll = { λ f. F.can_poll f.now };

    ghost run = { Lent F.run };

    ghost registers = { λ f. F.registers f.now };

    ghost laws = { lent_future_laws F.laws };

    fn poll(&mut self, cx: &mut Context<'_>) -> Poll<F::Output> {
        (**self).poll(cx)
    }
}

impl<S: Stream> Stream for &mut S {
    type Item = S::Item;

    ghost can_poll = { λ s. S.can_poll s.now };

    ghost run = { Lent S.run };

    ghost registers = { λ s. S.registers s.now };

    ghost hints = { λ s hint. S.hints s.now hint };

    ghost laws = { lent_laws S.laws };

    fn poll_next(&mut self, cx: &mut Context<'_>) -> Poll<Option<S::Item>> {
        (**self).poll_next(cx)
    }

    fn size_hint(&self) -> (usize, Option<usize>) {
        (**self).size_hint()
    }
}

impl<S: Counted> Counted for &mut S {
    ghost ranks = { ranks_of (λ s. s.now) S.ranks };

    ghost counting = { lent_counting S.counting };
}

impl<S: OkCounted> OkCounted for &mut S {
    type Ok = S::Ok;

    type Err = S::Err;

    ghost ok_ranks = { ranks_of (λ s. s.now) S.ok_ranks };

    ghost ok_counting = { lent_ok_counting S.ok_counting };
}

impl<S: SteadyStream> SteadyStream for &mut S {
    ghost ample = { Lent S.ample };

    ghost needs_none = { S.needs_none };

    ghost same = { S.same };

    ghost alike = { λ x y. S.alike x.now y.now };

    ghost steady = { lent_steady S.steady };
}

impl<S: CalmStream> CalmStream for &mut S {
    ghost is_calm = { λ s. S.is_calm s.now };

    ghost calm = { lent_calm S.calm };
}

impl<S: ArmedStream> ArmedStream for &mut S {
    ghost armed = { lent_arms S.armed };
}

impl<F: SteadyFuture> SteadyFuture for &mut F {
    ghost ample = { Lent F.ample };

    ghost needs_none = { F.needs_none };

    ghost same = { F.same };

    ghost alike = { λ x y. F.alike x.now y.now };

    ghost steady = { lent_future_steady F.steady };
}

impl<F: CalmFuture> CalmFuture for &mut F {
    ghost is_calm = { λ f. F.is_calm f.now };

    ghost calm = { lent_calm F.calm };
}

impl<F: ArmedFuture> ArmedFuture for &mut F {
    ghost armed = { lent_arms F.armed };
}
