//! Futures of the toolchain as those of this library.
ghost use Rattle.compat.specs.FromKit.{FutureStep, Needs};
ghost use Rattle.lite_theorems.specs.Futures.{StepsToValue, future_by_keeping_steps};

use crate::compat::Compat;
use lite_base::{Context, Future, Poll};

impl<F: futures::Future> Future for Compat<F> {
    type Output = F::Output;

    ghost can_poll = { λ k. F.can_poll k.inner };

    ghost run = { StepsToValue (FutureStep F.can_poll F.gives) };

    ghost registers = { λ k. Needs (F.needs k.inner) };

    ghost laws = { future_by_keeping_steps _ (λ x y c h. h.0) };

    fn poll(&mut self, cx: &mut Context<'_>) -> Poll<F::Output> {
        self.inner.poll(cx)
    }
}
