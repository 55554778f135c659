ghost use Rattle.lite_future.specs.Uses.{Alike, Waiting, AlwaysObeys, NeverPends, Polled};
ghost use Rattle.lite_base.specs.Pollers.{CallRegisters};
ghost use Rattle.lite_future.specs.Laws.PollFn.{polled_calm, polled_laws, polled_steady};

use lite_base::{CalmFuture, Context, Future, Poll, SteadyFuture};
use std::fmt;

/// A future that calls a closure at each poll, and returns the result.
///
/// Returned by [`poll_fn`](crate::make::poll_fn).
#[derive(Drop)]
pub struct PollFn<F> {
    pub(crate) f: F,
}

impl<F> fmt::Debug for PollFn<F> {
    fn fmt<W: fmt::Write>(&self, f: &mut fmt::Formatter<W>) -> fmt::Result {
        f.debug_struct("PollFn").finish()
    }
}

impl<T, F: FnMut(&mut Context<'_>) -> Poll<T>> Future for PollFn<F> {
    type Output = T;

    ghost can_poll = { λ x. AlwaysObeys F.FnMut Waiting x.f };

    ghost run = { λ x l y. Polled F.FnMut x.f l y.f };

    ghost registers = { λ x. CallRegisters F.FnMut x.f };

    ghost laws = { polled_laws F.FnMut };

    fn poll(&mut self, cx: &mut Context<'_>) -> Poll<T> {
        (self.f)(cx)
    }
}

// A closure is its own source. Two are alike if they return the same, apart from `Pending`.
impl<T, F: FnMut(&mut Context<'_>) -> Poll<T>> SteadyFuture for PollFn<F> {
    ghost ample = { λ x l y. Polled F.FnMut x.f l y.f };

    ghost alike = { Alike (λ x l y. Polled F.FnMut x.f l y.f) };

    ghost steady = { polled_steady F.FnMut };
}

impl<T, F: FnMut(&mut Context<'_>) -> Poll<T>> CalmFuture for PollFn<F> {
    ghost is_calm = { λ x. NeverPends F.FnMut x.f };

    ghost calm = { polled_calm F.FnMut };
}
