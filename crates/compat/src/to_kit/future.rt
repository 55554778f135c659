//! Futures of this library as those of the toolchain.
ghost use Rattle.std.specs.Prelude.{◌∷◌, []};
ghost use Rattle.compat.specs.ToKit.{FinishesWith};
ghost use Rattle.compat.specs.Uses.{Covers, IfReady, Keeps, Lasting, OnPending};

use crate::compat::Compat;
use lite_base::{Context, Future, Poll};

impl<F: Future + Drop> futures::Future for Compat<F> {
    type Output = F::Output;

    ghost can_poll = { λ k. F.can_poll k.inner };

    ghost needs = { λ k s. F.registers k.inner (Lasting.hears s) };

    ghost gives = { λ k. FinishesWith F.run k.inner };

    fn poll(&mut self, cx: &mut Context<'_>) -> Poll<F::Output>
        requires { F.can_poll self.old.inner }
        ensures value { IfReady result (FinishesWith F.run self.old.inner) }
        ensures again { OnPending result (F.can_poll self.new.inner) }
        ensures same { OnPending result ((v : _) → FinishesWith F.run self.new.inner v → FinishesWith F.run self.old.inner v) }
        ensures registered { OnPending result (Covers cx.new (λ s. F.registers self.new.inner (Lasting.hears s))) }
        ensures kept { Keeps cx.old cx.new }

        // It is one poll of the future, and returns what that returned.
        ensures ran { F.run self.old.inner (result ∷ []) self.new.inner }
    {
        match self.inner.poll(cx) {
            Poll::Ready(value) => Poll::Ready(value),
            Poll::Pending => cx.register(&self.source, &mut self.slot),
        }
    }
}
