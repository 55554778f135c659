//! Streams of this library as those of the toolchain.
ghost use Rattle.std.specs.Prelude.{◌∷◌, [], IfSome, OnSome};
ghost use Rattle.compat.specs.ToKit.{YieldsUpTo};
ghost use Rattle.compat.specs.Uses.{Covers, IfReady, Keeps, Lasting, OnPending};
ghost use Rattle.futures.specs.Runs.{After, Within};

use crate::compat::Compat;
use lite_base::{Context, Poll, Stream};

impl<S: Stream + Drop> futures::Stream for Compat<S> {
    type Item = S::Item;

    ghost can_poll = { λ k. S.can_poll k.inner };

    ghost needs = { λ k s. S.registers k.inner (Lasting.hears s) };

    ghost yields = { λ k. YieldsUpTo S.run k.inner };

    fn poll_next(&mut self, cx: &mut Context<'_>) -> Poll<Option<S::Item>>
        requires { S.can_poll self.old.inner }
        ensures value { IfReady result (YieldsUpTo S.run self.old.inner []) }
        ensures rest { IfReady result
            (λ o. IfSome o (λ x. After (YieldsUpTo S.run self.old.inner) x (YieldsUpTo S.run self.new.inner))) }
        ensures goes { IfReady result (λ o. OnSome o (S.can_poll self.new.inner)) }
        ensures again { OnPending result (S.can_poll self.new.inner) }
        ensures same { OnPending result (Within (YieldsUpTo S.run self.old.inner) (YieldsUpTo S.run self.new.inner)) }
        ensures registered { OnPending result (Covers cx.new (λ s. S.registers self.new.inner (Lasting.hears s))) }
        ensures kept { Keeps cx.old cx.new }

        // It is one poll of the stream, and returns what that returned.
        ensures ran { S.run self.old.inner (result ∷ []) self.new.inner }
    {
        match self.inner.poll_next(cx) {
            Poll::Ready(next) => Poll::Ready(next),
            Poll::Pending => cx.register(&self.source, &mut self.slot),
        }
    }
}
