//! Streams of the toolchain as those of this library.
ghost use Rattle.compat.specs.FromKit.{Needs, StreamStep, Unended};
ghost use Rattle.compat.specs.Laws.FromKit.{step_keeps};
ghost use Rattle.compat.specs.Uses.{FoldsTo};
ghost use Rattle.lite_base.specs.Laws.Streams.{stream_by_keeping_steps};
ghost use Rattle.lite_base.specs.Runs.{NoHint};

use crate::compat::Compat;
use lite_base::{Context, Poll, Stream};

impl<S: futures::Stream> Stream for Compat<S> {
    type Item = S::Item;

    ghost can_poll = { λ k. Unended k.ended (S.can_poll k.inner) };

    ghost run = { FoldsTo (StreamStep S.can_poll S.yields) };

    ghost registers = { λ k. Needs (S.needs k.inner) };

    ghost hints = { NoHint };

    ghost laws = { stream_by_keeping_steps _ (step_keeps S.can_poll S.yields) };

    fn poll_next(&mut self, cx: &mut Context<'_>) -> Poll<Option<S::Item>> {
        if self.ended {
            return Poll::Ready(None);
        }
        match self.inner.poll_next(cx) {
            Poll::Ready(Some(item)) => Poll::Ready(Some(item)),
            Poll::Ready(None) => {
                self.ended = true;
                Poll::Ready(None)
            }
            Poll::Pending => Poll::Pending,
        }
    }

    fn size_hint(&self) -> (usize, Option<usize>) {
        (0, None)
    }
}
