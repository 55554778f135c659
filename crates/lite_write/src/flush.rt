ghost use Rattle.std.specs.Prelude.{⊤};
ghost use Rattle.lite_write.specs.Uses.{polled_laws, PolledByCalls};
ghost use Rattle.lite_write.specs.Flush.{Flushes};
ghost use Rattle.lite_write.specs.WriteAll.{NoneFails, WithoutFailure};
ghost use Rattle.lite_write.specs.Laws.CalmWrite.{flush_calm, flush_steady};
ghost use Rattle.lite_write.specs.Laws.Armed.{flush_arms};

use lite_base::{ArmedFuture, CalmFuture, Context, Future, Poll, SteadyFuture};
use lite_io_base::{ArmedWrite, AsyncWrite, CalmWrite};
use std::io;

/// A future that flushes a writer once.
///
/// Returned by [`flush`](crate::make::flush). Each poll is one call of `poll_flush`. The value is `Ok`, or
/// the error of the writer.
#[derive(Debug, Drop)]
pub struct FlushFuture<'a, W> {
    pub(crate) writer: &'a mut W,
}

impl<W: AsyncWrite> Future for FlushFuture<'_, W> {
    type Output = io::Result<()>;

    ghost run = { PolledByCalls (Flushes W.writes) };

    ghost registers = { λ x. W.write_registers x.writer.now };

    ghost laws = { polled_laws (Flushes W.writes) (λ x y c h. tt) };

    fn poll(&mut self, cx: &mut Context<'_>) -> Poll<io::Result<()>> {
        self.writer.poll_flush(cx)
    }
}

// If each write takes some bytes and none fails.
impl<W: AsyncWrite> SteadyFuture for FlushFuture<'_, W> {
    ghost ample = { PolledByCalls (Flushes (WithoutFailure W.writes)) };

    ghost needs_none = { NoneFails W.writes };

    ghost alike = { λ _ _. ⊤ };

    ghost steady = { flush_steady };
}

impl<W: CalmWrite> CalmFuture for FlushFuture<'_, W> {
    ghost is_calm = { λ x. W.is_calm x.writer.now };

    ghost calm = { flush_calm W.calm };
}

impl<W: ArmedWrite> ArmedFuture for FlushFuture<'_, W> {
    ghost armed = { flush_arms W.armed };
}
