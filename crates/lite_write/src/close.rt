ghost use Rattle.std.specs.Prelude.{⊤};
ghost use Rattle.lite_write.specs.Uses.{polled_laws, PolledByCalls};
ghost use Rattle.lite_write.specs.Close.{Closes};
ghost use Rattle.lite_write.specs.WriteAll.{NoneFails, WithoutFailure};
ghost use Rattle.lite_write.specs.Laws.CalmWrite.{close_calm, close_steady};
ghost use Rattle.lite_write.specs.Laws.Armed.{close_arms};

use lite_base::{ArmedFuture, CalmFuture, Context, Future, Poll, SteadyFuture};
use lite_io_base::{ArmedWrite, AsyncWrite, CalmWrite};
use std::io;

/// A future that closes a writer.
///
/// Returned by [`close`](crate::make::close). Each poll is one call of `poll_close`. The value is `Ok`, or
/// the error of the writer.
#[derive(Debug, Drop)]
pub struct CloseFuture<'a, W> {
    pub(crate) writer: &'a mut W,
}

impl<W: AsyncWrite> Future for CloseFuture<'_, W> {
    type Output = io::Result<()>;

    ghost run = { PolledByCalls (Closes W.writes) };

    ghost registers = { λ x. W.write_registers x.writer.now };

    ghost laws = { polled_laws (Closes W.writes) (λ x y c h. tt) };

    fn poll(&mut self, cx: &mut Context<'_>) -> Poll<io::Result<()>> {
        self.writer.poll_close(cx)
    }
}

// If each write takes some bytes and none fails.
impl<W: AsyncWrite> SteadyFuture for CloseFuture<'_, W> {
    ghost ample = { PolledByCalls (Closes (WithoutFailure W.writes)) };

    ghost needs_none = { NoneFails W.writes };

    ghost alike = { λ _ _. ⊤ };

    ghost steady = { close_steady };
}

impl<W: CalmWrite> CalmFuture for CloseFuture<'_, W> {
    ghost is_calm = { λ x. W.is_calm x.writer.now };

    ghost calm = { close_calm W.calm };
}

impl<W: ArmedWrite> ArmedFuture for CloseFuture<'_, W> {
    ghost armed = { close_arms W.armed };
}
