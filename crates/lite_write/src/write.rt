ghost use Rattle.lite_write.specs.Uses.{polled_laws, PolledByCalls};
ghost use Rattle.lite_write.specs.Write.{Writes};
ghost use Rattle.lite_write.specs.Laws.CalmWrite.{write_calm};
ghost use Rattle.lite_write.specs.Laws.Armed.{write_arms};

use lite_base::{ArmedFuture, CalmFuture, Context, Future, Poll};
use lite_io_base::{ArmedWrite, AsyncWrite, CalmWrite};
use std::io;

/// A future that writes once.
///
/// Returned by [`write`](crate::make::write). Each poll writes once. The value is the number of bytes that
/// were taken, from the front of the buffer, or the error of the writer. After an error none was taken.
#[derive(Debug, Drop)]
pub struct WriteFuture<'a, W> {
    pub(crate) writer: &'a mut W,
    pub(crate) buf: &'a [u8],
}

impl<W: AsyncWrite> Future for WriteFuture<'_, W> {
    type Output = io::Result<usize>;

    ghost run = { PolledByCalls (Writes W.writes) };

    ghost registers = { λ x. W.write_registers x.writer.now };

    ghost laws = { polled_laws (Writes W.writes) (λ x y c h. tt) };

    fn poll(&mut self, cx: &mut Context<'_>) -> Poll<io::Result<usize>> {
        self.writer.poll_write(cx, self.buf)
    }
}

impl<W: CalmWrite> CalmFuture for WriteFuture<'_, W> {
    ghost is_calm = { λ x. W.is_calm x.writer.now };

    ghost calm = { write_calm W.calm };
}

impl<W: ArmedWrite> ArmedFuture for WriteFuture<'_, W> {
    ghost armed = { write_arms W.armed };
}
