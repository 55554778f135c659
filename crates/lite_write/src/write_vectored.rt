ghost use Rattle.lite_write.specs.Uses.{polled_laws, PolledByCalls};
ghost use Rattle.lite_write.specs.WriteVectored.{WritesVectored};
ghost use Rattle.lite_write.specs.Laws.CalmWrite.{vectored_calm};
ghost use Rattle.lite_write.specs.Laws.Armed.{vectored_arms};

use lite_base::{ArmedFuture, CalmFuture, Context, Future, Poll};
use lite_io_base::{ArmedWrite, AsyncWrite, CalmWrite};
use std::io;
use std::io::IoSlice;

/// A future that writes the bytes of several buffers once.
///
/// Returned by [`write_vectored`](crate::make::write_vectored). Each poll is one vectored write. The value is
/// the number of bytes that were taken, one buffer after another, or the error of the writer. After an error
/// none was taken.
#[derive(Debug, Drop)]
pub struct WriteVectoredFuture<'a, W> {
    pub(crate) writer: &'a mut W,
    pub(crate) bufs: &'a [IoSlice<'a>],
}

impl<W: AsyncWrite> Future for WriteVectoredFuture<'_, W> {
    type Output = io::Result<usize>;

    ghost run = { PolledByCalls (WritesVectored W.writes) };

    ghost registers = { λ x. W.write_registers x.writer.now };

    ghost laws = { polled_laws (WritesVectored W.writes) (λ x y c h. tt) };

    fn poll(&mut self, cx: &mut Context<'_>) -> Poll<io::Result<usize>> {
        self.writer.poll_write_vectored(cx, self.bufs)
    }
}

impl<W: CalmWrite> CalmFuture for WriteVectoredFuture<'_, W> {
    ghost is_calm = { λ x. W.is_calm x.writer.now };

    ghost calm = { vectored_calm W.calm };
}

impl<W: ArmedWrite> ArmedFuture for WriteVectoredFuture<'_, W> {
    ghost armed = { vectored_arms W.armed };
}
