ghost use Rattle.lite_read.specs.Laws.Polled.{read_calm};
ghost use Rattle.lite_read.specs.Uses.{polled_laws, PolledByCalls};
ghost use Rattle.lite_read.specs.Read.{Reads};
ghost use Rattle.lite_read.specs.Laws.Armed.{read_arms};

use lite_base::{ArmedFuture, CalmFuture, Context, Future, Poll};
use lite_io_base::{ArmedRead, AsyncRead, CalmRead};
use std::io;

/// A future that reads once into a buffer.
///
/// Returned by [`read`](crate::make::read). Each poll reads once. The value is the number of bytes at the
/// front of the buffer, or the error of the reader. 0 means end of file, unless the buffer is empty.
#[derive(Debug, Drop)]
pub struct ReadFuture<'a, R> {
    pub(crate) reader: &'a mut R,
    pub(crate) buf: &'a mut [u8],
}

impl<R: AsyncRead> Future for ReadFuture<'_, R> {
    type Output = io::Result<usize>;

    ghost run = { PolledByCalls (Reads R.reads) };

    ghost registers = { λ x. R.registers x.reader.now };

    ghost laws = { polled_laws (Reads R.reads) (λ x y c h. tt) };

    fn poll(&mut self, cx: &mut Context<'_>) -> Poll<io::Result<usize>> {
        self.reader.poll_read(cx, self.buf)
    }
}

impl<R: CalmRead> CalmFuture for ReadFuture<'_, R> {
    ghost is_calm = { λ x. R.is_calm x.reader.now };

    ghost calm = { read_calm R.calm };
}

impl<R: ArmedRead> ArmedFuture for ReadFuture<'_, R> {
    ghost armed = { read_arms R.armed };
}
