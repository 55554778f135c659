ghost use Rattle.std.specs.Prelude.{IsSome, refl};
ghost use Rattle.lite_read.specs.Laws.Polled.{vectored_calm};
ghost use Rattle.lite_read.specs.Uses.{polled_laws, PolledByCalls};
ghost use Rattle.lite_read.specs.ReadVectored.{ReadsVectored};
ghost use Rattle.lite_read.specs.Laws.Armed.{vectored_arms};

use lite_base::{ArmedFuture, CalmFuture, Context, Future, Poll};
use lite_io_base::{ArmedRead, AsyncRead, CalmRead};
use std::io::IoSliceMut;
use std::{io, mem};

/// A future that reads once into several buffers.
///
/// Returned by [`read_vectored`](crate::make::read_vectored). Each poll is one vectored read. The value is
/// the number of bytes read into the buffers, or the error of the reader. 0 means end of file, unless the
/// buffers have no room.
#[derive(Debug, Drop)]
pub struct ReadVectoredFuture<'a, 'b, R> {
    pub(crate) reader: &'a mut R,
    // None only within a poll.
    pub(crate) bufs: Option<&'a mut [IoSliceMut<'b>]>,
}

impl<R: AsyncRead> Future for ReadVectoredFuture<'_, '_, R> {
    type Output = io::Result<usize>;

    ghost can_poll = { λ x. IsSome x.bufs };

    ghost run = { PolledByCalls (ReadsVectored R.reads) };

    ghost registers = { λ x. R.registers x.reader.now };

    ghost laws = { polled_laws (ReadsVectored R.reads) (λ x y c h. rw h.stays refl) };

    fn poll(&mut self, cx: &mut Context<'_>) -> Poll<io::Result<usize>> {
        let Some(bufs) = self.bufs.take() else {
            unreachable!();
        };
        let answer = self.reader.poll_read_vectored(cx, bufs);
        self.bufs = Some(bufs);
        answer
    }
}

impl<R: CalmRead> CalmFuture for ReadVectoredFuture<'_, '_, R> {
    ghost is_calm = { λ x. R.is_calm x.reader.now };

    ghost calm = { vectored_calm R.calm };
}

impl<R: ArmedRead> ArmedFuture for ReadVectoredFuture<'_, '_, R> {
    ghost armed = { vectored_arms R.armed };
}
