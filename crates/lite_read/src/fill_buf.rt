ghost use Rattle.std.specs.Prelude.{◌≡◌, IsSome, IfSome, refl};
ghost use Rattle.lite_read.specs.FillBuf.{FillsOnce};
ghost use Rattle.lite_read.specs.Laws.Polled.{fill_calm};
ghost use Rattle.lite_read.specs.Uses.{polled_laws, PolledByCalls};
ghost use Rattle.lite_read.specs.Laws.Armed.{fill_arms};

use lite_base::{ArmedFuture, CalmFuture, Context, Future, Poll};
use lite_io_base::{ArmedRead, AsyncBufRead, CalmRead, fill};
use std::io;

/// A future that returns a slice of the next bytes of a reader.
///
/// Returned by [`fill_buf`](crate::make::fill_buf). Each poll fills the buffer of the reader once. The value
/// is the bytes, of which none is consumed, or the error of the reader. An empty slice means end of file. Do
/// not poll the future again after a value `Ok`: it no longer borrows the reader then. After an error it may
/// be polled again, and the reader is as the error left it.
#[derive(Debug, Drop)]
pub struct FillBuf<'a, R> {
    // None once a slice of its bytes was returned.
    pub(crate) reader: Option<&'a mut R>,
}

impl<'a, R: AsyncBufRead> Future for FillBuf<'a, R> {
    type Output = io::Result<&'a [u8]>;

    ghost can_poll = { λ x. IsSome x.reader };

    ghost run = { PolledByCalls (FillsOnce R.reads R.buffer_of) };

    ghost registers = { λ x fact. IfSome x.reader (λ r. R.registers r.now fact) };

    ghost laws = { polled_laws (FillsOnce R.reads R.buffer_of) (λ x y c h. rw h.after refl) };

    fn poll(&mut self, cx: &mut Context<'_>) -> Poll<io::Result<&'a [u8]>> {
        let Some(reader) = self.reader.take() else {
            unreachable!();
        };
        match fill(reader, cx) {
            Poll::Ready(Ok(())) => Poll::Ready(Ok(shown(reader))),
            Poll::Ready(Err(e)) => {
                self.reader = Some(reader);
                Poll::Ready(Err(e))
            }
            Poll::Pending => {
                self.reader = Some(reader);
                Poll::Pending
            }
        }
    }
}

impl<R: AsyncBufRead + CalmRead> CalmFuture for FillBuf<'_, R> {
    ghost is_calm = { λ x. IfSome x.reader (λ r. R.is_calm r.now) };

    ghost calm = { fill_calm R.calm };
}

impl<R: AsyncBufRead + ArmedRead> ArmedFuture for FillBuf<'_, R> {
    ghost armed = { fill_arms R.armed };
}

// Returns a slice of the buffer that lives as long as the borrow of the reader.
fn shown<'a, R: AsyncBufRead>(reader: &'a R) -> &'a [u8]
    ensures { result.now ≡ R.buffer_of reader.now }
{
    reader.buffer()
}
