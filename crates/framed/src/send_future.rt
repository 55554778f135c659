//! The future that writes encoded frames.
ghost use Rattle.framed.specs.SendFuture.{SendsFrames};
ghost use Rattle.framed.specs.SendLaws.{sends_calm, sends_laws, sends_steady};
ghost use Rattle.lite_write.specs.WriteAll.{NoneFails, WithoutFailure};
ghost use Rattle.std.specs.Prelude.{◌≡◌};

use lite_base::{CalmFuture, Context, Future, Poll, SteadyFuture};
use lite_io_base::{AsyncWrite, CalmWrite};
use lite_write::WriteAllFuture;
use std::{io, mem};

/// A future that writes the frames of items until the writer has taken all of them.
///
/// Returned by [`send`](crate::send) and [`send_all`](crate::send_all), which encode the items. The value is `Ok`
/// once the writer has taken the frames. If the encoder refused an item, the first poll returns its error, and
/// nothing is written. If a write fails, the value is the writer's error, as `E::from` makes it, and what was taken
/// stays taken. The writer is not flushed.
#[derive(Drop)]
pub struct SendFuture<'a, O, E> {
    pub(crate) writing: WriteAllFuture<'a, O>,
    // Whether the items were encoded. An error is here until a poll has returned it.
    pub(crate) encoded: Result<(), E>,
}

impl<O: AsyncWrite, E: From<io::Error>> Future for SendFuture<'_, O, E> {
    type Output = Result<(), E>;

    ghost run = { SendsFrames E.from_gives O.writes };

    ghost registers = { λ x. O.write_registers x.writing.writer.now };

    ghost laws = { sends_laws E.from_gives O.write_laws };

    fn poll(&mut self, cx: &mut Context<'_>) -> Poll<Result<(), E>> {
        if let Err(e) = mem::replace(&mut self.encoded, Ok(())) {
            return Poll::Ready(Err(e));
        }
        match self.writing.poll(cx) {
            Poll::Ready(Ok(())) => Poll::Ready(Ok(())),
            Poll::Ready(Err(e)) => Poll::Ready(Err(E::from(e))),
            Poll::Pending => Poll::Pending,
        }
    }
}

// If each write takes some bytes and none fails.
impl<O: AsyncWrite, E: From<io::Error>> SteadyFuture for SendFuture<'_, O, E> {
    ghost ample = { SendsFrames E.from_gives (WithoutFailure O.writes) };

    ghost needs_none = { NoneFails O.writes };

    ghost alike = { λ x y. y.encoded ≡ x.encoded };

    ghost steady = { sends_steady E.from_gives O.write_laws };
}

impl<O: CalmWrite, E: From<io::Error>> CalmFuture for SendFuture<'_, O, E> {
    ghost is_calm = { λ x. O.is_calm x.writing.writer.now };

    ghost calm = { sends_calm E.from_gives O.calm };
}
