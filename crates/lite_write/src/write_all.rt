ghost use Rattle.std.specs.Prelude.{[], ◌∷◌, length, ⊤};
ghost use Rattle.lite_write.specs.Uses.{OneStep};
ghost use Rattle.lite_base.specs.Laws.Ranks.{Terminates-count};
ghost use Rattle.lite_write.specs.Laws.WriteAll.{all_calm, all_steady, all_laws, left_falls};
ghost use Rattle.lite_write.specs.WriteAll.{WritesSome, NoneFails, WithoutFailure, WritesAll};
ghost use Rattle.lite_write.specs.Laws.Armed.{all_arms};

use lite_base::{ArmedFuture, CalmFuture, Context, Future, Poll, PollSteps, SteadyFuture, drive};
use lite_io_base::{ArmedWrite, AsyncWrite, CalmWrite};
use std::io;
use std::io::ErrorKind;

/// A future that writes until all bytes of a buffer are taken.
///
/// Returned by [`write_all`](crate::make::write_all). If no byte is left, it writes nothing. The value is
/// `Ok` once all bytes are taken. It is an error of the kind `WriteZero` if a write takes no bytes, and
/// otherwise the error of the writer. What was taken stays taken.
#[derive(Debug, Drop)]
pub struct WriteAllFuture<'a, W> {
    pub(crate) writer: &'a mut W,
    // What is not taken yet.
    pub(crate) buf: &'a [u8],
}

impl<W: AsyncWrite> PollSteps for WriteAllFuture<'_, W> {
    type Output = io::Result<()>;

    ghost can_step = { λ _. ⊤ };

    ghost step = { OneStep (WritesSome W.writes) (λ x a y. WritesAll W.writes x (a ∷ []) y) };

    ghost step_registers = { λ x. W.write_registers x.writer.now };

    ghost goes_on = { λ x y c h. tt };

    ghost finite = { λ x c. Terminates-count (λ y. length y.buf.now) left_falls x };

    fn poll_step(&mut self, cx: &mut Context<'_>) -> Option<Poll<io::Result<()>>> {
        if self.buf.is_empty() {
            return Some(Poll::Ready(Ok(())));
        }
        match self.writer.poll_write(cx, self.buf) {
            Poll::Ready(Ok(0)) => Some(Poll::Ready(Err(ErrorKind::WriteZero.into()))),
            Poll::Ready(Ok(n)) => {
                self.buf = &self.buf[n..];
                None
            }
            Poll::Ready(Err(e)) => Some(Poll::Ready(Err(e))),
            Poll::Pending => Some(Poll::Pending),
        }
    }
}

impl<W: AsyncWrite> Future for WriteAllFuture<'_, W> {
    type Output = io::Result<()>;

    ghost run = { WritesAll W.writes };

    ghost registers = { λ x. W.write_registers x.writer.now };

    ghost laws = { all_laws W.write_laws };

    fn poll(&mut self, cx: &mut Context<'_>) -> Poll<io::Result<()>> {
        drive(self, cx)
    }
}

// If each write takes some bytes and none fails.
impl<W: AsyncWrite> SteadyFuture for WriteAllFuture<'_, W> {
    ghost ample = { WritesAll (WithoutFailure W.writes) };

    ghost needs_none = { NoneFails W.writes };

    ghost alike = { λ _ _. ⊤ };

    ghost steady = { all_steady W.write_laws };
}

impl<W: CalmWrite> CalmFuture for WriteAllFuture<'_, W> {
    ghost is_calm = { λ x. W.is_calm x.writer.now };

    ghost calm = { all_calm W.calm };
}

impl<W: ArmedWrite> ArmedFuture for WriteAllFuture<'_, W> {
    ghost armed = { all_arms W.armed };
}
