ghost use Rattle.std.specs.Prelude.{◌≤◌, ◌-◌, [], ◌∷◌, length};
ghost use Rattle.lite_read.specs.Uses.{OneStep, Sameness, SameByKind};
ghost use Rattle.lite_base.specs.Laws.Ranks.{Terminates-count};
ghost use Rattle.lite_read.specs.PollSteps.{ReadsMore};
ghost use Rattle.lite_read.specs.ReadExact.{ReadsExactly};
ghost use Rattle.lite_read.specs.Laws.ReadExact.{exact_laws, room_falls, ExactAlike, exact_calm, exact_steady};
ghost use Rattle.lite_read.specs.Laws.Armed.{gathers_arms};

use lite_base::{ArmedFuture, CalmFuture, Context, Future, Poll, PollSteps, SteadyFuture, drive};
use lite_io_base::{ArmedRead, AsyncRead, CalmRead, SteadyRead};
use std::io;
use std::io::ErrorKind;

/// A future that reads until a buffer is full.
///
/// Returned by [`read_exact`](crate::make::read_exact). Once the buffer is full it reads nothing. The value
/// is `Ok` then. It is an error of the kind `UnexpectedEof` if the reader ends earlier, and otherwise the
/// error of the reader. After either, the bytes read so far are at the front of the buffer.
#[derive(Debug, Drop)]
pub struct ReadExactFuture<'a, R> {
    pub(crate) reader: &'a mut R,
    pub(crate) buf: &'a mut [u8],
    pub(crate) filled: usize,
}

impl<R: AsyncRead> PollSteps for ReadExactFuture<'_, R> {
    type Output = io::Result<()>;

    ghost can_step = { λ x. x.filled ≤ length x.buf.now };

    ghost step = { OneStep (ReadsMore R.reads) (λ x a y. ReadsExactly R.reads x (a ∷ []) y) };

    ghost step_registers = { λ x. R.registers x.reader.now };

    ghost goes_on = { λ x y c h. h.stays.within c };

    ghost finite = { λ x c. Terminates-count (λ y. length y.buf.now - y.filled) room_falls x };

    fn poll_step(&mut self, cx: &mut Context<'_>) -> Option<Poll<io::Result<()>>> {
        if self.filled == self.buf.len() {
            return Some(Poll::Ready(Ok(())));
        }
        match self.reader.poll_read(cx, &mut self.buf[self.filled..]) {
            Poll::Ready(Ok(0)) => Some(Poll::Ready(Err(ErrorKind::UnexpectedEof.into()))),
            Poll::Ready(Ok(n)) => {
                self.filled += n;
                None
            }
            Poll::Ready(Err(e)) => Some(Poll::Ready(Err(e))),
            Poll::Pending => Some(Poll::Pending),
        }
    }
}

impl<R: AsyncRead> Future for ReadExactFuture<'_, R> {
    type Output = io::Result<()>;

    ghost can_poll = { λ x. x.filled ≤ length x.buf.now };

    ghost run = { ReadsExactly R.reads };

    ghost registers = { λ x. R.registers x.reader.now };

    ghost laws = { exact_laws R.read_laws };

    fn poll(&mut self, cx: &mut Context<'_>) -> Poll<io::Result<()>> {
        drive(self, cx)
    }
}

impl<R: SteadyRead> SteadyFuture for ReadExactFuture<'_, R> {
    ghost ample = { ReadsExactly R.ample };

    ghost needs_none = { R.needs_none };

    ghost same = { Sameness.by SameByKind };

    ghost alike = { ExactAlike R.alike };

    ghost steady = { exact_steady R.steady };
}

impl<R: CalmRead> CalmFuture for ReadExactFuture<'_, R> {
    ghost is_calm = { λ x. R.is_calm x.reader.now };

    ghost calm = { exact_calm R.calm };
}

impl<R: ArmedRead> ArmedFuture for ReadExactFuture<'_, R> {
    ghost armed = { gathers_arms R.armed };
}
