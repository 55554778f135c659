ghost use Rattle.std.specs.Prelude.{⊤, ◌≤◌, [], ◌∷◌, length};
ghost use Rattle.lite_read.specs.Uses.{OneStep, Sameness, Terminates-map, bytes, SameByKind};
ghost use Rattle.lite_read.specs.PollSteps.{AppendsMore};
ghost use Rattle.lite_read.specs.ReadUntil.{ReadsUntil, ReadsUntilByRoom, UntilLacksRoom};
ghost use Rattle.lite_read.specs.Laws.Refusals.{room_calm};
ghost use Rattle.lite_read.specs.Laws.Marks.{UntilAlike, until_steady};
ghost use Rattle.lite_read.specs.Laws.ReadFold.{takes_given};
ghost use Rattle.lite_read.specs.Laws.ReadUntil.{stays_within, until_room_laws};
ghost use Rattle.lite_read.specs.Laws.Armed.{room_arms};

use crate::append::append;
use crate::find::find_byte;
use lite_base::{ArmedFuture, CalmFuture, Context, Future, Poll, PollSteps, SteadyFuture, drive};
use lite_io_base::{ArmedRead, AsyncBufRead, CalmRead, CountedRead, SteadyRead};
use std::io;

/// A future that appends the bytes up to and including a delimiter, or up to end of file, to a vector.
///
/// Returned by [`read_until`](crate::make::read_until). The value is the number of bytes appended, including
/// the delimiter. It is 0 if the reader is at end of file. It is the error of the reader if there is one, or
/// an error of the kind `OutOfMemory` if memory is refused. The bytes read before an error are in the vector.
/// Bytes that were not appended are not consumed.
#[derive(Debug, Drop)]
pub struct ReadUntilFuture<'a, R> {
    pub(crate) reader: &'a mut R,
    pub(crate) byte: u8,
    pub(crate) buf: &'a mut Vec<u8>,
    // How long the vector was at first.
    pub(crate) start: usize,
}

impl<R: AsyncBufRead + CountedRead> PollSteps for ReadUntilFuture<'_, R> {
    type Output = io::Result<usize>;

    ghost can_step = { λ x. R.ranks.counts x.reader.now × (x.start ≤ length x.buf.now.items) };

    ghost step = { OneStep (AppendsMore R.reads ⊤) (λ x a y. ReadsUntil R.reads (UntilLacksRoom R.buffer_of x y) x (a ∷ []) y) };

    ghost step_registers = { λ x. R.registers x.reader.now };

    ghost goes_on = { λ x y c h.
        (R.counting.counts_on x.reader.now y.reader.now (bytes h.taken) c.0 h.came, stays_within x y h.stays c.1) };

    ghost finite = { λ x c. Terminates-map (λ y. y.reader.now) takes_given x (R.ends x.reader.now c.0) };

    fn poll_step(&mut self, cx: &mut Context<'_>) -> Option<Poll<io::Result<usize>>> {
        match find_byte(self.reader, cx, self.byte) {
            Poll::Ready(Ok(Some(at))) => match append(self.reader, at + 1, self.buf) {
                Ok(()) => Some(Poll::Ready(Ok(self.buf.len() - self.start))),
                Err(e) => Some(Poll::Ready(Err(e))),
            },
            Poll::Ready(Ok(None)) => {
                let amount = self.reader.buffer().len();
                if amount == 0 {
                    return Some(Poll::Ready(Ok(self.buf.len() - self.start)));
                }
                match append(self.reader, amount, self.buf) {
                    Ok(()) => None,
                    Err(e) => Some(Poll::Ready(Err(e))),
                }
            }
            Poll::Ready(Err(e)) => Some(Poll::Ready(Err(e))),
            Poll::Pending => Some(Poll::Pending),
        }
    }
}

impl<R: AsyncBufRead + CountedRead> Future for ReadUntilFuture<'_, R> {
    type Output = io::Result<usize>;

    ghost can_poll = { λ x. R.ranks.counts x.reader.now × (x.start ≤ length x.buf.now.items) };

    ghost run = { ReadsUntilByRoom R.reads R.buffer_of };

    ghost registers = { λ x. R.registers x.reader.now };

    ghost laws = { until_room_laws R.buffer_of R.read_laws R.counting };

    fn poll(&mut self, cx: &mut Context<'_>) -> Poll<io::Result<usize>> {
        drive(self, cx)
    }
}

impl<R: AsyncBufRead + CountedRead + SteadyRead> SteadyFuture for ReadUntilFuture<'_, R> {
    ghost ample = { ReadsUntil R.ample ⊥ };

    ghost needs_none = { ⊥ };

    ghost same = { Sameness.by SameByKind };

    ghost alike = { UntilAlike R.alike };

    ghost steady = { until_steady R.buffer_of R.steady };
}

impl<R: AsyncBufRead + CountedRead + CalmRead> CalmFuture for ReadUntilFuture<'_, R> {
    ghost is_calm = { λ x. R.is_calm x.reader.now };

    ghost calm = { room_calm R.calm };
}

impl<R: AsyncBufRead + CountedRead + ArmedRead> ArmedFuture for ReadUntilFuture<'_, R> {
    ghost armed = { room_arms R.armed };
}
