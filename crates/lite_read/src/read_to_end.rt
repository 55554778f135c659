ghost use Rattle.std.specs.Prelude.{◌≡◌, ◌≤◌, ◌<◌, ◌+◌, max, length, vec_capacity, ⊤, OnErr, OnOk};
ghost use Rattle.lite_read.specs.Uses.{OneStep, Sameness, SameByKind};
ghost use Rattle.lite_read.specs.ReadToEnd.{CanAppend, read_front, ReadsToEnd, ReadsToEndByRoom};
ghost use Rattle.lite_read.specs.PollSteps.{AnswersByRoom, ReadsSome};
ghost use Rattle.lite_read.specs.Laws.Refusals.{room_calm};
ghost use Rattle.lite_read.specs.Laws.ReadToEnd.{some_falls, steps_on, to_end_room_laws, ToEndAlike, to_end_steady};
ghost use Rattle.lite_read.specs.Laws.Armed.{room_arms};

use crate::room::{FIRST_ROOM, add_zeros, next_room};
use lite_base::{ArmedFuture, CalmFuture, Context, Future, Poll, PollSteps, SteadyFuture, drive};
use lite_io_base::{ArmedRead, CalmRead, CountedRead, SteadyRead};
use std::alloc::{AllocError, Allocator, Global};
use std::io;
use std::io::ErrorKind;

/// A future that appends everything up to end of file to a vector.
///
/// Returned by [`read_to_end`](crate::make::read_to_end). The value is the number of bytes appended. It is
/// the error of the reader if there is one, or an error of the kind `OutOfMemory` if memory is refused. In
/// each case, and while a poll is pending, everything read so far is in the vector.
///
/// Room is made before each read, so no byte that was read is lost for lack of memory. It is truncated before
/// each poll returns. There are 32 bytes at first, and then twice the largest read that filled its room.
/// Within a poll each byte of that room is zeroed once.
#[derive(Debug, Drop)]
pub struct ReadToEndFuture<'a, R, A: Allocator = Global> {
    pub(crate) reader: &'a mut R,
    pub(crate) buf: &'a mut Vec<u8, A>,
    // How long the vector was.
    pub(crate) start: usize,
    // How much of the vector was there before or was read. The rest is room.
    pub(crate) filled: usize,
    // How much room is made at once, if that is more than the first.
    pub(crate) room: usize,
}

impl<R, A: Allocator> ReadToEndFuture<'_, R, A> {
    // Makes room for a read, if there is none.
    fn make_room(&mut self) -> Result<(), AllocError>
        requires { self.old.filled ≤ length self.old.buf.now.items }
        ensures same { self.new ≡ record self.old { buf = record self.old.buf { now = self.new.buf.now } } }
        ensures front { read_front self.new ≡ read_front self.old }
        ensures room { OnOk result (self.new.filled < length self.new.buf.now.items) }
        ensures within { self.new.filled ≤ length self.new.buf.now.items }
        ensures full { OnErr result (vec_capacity self.old.buf.now < self.old.filled + max 32 self.old.room) }
        ensures grows { vec_capacity self.old.buf.now ≤ vec_capacity self.new.buf.now }
    {
        if self.filled < self.buf.len() {
            return Ok(());
        }
        match self.filled.checked_add(self.room.max(FIRST_ROOM)) {
            Some(len) => add_zeros(self.buf, len),
            None => Err(AllocError),
        }
    }
}

impl<R: CountedRead, A: Allocator> PollSteps for ReadToEndFuture<'_, R, A> {
    type Output = io::Result<usize>;

    ghost can_step = { CanAppend R.ranks.counts };

    ghost step = { OneStep (ReadsSome ⊤ R.reads) (AnswersByRoom R.reads) };

    ghost step_registers = { λ x. R.registers x.reader.now };

    ghost goes_on = { steps_on R.counting };

    ghost finite = { some_falls R.ranks.counts R.ends };

    fn poll_step(&mut self, cx: &mut Context<'_>) -> Option<Poll<io::Result<usize>>> {
        if self.make_room().is_err() {
            return Some(Poll::Ready(Err(ErrorKind::OutOfMemory.into())));
        }
        match self.reader.poll_read(cx, &mut self.buf[self.filled..]) {
            Poll::Ready(Ok(0)) => Some(Poll::Ready(Ok(self.filled - self.start))),
            Poll::Ready(Ok(n)) => {
                self.filled += n;
                self.room = next_room(self.room, n, self.filled == self.buf.len());
                None
            }
            Poll::Ready(Err(e)) => Some(Poll::Ready(Err(e))),
            Poll::Pending => Some(Poll::Pending),
        }
    }
}

impl<R: CountedRead, A: Allocator> Future for ReadToEndFuture<'_, R, A> {
    type Output = io::Result<usize>;

    ghost can_poll = { λ x. (x.start ≤ length x.buf.now.items) × R.ranks.counts x.reader.now };

    ghost run = { ReadsToEndByRoom R.reads };

    ghost registers = { λ x. R.registers x.reader.now };

    ghost laws = { to_end_room_laws R.read_laws R.counting };

    fn poll(&mut self, cx: &mut Context<'_>) -> Poll<io::Result<usize>> {
        self.filled = self.buf.len();
        let answer = drive(self, cx);
        self.buf.truncate(self.filled);
        answer
    }
}

// Where memory was found.
impl<R: SteadyRead + CountedRead, A: Allocator> SteadyFuture for ReadToEndFuture<'_, R, A> {
    ghost ample = { ReadsToEnd ⊥ R.ample };

    ghost needs_none = { ⊥ };

    ghost same = { Sameness.by SameByKind };

    ghost alike = { ToEndAlike R.alike };

    ghost steady = { to_end_steady R.steady };
}

impl<R: CalmRead + CountedRead, A: Allocator> CalmFuture for ReadToEndFuture<'_, R, A> {
    ghost is_calm = { λ x. R.is_calm x.reader.now };

    ghost calm = { room_calm R.calm };
}

impl<R: ArmedRead + CountedRead, A: Allocator> ArmedFuture for ReadToEndFuture<'_, R, A> {
    ghost armed = { room_arms R.armed };
}
