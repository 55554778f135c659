ghost use Rattle.std.specs.Prelude.{⊤, ◌≡◌, ◌≤◌, ◌<◌, ◌+◌, max, length, take, OnErr, OnOk, string_bytes};
ghost use Rattle.lite_read.specs.Uses.{OneStep, Sameness, Terminates-map, bytes, SameByKind};
ghost use Rattle.lite_read.specs.Holding.{TextStays, room_for};
ghost use Rattle.lite_read.specs.ReadToString.{ReadsStringByRoom, StringHolds, StringLacksMemory, all_over, ReadsToString, read_to_string_fold, text_front};
ghost use Rattle.lite_read.specs.PollSteps.{AnswersTextByRoom, TakesTextIn};
ghost use Rattle.lite_read.specs.Texts.{FinishesText};
ghost use Rattle.lite_read.specs.Laws.Refusals.{room_calm};
ghost use Rattle.lite_read.specs.Laws.ReadFold.{takes_given};
ghost use Rattle.lite_read.specs.Laws.ReadToEnd.{appends_deterministic};
ghost use Rattle.lite_read.specs.Laws.Texts.{TextAlike, text_steady, string_room, text_room_laws};
ghost use Rattle.lite_read.specs.Laws.Armed.{room_arms};

use crate::held::{finish, make_room};
use crate::room::{FIRST_ROOM, next_room};
use lite_base::{ArmedFuture, CalmFuture, Context, Future, Poll, PollSteps, SteadyFuture, drive};
use lite_io_base::{ArmedRead, CalmRead, CountedRead, SteadyRead};
use std::alloc::{AllocError, Allocator, Global};
use std::io;
use std::io::ErrorKind;

/// A future that appends everything up to end of file to a text.
///
/// Returned by [`read_to_string`](crate::make::read_to_string). The value is the number of bytes appended.
/// While a poll is pending, the text is unchanged.
///
/// The value is an error of the kind `InvalidData` if the bytes are not UTF-8; they are dropped then. It is
/// the error of the reader if there is one, or an error of the kind `OutOfMemory` if memory is refused. After
/// these two, the bytes read so far are appended if they are UTF-8, and dropped if not.
///
/// Room is made before each read, in the text too, so no byte that was read is lost for lack of memory. No
/// byte of it is zeroed twice. An empty text needs no room: the bytes are read into its memory, or into more
/// memory, which the text takes over.
#[derive(Debug, Drop)]
pub struct ReadToStringFuture<'a, R, A: Allocator = Global> {
    pub(crate) reader: &'a mut R,
    pub(crate) text: &'a mut String<A>,
    // What was read, and room behind it.
    pub(crate) bytes: Vec<u8, A>,
    // How much was read.
    pub(crate) filled: usize,
    // How much room is made at once, if that is more than the first.
    pub(crate) room: usize,
}

impl<R, A: Allocator + Copy> ReadToStringFuture<'_, R, A> {
    // Makes room for a read, if there is none.
    fn make_room(&mut self) -> Result<(), AllocError>
        requires { StringHolds self.old }
        ensures held { StringHolds self.new }
        ensures stays { TextStays all_over self.old self.new }
        ensures reader { self.new.reader ≡ self.old.reader }
        ensures filled { self.new.filled ≡ self.old.filled }
        ensures asked { self.new.room ≡ self.old.room }
        ensures text { string_bytes self.new.text.now ≡ string_bytes self.old.text.now }
        ensures front { text_front self.new ≡ text_front self.old }
        ensures room { OnOk result (self.new.filled < length self.new.bytes.items) }
        ensures full { OnErr result (room_for self.old.text.now self.old.bytes < self.old.filled + max 32 self.old.room) }
        ensures grows { room_for self.old.text.now self.old.bytes ≤ room_for self.new.text.now self.new.bytes }
    {
        if self.filled < self.bytes.len() {
            return Ok(());
        }
        match self.filled.checked_add(self.room.max(FIRST_ROOM)) {
            Some(len) => make_room(self.text, &mut self.bytes, len),
            None => Err(AllocError),
        }
    }

    // Returns the value, given what reading returned.
    fn finish(&mut self, read: io::Result<usize>) -> io::Result<usize>
        requires { StringHolds self.old }
        ensures { FinishesText all_over self.old read result self.new }
    {
        self.bytes.truncate(self.filled);
        self.filled = 0;
        finish(self.text, &mut self.bytes, read, false)
    }
}

impl<R: CountedRead, A: Allocator + Copy> PollSteps for ReadToStringFuture<'_, R, A> {
    type Output = io::Result<usize>;

    ghost can_step = { λ x. R.ranks.counts x.reader.now × StringHolds x };

    ghost step = { OneStep (TakesTextIn all_over (read_to_string_fold (λ _. ⊤)) R.reads)
        (AnswersTextByRoom all_over read_to_string_fold (λ x y. StringLacksMemory x) R.reads) };

    ghost step_registers = { λ x. R.registers x.reader.now };

    ghost goes_on = { λ x y c h. (R.counting.counts_on x.reader.now y.reader.now (bytes h.taken) c.0 h.came, h.stays.2) };

    ghost finite = { λ x c. Terminates-map (λ y. y.reader.now) takes_given x (R.ends x.reader.now c.0) };

    fn poll_step(&mut self, cx: &mut Context<'_>) -> Option<Poll<io::Result<usize>>> {
        if self.make_room().is_err() {
            return Some(Poll::Ready(self.finish(Err(ErrorKind::OutOfMemory.into()))));
        }
        match self.reader.poll_read(cx, &mut self.bytes[self.filled..]) {
            Poll::Ready(Ok(0)) => Some(Poll::Ready(self.finish(Ok(self.filled)))),
            Poll::Ready(Ok(n)) => {
                self.filled += n;
                self.room = next_room(self.room, n, self.filled == self.bytes.len());
                None
            }
            Poll::Ready(Err(e)) => Some(Poll::Ready(self.finish(Err(e)))),
            Poll::Pending => Some(Poll::Pending),
        }
    }
}

impl<R: CountedRead, A: Allocator + Copy> Future for ReadToStringFuture<'_, R, A> {
    type Output = io::Result<usize>;

    ghost can_poll = { λ x. R.ranks.counts x.reader.now × StringHolds x };

    ghost run = { ReadsStringByRoom R.reads };

    ghost registers = { λ x. R.registers x.reader.now };

    ghost laws = { text_room_laws string_room R.read_laws R.counting };

    fn poll(&mut self, cx: &mut Context<'_>) -> Poll<io::Result<usize>> {
        drive(self, cx)
    }
}

impl<R: SteadyRead + CountedRead, A: Allocator + Copy> SteadyFuture
    for ReadToStringFuture<'_, R, A> {
    ghost ample = { ReadsToString (λ _. ⊥) R.ample };

    ghost needs_none = { ⊥ };

    ghost same = { Sameness.by SameByKind };

    ghost alike = { TextAlike all_over R.alike };

    ghost steady = { text_steady all_over read_to_string_fold (appends_deterministic 0) R.steady };
}

impl<R: CalmRead + CountedRead, A: Allocator + Copy> CalmFuture for ReadToStringFuture<'_, R, A> {
    ghost is_calm = { λ x. R.is_calm x.reader.now };

    ghost calm = { room_calm R.calm };
}

impl<R: ArmedRead + CountedRead, A: Allocator + Copy> ArmedFuture for ReadToStringFuture<'_, R, A> {
    ghost armed = { room_arms R.armed };
}
