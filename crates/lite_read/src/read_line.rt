ghost use Rattle.std.specs.Prelude.{⊤, ◌≡◌, ◌≤◌, ◌<◌, [], ◌++◌, ◌+◌, Ok, true, length, take, IfErr, IfOk, IsUtf8, string_bytes, vec_capacity};
ghost use Rattle.lite_read.specs.Uses.{is_ascii, error_kind, list_all, OutOfMemory, OneStep, Terminates-map, bytes, Sameness, SameByKind};
ghost use Rattle.lite_read.specs.Holding.{TextStays, room_for};
ghost use Rattle.lite_read.specs.ReadLine.{LineHolds, LineLacksMemory, ReadsLine, ReadsLineByRoom, line_over, read_line_fold};
ghost use Rattle.lite_read.specs.PollSteps.{AnswersTextByRoom, TakesTextIn};
ghost use Rattle.lite_read.specs.Texts.{FinishesText};
ghost use Rattle.lite_read.specs.Laws.Refusals.{room_calm};
ghost use Rattle.lite_read.specs.Laws.Marks.{until_deterministic};
ghost use Rattle.lite_read.specs.Laws.ReadFold.{takes_given};
ghost use Rattle.lite_read.specs.Laws.Texts.{TextAlike, text_steady, line_room, text_room_laws};
ghost use Rattle.lite_read.specs.Laws.Armed.{room_arms};

use crate::find::find_line;
use crate::held::{finish, lends_text, take_in, take_text};
use lite_base::{ArmedFuture, CalmFuture, Context, Future, Poll, PollSteps, SteadyFuture, drive};
use lite_io_base::{ArmedRead, AsyncBufRead, CalmRead, CountedRead, SteadyRead};
use std::alloc::{Allocator, Global};
use std::io;

/// A future that appends one line of a reader to a text.
///
/// Returned by [`read_line`](crate::make::read_line). The value is the number of bytes appended, including
/// the newline (0x0A) if there is one. It is 0 if the reader is at end of file. No byte after the newline is
/// consumed. While a poll is pending, the text is unchanged.
///
/// The value is an error of the kind `InvalidData` if the bytes are not UTF-8; they are dropped then. It is
/// the error of the reader if there is one, or an error of the kind `OutOfMemory` if memory is refused. After
/// these two, the bytes read so far are appended if they are UTF-8, and dropped if not. Bytes refused for
/// lack of memory are not consumed.
///
/// A line that is whole in the buffer of the reader is appended to the text at once. The pieces of any other
/// line are read into the memory of the text if that is empty, or into more memory, which the text takes over.
/// So a text that is cleared before each line allocates only for a longer line.
#[derive(Debug, Drop)]
pub struct ReadLineFuture<'a, R, A: Allocator = Global> {
    pub(crate) reader: &'a mut R,
    pub(crate) text: &'a mut String<A>,
    // What was read of the line.
    pub(crate) bytes: Vec<u8, A>,
    // Whether that is ASCII.
    pub(crate) ascii: bool,
}

impl<R: AsyncBufRead, A: Allocator + Copy> ReadLineFuture<'_, R, A> {
    // Adds the first `amount` bytes of the buffer of the reader, of which `ascii` says whether they are
    // ASCII.
    #[tactic(auto, using(crate::proofs::Texts::ascii_more))]
    fn take_in(&mut self, amount: usize, ascii: bool) -> io::Result<()>
        requires held { LineHolds self.old }
        requires within { amount ≤ length (R.buffer_of self.old.reader.now) }
        requires ascii { ascii ≡ list_all is_ascii (take amount (R.buffer_of self.old.reader.now)) }
        ensures held { LineHolds self.new }
        ensures stays { TextStays line_over self.old self.new }
        ensures text { string_bytes self.new.text.now ≡ string_bytes self.old.text.now }
        ensures ok { IfOk result
            (λ u. self.new.bytes.items ≡ self.old.bytes.items ++ take amount (R.buffer_of self.old.reader.now)) }
        ensures taken { IfOk result
            (λ u. R.reads self.old.reader.now
            (bytes (take amount (R.buffer_of self.old.reader.now))) self.new.reader.now) }
        ensures refused { IfErr result (λ e. error_kind e ≡ OutOfMemory) }
        ensures full { IfErr result (λ e. room_for self.old.text.now self.old.bytes
            < length self.old.bytes.items + amount) }
        ensures room { room_for self.old.text.now self.old.bytes ≤ room_for self.new.text.now self.new.bytes }
        ensures unread { IfErr result (λ e. self.new.reader.now ≡ self.old.reader.now) }
        ensures unchanged { IfErr result (λ e. self.new.bytes.items ≡ self.old.bytes.items) }
    {
        take_in(self.reader, amount, self.text, &mut self.bytes)?;
        self.ascii &= ascii;
        Ok(())
    }

    // Returns whether a line in the first `amount` bytes of the buffer can be appended to the text at once: no
    // part of it was read before, and it is UTF-8.
    fn is_direct(&self, amount: usize, ascii: bool) -> bool
        requires within { amount ≤ length (R.buffer_of self.now.reader.now) }
        requires ascii { ascii ≡ list_all is_ascii (take amount (R.buffer_of self.now.reader.now)) }
        ensures none { result ≡ true → vec_capacity self.now.bytes ≡ 0 }
        ensures utf8 { result ≡ true → IsUtf8 (take amount (R.buffer_of self.now.reader.now)) }
    {
        self.bytes.capacity() == 0 && lends_text(self.reader, amount, ascii)
    }

    // Appends the line in the first `amount` bytes of the buffer to the text at once, and returns the value.
    fn append_line(&mut self, amount: usize) -> io::Result<usize>
        requires held { LineHolds self.old }
        requires none { vec_capacity self.old.bytes ≡ 0 }
        requires within { amount ≤ length (R.buffer_of self.old.reader.now) }
        requires utf8 { IsUtf8 (take amount (R.buffer_of self.old.reader.now)) }
        ensures held { LineHolds self.new }
        ensures stays { TextStays line_over self.old self.new }
        ensures none { (self.old.bytes.items ≡ []) × (self.new.bytes.items ≡ []) }
        ensures value { IfOk result (λ n. n ≡ amount) }
        ensures ok { IfOk result (λ n. string_bytes self.new.text.now
            ≡ string_bytes self.old.text.now ++ take amount (R.buffer_of self.old.reader.now)) }
        ensures taken { IfOk result (λ n. R.reads self.old.reader.now
            (bytes (take amount (R.buffer_of self.old.reader.now))) self.new.reader.now) }
        ensures refused { IfErr result (λ e. error_kind e ≡ OutOfMemory) }
        ensures full { IfErr result (λ e. room_for self.old.text.now self.old.bytes < amount) }
        ensures unread { IfErr result (λ e. self.new.reader.now ≡ self.old.reader.now) }
        ensures unchanged { IfErr result (λ e. string_bytes self.new.text.now ≡ string_bytes self.old.text.now) }
    {
        take_text(self.reader, amount, self.text)?;
        Ok(amount)
    }

    // The value of a line that was read whole.
    fn whole(&mut self) -> io::Result<usize>
        requires { LineHolds self.old }
        ensures { FinishesText line_over self.old (Ok (length self.old.bytes.items)) result self.new }
    {
        let amount = self.bytes.len();
        self.finish(Ok(amount))
    }

    // Returns the value for a line whose bytes are held, given what reading returned.
    #[tactic(auto, using(crate::proofs::Texts::all_utf8))]
    fn finish(&mut self, read: io::Result<usize>) -> io::Result<usize>
        requires { LineHolds self.old }
        ensures { FinishesText line_over self.old read result self.new }
    {
        let value = finish(self.text, &mut self.bytes, read, self.ascii);
        self.ascii = true;
        value
    }
}

// Returns how many bytes are in the buffer of a reader.
fn lent_by<R: AsyncBufRead>(reader: &R) -> usize
    ensures { result ≡ length (R.buffer_of reader.now) }
{
    reader.buffer().len()
}

impl<R: AsyncBufRead + CountedRead, A: Allocator + Copy> PollSteps for ReadLineFuture<'_, R, A> {
    type Output = io::Result<usize>;

    ghost can_step = { λ x. R.ranks.counts x.reader.now × LineHolds x };

    ghost step = { OneStep (TakesTextIn line_over (read_line_fold (λ _. ⊤)) R.reads)
        (AnswersTextByRoom line_over read_line_fold (LineLacksMemory R.buffer_of) R.reads) };

    ghost step_registers = { λ x. R.registers x.reader.now };

    ghost goes_on = { λ x y c h. (R.counting.counts_on x.reader.now y.reader.now (bytes h.taken) c.0 h.came, h.stays.2) };

    ghost finite = { λ x c. Terminates-map (λ y. y.reader.now) takes_given x (R.ends x.reader.now c.0) };

    fn poll_step(&mut self, cx: &mut Context<'_>) -> Option<Poll<io::Result<usize>>> {
        match find_line(self.reader, cx) {
            Poll::Ready(Ok((Some(at), ascii))) => {
                if self.is_direct(at + 1, ascii) {
                    return Some(Poll::Ready(self.append_line(at + 1)));
                }
                match self.take_in(at + 1, ascii) {
                    Ok(()) => Some(Poll::Ready(self.whole())),
                    Err(e) => Some(Poll::Ready(self.finish(Err(e)))),
                }
            }
            Poll::Ready(Ok((None, ascii))) => {
                let amount = lent_by(self.reader);
                if amount == 0 {
                    return Some(Poll::Ready(self.whole()));
                }
                match self.take_in(amount, ascii) {
                    Ok(()) => None,
                    Err(e) => Some(Poll::Ready(self.finish(Err(e)))),
                }
            }
            Poll::Ready(Err(e)) => Some(Poll::Ready(self.finish(Err(e)))),
            Poll::Pending => Some(Poll::Pending),
        }
    }
}

impl<R: AsyncBufRead + CountedRead, A: Allocator + Copy> Future for ReadLineFuture<'_, R, A> {
    type Output = io::Result<usize>;

    ghost can_poll = { λ x. R.ranks.counts x.reader.now × LineHolds x };

    ghost run = { ReadsLineByRoom R.buffer_of R.reads };

    ghost registers = { λ x. R.registers x.reader.now };

    ghost laws = { text_room_laws (line_room R.buffer_of) R.read_laws R.counting };

    fn poll(&mut self, cx: &mut Context<'_>) -> Poll<io::Result<usize>> {
        drive(self, cx)
    }
}

impl<R: SteadyRead + AsyncBufRead + CountedRead, A: Allocator + Copy> SteadyFuture
    for ReadLineFuture<'_, R, A> {
    ghost ample = { ReadsLine (λ _. ⊥) R.ample };

    ghost needs_none = { ⊥ };

    ghost same = { Sameness.by SameByKind };

    ghost alike = { TextAlike line_over R.alike };

    ghost steady = { text_steady line_over read_line_fold (until_deterministic 10) R.steady };
}

impl<R: CalmRead + AsyncBufRead + CountedRead, A: Allocator + Copy> CalmFuture
    for ReadLineFuture<'_, R, A> {
    ghost is_calm = { λ x. R.is_calm x.reader.now };

    ghost calm = { room_calm R.calm };
}

impl<R: ArmedRead + AsyncBufRead + CountedRead, A: Allocator + Copy> ArmedFuture
    for ReadLineFuture<'_, R, A> {
    ghost armed = { room_arms R.armed };
}
