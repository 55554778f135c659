ghost use Rattle.std.specs.Prelude.{⊤, ◌≡◌, ◌≤◌, ◌<◌, ◌++◌, ◌+◌, [], ◌∷◌, None, length, take, vec_capacity, IfErr, IfOk};
ghost use Rattle.lite_read.specs.Uses.{is_ascii, error_kind, list_all, OutOfMemory, OneStep, Terminates-map, NoHint, bytes, Keeps, Registered, Sameness};
ghost use Rattle.lite_read.specs.Uses.{SameOr, without_return};
ghost use Rattle.lite_read.specs.Laws.Counting.{flow_counting, flow_ranks, pieces_out};
ghost use Rattle.lite_read.specs.Laws.DeterministicPieces.{FlowAlike, flow_calm, flow_steady, items_deterministic};
ghost use Rattle.lite_read.specs.Laws.Marks.{SameText, line_one, text_one};
ghost use Rattle.lite_read.specs.Laws.ReadFold.{takes_given};
ghost use Rattle.lite_read.specs.Laws.Segments.{flow_counting_laws};
ghost use Rattle.lite_read.specs.Texts.{IsText};
ghost use Rattle.lite_read.specs.Lines.{GivesLines, LineLacksRoom, lines_over, line_fold};
ghost use Rattle.lite_read.specs.PollSteps.{TakesPieceIn};
ghost use Rattle.lite_read.specs.Laws.Armed.{flow_arms};

use crate::find::find_line;
use crate::text::LineBytes;
use lite_base::{
    ArmedStream, CalmStream, Context, OkCounted, Poll, PollSteps, SteadyStream, Stream, drive,
};
use lite_io_base::{ArmedRead, AsyncBufRead, CalmRead, CountedRead, SteadyRead};
use std::alloc::Global;
use std::io;

/// A stream of the lines of a reader.
///
/// Returned by [`lines`](crate::make::lines). An item is `Ok` with the text before a newline (0x0A), without
/// a carriage return (0x0D) at its end. The text before end of file is a line too, unless it is empty; it
/// keeps its carriage return. Size hint: `(0, None)`.
///
/// An item is an error of the kind `InvalidData` if a line is not UTF-8; the next poll continues after that
/// line. It is the error of the reader if there is one, or an error of the kind `OutOfMemory` if memory is
/// refused. After these two the bytes before them are kept, and the next poll continues the line.
#[derive(Debug, Drop)]
pub struct Lines<R> {
    pub(crate) reader: R,
    // What was read of the next line.
    pub(crate) held: LineBytes,
    pub(crate) alloc: Global,
}

impl<R: AsyncBufRead> Lines<R> {
    // Takes in the bytes before the newline at `at`, and takes the newline.
    fn take_line(&mut self, at: usize, ascii: bool) -> io::Result<()>
        requires within { at < length (R.buffer_of self.old.reader) }
        requires ascii { ascii ≡ list_all is_ascii (take at (R.buffer_of self.old.reader)) }
        ensures ok { IfOk result
            (λ u. self.new.held.bytes.items ≡ self.old.held.bytes.items ++ take at (R.buffer_of self.old.reader)) }
        ensures taken { IfOk result
            (λ u. R.reads self.old.reader (bytes (take (at + 1) (R.buffer_of self.old.reader))) self.new.reader) }
        ensures refused { IfErr result (λ e. error_kind e ≡ OutOfMemory) }
        ensures full { IfErr result (λ e. vec_capacity self.old.held.bytes < length self.old.held.bytes.items + at) }
        ensures unread { IfErr result (λ e. self.new.reader ≡ self.old.reader) }
        ensures held { IfErr result (λ e. self.new.held.bytes.items ≡ self.old.held.bytes.items) }
    {
        self.held.reserve_exact(at)?;
        self.held.append(&self.reader.buffer()[..at], ascii)?;
        self.reader.consume(at + 1);
        Ok(())
    }

    // Takes in all bytes that are there.
    fn take_in(&mut self, ascii: bool) -> io::Result<()>
        requires { ascii ≡ list_all is_ascii (R.buffer_of self.old.reader) }
        ensures ok { IfOk result
            (λ u. self.new.held.bytes.items ≡ self.old.held.bytes.items ++ R.buffer_of self.old.reader) }
        ensures taken { IfOk result (λ u. R.reads self.old.reader (bytes (R.buffer_of self.old.reader)) self.new.reader) }
        ensures refused { IfErr result (λ e. error_kind e ≡ OutOfMemory) }
        ensures full { IfErr result (λ e. vec_capacity self.old.held.bytes
            < length self.old.held.bytes.items + length (R.buffer_of self.old.reader)) }
        ensures room { vec_capacity self.old.held.bytes ≤ vec_capacity self.new.held.bytes }
        ensures unread { IfErr result (λ e. self.new.reader ≡ self.old.reader) }
        ensures held { IfErr result (λ e. self.new.held.bytes.items ≡ self.old.held.bytes.items) }
    {
        let available = self.reader.buffer();
        let amount = available.len();
        self.held.append(available, ascii)?;
        self.reader.consume(amount);
        Ok(())
    }
}

impl<R: AsyncBufRead + CountedRead> PollSteps for Lines<R> {
    type Output = Option<io::Result<String>>;

    ghost can_step = { λ x. R.ranks.counts x.reader };

    ghost step = { OneStep (TakesPieceIn lines_over (line_fold ⊤) R.reads)
        (λ x a y. GivesLines R.reads (LineLacksRoom R.buffer_of x y) x (a ∷ []) y) };

    ghost step_registers = { λ x. R.registers x.reader };

    ghost goes_on = { λ x y c h. R.counting.counts_on x.reader y.reader (bytes h.taken) c h.came };

    ghost finite = { λ x c. Terminates-map (λ y. y.reader) takes_given x (R.ends x.reader c) };

    fn poll_step(&mut self, cx: &mut Context<'_>) -> Option<Poll<Option<io::Result<String>>>> {
        match find_line(&mut self.reader, cx) {
            Poll::Ready(Ok((Some(at), ascii))) => match self.take_line(at, ascii) {
                Ok(()) => Some(Poll::Ready(Some(self.held.whole(self.alloc)))),
                Err(e) => Some(Poll::Ready(Some(Err(e)))),
            },
            Poll::Ready(Ok((None, ascii))) => {
                if self.reader.buffer().is_empty() {
                    return Some(Poll::Ready(self.held.last(self.alloc)));
                }
                match self.take_in(ascii) {
                    Ok(()) => None,
                    Err(e) => Some(Poll::Ready(Some(Err(e)))),
                }
            }
            Poll::Ready(Err(e)) => Some(Poll::Ready(Some(Err(e)))),
            Poll::Pending => Some(Poll::Pending),
        }
    }
}

impl<R: AsyncBufRead + CountedRead> Stream for Lines<R> {
    type Item = io::Result<String>;

    ghost can_poll = { λ x. R.ranks.counts x.reader };

    ghost run = { GivesLines R.reads ⊤ };

    ghost registers = { λ x. R.registers x.reader };

    ghost hints = { NoHint };

    ghost laws = { flow_counting_laws lines_over (line_fold ⊤) R.read_laws R.counting };

    fn poll_next(&mut self, cx: &mut Context<'_>) -> Poll<Option<io::Result<String>>>
        requires { R.ranks.counts self.old.reader }
        ensures ran { GivesLines R.reads ⊤ self.old (result ∷ []) self.new }
        ensures again { R.ranks.counts self.new.reader }
        ensures registered { Registered result (R.registers self.new.reader) cx.new }
        ensures context { Keeps cx.old cx.new }

        // Memory is refused only if the buffer had no room for the bytes of the line that are there.
        ensures full { GivesLines R.reads (LineLacksRoom R.buffer_of self.old self.new) self.old (result ∷ []) self.new }
    {
        drive(self, cx)
    }

    fn size_hint(&self) -> (usize, Option<usize>) {
        (0, None)
    }
}

// A rank over `Ok` items only: memory may be refused in every poll, so an `Err` item does not lower it.
impl<R: AsyncBufRead + CountedRead> OkCounted for Lines<R> {
    type Ok = String;

    type Err = io::Error;

    ghost ok_ranks = { flow_ranks lines_over R.ranks };

    ghost ok_counting = { flow_counting lines_over (λ k. pieces_out 10 ⊤ (λ xs. IsText (without_return xs)) IsText) R.read_laws R.counting };
}

impl<R: AsyncBufRead + CountedRead + SteadyRead> SteadyStream for Lines<R> {
    ghost ample = { GivesLines R.ample ⊥ };

    ghost needs_none = { ⊥ };

    ghost same = { Sameness.by (SameOr SameText) };

    ghost alike = { FlowAlike lines_over R.alike };

    ghost steady = { flow_steady lines_over (line_fold ⊤) (line_fold ⊥) (λ k. items_deterministic line_one text_one 10) R.steady };
}

impl<R: AsyncBufRead + CountedRead + CalmRead> CalmStream for Lines<R> {
    ghost is_calm = { λ x. R.is_calm x.reader };

    ghost calm = { flow_calm lines_over (line_fold ⊤) R.calm };
}

impl<R: AsyncBufRead + CountedRead + ArmedRead> ArmedStream for Lines<R> {
    ghost armed = { flow_arms lines_over (line_fold ⊤) R.armed };
}
