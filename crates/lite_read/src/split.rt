ghost use Rattle.std.specs.Prelude.{⊤, ◌≡◌, ◌≤◌, ◌<◌, ◌++◌, ◌+◌, Option, None, [], ◌∷◌, length, take, vec_capacity, IfErr, IfOk};
ghost use Rattle.lite_read.specs.Uses.{error_kind, OutOfMemory, OneStep, Terminates-map, NoHint, bytes, Keeps, Registered, Sameness, SameOr};
ghost use Rattle.lite_read.specs.PollSteps.{TakesPieceIn};
ghost use Rattle.lite_read.specs.Pieces.{AtEnd};
ghost use Rattle.lite_read.specs.Split.{IsVec, PieceLacksRoom, Splits, split_over, splitting};
ghost use Rattle.lite_read.specs.Laws.Counting.{flow_counting, flow_ranks, pieces_out};
ghost use Rattle.lite_read.specs.Laws.DeterministicPieces.{FlowAlike, flow_calm, flow_steady, items_deterministic};
ghost use Rattle.lite_read.specs.Laws.Marks.{SameVec, vec_one};
ghost use Rattle.lite_read.specs.Laws.ReadFold.{takes_given};
ghost use Rattle.lite_read.specs.Laws.Segments.{flow_counting_laws};
ghost use Rattle.lite_read.specs.Laws.Armed.{flow_arms};

use crate::find::find_byte;
use lite_base::{
    ArmedStream, CalmStream, Context, OkCounted, Poll, PollSteps, SteadyStream, Stream, drive,
};
use lite_io_base::{ArmedRead, AsyncBufRead, CalmRead, CountedRead, SteadyRead};
use std::alloc::Global;
use std::{io, mem};

/// A stream of the pieces of a reader between delimiters.
///
/// Returned by [`split`](crate::make::split). An item is `Ok` with the bytes before a delimiter. The bytes
/// before end of file are an item too, unless there are none. Size hint: `(0, None)`.
///
/// An item is the error of the reader if there is one, or an error of the kind `OutOfMemory` if memory is
/// refused. After an error the bytes before it are kept, and the next poll continues the piece.
#[derive(Debug, Drop)]
pub struct Split<R> {
    pub(crate) reader: R,
    pub(crate) byte: u8,
    // What was read of the next piece.
    pub(crate) held: Vec<u8>,
    pub(crate) alloc: Global,
}

impl<R: AsyncBufRead> Split<R> {
    // Returns the piece before the delimiter at `at`, and consumes both.
    fn cut(&mut self, at: usize) -> io::Result<Vec<u8>>
        requires { at < length (R.buffer_of self.old.reader) }
        ensures ok { IfOk result (λ v. IsVec (self.old.held.items ++ take at (R.buffer_of self.old.reader)) result
            × R.reads self.old.reader (bytes (take (at + 1) (R.buffer_of self.old.reader))) self.new.reader
            × (self.new.held.items ≡ [])) }
        ensures err { IfErr result
            (λ e. (error_kind e ≡ OutOfMemory) × (self.new.reader ≡ self.old.reader)
            × (self.new.held.items ≡ self.old.held.items)) }
        ensures full { IfErr result (λ e. vec_capacity self.old.held < length self.old.held.items + at) }
        ensures byte { self.new.byte ≡ self.old.byte }
    {
        self.held.reserve_exact(at)?;
        self.held.extend_from_slice(&self.reader.buffer()[..at])?;
        self.reader.consume(at + 1);
        Ok(mem::replace(&mut self.held, Vec::new(self.alloc)))
    }

    // Takes in all bytes that are there.
    fn take_in(&mut self) -> io::Result<()>
        ensures ok { IfOk result (λ u. self.new.held.items ≡ self.old.held.items ++ R.buffer_of self.old.reader) }
        ensures taken { IfOk result (λ u. R.reads self.old.reader (bytes (R.buffer_of self.old.reader)) self.new.reader) }
        ensures refused { IfErr result (λ e. error_kind e ≡ OutOfMemory) }
        ensures full { IfErr result (λ e. vec_capacity self.old.held
            < length self.old.held.items + length (R.buffer_of self.old.reader)) }
        ensures room { vec_capacity self.old.held ≤ vec_capacity self.new.held }
        ensures unread { IfErr result (λ e. self.new.reader ≡ self.old.reader) }
        ensures held { IfErr result (λ e. self.new.held.items ≡ self.old.held.items) }
        ensures byte { self.new.byte ≡ self.old.byte }
    {
        let available = self.reader.buffer();
        let amount = available.len();
        self.held.extend_from_slice(available)?;
        self.reader.consume(amount);
        Ok(())
    }

    // Returns what is held at end of file, if there is something.
    fn last(&mut self) -> Option<io::Result<Vec<u8>>>
        ensures value { AtEnd IsVec self.old.held.items result }
        ensures empty { self.new.held.items ≡ [] }
        ensures reader { self.new.reader ≡ self.old.reader }
        ensures byte { self.new.byte ≡ self.old.byte }
    {
        if self.held.is_empty() {
            None
        } else {
            Some(Ok(mem::replace(&mut self.held, Vec::new(self.alloc))))
        }
    }
}

impl<R: AsyncBufRead + CountedRead> PollSteps for Split<R> {
    type Output = Option<io::Result<Vec<u8>>>;

    ghost can_step = { λ x. R.ranks.counts x.reader };

    ghost step = { OneStep (TakesPieceIn split_over (splitting ⊤) R.reads)
        (λ x a y. Splits R.reads (PieceLacksRoom R.buffer_of x y) x (a ∷ []) y) };

    ghost step_registers = { λ x. R.registers x.reader };

    ghost goes_on = { λ x y c h. R.counting.counts_on x.reader y.reader (bytes h.taken) c h.came };

    ghost finite = { λ x c. Terminates-map (λ y. y.reader) takes_given x (R.ends x.reader c) };

    fn poll_step(&mut self, cx: &mut Context<'_>) -> Option<Poll<Option<io::Result<Vec<u8>>>>> {
        match find_byte(&mut self.reader, cx, self.byte) {
            Poll::Ready(Ok(Some(at))) => Some(Poll::Ready(Some(self.cut(at)))),
            Poll::Ready(Ok(None)) => {
                if self.reader.buffer().is_empty() {
                    return Some(Poll::Ready(self.last()));
                }
                match self.take_in() {
                    Ok(()) => None,
                    Err(e) => Some(Poll::Ready(Some(Err(e)))),
                }
            }
            Poll::Ready(Err(e)) => Some(Poll::Ready(Some(Err(e)))),
            Poll::Pending => Some(Poll::Pending),
        }
    }
}

impl<R: AsyncBufRead + CountedRead> Stream for Split<R> {
    type Item = io::Result<Vec<u8>>;

    ghost can_poll = { λ x. R.ranks.counts x.reader };

    ghost run = { Splits R.reads ⊤ };

    ghost registers = { λ x. R.registers x.reader };

    ghost hints = { NoHint };

    ghost laws = { flow_counting_laws split_over (splitting ⊤) R.read_laws R.counting };

    fn poll_next(&mut self, cx: &mut Context<'_>) -> Poll<Option<io::Result<Vec<u8>>>>
        requires { R.ranks.counts self.old.reader }
        ensures ran { Splits R.reads ⊤ self.old (result ∷ []) self.new }
        ensures again { R.ranks.counts self.new.reader }
        ensures registered { Registered result (R.registers self.new.reader) cx.new }
        ensures context { Keeps cx.old cx.new }

        // Memory is refused only if the buffer had no room for the bytes of the piece that are there.
        ensures full { Splits R.reads (PieceLacksRoom R.buffer_of self.old self.new) self.old (result ∷ []) self.new }
    {
        drive(self, cx)
    }

    fn size_hint(&self) -> (usize, Option<usize>) {
        (0, None)
    }
}

// A rank over `Ok` items only: memory may be refused in every poll, so an `Err` item does not lower it.
impl<R: AsyncBufRead + CountedRead> OkCounted for Split<R> {
    type Ok = Vec<u8>;

    type Err = io::Error;

    ghost ok_ranks = { flow_ranks split_over R.ranks };

    ghost ok_counting = { flow_counting split_over (λ k. pieces_out k ⊤ IsVec IsVec) R.read_laws R.counting };
}

impl<R: AsyncBufRead + CountedRead + SteadyRead> SteadyStream for Split<R> {
    ghost ample = { Splits R.ample ⊥ };

    ghost needs_none = { ⊥ };

    ghost same = { Sameness.by (SameOr SameVec) };

    ghost alike = { FlowAlike split_over R.alike };

    ghost steady = { flow_steady split_over (splitting ⊤) (splitting ⊥) (items_deterministic vec_one vec_one) R.steady };
}

impl<R: AsyncBufRead + CountedRead + CalmRead> CalmStream for Split<R> {
    ghost is_calm = { λ x. R.is_calm x.reader };

    ghost calm = { flow_calm split_over (splitting ⊤) R.calm };
}

impl<R: AsyncBufRead + CountedRead + ArmedRead> ArmedStream for Split<R> {
    ghost armed = { flow_arms split_over (splitting ⊤) R.armed };
}
