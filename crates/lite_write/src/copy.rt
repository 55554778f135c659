ghost use Rattle.std.specs.Prelude.{◌≡◌, ◌<◌, ◌↔◌, ◌^◌, [], ◌∷◌, length, IfOk, IfSome, IsTrue};
ghost use Rattle.lite_write.specs.Uses.{IfReady, Keeps, bytes_ahead, reader_capacity, reader_inner, Registered, SameByKind, Sameness};
ghost use Rattle.lite_base.specs.Laws.Ranks.{Terminates-map};
ghost use Rattle.lite_buffered.specs.Laws.BufReader.{through_counting};
ghost use Rattle.lite_io_base.specs.Laws.Counting.{counting_ends};
ghost use Rattle.lite_io_base.specs.Marks.{fill_marks};
ghost use Rattle.lite_io_base.specs.Runs.{OnlyOkLends};
ghost use Rattle.lite_write.specs.declared.copy.Phase.TheVariants.{Copying, Flushing};

use lite_base::{CalmFuture, Context, Future, Poll, PollSteps, SteadyFuture, drive};
use lite_buffered::BufReader;
use lite_io_base::{
    AsyncBufRead, AsyncRead, AsyncWrite, CalmRead, CalmWrite, CountedRead, SteadyRead,
};
use std::io;
use std::io::ErrorKind;

/// How far a copy is.
#[derive(Clone, Copy, Debug)]
pub(crate) enum Phase {
    Copying,
    // The reader's end was met, and all that it gave is written.
    Flushing,
}

/// A future that copies everything from a reader, up to its first end of file, to a writer, and then flushes
/// the writer.
///
/// Returned by [`copy`](crate::make::copy). The value is the number of bytes written. After `u64::MAX` the
/// count wraps to 0. The value is an error of the reader, of a write or of the flush if there is one. It is
/// an error of the kind `WriteZero` if a write takes no bytes. After an error what was written stays written.
/// Bytes that were read but not written are lost with the future.
///
/// The reader is polled only if nothing is left to be written, and never after its end of file: if the flush
/// is pending, the next poll flushes again. No poll allocates.
#[derive(Debug, Drop)]
pub struct CopyFuture<R, W> {
    pub(crate) reader: BufReader<R>,
    pub(crate) writer: W,
    // How many bytes the writer took, in 64 bits.
    pub(crate) amount: u64,
    pub(crate) phase: Phase,
    ghost buffered: { 0 < reader_capacity reader },
    ghost counted: { amount < 2 ^ 64 },
    ghost drained: { phase ≡ Flushing → bytes_ahead reader ≡ [] },
}

/// Fills the buffer of a reader, and returns whether it is empty then.
fn fill<R: AsyncBufRead>(reader: &mut R, cx: &mut Context<'_>) -> Poll<io::Result<bool>>
    ensures ran { R.reads reader.old (fill_marks result (R.buffer_of reader.new)) reader.new }
    ensures empty { IfReady result (λ r. IfOk r (λ empty. IsTrue empty ↔ R.buffer_of reader.new ≡ [])) }
    ensures lends { OnlyOkLends result (R.buffer_of reader.new) }
    ensures registered { Registered result (R.registers reader.new) cx.new }
    ensures context { Keeps cx.old cx.new }
{
    match reader.poll_fill_buf(cx) {
        Poll::Ready(Ok(bytes)) => Poll::Ready(Ok(bytes.is_empty())),
        Poll::Ready(Err(e)) => Poll::Ready(Err(e)),
        Poll::Pending => Poll::Pending,
    }
}

impl<R: AsyncRead, W: AsyncWrite> CopyFuture<R, W> {
    ghost use Rattle.lite_write.specs.Uses.{OneStep};
    ghost use Rattle.lite_write.specs.Copy.{CopiesSome, CopyRegisters, Moves};

    // Offers what is buffered to the writer, and takes what was written from the buffer.
    #[tactic(auto, using(crate::proofs::Copying::writer_waits, crate::proofs::Copying::writer_fails, crate::proofs::Copying::writer_takes_none))]
    fn write_some(&mut self, cx: &mut Context<'_>) -> Option<Poll<io::Result<u64>>>
        requires phase { self.old.phase ≡ Copying }
        requires some { 0 < length (bytes_ahead self.old.reader) }
        ensures stepped { OneStep (CopiesSome R.reads W.writes)
            (λ x a y. Moves R.reads W.writes x (a ∷ []) y) self.old result self.new }
        ensures registered { IfSome result
            (λ answer. Registered answer (CopyRegisters R.registers W.write_registers self.new) cx.new) }
        ensures context { Keeps cx.old cx.new }
    {
        match self.writer.poll_write(cx, self.reader.buffer()) {
            Poll::Ready(Ok(0)) => Some(Poll::Ready(Err(ErrorKind::WriteZero.into()))),
            Poll::Ready(Ok(n)) => {
                self.reader.consume(n);
                self.amount = self.amount.wrapping_add(n as u64);
                None
            }
            Poll::Ready(Err(e)) => Some(Poll::Ready(Err(e))),
            Poll::Pending => Some(Poll::Pending),
        }
    }

    // Flushes the writer.
    #[tactic(auto, using(crate::proofs::Copying::writer_waits, crate::proofs::Copying::writer_fails, crate::proofs::Copying::writer_is_flushed))]
    fn flush(&mut self, cx: &mut Context<'_>) -> Poll<io::Result<u64>>
        requires phase { self.old.phase ≡ Flushing }
        ensures ran { Moves R.reads W.writes self.old (result ∷ []) self.new }
        ensures registered { Registered result (CopyRegisters R.registers W.write_registers self.new) cx.new }
        ensures context { Keeps cx.old cx.new }
    {
        match self.writer.poll_flush(cx) {
            Poll::Ready(Ok(())) => Poll::Ready(Ok(self.amount)),
            Poll::Ready(Err(e)) => Poll::Ready(Err(e)),
            Poll::Pending => Poll::Pending,
        }
    }
}

impl<R: CountedRead, W: AsyncWrite> PollSteps for CopyFuture<R, W> {
    ghost use Rattle.lite_write.specs.Uses.{OneStep};
    ghost use Rattle.lite_write.specs.Copy.{CopiesSome, CopyRegisters, Moves};
    ghost use Rattle.lite_write.specs.Laws.Copy.{some_given};

    type Output = io::Result<u64>;

    ghost can_step = { λ x. R.ranks.counts (reader_inner x.reader) };

    ghost step = { OneStep (CopiesSome R.reads W.writes) (λ x a y. Moves R.reads W.writes x (a ∷ []) y) };

    ghost step_registers = { CopyRegisters R.registers W.write_registers };

    ghost goes_on = { λ x y c h. R.counting.counts_on (reader_inner x.reader) (reader_inner y.reader) h.moves.told c h.moves.came };

    ghost finite = { λ x c. Terminates-map (λ y. y.reader) some_given x (counting_ends (through_counting R.counting) x.reader c) };

    #[tactic(auto, using(crate::proofs::Copying::reader_waits, crate::proofs::Copying::reader_fails, crate::proofs::Copying::is_copying))]
    fn poll_step(&mut self, cx: &mut Context<'_>) -> Option<Poll<io::Result<u64>>> {
        if let Phase::Flushing = self.phase {
            return Some(self.flush(cx));
        }
        match fill(&mut self.reader, cx) {
            Poll::Ready(Ok(true)) => {
                self.phase = Phase::Flushing;
                Some(self.flush(cx))
            }
            Poll::Ready(Ok(false)) => self.write_some(cx),
            Poll::Ready(Err(e)) => Some(Poll::Ready(Err(e))),
            Poll::Pending => Some(Poll::Pending),
        }
    }
}

impl<R: CountedRead, W: AsyncWrite> Future for CopyFuture<R, W> {
    ghost use Rattle.lite_write.specs.Copy.{CopyRegisters, CopyRuns};
    ghost use Rattle.lite_write.specs.Laws.Copy.{copies_laws};

    type Output = io::Result<u64>;

    ghost can_poll = { λ x. R.ranks.counts (reader_inner x.reader) };

    ghost run = { CopyRuns R.reads W.writes };

    ghost registers = { CopyRegisters R.registers W.write_registers };

    ghost laws = { copies_laws R.read_laws W.write_laws R.counting };

    fn poll(&mut self, cx: &mut Context<'_>) -> Poll<io::Result<u64>> {
        drive(self, cx)
    }
}

// If each write takes some bytes and none fails.
impl<R: CountedRead + SteadyRead, W: AsyncWrite> SteadyFuture for CopyFuture<R, W> {
    ghost use Rattle.lite_write.specs.Copy.{CopyRuns};
    ghost use Rattle.lite_write.specs.WriteAll.{NoneFails, WithoutFailure};
    ghost use Rattle.lite_write.specs.Laws.Copy.{CopyAlike, copy_steady};

    ghost ample = { CopyRuns R.ample (WithoutFailure W.writes) };

    ghost needs_none = { R.needs_none × NoneFails W.writes };

    ghost same = { Sameness.by SameByKind };

    ghost alike = { CopyAlike R.alike };

    ghost steady = { copy_steady R.steady W.write_laws };
}

impl<R: CountedRead + CalmRead, W: CalmWrite> CalmFuture for CopyFuture<R, W> {
    ghost use Rattle.lite_write.specs.Copy.{source_of};
    ghost use Rattle.lite_write.specs.Laws.Copy.{copy_calm};

    ghost is_calm = { λ x. R.is_calm (source_of x) × W.is_calm x.writer };

    ghost calm = { copy_calm R.calm W.calm };
}
