//! The half of a journal that writes.
ghost use Rattle.std.specs.Prelude.{◌≡◌, ◌≤◌, ◌+◌, ◌%◌, ◌^◌, ◌⊎◌, ◌++◌, ◌∷◌, [], length, IfOk, IfSome};
ghost use Rattle.lite_halves.specs.Uses.{io_slices_bytes, IfReady, Keeps, count_of, OutOfMemory, Part, WriteMark, done_marks, write_marks, closed, flushed};
ghost use Rattle.lite_halves.specs.Uses.{Registered};
ghost use Rattle.lite_halves.specs.Counts.{AllWrites, CountsCall, CountsOrNone, HalfDrives, IsOutOfMemory, IsWrite, MakesOrStays};
ghost use Rattle.lite_halves.specs.Counts.{MakesWrite, WriteCounts, taken_bytes_of};
ghost use Rattle.lite_halves.specs.Entry.{asked_in, asked_of, close_note, done_note, flush_note, told_in, write_note};
ghost use Rattle.lite_halves.specs.Laws.Counts.{counts_laws};

use super::counter_names::{CounterNames, Taken, Writes};
use super::locked::Locked;
use super::tally::Tally;
use crate::answers::or_refused;
use crate::entry::DoneCall;
use crate::{Answer, Call, done_answer, write_answer};
use lite_base::{Context, Poll};
use lite_io_base::{AsyncWrite, ReadSpec, WriteSpec, first_nonempty};
use std::alloc::AllocError;
use std::io::IoSlice;
use std::marker::Model;
use std::sync::{Arc, Mutex, Wait};
use std::{fmt, io};

/// The half of a journal that writes.
///
/// Returned by [`split_journalled`](crate::split_journalled). Each call of I/O locks the journal, so it may wait;
/// `calls` and `bytes` do not. A contract sees how many entries of writes, flushes and closes the journal has, and
/// how many bytes were written; those from before the split are included. It also sees the calls that this half
/// made, each with its result, in order. What the stream does between two calls is not known, because the other
/// half may call it.
#[derive(Drop)]
pub struct JournalWriteHalf<R, T: ReadSpec + WriteSpec + Clone, B: CounterNames> {
    pub(super) rt: R,
    pub(super) shared: Arc<Mutex<Locked<T, B>>>,
    pub(super) tally: Tally<Writes<B>, Taken<B>>,
}

impl<R, T: ReadSpec + WriteSpec + Clone, B: CounterNames> fmt::Debug for JournalWriteHalf<R, T, B> {
    fn fmt<W: fmt::Write>(&self, f: &mut fmt::Formatter<W>) -> fmt::Result {
        f.debug_struct("JournalWriteHalf")
            .field("calls", &self.calls())
            .field("bytes", &self.bytes())
            .finish_non_exhaustive()
    }
}

impl<R, T: ReadSpec + WriteSpec + Clone, B: CounterNames> Model for JournalWriteHalf<R, T, B> {
    ghost use Rattle.lite_halves.specs.Counts.{HalfCounts};

    ghost Value = { HalfCounts };

    ghost view = { λ h. h.tally };
}

impl<R, T: ReadSpec + WriteSpec + Clone, B: CounterNames> JournalWriteHalf<R, T, B> {
    /// Returns how many entries of writes, flushes and closes the journal has.
    ///
    /// It takes no lock and does not wait. The number is exact: it never wraps.
    ///
    /// # Examples
    ///
    /// ```
    /// use futures_lite::future;
    /// use futures_lite::io::{AsyncWriteExt, NewCounters, Cursor, Journal, split_journalled};
    /// use std::alloc::AllocError;
    /// use std::marker::Brand;
    ///
    /// type Bytes = Cursor<Vec<u8>>;
    ///
    /// let Ok(journal) = Journal::new(rt.alloc(), Cursor::new(Vec::new(rt.alloc()))) else {
    ///     return Err(AllocError.into());
    /// };
    /// let halves = split_journalled::<HostRuntime, Bytes, Brand>(rt, journal, NewCounters::new());
    /// let Ok((_reader, mut writer)) = halves else {
    ///     return Err(AllocError.into());
    /// };
    /// future::block_on(&rt, writer.write(b"ab"))??;
    /// future::block_on(&rt, writer.flush())??;
    /// assert_eq!(rt; writer.calls(), 2);
    /// ```
    pub fn calls(&self) -> u64
        ensures { result ≡ self.now.calls }
    {
        self.tally.calls()
    }

    /// Returns how many bytes the journal's writes have written, modulo 2^64. Those before the split are included.
    ///
    /// It takes no lock and does not wait.
    ///
    /// # Examples
    ///
    /// ```
    /// use futures_lite::future;
    /// use futures_lite::io::{AsyncWriteExt, NewCounters, Cursor, Journal, split_journalled};
    /// use std::alloc::AllocError;
    /// use std::marker::Brand;
    ///
    /// type Bytes = Cursor<Vec<u8>>;
    ///
    /// let Ok(journal) = Journal::new(rt.alloc(), Cursor::new(Vec::new(rt.alloc()))) else {
    ///     return Err(AllocError.into());
    /// };
    /// let halves = split_journalled::<HostRuntime, Bytes, Brand>(rt, journal, NewCounters::new());
    /// let Ok((_reader, mut writer)) = halves else {
    ///     return Err(AllocError.into());
    /// };
    /// future::block_on(&rt, writer.write(b"ab"))??;
    /// future::block_on(&rt, writer.write(b"cde"))??;
    /// assert_eq!(rt; writer.bytes(), 5);
    /// ```
    pub fn bytes(&self) -> u64
        ensures { result ≡ self.now.bytes % 2 ^ 64 }
    {
        self.tally.bytes()
    }
}

impl<R: Wait, T: ReadSpec + AsyncWrite + Clone, B: CounterNames> JournalWriteHalf<R, T, B> {
    // Writes once, with an entry. `None` means that the memory for it was refused, and nothing was called.
    fn step_write(&mut self, cx: &mut Context<'_>, buf: &[u8]) -> Option<Poll<io::Result<usize>>>
        ensures counted { CountsCall count_of (λ r. write_note r buf.now) self.old result self.new }
        ensures bound { IfSome result (λ r. IfReady r (λ a. IfOk a (λ n. n ≤ length buf.now))) }
        ensures context { Keeps cx.old cx.new }
    {
        self.shared.lock(&self.rt).write(&mut self.tally, cx, buf)
    }

    // Flushes or closes once, with an entry. `None` means that the memory for it was refused, and nothing was
    // called.
    fn finish(&mut self, cx: &mut Context<'_>, call: DoneCall) -> Option<Poll<io::Result<()>>>
        ensures counted { CountsCall (λ _. 0) (done_note call) self.old result self.new }
        ensures context { Keeps cx.old cx.new }
    {
        self.shared.lock(&self.rt).finish(&mut self.tally, cx, call)
    }

    // Makes one call, which is not a read, with an entry. `None` means that the memory for it was refused, and
    // nothing was called.
    fn make(&mut self, cx: &mut Context<'_>, call: &Call) -> Option<Answer>
        requires { IsWrite call.now }
        ensures made { CountsOrNone self.old (asked_of call.now) result self.new }
        ensures context { Keeps cx.old cx.new }
    {
        match call {
            Call::Read { .. } => unreachable!(),
            Call::Write(bytes) => Some(write_answer(&self.step_write(cx, bytes)?)),
            Call::Flush => Some(done_answer(&self.finish(cx, DoneCall::Flush)?)),
            Call::Close => Some(done_answer(&self.finish(cx, DoneCall::Close)?)),
        }
    }

    /// Makes the calls one after the other, and appends their answers to `out`.
    ///
    /// No call may be a read. The journal is locked once for each call, so calls of the other half may come
    /// between. An error of the stream itself, `OutOfMemory` too, is an answer; the calls continue after it.
    ///
    /// # Errors
    ///
    /// `Err(AllocError)` means that the memory for the next call's entry or answer was refused. The answers
    /// before it are in `out`. The refused call reached neither the stream nor the journal.
    ///
    /// # Examples
    ///
    /// ```
    /// use futures_lite::io::{Answer, NewCounters, Call, Cursor, Journal, split_journalled};
    /// use futures_lite::{Context, Poll, future};
    /// use std::alloc::AllocError;
    /// use std::marker::Brand;
    ///
    /// type Bytes = Cursor<Vec<u8>>;
    ///
    /// let Ok(journal) = Journal::new(rt.alloc(), Cursor::new(Vec::new(rt.alloc()))) else {
    ///     return Err(AllocError.into());
    /// };
    /// let halves = split_journalled::<HostRuntime, Bytes, Brand>(rt, journal, NewCounters::new());
    /// let Ok((_reader, mut writer)) = halves else {
    ///     return Err(AllocError.into());
    /// };
    /// let calls = [Call::Write(vec![in rt.alloc(); b'a', b'b']?), Call::Close];
    /// let mut answers = Vec::new(rt.alloc());
    /// let driven = future::poll_fn(|cx: &mut Context<'_>| {
    ///     Poll::Ready(writer.drive(cx, &calls, &mut answers))
    /// });
    /// future::block_on(&rt, driven)??;
    /// assert_eq!(rt; answers.as_slice(), [Answer::Wrote(2), Answer::Done].as_slice());
    /// ```
    pub fn drive(
        &mut self,
        cx: &mut Context<'_>,
        calls: &[Call],
        out: &mut Vec<Answer>,
    ) -> Result<(), AllocError>
        requires { AllWrites calls.now }
        ensures drives { HalfDrives (asked_in calls.now) (told_in out.old.items) result self.old self.new (told_in out.new.items) }
        ensures context { Keeps cx.old cx.new }
    {
        for call in calls {
            out.reserve(1)?;
            let answer = self.make(cx, call).ok_or(AllocError)?;
            out.push_reserved(answer);
        }
        Ok(())
    }
}

impl<R, T: ReadSpec + WriteSpec + Clone, B: CounterNames> WriteSpec for JournalWriteHalf<R, T, B> {
    ghost writes = { WriteCounts };

    ghost write_laws = { counts_laws Part.writing (WriteMark.fault OutOfMemory) taken_bytes_of };
}

#[tactic(auto, using(crate::specs::Laws::Counts::write_half_rules))]
impl<R: Wait, T: ReadSpec + AsyncWrite + Clone, B: CounterNames> AsyncWrite
    for JournalWriteHalf<R, T, B> {
    /// Writes to the stream, and records the call with its answer, both under one lock.
    ///
    /// Room for the entry and a copy of `buf` is made first. If it is refused, this returns an error of the
    /// kind `OutOfMemory`: the stream is not called, there is no entry, and nothing changes. The same is true
    /// of a flush and of a close.
    fn poll_write(&mut self, cx: &mut Context<'_>, buf: &[u8]) -> Poll<io::Result<usize>>
        ensures bound { IfReady result (λ r. IfOk r (λ n. n ≤ length buf.now)) }
        ensures ran { WriteCounts self.old (write_marks result buf.now) self.new }
        ensures calls { (self.new.calls ≡ self.old.calls + 1) ⊎ (IsOutOfMemory result × (self.new ≡ self.old)) }
        ensures entry { MakesOrStays self.old (write_note result buf.now) self.new }
        ensures bytes { self.new.bytes ≡ self.old.bytes + count_of result }
        ensures registered { Registered result (λ _. ⊥) cx.new }
        ensures context { Keeps cx.old cx.new }
    {
        or_refused(self.step_write(cx, buf))
    }

    /// Writes as `poll_write` does the first buffer that has a byte, or an empty one if none has.
    ///
    /// This is one call with one entry.
    #[tactic(auto, using(lite_io_base::specs::Laws::Runs::write_front, lite_io_base::specs::Laws::Runs::within_front))]
    fn poll_write_vectored(
        &mut self,
        cx: &mut Context<'_>,
        bufs: &[IoSlice<'_>],
    ) -> Poll<io::Result<usize>>
        ensures bound { IfReady result (λ r. IfOk r (λ n. n ≤ length (io_slices_bytes bufs.now))) }
        ensures ran { WriteCounts self.old (write_marks result (io_slices_bytes bufs.now)) self.new }
        ensures calls { (self.new.calls ≡ self.old.calls + 1) ⊎ (IsOutOfMemory result × (self.new ≡ self.old)) }
        ensures entry { MakesWrite self.old result (io_slices_bytes bufs.now) self.new }
        ensures bytes { self.new.bytes ≡ self.old.bytes + count_of result }
        ensures registered { Registered result (λ _. ⊥) cx.new }
        ensures context { Keeps cx.old cx.new }
    {
        self.poll_write(cx, first_nonempty(bufs))
    }

    fn poll_flush(&mut self, cx: &mut Context<'_>) -> Poll<io::Result<()>>
        ensures ran { WriteCounts self.old (done_marks flushed result) self.new }
        ensures calls { (self.new.calls ≡ self.old.calls + 1) ⊎ (IsOutOfMemory result × (self.new ≡ self.old)) }
        ensures entry { MakesOrStays self.old (flush_note result) self.new }
        ensures bytes { self.new.bytes ≡ self.old.bytes }
        ensures registered { Registered result (λ _. ⊥) cx.new }
        ensures context { Keeps cx.old cx.new }
    {
        or_refused(self.finish(cx, DoneCall::Flush))
    }

    fn poll_close(&mut self, cx: &mut Context<'_>) -> Poll<io::Result<()>>
        ensures ran { WriteCounts self.old (done_marks closed result) self.new }
        ensures calls { (self.new.calls ≡ self.old.calls + 1) ⊎ (IsOutOfMemory result × (self.new ≡ self.old)) }
        ensures entry { MakesOrStays self.old (close_note result) self.new }
        ensures bytes { self.new.bytes ≡ self.old.bytes }
        ensures registered { Registered result (λ _. ⊥) cx.new }
        ensures context { Keeps cx.old cx.new }
    {
        or_refused(self.finish(cx, DoneCall::Close))
    }
}
