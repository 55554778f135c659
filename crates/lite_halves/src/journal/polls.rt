//! The journal as a reader and a writer.
ghost use Rattle.std.specs.Prelude.{◌≡◌, ◌≤◌, ◌<◌, ◌+◌, ◌^◌, ◌++◌, ◌∷◌, [], length, vec_capacity, IfNone, IfOk, IfSome};
ghost use Rattle.lite_halves.specs.Uses.{io_slices_bytes, OutOfMemory, IfReady, Keeps, ReadMark, read_marks, Part};
ghost use Rattle.lite_halves.specs.Uses.{ReadsInto, room_in, WriteMark, done_marks, write_marks, closed, flushed};
ghost use Rattle.lite_halves.specs.Uses.{Registered};
ghost use Rattle.lite_halves.specs.Entry.{Request, close_note, done_note, flush_note, read_note, write_note};
ghost use Rattle.lite_halves.specs.Journal.{Adds, AddsOrStays, AddsRead, AddsWrite, AsksMemory, JournalReads, JournalWrites, EntryRoom, ReadsAmply};
ghost use Rattle.lite_halves.specs.Laws.Journal.{journals_laws, journal_calm, journal_calm_write, journal_steady, journal_steady_write};

use super::Journal;
use crate::answers::{done_answer, or_refused, read_answer, write_answer};
use crate::entry::{Call, DoneCall, Entry};
use lite_base::{Context, Poll};
use lite_io_base::{
    AsyncRead, AsyncWrite, CalmRead, CalmWrite, ReadSpec, SteadyRead, SteadyWrite, WriteSpec,
    first_nonempty, first_room,
};
use std::io;
use std::io::{IoSlice, IoSliceMut};

impl<T: ReadSpec + WriteSpec + Clone> ReadSpec for Journal<T> {
    ghost reads = { JournalReads T.reads T.writes };

    ghost read_laws = { journals_laws T.reads T.writes Part.reading (ReadMark.fault OutOfMemory) };
}

impl<T: ReadSpec + WriteSpec + Clone> WriteSpec for Journal<T> {
    ghost writes = { JournalWrites T.reads T.writes };

    ghost write_laws = { journals_laws T.reads T.writes Part.writing (WriteMark.fault OutOfMemory) };
}

impl<T: ReadSpec + WriteSpec + Clone> Journal<T> {
    // Makes room for an entry, and for `bytes` bytes of it.
    #[inline(always)]
    fn make_room(&mut self, bytes: usize) -> Option<Vec<u8>>
        ensures made { EntryRoom self.old bytes result self.new }
        ensures small { length self.new.notes < 2 ^ 64 }
    {
        let held = Vec::with_capacity(self.alloc, bytes).ok()?;
        self.entries.reserve(1).ok()?;
        Some(held)
    }
}

impl<T: AsyncRead + WriteSpec + Clone> Journal<T> {
    /// Reads once, and records the call with its answer.
    ///
    /// Returns `None` if the memory for the entry was refused. The stream is not called then, and nothing
    /// changes. So this case differs from an `OutOfMemory` of the stream itself; `poll_read` returns the same
    /// error for both.
    ///
    /// # Examples
    ///
    /// ```
    /// use futures_lite::io::{Cursor, Journal};
    /// use futures_lite::{Context, Poll, future};
    /// use std::alloc::AllocError;
    ///
    /// let cursor = Cursor::new(Vec::from_slice(rt.alloc(), b"ab")?);
    /// let Ok(mut journal) = Journal::new(rt.alloc(), cursor) else {
    ///     return Err(AllocError.into());
    /// };
    /// let mut buf = [0u8; 4];
    /// let step = future::poll_fn(|cx: &mut Context<'_>| Poll::Ready(journal.step_read(cx, &mut buf)));
    /// let Some(polled) = future::block_on(&rt, step)? else {
    ///     return Err(AllocError.into());
    /// };
    /// assert!(rt; matches!(polled, Poll::Ready(Ok(2))));
    /// assert!(rt; buf.starts_with(b"ab"));
    /// assert_eq!(rt; journal.entries().len(), 1);
    /// ```
    #[tactic(auto, using(crate::proofs::Noted::adds_after))]
    pub fn step_read(
        &mut self,
        cx: &mut Context<'_>,
        buf: &mut [u8],
    ) -> Option<Poll<io::Result<usize>>>
        ensures added { IfSome result (λ r. Adds T.reads T.writes self.old (read_note r buf.new) self.new) }
        ensures bound { IfSome result (λ r. IfReady r (λ a. IfOk a (λ n. n ≤ length buf.new))) }
        ensures registered { IfSome result (λ r. Registered r (T.registers self.new.stream) cx.new) }
        ensures context { Keeps cx.old cx.new }
        ensures small { length self.new.notes < 2 ^ 64 }
        ensures none { IfNone result ((self.new ≡ self.old) × (buf.new ≡ buf.old)) }
        ensures refused { IfNone result (AsksMemory self.old (Request.room (length buf.old))) }
    {
        let bytes = self.make_room(buf.len())?;
        Some(self.read_noted(cx, buf, bytes))
    }

    // Reads once and adds the entry, whose bytes go into `bytes`.
    #[inline(always)]
    fn read_noted(
        &mut self,
        cx: &mut Context<'_>,
        buf: &mut [u8],
        bytes: Vec<u8>,
    ) -> Poll<io::Result<usize>>
        requires room { 0 < self.old.room }
        requires bytes { (bytes.items ≡ []) × (length buf.old ≤ vec_capacity bytes) }
        ensures added { Adds T.reads T.writes self.old (read_note result buf.new) self.new }
        ensures bound { IfReady result (λ r. IfOk r (λ n. n ≤ length buf.new)) }
        ensures registered { Registered result (T.registers self.new.stream) cx.new }
        ensures context { Keeps cx.old cx.new }
        ensures small { length self.new.notes < 2 ^ 64 }
    {
        let room = buf.len();
        let polled = self.stream.poll_read(cx, buf);
        let answer = read_answer(&polled, bytes, buf);
        let call = Call::Read { room };
        self.entries.push_reserved(Entry { call, answer });
        polled
    }
}

impl<T: ReadSpec + AsyncWrite + Clone> Journal<T> {
    /// Writes once, and records the call with its answer.
    ///
    /// Returns `None` if the memory for the entry was refused. The stream is not called then, and nothing
    /// changes. So this case differs from an `OutOfMemory` of the stream itself; `poll_write` returns the
    /// same error for both.
    ///
    /// # Examples
    ///
    /// ```
    /// use futures_lite::io::{Call, Cursor, Journal};
    /// use futures_lite::{Context, Poll, future};
    /// use std::alloc::AllocError;
    ///
    /// let Ok(mut journal) = Journal::new(rt.alloc(), Cursor::new(Vec::new(rt.alloc()))) else {
    ///     return Err(AllocError.into());
    /// };
    /// let step = future::poll_fn(|cx: &mut Context<'_>| Poll::Ready(journal.step_write(cx, b"ab")));
    /// let Some(polled) = future::block_on(&rt, step)? else {
    ///     return Err(AllocError.into());
    /// };
    /// assert!(rt; matches!(polled, Poll::Ready(Ok(2))));
    /// assert_eq!(rt; journal.entries()[0].call, Call::Write(Vec::from_slice(rt.alloc(), b"ab")?));
    /// ```
    #[tactic(auto, using(crate::proofs::Noted::adds_after))]
    pub fn step_write(
        &mut self,
        cx: &mut Context<'_>,
        buf: &[u8],
    ) -> Option<Poll<io::Result<usize>>>
        ensures added { IfSome result (λ r. Adds T.reads T.writes self.old (write_note r buf.now) self.new) }
        ensures bound { IfSome result (λ r. IfReady r (λ a. IfOk a (λ n. n ≤ length buf.now))) }
        ensures registered { IfSome result (λ r. Registered r (T.write_registers self.new.stream) cx.new) }
        ensures context { Keeps cx.old cx.new }
        ensures small { length self.new.notes < 2 ^ 64 }
        ensures none { IfNone result (self.new ≡ self.old) }
        ensures refused { IfNone result (AsksMemory self.old (Request.offer buf.now)) }
    {
        let mut offered = self.make_room(buf.len())?;
        let Ok(()) = offered.extend_from_slice(buf) else {
            unreachable!()
        };
        Some(self.write_noted(cx, buf, offered))
    }

    // Writes once and adds the entry, which has the offered bytes.
    #[inline(always)]
    fn write_noted(
        &mut self,
        cx: &mut Context<'_>,
        buf: &[u8],
        offered: Vec<u8>,
    ) -> Poll<io::Result<usize>>
        requires room { 0 < self.old.room }
        requires offered { offered.items ≡ buf.now }
        ensures added { Adds T.reads T.writes self.old (write_note result buf.now) self.new }
        ensures bound { IfReady result (λ r. IfOk r (λ n. n ≤ length buf.now)) }
        ensures registered { Registered result (T.write_registers self.new.stream) cx.new }
        ensures context { Keeps cx.old cx.new }
        ensures small { length self.new.notes < 2 ^ 64 }
    {
        let polled = self.stream.poll_write(cx, buf);
        let answer = write_answer(&polled);
        let call = Call::Write(offered);
        self.entries.push_reserved(Entry { call, answer });
        polled
    }

    /// Flushes once, and records the call with its answer.
    ///
    /// Returns `None` if the memory for the entry was refused. The stream is not called then, and nothing
    /// changes.
    ///
    /// # Examples
    ///
    /// ```
    /// use futures_lite::io::{Call, Cursor, Journal};
    /// use futures_lite::{Context, Poll, future};
    /// use std::alloc::AllocError;
    ///
    /// let Ok(mut journal) = Journal::new(rt.alloc(), Cursor::new(Vec::new(rt.alloc()))) else {
    ///     return Err(AllocError.into());
    /// };
    /// let step = future::poll_fn(|cx: &mut Context<'_>| Poll::Ready(journal.step_flush(cx)));
    /// let Some(polled) = future::block_on(&rt, step)? else {
    ///     return Err(AllocError.into());
    /// };
    /// assert!(rt; matches!(polled, Poll::Ready(Ok(()))));
    /// assert_eq!(rt; journal.entries()[0].call, Call::Flush);
    /// ```
    pub fn step_flush(&mut self, cx: &mut Context<'_>) -> Option<Poll<io::Result<()>>>
        ensures added { IfSome result (λ r. Adds T.reads T.writes self.old (flush_note r) self.new) }
        ensures registered { IfSome result (λ r. Registered r (T.write_registers self.new.stream) cx.new) }
        ensures context { Keeps cx.old cx.new }
        ensures small { length self.new.notes < 2 ^ 64 }
        ensures none { IfNone result (self.new ≡ self.old) }
        ensures refused { IfNone result (AsksMemory self.old Request.flush) }
    {
        self.entries.reserve(1).ok()?;
        let polled = self.stream.poll_flush(cx);
        let answer = done_answer(&polled);
        let call = Call::Flush;
        self.entries.push_reserved(Entry { call, answer });
        Some(polled)
    }

    /// Closes once, and records the call with its answer.
    ///
    /// Returns `None` if the memory for the entry was refused. The stream is not called then, and nothing
    /// changes.
    ///
    /// # Examples
    ///
    /// ```
    /// use futures_lite::io::{Call, Cursor, Journal};
    /// use futures_lite::{Context, Poll, future};
    /// use std::alloc::AllocError;
    ///
    /// let Ok(mut journal) = Journal::new(rt.alloc(), Cursor::new(Vec::new(rt.alloc()))) else {
    ///     return Err(AllocError.into());
    /// };
    /// let step = future::poll_fn(|cx: &mut Context<'_>| Poll::Ready(journal.step_close(cx)));
    /// let Some(polled) = future::block_on(&rt, step)? else {
    ///     return Err(AllocError.into());
    /// };
    /// assert!(rt; matches!(polled, Poll::Ready(Ok(()))));
    /// assert_eq!(rt; journal.entries()[0].call, Call::Close);
    /// ```
    pub fn step_close(&mut self, cx: &mut Context<'_>) -> Option<Poll<io::Result<()>>>
        ensures added { IfSome result (λ r. Adds T.reads T.writes self.old (close_note r) self.new) }
        ensures registered { IfSome result (λ r. Registered r (T.write_registers self.new.stream) cx.new) }
        ensures context { Keeps cx.old cx.new }
        ensures small { length self.new.notes < 2 ^ 64 }
        ensures none { IfNone result (self.new ≡ self.old) }
        ensures refused { IfNone result (AsksMemory self.old Request.close) }
    {
        self.entries.reserve(1).ok()?;
        let polled = self.stream.poll_close(cx);
        let answer = done_answer(&polled);
        let call = Call::Close;
        self.entries.push_reserved(Entry { call, answer });
        Some(polled)
    }

    // Flushes or closes once, as `step_flush` and `step_close` do.
    #[inline]
    pub(crate) fn step_done(
        &mut self,
        cx: &mut Context<'_>,
        call: DoneCall,
    ) -> Option<Poll<io::Result<()>>>
        ensures added { IfSome result (λ r. Adds T.reads T.writes self.old (done_note call r) self.new) }
        ensures context { Keeps cx.old cx.new }
        ensures small { length self.new.notes < 2 ^ 64 }
        ensures none { IfNone result (self.new ≡ self.old) }
    {
        match call {
            DoneCall::Flush => self.step_flush(cx),
            DoneCall::Close => self.step_close(cx),
        }
    }
}

#[tactic(auto, using(crate::specs::Laws::Journal::reads_rules))]
impl<T: AsyncRead + WriteSpec + Clone> AsyncRead for Journal<T> {
    ghost registers = { λ j. T.registers j.stream };

    /// Reads from the stream, and records the call with its answer.
    ///
    /// Room for the entry and for as many bytes as `buf` has is made first. If it is refused, this returns an
    /// error of the kind `OutOfMemory`: the stream is not called, there is no entry, and nothing changes.
    fn poll_read(&mut self, cx: &mut Context<'_>, buf: &mut [u8]) -> Poll<io::Result<usize>>
        ensures bound { IfReady result (λ r. IfOk r (λ n. n ≤ length buf.new)) }
        ensures ran { JournalReads T.reads T.writes self.old (read_marks result buf.new) self.new }
        ensures entry { AddsOrStays T.reads T.writes self.old (read_note result buf.new) self.new }
        ensures registered { Registered result (T.registers self.new.stream) cx.new }
        ensures context { Keeps cx.old cx.new }
    {
        or_refused(self.step_read(cx, buf))
    }

    /// Reads as `poll_read` does into the first buffer that has room, or into an empty one if none has.
    ///
    /// This is one call with one entry.
    #[tactic(auto, using(crate::specs::Laws::Journal::reads_rules, lite_io_base::specs::Laws::Runs::within_more))]
    fn poll_read_vectored(
        &mut self,
        cx: &mut Context<'_>,
        bufs: &mut [IoSliceMut<'_>],
    ) -> Poll<io::Result<usize>>
        ensures bound { IfReady result (λ r. IfOk r (λ n. n ≤ room_in bufs.old)) }
        ensures ran { ReadsInto (JournalReads T.reads T.writes) self.old result bufs.old self.new }
        ensures entry { AddsRead T.reads T.writes self.old result bufs.old self.new }
        ensures registered { Registered result (T.registers self.new.stream) cx.new }
        ensures context { Keeps cx.old cx.new }
    {
        self.poll_read(cx, first_room(bufs))
    }
}

#[tactic(auto, using(crate::specs::Laws::Journal::writes_rules))]
impl<T: ReadSpec + AsyncWrite + Clone> AsyncWrite for Journal<T> {
    ghost write_registers = { λ j. T.write_registers j.stream };

    /// Writes to the stream, and records the call with its answer.
    ///
    /// Room for the entry and a copy of `buf` is made first. If it is refused, this returns an error of the
    /// kind `OutOfMemory`: the stream is not called, there is no entry, and nothing changes. The same is true
    /// of a flush and of a close.
    fn poll_write(&mut self, cx: &mut Context<'_>, buf: &[u8]) -> Poll<io::Result<usize>>
        ensures bound { IfReady result (λ r. IfOk r (λ n. n ≤ length buf.now)) }
        ensures ran { JournalWrites T.reads T.writes self.old (write_marks result buf.now) self.new }
        ensures entry { AddsOrStays T.reads T.writes self.old (write_note result buf.now) self.new }
        ensures registered { Registered result (T.write_registers self.new.stream) cx.new }
        ensures context { Keeps cx.old cx.new }
    {
        or_refused(self.step_write(cx, buf))
    }

    /// Writes as `poll_write` does the first buffer that has a byte, or an empty one if none has.
    ///
    /// This is one call with one entry.
    #[tactic(auto, using(lite_io_base::specs::Laws::Runs::write_front, lite_io_base::specs::Laws::Runs::within_front))]
    fn poll_write_vectored(
        &mut self,
        cx: &mut Context<'_>,
        bufs: &[IoSlice<'_>],
    ) -> Poll<io::Result<usize>>
        ensures bound { IfReady result (λ r. IfOk r (λ n. n ≤ length (io_slices_bytes bufs.now))) }
        ensures ran { JournalWrites T.reads T.writes self.old (write_marks result (io_slices_bytes bufs.now)) self.new }
        ensures entry { AddsWrite T.reads T.writes self.old result (io_slices_bytes bufs.now) self.new }
        ensures registered { Registered result (T.write_registers self.new.stream) cx.new }
        ensures context { Keeps cx.old cx.new }
    {
        self.poll_write(cx, first_nonempty(bufs))
    }

    fn poll_flush(&mut self, cx: &mut Context<'_>) -> Poll<io::Result<()>>
        ensures ran { JournalWrites T.reads T.writes self.old (done_marks flushed result) self.new }
        ensures entry { AddsOrStays T.reads T.writes self.old (flush_note result) self.new }
        ensures registered { Registered result (T.write_registers self.new.stream) cx.new }
        ensures context { Keeps cx.old cx.new }
    {
        or_refused(self.step_flush(cx))
    }

    fn poll_close(&mut self, cx: &mut Context<'_>) -> Poll<io::Result<()>>
        ensures ran { JournalWrites T.reads T.writes self.old (done_marks closed result) self.new }
        ensures entry { AddsOrStays T.reads T.writes self.old (close_note result) self.new }
        ensures registered { Registered result (T.write_registers self.new.stream) cx.new }
        ensures context { Keeps cx.old cx.new }
    {
        or_refused(self.step_close(cx))
    }
}

// Where memory was found for each entry.
impl<T: SteadyRead + WriteSpec + Clone> SteadyRead for Journal<T> {
    ghost ample = { ReadsAmply T.reads T.writes T.ample };

    ghost needs_none = { ⊥ };

    ghost alike = { λ a b. T.alike a.stream b.stream };

    ghost steady = { journal_steady T.steady };
}

// An entry that was refused memory is an error, and those are left out.
impl<T: ReadSpec + SteadyWrite + Clone> SteadyWrite for Journal<T> {
    ghost alike = { λ a b. T.alike a.stream b.stream };

    ghost below = { λ a. T.below a.stream };

    ghost steady = { journal_steady_write T.write_laws T.steady };
}

impl<T: CalmRead + WriteSpec + Clone> CalmRead for Journal<T> {
    ghost is_calm = { λ j. T.is_calm j.stream };

    ghost calm = { journal_calm T.read_laws T.calm };
}

impl<T: ReadSpec + CalmWrite + Clone> CalmWrite for Journal<T> {
    ghost is_calm = { λ j. T.is_calm j.stream };

    ghost calm = { journal_calm_write T.write_laws T.calm };
}
