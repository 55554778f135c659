//! The half of a journal that reads.
ghost use Rattle.std.specs.Prelude.{◌≡◌, ◌≤◌, ◌+◌, ◌%◌, ◌^◌, ◌⊎◌, ◌++◌, ◌∷◌, [], length, map, IfOk, IfSome};
ghost use Rattle.lite_halves.specs.Uses.{IfReady, Keeps, OutOfMemory, ReadMark, count_of, read_marks, Part, ReadsInto, room_in, Registered};
ghost use Rattle.lite_halves.specs.Counts.{CountsCall, CountsOrNone, HalfDrives, IsOutOfMemory, MakesOrStays, MakesRead};
ghost use Rattle.lite_halves.specs.Counts.{ReadCounts, read_bytes_of};
ghost use Rattle.lite_halves.specs.Entry.{Request, read_note, told_in};
ghost use Rattle.lite_halves.specs.Laws.Counts.{counts_laws};

use super::counter_names::{CounterNames, Got, Reads};
use super::locked::Locked;
use super::tally::Tally;
use crate::answers::or_refused;
use crate::{Answer, buffer_answer};
use lite_base::{Context, Poll};
use lite_io_base::{AsyncRead, ReadSpec, WriteSpec, first_room};
use std::alloc::{AllocError, AllocGlobal};
use std::io::IoSliceMut;
use std::marker::Model;
use std::sync::{Arc, Mutex, Wait};
use std::{fmt, io};

/// The half of a journal that reads.
///
/// Returned by [`split_journalled`](crate::split_journalled). Each read locks the journal, so it may wait; `calls`
/// and `bytes` do not. A contract sees how many entries of reads the journal has, and how many bytes they read;
/// those from before the split are included. It also sees the reads that this half made, each with its result, in
/// order. What the stream does between two calls is not known, because the other half may call it.
#[derive(Drop)]
pub struct JournalReadHalf<R, T: ReadSpec + WriteSpec + Clone, B: CounterNames> {
    pub(super) rt: R,
    pub(super) shared: Arc<Mutex<Locked<T, B>>>,
    pub(super) tally: Tally<Reads<B>, Got<B>>,
}

impl<R, T: ReadSpec + WriteSpec + Clone, B: CounterNames> fmt::Debug for JournalReadHalf<R, T, B> {
    fn fmt<W: fmt::Write>(&self, f: &mut fmt::Formatter<W>) -> fmt::Result {
        f.debug_struct("JournalReadHalf")
            .field("calls", &self.calls())
            .field("bytes", &self.bytes())
            .finish_non_exhaustive()
    }
}

impl<R, T: ReadSpec + WriteSpec + Clone, B: CounterNames> Model for JournalReadHalf<R, T, B> {
    ghost use Rattle.lite_halves.specs.Counts.{HalfCounts};

    ghost Value = { HalfCounts };

    ghost view = { λ h. h.tally };
}

impl<R, T: ReadSpec + WriteSpec + Clone, B: CounterNames> JournalReadHalf<R, T, B> {
    /// Returns how many entries of reads the journal has.
    ///
    /// It takes no lock and does not wait. The number is exact: it never wraps.
    ///
    /// # Examples
    ///
    /// ```
    /// use futures_lite::future;
    /// use futures_lite::io::{AsyncReadExt, NewCounters, Cursor, Journal, split_journalled};
    /// use std::alloc::AllocError;
    /// use std::marker::Brand;
    ///
    /// type Bytes = Cursor<Vec<u8>>;
    ///
    /// let cursor = Cursor::new(Vec::from_slice(rt.alloc(), b"ab")?);
    /// let Ok(mut journal) = Journal::new(rt.alloc(), cursor) else {
    ///     return Err(AllocError.into());
    /// };
    /// future::block_on(&rt, journal.read(&mut [0u8]))??;
    /// let halves = split_journalled::<HostRuntime, Bytes, Brand>(rt, journal, NewCounters::new());
    /// let Ok((mut reader, _writer)) = halves else {
    ///     return Err(AllocError.into());
    /// };
    /// assert_eq!(rt; reader.calls(), 1);
    /// future::block_on(&rt, reader.read(&mut [0u8]))??;
    /// assert_eq!(rt; reader.calls(), 2);
    /// ```
    pub fn calls(&self) -> u64
        ensures { result ≡ self.now.calls }
    {
        self.tally.calls()
    }

    /// Returns how many bytes the journal's reads have read, modulo 2^64. Those before the split are included.
    ///
    /// It takes no lock and does not wait. If `AsyncReadExt` is in scope, `reader.bytes()` calls the method of that trait. Call
    /// this one as `JournalReadHalf::bytes(&reader)` then.
    ///
    /// # Examples
    ///
    /// ```
    /// use futures_lite::future;
    /// use futures_lite::io::{
    ///     AsyncReadExt, NewCounters, Cursor, Journal, JournalReadHalf, split_journalled,
    /// };
    /// use std::alloc::AllocError;
    /// use std::marker::Brand;
    ///
    /// type Bytes = Cursor<Vec<u8>>;
    ///
    /// let cursor = Cursor::new(Vec::from_slice(rt.alloc(), b"abc")?);
    /// let Ok(journal) = Journal::new(rt.alloc(), cursor) else {
    ///     return Err(AllocError.into());
    /// };
    /// let halves = split_journalled::<HostRuntime, Bytes, Brand>(rt, journal, NewCounters::new());
    /// let Ok((mut reader, _writer)) = halves else {
    ///     return Err(AllocError.into());
    /// };
    /// future::block_on(&rt, reader.read(&mut [0u8; 2]))??;
    /// assert_eq!(rt; JournalReadHalf::bytes(&reader), 2);
    /// ```
    pub fn bytes(&self) -> u64
        ensures { result ≡ self.now.bytes % 2 ^ 64 }
    {
        self.tally.bytes()
    }
}

impl<R, T: ReadSpec + WriteSpec + Clone, B: CounterNames> ReadSpec for JournalReadHalf<R, T, B> {
    ghost reads = { ReadCounts };

    ghost read_laws = { counts_laws Part.reading (ReadMark.fault OutOfMemory) read_bytes_of };
}

impl<R: Wait, T: AsyncRead + WriteSpec + Clone, B: CounterNames> JournalReadHalf<R, T, B> {
    // Reads once, with an entry. `None` means that the memory for it was refused, and nothing was called.
    fn step_read(&mut self, cx: &mut Context<'_>, buf: &mut [u8]) -> Option<Poll<io::Result<usize>>>
        ensures counted { CountsCall count_of (λ r. read_note r buf.new) self.old result self.new }
        ensures bound { IfSome result (λ r. IfReady r (λ a. IfOk a (λ n. n ≤ length buf.new))) }
        ensures context { Keeps cx.old cx.new }
    {
        self.shared.lock(&self.rt).read(&mut self.tally, cx, buf)
    }
}

impl<R: Wait, T: AsyncRead + WriteSpec + Clone, B: CounterNames> AsyncRead
    for JournalReadHalf<R, T, B> {
    /// Reads from the stream, and records the call with its answer, both under one lock.
    ///
    /// Room for the entry is made first. If it is refused, this returns an error of the kind `OutOfMemory`:
    /// the stream is not called, there is no entry, and nothing changes.
    #[tactic(auto, using(crate::specs::Laws::Counts::read_half_rules))]
    fn poll_read(&mut self, cx: &mut Context<'_>, buf: &mut [u8]) -> Poll<io::Result<usize>>
        ensures bound { IfReady result (λ r. IfOk r (λ n. n ≤ length buf.new)) }
        ensures ran { ReadCounts self.old (read_marks result buf.new) self.new }
        ensures calls { (self.new.calls ≡ self.old.calls + 1) ⊎ (IsOutOfMemory result × (self.new ≡ self.old)) }
        ensures entry { MakesOrStays self.old (read_note result buf.new) self.new }
        ensures bytes { self.new.bytes ≡ self.old.bytes + count_of result }
        ensures registered { Registered result (λ _. ⊥) cx.new }
        ensures context { Keeps cx.old cx.new }
    {
        or_refused(self.step_read(cx, buf))
    }

    /// Reads as `poll_read` does into the first buffer that has room, or into an empty one if none has.
    ///
    /// This is one call with one entry.
    #[tactic(auto, using(lite_io_base::specs::Laws::Runs::within_more))]
    fn poll_read_vectored(
        &mut self,
        cx: &mut Context<'_>,
        bufs: &mut [IoSliceMut<'_>],
    ) -> Poll<io::Result<usize>>
        ensures bound { IfReady result (λ r. IfOk r (λ n. n ≤ room_in bufs.old)) }
        ensures ran { ReadsInto ReadCounts self.old result bufs.old self.new }
        ensures calls { (self.new.calls ≡ self.old.calls + 1) ⊎ (IsOutOfMemory result × (self.new ≡ self.old)) }
        ensures entry { MakesRead self.old result bufs.old self.new }
        ensures bytes { self.new.bytes ≡ self.old.bytes + count_of result }
        ensures registered { Registered result (λ _. ⊥) cx.new }
        ensures context { Keeps cx.old cx.new }
    {
        self.poll_read(cx, first_room(bufs))
    }
}

impl<R, T, B> JournalReadHalf<R, T, B>
where
    R: Wait + AllocGlobal,
    T: AsyncRead + WriteSpec + Clone,
    B: CounterNames,
{
    // Reads once, with an entry. `None` means that the memory for the entry or the answer was refused, and
    // nothing was called.
    fn make(&mut self, cx: &mut Context<'_>, room: usize) -> Option<Answer>
        ensures made { CountsOrNone self.old (Request.room room) result self.new }
        ensures context { Keeps cx.old cx.new }
    {
        let mut buf = vec![in self.rt.alloc(); 0; room].ok()?;
        let polled = self.step_read(cx, &mut buf)?;
        Some(buffer_answer(&polled, buf))
    }

    /// Makes one read for each number of `rooms`, with room for that many bytes, and appends the answers to
    /// `out`.
    ///
    /// The journal is locked once for each read, so calls of the other half may come between. An error of the
    /// stream itself, `OutOfMemory` too, is an answer; the reads continue after it.
    ///
    /// # Errors
    ///
    /// `Err(AllocError)` means that the memory for the next read's entry or answer was refused. The answers
    /// before it are in `out`. The refused read reached neither the stream nor the journal.
    ///
    /// # Examples
    ///
    /// ```
    /// use futures_lite::io::{Answer, NewCounters, Cursor, Journal, split_journalled};
    /// use futures_lite::{Context, Poll, future};
    /// use std::alloc::AllocError;
    /// use std::marker::Brand;
    ///
    /// type Bytes = Cursor<Vec<u8>>;
    ///
    /// let cursor = Cursor::new(Vec::from_slice(rt.alloc(), b"abc")?);
    /// let Ok(journal) = Journal::new(rt.alloc(), cursor) else {
    ///     return Err(AllocError.into());
    /// };
    /// let halves = split_journalled::<HostRuntime, Bytes, Brand>(rt, journal, NewCounters::new());
    /// let Ok((mut reader, _writer)) = halves else {
    ///     return Err(AllocError.into());
    /// };
    /// let mut answers = Vec::new(rt.alloc());
    /// let driven = future::poll_fn(|cx: &mut Context<'_>| {
    ///     Poll::Ready(reader.drive(cx, &[1, 9], &mut answers))
    /// });
    /// future::block_on(&rt, driven)??;
    /// assert_eq!(rt; answers[0], Answer::Read(vec![in rt.alloc(); b'a']?));
    /// assert_eq!(rt; answers[1], Answer::Read(vec![in rt.alloc(); b'b', b'c']?));
    /// ```
    pub fn drive(
        &mut self,
        cx: &mut Context<'_>,
        rooms: &[usize],
        out: &mut Vec<Answer>,
    ) -> Result<(), AllocError>
        ensures drives { HalfDrives (map Request.room rooms.now) (told_in out.old.items) result self.old self.new
            (told_in out.new.items) }
        ensures context { Keeps cx.old cx.new }
    {
        for room in rooms {
            out.reserve(1)?;
            let answer = self.make(cx, *room).ok_or(AllocError)?;
            out.push_reserved(answer);
        }
        Ok(())
    }
}
