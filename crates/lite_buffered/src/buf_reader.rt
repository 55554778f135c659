ghost use Rattle.std.specs.Prelude.{◌≡◌, ◌<◌, ◌≤◌, [], Ok, length, max, min, take, drop, pos, true, false, IfOk, IfErr};
ghost use Rattle.futures.specs.Poll.{OnPending};
ghost use Rattle.lite_buffered.specs.Uses.{Lends, sem, IfReady, Keeps, fill_marks, read_marks, OnlyOkLends, ReadsInto, room_in, Registered};

use lite_base::{Context, Poll, ready};
use lite_io_base::{
    ArmedRead, ArmedWrite, AsyncBufRead, AsyncRead, AsyncSeek, AsyncWrite, CalmRead, CalmWrite,
    CountedRead, ReadSpec, SteadyRead, SteadyWrite, WriteSpec, fill_slice, fill_slices, total_room,
};
use std::alloc::Global;
use std::io::{IoSliceMut, SeekFrom};
use std::{fmt, io};

/// The default capacity of a buffer, in bytes.
const DEFAULT_CAPACITY: usize = 8192;

/// A reader that reads ahead into a buffer, so that small reads do not each poll the inner reader.
///
/// The buffer is allocated once; no later call of the reader allocates. A read into at least as much room as
/// the capacity bypasses the buffer if it is empty. Every other read fills the buffer if it is empty, and
/// copies from it. With a capacity of 0 every read goes to the inner reader, also a vectored one, and filling
/// the buffer reads 0 bytes.
///
/// Writes and seeks go to the inner value, not through the buffer. `into_inner` and a drop lose what is in
/// the buffer.
///
/// # Examples
///
/// ```
/// use futures_lite::io::BufReader;
/// use futures_lite::{AsyncBufReadExt, future};
/// use std::alloc::AllocError;
///
/// let mut reader = BufReader::new(rt.alloc(), b"hello\nhi".as_slice()).map_err(|_| AllocError)?;
/// let mut line = String::new(rt.alloc());
/// future::block_on(&rt, reader.read_line(&mut line))??;
/// assert_eq!(rt; line.as_str(), "hello\n");
/// assert_eq!(rt; reader.buffer(), b"hi".as_slice());
/// ```
#[derive(Drop)]
pub struct BufReader<R> {
    inner: R,
    // As long as the capacity. What was read and not yet consumed is at pos..end.
    buf: Vec<u8>,
    pos: usize,
    end: usize,
    ghost in_range: { (pos ≤ end) × (end ≤ length buf.items) },
}

impl<R: fmt::Debug> fmt::Debug for BufReader<R> {
    fn fmt<W: fmt::Write>(&self, f: &mut fmt::Formatter<W>) -> fmt::Result {
        let (held, capacity) = (self.end - self.pos, self.buf.len());
        f.debug_struct("BufReader")
            .field("reader", &self.inner)
            .field("buffer", &format_args!("{held}/{capacity}"))
            .finish()
    }
}

impl<R: Drop> BufReader<R> {
    ghost use Rattle.lite_buffered.specs.contracts.buf_reader.BufReader.{the_row};
    ghost use Rattle.lite_buffered.specs.BufReader.{bytes_ahead, reader_capacity, reader_inner};

    /// Returns a reader over `inner` with an empty buffer of 8192 bytes.
    ///
    /// It returns `Err(inner)` if the buffer cannot be allocated. `inner` must be `Drop`.
    ///
    /// # Examples
    ///
    /// ```
    /// use futures_lite::io::BufReader;
    ///
    /// fn left<R>(rt: &R, bytes: &[u8]) -> Result<usize, AllocError>
    /// where
    ///     R: AllocGlobal,
    ///     ensures { IfOk result (λ n. n ≡ length bytes.now) }
    /// {
    ///     let Ok(reader) = BufReader::new(rt.alloc(), bytes) else {
    ///         return Err(AllocError);
    ///     };
    ///     Ok(reader.get_ref().len())
    /// }
    ///
    /// assert_eq!(rt; left(&rt, b"hello")?, 5);
    /// ```
    ///
    /// ```
    /// use futures_lite::io::BufReader;
    /// use futures_lite::{AsyncReadExt, future};
    /// use std::alloc::AllocError;
    ///
    /// let mut reader = BufReader::new(rt.alloc(), b"hello".as_slice()).map_err(|_| AllocError)?;
    /// let mut buf = [0; 2];
    /// future::block_on(&rt, reader.read(&mut buf))??;
    /// assert_eq!(rt; buf, *b"he");
    /// assert_eq!(rt; reader.buffer(), b"llo".as_slice());
    /// ```
    pub fn new(alloc: Global, inner: R) -> Result<BufReader<R>, R>
        ensures inner { IfOk result (λ r. reader_inner r ≡ inner) }
        ensures empty { IfOk result (λ r. bytes_ahead r ≡ []) }
        ensures capacity { IfOk result (λ r. reader_capacity r ≡ 8192) }
        ensures handed_back { IfErr result (λ r. r ≡ inner) }
    {
        BufReader::with_capacity(alloc, DEFAULT_CAPACITY, inner)
    }

    /// Returns a reader over `inner` with an empty buffer of `capacity` bytes.
    ///
    /// It returns `Err(inner)` if the buffer cannot be allocated. With a capacity of 0 each read goes to
    /// `inner`, and the buffer is always empty. `inner` must be `Drop`.
    ///
    /// # Examples
    ///
    /// ```
    /// use futures_lite::io::BufReader;
    ///
    /// fn left<R>(rt: &R, bytes: &[u8]) -> Result<usize, AllocError>
    /// where
    ///     R: AllocGlobal,
    ///     ensures { IfOk result (λ n. n ≡ length bytes.now) }
    /// {
    ///     let Ok(reader) = BufReader::with_capacity(rt.alloc(), 1024, bytes) else {
    ///         return Err(AllocError);
    ///     };
    ///     Ok(reader.get_ref().len())
    /// }
    ///
    /// assert_eq!(rt; left(&rt, b"hello")?, 5);
    /// ```
    ///
    /// ```
    /// use futures_lite::io::BufReader;
    /// use futures_lite::{AsyncReadExt, future};
    /// use std::alloc::AllocError;
    ///
    /// let input: &[u8] = b"hello";
    /// let mut reader = BufReader::with_capacity(rt.alloc(), 3, input).map_err(|_| AllocError)?;
    /// future::block_on(&rt, reader.read(&mut [0; 1]))??;
    /// assert_eq!(rt; reader.buffer(), b"el".as_slice());
    ///
    /// // No memory can hold such a buffer.
    /// assert!(rt; BufReader::with_capacity(rt.alloc(), usize::MAX, input).is_err());
    /// ```
    pub fn with_capacity(alloc: Global, capacity: usize, inner: R) -> Result<BufReader<R>, R>
        ensures inner { IfOk result (λ r. reader_inner r ≡ inner) }
        ensures empty { IfOk result (λ r. bytes_ahead r ≡ []) }
        ensures capacity { IfOk result (λ r. reader_capacity r ≡ capacity) }
        ensures handed_back { IfErr result (λ r. r ≡ inner) }
    {
        match vec![in alloc; 0; capacity] {
            Ok(buf) => Ok(BufReader {
                inner,
                buf,
                pos: 0,
                end: 0,
            }),
            Err(_) => Err(inner),
        }
    }

    /// Borrows the inner reader. It must be `Drop`.
    ///
    /// # Examples
    ///
    /// ```
    /// use futures_lite::io::BufReader;
    ///
    /// fn left<R>(rt: &R, bytes: &[u8]) -> Result<usize, AllocError>
    /// where
    ///     R: AllocGlobal,
    ///     ensures { IfOk result (λ n. n ≡ length bytes.now) }
    /// {
    ///     let Ok(reader) = BufReader::new(rt.alloc(), bytes) else {
    ///         return Err(AllocError);
    ///     };
    ///     Ok(reader.get_ref().len())
    /// }
    ///
    /// assert_eq!(rt; left(&rt, b"hello")?, 5);
    /// ```
    ///
    /// ```
    /// use futures_lite::io::BufReader;
    /// use futures_lite::{AsyncReadExt, future};
    /// use std::alloc::AllocError;
    ///
    /// let input: &[u8] = b"hello";
    /// let mut reader = BufReader::with_capacity(rt.alloc(), 3, input).map_err(|_| AllocError)?;
    /// future::block_on(&rt, reader.read(&mut [0; 1]))??;
    /// assert_eq!(rt; *reader.get_ref(), b"lo".as_slice());
    /// ```
    pub fn get_ref(&self) -> &R
        ensures { result.now ≡ reader_inner self.now }
    {
        &self.inner
    }

    /// Borrows the inner reader mutably. What is read from it this way is not buffered. It must be `Drop`.
    ///
    /// # Examples
    ///
    /// ```
    /// use futures_lite::io::BufReader;
    ///
    /// fn replaced<R>(rt: &R, bytes: &[u8]) -> Result<usize, AllocError>
    /// where
    ///     R: AllocGlobal,
    ///     ensures { IfOk result (λ n. n ≡ 2) }
    /// {
    ///     let Ok(mut reader) = BufReader::new(rt.alloc(), bytes) else {
    ///         return Err(AllocError);
    ///     };
    ///     *reader.get_mut() = b"hi";
    ///     Ok(reader.get_ref().len())
    /// }
    ///
    /// assert_eq!(rt; replaced(&rt, b"hello")?, 2);
    /// ```
    ///
    /// ```
    /// use futures_lite::io::BufReader;
    /// use futures_lite::{AsyncReadExt, future};
    /// use std::alloc::AllocError;
    ///
    /// let input: &[u8] = b"hello";
    /// let mut reader = BufReader::with_capacity(rt.alloc(), 3, input).map_err(|_| AllocError)?;
    /// future::block_on(&rt, reader.read(&mut [0; 1]))??;
    /// let mut buf = [0; 2];
    /// future::block_on(&rt, reader.get_mut().read(&mut buf))??;
    /// assert_eq!(rt; buf, *b"lo");
    /// assert_eq!(rt; reader.buffer(), b"el".as_slice());
    /// ```
    pub fn get_mut(&mut self) -> &mut R
        ensures value { result.now ≡ reader_inner self.old }
        ensures* writes_back { sem 𝓛 (Lends (the_row R.row) R.row self.entry result
            (λ w. record self.old { inner = w })) }
    {
        &mut self.inner
    }

    /// Returns the inner reader. The bytes in the buffer are lost. The inner reader must be `Drop`.
    ///
    /// # Examples
    ///
    /// ```
    /// use futures_lite::io::{BufReader, Cursor};
    ///
    /// fn inner<R>(rt: &R, bytes: Vec<u8>) -> Result<Vec<u8>, AllocError>
    /// where
    ///     R: AllocGlobal,
    ///     ensures { IfOk result (λ v. v ≡ bytes) }
    /// {
    ///     let Ok(reader) = BufReader::new(rt.alloc(), Cursor::new(bytes)) else {
    ///         return Err(AllocError);
    ///     };
    ///     Ok(reader.into_inner().into_inner())
    /// }
    ///
    /// let bytes = inner(&rt, Vec::from_slice(rt.alloc(), b"hello")?)?;
    /// assert_eq!(rt; bytes.as_slice(), b"hello".as_slice());
    /// ```
    ///
    /// ```
    /// use futures_lite::io::BufReader;
    /// use futures_lite::{AsyncReadExt, future};
    /// use std::alloc::AllocError;
    ///
    /// let input: &[u8] = b"hello";
    /// let mut reader = BufReader::with_capacity(rt.alloc(), 3, input).map_err(|_| AllocError)?;
    /// future::block_on(&rt, reader.read(&mut [0; 1]))??;
    /// assert_eq!(rt; reader.into_inner(), b"lo".as_slice());
    /// ```
    pub fn into_inner(self) -> R
        ensures { result ≡ reader_inner self }
    {
        self.inner
    }
}

impl<R> BufReader<R> {
    ghost use Rattle.lite_buffered.specs.BufReader.{bytes_ahead, reader_capacity};

    /// Returns a slice of the bytes that were read ahead and not yet consumed.
    ///
    /// # Examples
    ///
    /// ```
    /// use futures_lite::io::BufReader;
    ///
    /// fn buffered<R>(rt: &R, bytes: &[u8]) -> Result<usize, AllocError>
    /// where
    ///     R: AllocGlobal,
    ///     ensures { IfOk result (λ n. n ≡ 0) }
    /// {
    ///     let Ok(reader) = BufReader::new(rt.alloc(), bytes) else {
    ///         return Err(AllocError);
    ///     };
    ///     Ok(reader.buffer().len())
    /// }
    ///
    /// assert_eq!(rt; buffered(&rt, b"hello")?, 0);
    /// ```
    ///
    /// ```
    /// use futures_lite::io::BufReader;
    /// use futures_lite::{AsyncReadExt, future};
    /// use std::alloc::AllocError;
    ///
    /// let mut reader = BufReader::new(rt.alloc(), b"hello".as_slice()).map_err(|_| AllocError)?;
    /// assert!(rt; reader.buffer().is_empty());
    /// future::block_on(&rt, reader.read(&mut [0; 2]))??;
    /// assert_eq!(rt; reader.buffer(), b"llo".as_slice());
    /// ```
    pub fn buffer(&self) -> &[u8]
        ensures { result.now ≡ bytes_ahead self.now }
    {
        self.show()
    }

    fn show(&self) -> &[u8]
        ensures { result.now ≡ bytes_ahead self.now }
    {
        &self.buf[self.pos..self.end]
    }

    // Whether a read into so much room bypasses the buffer: nothing is ahead, and the room is at least the
    // capacity.
    #[inline(always)]
    fn is_passed(&self, room: usize) -> bool
        ensures passed { result ≡ true → (bytes_ahead self.now ≡ []) × (reader_capacity self.now ≤ room) }
        ensures used { result ≡ false → bytes_ahead self.now ≡ [] → room < reader_capacity self.now }
    {
        self.pos == self.end && room >= self.buf.len()
    }

    // How many bytes are ahead, as an offset.
    #[inline(always)]
    fn offset_ahead(&self) -> i64
        ensures count { result ≡ pos (length (bytes_ahead self.now)) }
        ensures small { length (bytes_ahead self.now) < 9223372036854775808 }
    {
        (self.end - self.pos) as i64
    }

    // Takes the first `amount` bytes of those that are ahead.
    #[tactic(auto, using(crate::proofs::Ranges::slice_range_advance))]
    fn advance(&mut self, amount: usize)
        requires { amount ≤ length (bytes_ahead self.old) }
        ensures inner { self.new.inner ≡ self.old.inner }
        ensures capacity { reader_capacity self.new ≡ reader_capacity self.old }
        ensures rest { bytes_ahead self.new ≡ drop amount (bytes_ahead self.old) }
    {
        self.pos += amount;
    }

    // Copies what is ahead into `buf` as far as there is room, and takes it.
    #[inline(always)]
    #[tactic(auto, using(crate::proofs::Ranges::taken_front))]
    fn hand_out(&mut self, buf: &mut [u8]) -> usize
        ensures count { result ≡ min (length (bytes_ahead self.old)) (length buf.new) }
        ensures bytes { take result buf.new ≡ take result (bytes_ahead self.old) }
        ensures inner { self.new.inner ≡ self.old.inner }
        ensures capacity { reader_capacity self.new ≡ reader_capacity self.old }
        ensures rest { bytes_ahead self.new ≡ drop result (bytes_ahead self.old) }
    {
        let n = fill_slice(self.show(), buf);
        self.advance(n);
        n
    }

    // Hands out as `hand_out` does, into several buffers.
    #[inline(always)]
    fn hand_out_vectored(&mut self, bufs: &mut [IoSliceMut<'_>]) -> usize
        ensures count { result ≡ min (length (bytes_ahead self.old)) (room_in bufs.old) }
        ensures inner { self.new.inner ≡ self.old.inner }
        ensures capacity { reader_capacity self.new ≡ reader_capacity self.old }
        ensures rest { bytes_ahead self.new ≡ drop result (bytes_ahead self.old) }
    {
        let n = fill_slices(self.show(), bufs);
        self.advance(n);
        n
    }
}

impl<R: ReadSpec> ReadSpec for BufReader<R> {
    ghost use Rattle.lite_buffered.specs.BufReader.{ThroughBuffer};
    ghost use Rattle.lite_buffered.specs.Laws.BufReader.{through_laws};
    ghost use Rattle.lite_buffered.specs.Laws.Known.{through_known};

    ghost reads = { ThroughBuffer R.reads };

    ghost read_laws = { through_laws R.read_laws };

    ghost known = { through_known R.known };
}

impl<R: WriteSpec> WriteSpec for BufReader<R> {
    ghost use Rattle.lite_buffered.specs.BufReader.{Past};
    ghost use Rattle.lite_buffered.specs.Laws.BufReader.{past_laws};

    ghost writes = { Past R.writes };

    ghost write_laws = { past_laws R.write_laws };
}

impl<R: AsyncRead> BufReader<R> {
    ghost use Rattle.lite_buffered.specs.BufReader.{AsksWhereEmpty, ThroughBuffer, bytes_ahead, reader_capacity, reader_inner};

    // Reads ahead if nothing is there.
    fn fill(&mut self, cx: &mut Context<'_>) -> Poll<io::Result<()>>
        ensures ran { ThroughBuffer R.reads self.old (fill_marks result (bytes_ahead self.new)) self.new }
        ensures lends { OnlyOkLends result (bytes_ahead self.new) }
        ensures asks { AsksWhereEmpty R.reads (reader_capacity self.old) self.old self.new }
        ensures registered { Registered result (R.registers (reader_inner self.new)) cx.new }
        ensures context { Keeps cx.old cx.new }
    {
        if self.pos < self.end {
            return Poll::Ready(Ok(()));
        }
        self.refill(cx)
    }

    // Reads into the whole buffer, as nothing is ahead.
    fn refill(&mut self, cx: &mut Context<'_>) -> Poll<io::Result<()>>
        requires { bytes_ahead self.old ≡ [] }
        ensures ran { ThroughBuffer R.reads self.old (fill_marks result (bytes_ahead self.new)) self.new }
        ensures lends { OnlyOkLends result (bytes_ahead self.new) }
        ensures asks { AsksWhereEmpty R.reads (reader_capacity self.old) self.old self.new }
        ensures registered { Registered result (R.registers (reader_inner self.new)) cx.new }
        ensures context { Keeps cx.old cx.new }
    {
        self.pos = 0;
        self.end = 0;
        match ready!(self.inner.poll_read(cx, self.buf.as_mut_slice())) {
            Ok(n) => {
                self.end = n;
                Poll::Ready(Ok(()))
            }
            Err(e) => Poll::Ready(Err(e)),
        }
    }

    // Reads out of the buffer, which is filled if nothing is ahead.
    #[inline(always)]
    fn read_ahead(&mut self, cx: &mut Context<'_>, buf: &mut [u8]) -> Poll<io::Result<usize>>
        requires { 0 < length buf.old }
        ensures bound { IfReady result (λ r. IfOk r (λ n. n ≤ length buf.new)) }
        ensures ran { ThroughBuffer R.reads self.old (read_marks result buf.new) self.new }
        ensures asks { AsksWhereEmpty R.reads (reader_capacity self.old) self.old self.new }
        ensures waits { OnPending result (bytes_ahead self.new ≡ []) }
        ensures registered { Registered result (R.registers (reader_inner self.new)) cx.new }
        ensures context { Keeps cx.old cx.new }
    {
        match ready!(self.fill(cx)) {
            Ok(()) => Poll::Ready(Ok(self.hand_out(buf))),
            Err(e) => Poll::Ready(Err(e)),
        }
    }

    // Reads as `read_ahead` does, into several buffers.
    #[inline(always)]
    fn read_ahead_vectored(
        &mut self,
        cx: &mut Context<'_>,
        bufs: &mut [IoSliceMut<'_>],
    ) -> Poll<io::Result<usize>>
        requires { 0 < room_in bufs.old }
        ensures bound { IfReady result (λ r. IfOk r (λ n. n ≤ room_in bufs.old)) }
        ensures ran { ReadsInto (ThroughBuffer R.reads) self.old result bufs.old self.new }
        ensures asks { AsksWhereEmpty R.reads (reader_capacity self.old) self.old self.new }
        ensures waits { OnPending result (bytes_ahead self.new ≡ []) }
        ensures registered { Registered result (R.registers (reader_inner self.new)) cx.new }
        ensures context { Keeps cx.old cx.new }
    {
        match ready!(self.fill(cx)) {
            Ok(()) => Poll::Ready(Ok(self.hand_out_vectored(bufs))),
            Err(e) => Poll::Ready(Err(e)),
        }
    }
}

impl<R: AsyncRead> AsyncRead for BufReader<R> {
    ghost use Rattle.lite_buffered.specs.BufReader.{AheadRegisters, AsksWhereEmpty, PollsOnce, ReadsPast, ThroughBuffer, bytes_ahead};
    ghost use Rattle.lite_buffered.specs.BufReader.{reader_capacity, reader_inner};

    ghost registers = { AheadRegisters R.registers };

    // Inline, because a call would return its large result through memory.
    #[inline(always)]
    #[tactic(auto, using(crate::proofs::Reading::polls_rules, crate::proofs::Reading::asks_rules))]
    fn poll_read(&mut self, cx: &mut Context<'_>, buf: &mut [u8]) -> Poll<io::Result<usize>>
        ensures bound { IfReady result (λ r. IfOk r (λ n. n ≤ length buf.new)) }
        ensures ran { ThroughBuffer R.reads self.old (read_marks result buf.new) self.new }
        ensures registered { Registered result (AheadRegisters R.registers self.new) cx.new }
        ensures context { Keeps cx.old cx.new }

        // The inner reader is polled at most once.
        ensures once { PollsOnce R.reads (max (reader_capacity self.old) (length buf.old)) (reader_inner self.old)
            (reader_inner self.new) }

        // If bytes are ahead, it is not polled. If none are, it is polled once, for at most the larger room.
        // No contract says that the room is exactly that of the buffer or of `buf`: tests do.
        ensures asks { 0 < length buf.old
            → AsksWhereEmpty R.reads (max (reader_capacity self.old) (length buf.old)) self.old self.new }

        // If none are ahead and the room is at least the capacity, its result is returned. Tests show that it
        // reads into `buf` itself.
        ensures past { 0 < length buf.old → bytes_ahead self.old ≡ [] → reader_capacity self.old ≤ length buf.old
            → ReadsPast R.reads self.old (read_marks result buf.new) self.new }

        // Without room nothing is polled.
        ensures idle { length buf.old ≡ 0 → (result ≡ Poll.Ready (Ok 0)) × (self.new ≡ self.old) }

        // Without a buffer the inner reader is read.
        ensures unbuffered { reader_capacity self.old ≡ 0
            → R.reads (reader_inner self.old) (read_marks result buf.new) (reader_inner self.new) }
    {
        if buf.is_empty() {
            return Poll::Ready(Ok(0));
        }
        if self.is_passed(buf.len()) {
            return self.inner.poll_read(cx, buf);
        }
        self.read_ahead(cx, buf)
    }

    #[tactic(auto, using(crate::proofs::Reading::polls_rules, crate::proofs::Reading::asks_rules))]
    fn poll_read_vectored(
        &mut self,
        cx: &mut Context<'_>,
        bufs: &mut [IoSliceMut<'_>],
    ) -> Poll<io::Result<usize>>
        ensures bound { IfReady result (λ r. IfOk r (λ n. n ≤ room_in bufs.old)) }
        ensures ran { ReadsInto (ThroughBuffer R.reads) self.old result bufs.old self.new }
        ensures registered { Registered result (AheadRegisters R.registers self.new) cx.new }
        ensures context { Keeps cx.old cx.new }

        // The inner reader is polled at most once.
        ensures once { PollsOnce R.reads (max (reader_capacity self.old) (room_in bufs.old)) (reader_inner self.old)
            (reader_inner self.new) }

        // If bytes are ahead, it is not polled. If none are, it is polled once, as `poll_read` does.
        ensures asks { 0 < room_in bufs.old
            → AsksWhereEmpty R.reads (max (reader_capacity self.old) (room_in bufs.old)) self.old self.new }

        // If none are ahead and the room is at least the capacity, its result is returned.
        ensures past { 0 < room_in bufs.old → bytes_ahead self.old ≡ [] → reader_capacity self.old ≤ room_in bufs.old
            → ReadsInto R.reads (reader_inner self.old) result bufs.old (reader_inner self.new)
            × (bytes_ahead self.new ≡ []) }

        // Without room nothing is polled.
        ensures idle { room_in bufs.old ≡ 0 → (result ≡ Poll.Ready (Ok 0)) × (self.new ≡ self.old) }

        // Without a buffer the inner reader is read.
        ensures unbuffered { reader_capacity self.old ≡ 0
            → ReadsInto R.reads (reader_inner self.old) result bufs.old (reader_inner self.new) }
    {
        let total = total_room(bufs);
        if total == 0 {
            return Poll::Ready(Ok(0));
        }
        if self.is_passed(total) {
            return self.inner.poll_read_vectored(cx, bufs);
        }
        self.read_ahead_vectored(cx, bufs)
    }
}

impl<R: AsyncRead> AsyncBufRead for BufReader<R> {
    ghost use Rattle.lite_buffered.specs.BufReader.{AheadRegisters, AsksWhereEmpty, ThroughBuffer, bytes_ahead, reader_capacity, reader_inner};
    ghost use Rattle.lite_buffered.specs.Laws.BufReader.{through_shows};
    ghost use Rattle.lite_buffered.specs.contracts.buf_reader.BufReader.{the_row};
    ghost use Rattle.lite_io_base.specs.Runs.{Afterwards, Fills};

    ghost buffer_of = { bytes_ahead };

    ghost shows = { through_shows };

    fn poll_fill_buf(&mut self, cx: &mut Context<'_>) -> Poll<io::Result<&[u8]>>
        ensures* after_borrow { sem 𝓛 (Afterwards (the_row R.row) self.entry
            (λ new. Fills (ThroughBuffer R.reads) bytes_ahead self.old result new
            × Registered result (AheadRegisters R.registers new) cx.new
            × AsksWhereEmpty R.reads (reader_capacity self.old) self.old new)) }
        ensures context { Keeps cx.old cx.new }
    {
        match ready!(self.fill(cx)) {
            Ok(()) => Poll::Ready(Ok(self.show())),
            Err(e) => Poll::Ready(Err(e)),
        }
    }

    fn buffer(&self) -> &[u8] {
        self.show()
    }

    #[tactic(auto, using(crate::proofs::Reading::through_advance))]
    fn consume(&mut self, amount: usize) {
        self.advance(amount);
    }
}

impl<R: AsyncWrite> AsyncWrite for BufReader<R> {
    ghost use Rattle.lite_buffered.specs.BufReader.{reader_inner};

    ghost write_registers = { λ r. R.write_registers (reader_inner r) };

    /// Writes to the inner writer. The buffer does not change.
    fn poll_write(&mut self, cx: &mut Context<'_>, buf: &[u8]) -> Poll<io::Result<usize>> {
        self.inner.poll_write(cx, buf)
    }

    /// Flushes the inner writer. The buffer does not change.
    fn poll_flush(&mut self, cx: &mut Context<'_>) -> Poll<io::Result<()>> {
        self.inner.poll_flush(cx)
    }

    /// Closes the inner writer. What is in the buffer can still be read.
    fn poll_close(&mut self, cx: &mut Context<'_>) -> Poll<io::Result<()>> {
        self.inner.poll_close(cx)
    }
}

impl<R: AsyncSeek> AsyncSeek for BufReader<R> {
    ghost use Rattle.lite_buffered.specs.BufReader.{reader_inner};
    ghost use Rattle.lite_buffered.specs.BufReader.{SeeksThrough};

    ghost seeks = { SeeksThrough R.seeks };

    ghost seek_registers = { λ r. R.seek_registers (reader_inner r) };

    /// Seeks the inner reader. The position is that of the byte that is read next.
    ///
    /// So a seek from the current position by `offset` seeks the inner reader by `offset` less the number of
    /// bytes in the buffer. If that is not an `i64`, it seeks back by the bytes in the buffer, drops them,
    /// and then seeks by `offset`. A success drops the bytes in the buffer. `Pending` and an error keep them,
    /// except from the second of two seeks.
    fn poll_seek(&mut self, cx: &mut Context<'_>, pos: SeekFrom) -> Poll<io::Result<u64>> {
        match pos {
            SeekFrom::Current(offset) => self.seek_on(cx, offset),
            _ => self.seek_once(cx, pos),
        }
    }
}

impl<R: AsyncSeek> BufReader<R> {
    ghost use Rattle.lite_buffered.specs.Uses.{by_kind};
    ghost use Rattle.lite_buffered.specs.BufReader.{reader_inner};
    ghost use Rattle.lite_buffered.specs.BufReader.{SeeksOnce, SeeksThrough, SeeksTwice};

    // Seeks from the position of the byte that is read next.
    #[inline(always)]
    fn seek_on(&mut self, cx: &mut Context<'_>, offset: i64) -> Poll<io::Result<u64>>
        ensures sought { SeeksThrough R.seeks self.old (SeekFrom.Current offset) (by_kind result) self.new }
        ensures registered { Registered result (R.seek_registers (reader_inner self.new)) cx.new }
        ensures context { Keeps cx.old cx.new }
    {
        let ahead = self.offset_ahead();
        if let Some(less) = offset.checked_sub(ahead) {
            return self.seek_once(cx, SeekFrom::Current(less));
        }
        self.seek_twice(cx, SeekFrom::Current(-ahead), SeekFrom::Current(offset))
    }

    // Seeks the inner reader, and once more if that succeeds.
    #[inline(always)]
    fn seek_twice(
        &mut self,
        cx: &mut Context<'_>,
        first: SeekFrom,
        second: SeekFrom,
    ) -> Poll<io::Result<u64>>
        ensures sought { SeeksTwice R.seeks self.old first second (by_kind result) self.new }
        ensures registered { Registered result (R.seek_registers (reader_inner self.new)) cx.new }
        ensures context { Keeps cx.old cx.new }
    {
        match ready!(self.seek_once(cx, first)) {
            Ok(_) => self.seek_once(cx, second),
            Err(e) => Poll::Ready(Err(e)),
        }
    }

    // Seeks the inner reader, and drops what is ahead if that succeeds.
    fn seek_once(&mut self, cx: &mut Context<'_>, pos: SeekFrom) -> Poll<io::Result<u64>>
        ensures sought { SeeksOnce R.seeks self.old pos (by_kind result) self.new }
        ensures registered { Registered result (R.seek_registers (reader_inner self.new)) cx.new }
        ensures context { Keeps cx.old cx.new }
    {
        match ready!(self.inner.poll_seek(cx, pos)) {
            Ok(n) => {
                self.pos = 0;
                self.end = 0;
                Poll::Ready(Ok(n))
            }
            Err(e) => Poll::Ready(Err(e)),
        }
    }
}

impl<R: CountedRead> CountedRead for BufReader<R> {
    ghost use Rattle.lite_buffered.specs.BufReader.{ahead_ranks};
    ghost use Rattle.lite_buffered.specs.Laws.BufReader.{through_counting};

    ghost ranks = { ahead_ranks R.ranks };

    ghost counting = { through_counting R.counting };
}

// If its capacity is above 0: without one, a fill looks like end of file.
impl<R: SteadyRead> SteadyRead for BufReader<R> {
    ghost use Rattle.lite_buffered.specs.BufReader.{ThroughBuffer};
    ghost use Rattle.lite_buffered.specs.Laws.BufReader.{AheadAlike, buf_reader_steady};

    ghost ample = { ThroughBuffer R.ample };

    ghost needs_none = { R.needs_none };

    ghost alike = { AheadAlike R.alike };

    ghost steady = { buf_reader_steady R.steady };
}

// Past what is ahead.
impl<R: SteadyWrite> SteadyWrite for BufReader<R> {
    ghost use Rattle.lite_buffered.specs.Laws.SteadyWrite.{past_steady};

    ghost alike = { λ x y. R.alike x.inner y.inner };

    ghost below = { λ x. R.below x.inner };

    ghost steady = { past_steady R.steady };
}

impl<R: CalmRead> CalmRead for BufReader<R> {
    ghost use Rattle.lite_buffered.specs.Laws.BufReader.{buf_reader_calm};

    ghost is_calm = { λ x. R.is_calm x.inner };

    ghost calm = { buf_reader_calm R.calm };
}

impl<R: ArmedRead> ArmedRead for BufReader<R> {
    ghost use Rattle.lite_buffered.specs.Laws.BufReader.{buf_reader_arms};

    ghost armed = { buf_reader_arms R.armed };
}

// Past what is ahead.
impl<R: CalmWrite> CalmWrite for BufReader<R> {
    ghost use Rattle.lite_buffered.specs.Laws.SteadyWrite.{past_calm};

    ghost is_calm = { λ x. R.is_calm x.inner };

    ghost calm = { past_calm R.calm };
}

impl<R: ArmedWrite> ArmedWrite for BufReader<R> {
    ghost use Rattle.lite_buffered.specs.Laws.SteadyWrite.{past_arms};

    ghost armed = { past_arms R.armed };
}
