ghost use Rattle.std.specs.Prelude.{◌≡◌, ◌+◌, ◌<◌, ◌≤◌, [], Ok, ◌++◌, length, IfOk, IfErr};
ghost use Rattle.lite_buffered.specs.Uses.{Lends, sem, boxed_slice_items, IfReady, Keeps, by_kind, idle_laws, Idle, done_marks, write_marks};
ghost use Rattle.lite_buffered.specs.Uses.{Registered};
ghost use Rattle.lite_io_base.specs.WriteMarks.WriteMark.{closed, flushed};

use lite_base::{Context, Poll, ready};
use lite_io_base::{
    ArmedWrite, AsyncSeek, AsyncWrite, CalmWrite, ReadSpec, SteadyWrite, WriteSpec,
};
use std::alloc::Global;
use std::boxed::BoxedSlice;
use std::io::{ErrorKind, SeekFrom};
use std::{fmt, io};

/// The default capacity of a buffer, in bytes.
const DEFAULT_CAPACITY: usize = 8192;

/// How many interruptions in a row a flush of the buffer retries after.
const MOST_INTERRUPTIONS: usize = 16;

/// A writer that collects written bytes in a buffer, so that small writes do not each poll the inner writer.
///
/// The buffer is written out before each flush, close and seek, and before a write that it has no room for.
/// If the inner writer takes no bytes then, that is an error of the kind `WriteZero`. After an `Interrupted`
/// it is polled again, up to 16 times in a row. After `Pending` and after an error, the bytes that were not
/// taken are still in the buffer, and the call may be made again.
///
/// A vectored write takes bytes of one buffer alone: the first that is not empty. The `BufWriter`s of std and
/// tokio gather all buffers if they have room for them.
///
/// The buffer is allocated once; no later call of the writer allocates. `into_inner` and a drop lose what is
/// in the buffer, so flush it before.
///
/// # Examples
///
/// ```
/// use futures_lite::io::BufWriter;
/// use futures_lite::{AsyncWriteExt, future};
/// use std::io;
///
/// fn through<R>(rt: &R, bytes: &[u8], out: Vec<u8>) -> Result<io::Result<Vec<u8>>, AllocError>
/// where
///     R: Wait + RandomSource + AllocGlobal,
///     ensures { IfOk result (λ r. IfOk r (λ v. v.items ≡ out.items ++ bytes.now)) }
/// {
///     let Ok(mut writer) = BufWriter::new(rt.alloc(), out) else {
///         return Err(AllocError);
///     };
///     if let Err(e) = future::wait_for(rt, &mut writer.write_all(bytes))? {
///         return Ok(Err(e));
///     }
///     if let Err(e) = future::wait_for(rt, &mut writer.flush())? {
///         return Ok(Err(e));
///     }
///     Ok(Ok(writer.into_inner()))
/// }
///
/// let output = through(&rt, b"world", Vec::from_slice(rt.alloc(), b"hello, ")?)??;
/// assert_eq!(rt; output.as_slice(), b"hello, world".as_slice());
/// ```
///
/// ```
/// use futures_lite::io::BufWriter;
/// use futures_lite::{AsyncWriteExt, future};
/// use std::alloc::AllocError;
///
/// let mut output = Vec::new(rt.alloc());
/// let mut writer = BufWriter::new(rt.alloc(), &mut output).map_err(|_| AllocError)?;
/// future::block_on(&rt, writer.write_all(b"hello, "))??;
/// future::block_on(&rt, writer.write_all(b"world"))??;
/// assert!(rt; writer.get_ref().is_empty());
/// future::block_on(&rt, writer.flush())??;
/// drop(writer);
/// assert_eq!(rt; output.as_slice(), b"hello, world".as_slice());
/// ```
#[derive(Drop)]
pub struct BufWriter<W> {
    inner: W,
    // As long as the capacity. The buffered bytes are at ..len, and the inner writer took those at ..written.
    buf: BoxedSlice<u8>,
    written: usize,
    len: usize,
    ghost in_range: { (written ≤ len) × (len ≤ length (boxed_slice_items buf)) },
}

impl<W: fmt::Debug> fmt::Debug for BufWriter<W> {
    fn fmt<O: fmt::Write>(&self, f: &mut fmt::Formatter<O>) -> fmt::Result {
        f.debug_struct("BufWriter")
            .field("writer", &self.inner)
            .field("buf", &self.buffer())
            .finish()
    }
}

impl<W: Drop> BufWriter<W> {
    ghost use Rattle.lite_buffered.specs.contracts.buf_writer.BufWriter.{the_row};
    ghost use Rattle.lite_buffered.specs.BufWriter.{buffered, unwritten, writer_capacity, writer_inner};

    /// Returns a writer to `inner` with an empty buffer of 8192 bytes.
    ///
    /// It returns `Err(inner)` if the buffer cannot be allocated. `inner` must be `Drop`.
    ///
    /// # Examples
    ///
    /// ```
    /// use futures_lite::io::BufWriter;
    ///
    /// fn kept<R>(rt: &R, inner: Vec<u8>) -> Result<usize, AllocError>
    /// where
    ///     R: AllocGlobal,
    ///     ensures { IfOk result (λ n. n ≡ length inner.items) }
    /// {
    ///     let Ok(writer) = BufWriter::new(rt.alloc(), inner) else {
    ///         return Err(AllocError);
    ///     };
    ///     Ok(writer.get_ref().len())
    /// }
    ///
    /// assert_eq!(rt; kept(&rt, Vec::from_slice(rt.alloc(), b"hello")?)?, 5);
    /// ```
    ///
    /// ```
    /// use futures_lite::io::BufWriter;
    /// use futures_lite::{AsyncWriteExt, future};
    /// use std::alloc::AllocError;
    ///
    /// let mut writer = BufWriter::new(rt.alloc(), Vec::new(rt.alloc())).map_err(|_| AllocError)?;
    /// future::block_on(&rt, writer.write_all(b"hello"))??;
    /// assert!(rt; writer.get_ref().is_empty());
    /// assert_eq!(rt; writer.buffer(), b"hello".as_slice());
    /// ```
    pub fn new(alloc: Global, inner: W) -> Result<BufWriter<W>, W>
        ensures inner { IfOk result (λ w. writer_inner w ≡ inner) }
        ensures empty { IfOk result (λ w. buffered w ≡ []) }
        ensures held { IfOk result (λ w. unwritten w ≡ []) }
        ensures capacity { IfOk result (λ w. writer_capacity w ≡ 8192) }
        ensures handed_back { IfErr result (λ w. w ≡ inner) }
    {
        BufWriter::with_capacity(alloc, DEFAULT_CAPACITY, inner)
    }

    /// Returns a writer to `inner` with an empty buffer of `capacity` bytes.
    ///
    /// It returns `Err(inner)` if the buffer cannot be allocated. With a capacity of 0 each write goes to
    /// `inner`, and the buffer is always empty. `inner` must be `Drop`.
    ///
    /// # Examples
    ///
    /// ```
    /// use futures_lite::io::BufWriter;
    ///
    /// fn kept<R>(rt: &R, inner: Vec<u8>) -> Result<usize, AllocError>
    /// where
    ///     R: AllocGlobal,
    ///     ensures { IfOk result (λ n. n ≡ length inner.items) }
    /// {
    ///     let Ok(writer) = BufWriter::with_capacity(rt.alloc(), 100, inner) else {
    ///         return Err(AllocError);
    ///     };
    ///     Ok(writer.get_ref().len())
    /// }
    ///
    /// assert_eq!(rt; kept(&rt, Vec::from_slice(rt.alloc(), b"hello")?)?, 5);
    /// ```
    ///
    /// ```
    /// use futures_lite::io::BufWriter;
    /// use futures_lite::{AsyncWriteExt, future};
    /// use std::alloc::AllocError;
    ///
    /// let output = Vec::new(rt.alloc());
    /// let mut writer = BufWriter::with_capacity(rt.alloc(), 3, output).map_err(|_| AllocError)?;
    /// future::block_on(&rt, writer.write_all(b"he"))??;
    ///
    /// // There is no room for two more bytes, so the first two are written out.
    /// future::block_on(&rt, writer.write_all(b"ll"))??;
    /// assert_eq!(rt; writer.get_ref().as_slice(), b"he".as_slice());
    /// assert_eq!(rt; writer.buffer(), b"ll".as_slice());
    /// ```
    pub fn with_capacity(alloc: Global, capacity: usize, inner: W) -> Result<BufWriter<W>, W>
        ensures inner { IfOk result (λ w. writer_inner w ≡ inner) }
        ensures empty { IfOk result (λ w. buffered w ≡ []) }
        ensures held { IfOk result (λ w. unwritten w ≡ []) }
        ensures capacity { IfOk result (λ w. writer_capacity w ≡ capacity) }
        ensures handed_back { IfErr result (λ w. w ≡ inner) }
    {
        match vec![in alloc; 0; capacity] {
            Ok(buf) => Ok(BufWriter {
                inner,
                buf: buf.into_boxed_slice(),
                written: 0,
                len: 0,
            }),
            Err(_) => Err(inner),
        }
    }

    /// Borrows the inner writer. It must be `Drop`.
    ///
    /// # Examples
    ///
    /// ```
    /// use futures_lite::io::BufWriter;
    ///
    /// fn kept<R>(rt: &R, inner: Vec<u8>) -> Result<usize, AllocError>
    /// where
    ///     R: AllocGlobal,
    ///     ensures { IfOk result (λ n. n ≡ length inner.items) }
    /// {
    ///     let Ok(writer) = BufWriter::new(rt.alloc(), inner) else {
    ///         return Err(AllocError);
    ///     };
    ///     Ok(writer.get_ref().len())
    /// }
    ///
    /// assert_eq!(rt; kept(&rt, Vec::from_slice(rt.alloc(), b"hello")?)?, 5);
    /// ```
    ///
    /// ```
    /// use futures_lite::io::BufWriter;
    /// use futures_lite::{AsyncWriteExt, future};
    /// use std::alloc::AllocError;
    ///
    /// let mut writer = BufWriter::new(rt.alloc(), Vec::new(rt.alloc())).map_err(|_| AllocError)?;
    /// future::block_on(&rt, writer.write_all(b"hello"))??;
    /// future::block_on(&rt, writer.flush())??;
    /// assert_eq!(rt; writer.get_ref().as_slice(), b"hello".as_slice());
    /// ```
    pub fn get_ref(&self) -> &W
        ensures { result.now ≡ writer_inner self.now }
    {
        &self.inner
    }

    /// Borrows the inner writer mutably. What is written to it this way goes ahead of what is in the buffer.
    /// It must be `Drop`.
    ///
    /// # Examples
    ///
    /// ```
    /// use futures_lite::io::BufWriter;
    ///
    /// fn cleared<R>(rt: &R, inner: Vec<u8>) -> Result<usize, AllocError>
    /// where
    ///     R: AllocGlobal,
    ///     ensures { IfOk result (λ n. n ≡ 0) }
    /// {
    ///     let Ok(mut writer) = BufWriter::new(rt.alloc(), inner) else {
    ///         return Err(AllocError);
    ///     };
    ///     writer.get_mut().clear();
    ///     Ok(writer.get_ref().len())
    /// }
    ///
    /// assert_eq!(rt; cleared(&rt, Vec::from_slice(rt.alloc(), b"hello")?)?, 0);
    /// ```
    ///
    /// ```
    /// use futures_lite::io::BufWriter;
    /// use futures_lite::{AsyncWriteExt, future};
    /// use std::alloc::AllocError;
    ///
    /// let mut writer = BufWriter::new(rt.alloc(), Vec::new(rt.alloc())).map_err(|_| AllocError)?;
    /// future::block_on(&rt, writer.write_all(b"world"))??;
    /// writer.get_mut().extend_from_slice(b"hello, ")?;
    /// future::block_on(&rt, writer.flush())??;
    /// assert_eq!(rt; writer.get_ref().as_slice(), b"hello, world".as_slice());
    /// ```
    pub fn get_mut(&mut self) -> &mut W
        ensures value { result.now ≡ writer_inner self.old }
        ensures* writes_back { sem 𝓛 (Lends (the_row W.row) W.row self.entry result
            (λ w. record self.old { inner = w })) }
    {
        &mut self.inner
    }

    /// Returns the inner writer, and writes nothing to it: the bytes in the buffer are lost. The inner writer
    /// must be `Drop`.
    ///
    /// # Examples
    ///
    /// ```
    /// use futures_lite::io::BufWriter;
    /// use futures_lite::{AsyncWriteExt, future};
    /// use std::io;
    ///
    /// fn flushed<R>(rt: &R, bytes: &[u8], inner: Vec<u8>) -> Result<io::Result<Vec<u8>>, AllocError>
    /// where
    ///     R: Wait + RandomSource + AllocGlobal,
    ///     ensures { IfOk result (λ r. IfOk r (λ v. v.items ≡ inner.items ++ bytes.now)) }
    /// {
    ///     let Ok(mut writer) = BufWriter::new(rt.alloc(), inner) else {
    ///         return Err(AllocError);
    ///     };
    ///     if let Err(e) = future::wait_for(rt, &mut writer.write_all(bytes))? {
    ///         return Ok(Err(e));
    ///     }
    ///     if let Err(e) = future::wait_for(rt, &mut writer.flush())? {
    ///         return Ok(Err(e));
    ///     }
    ///     Ok(Ok(writer.into_inner()))
    /// }
    ///
    /// let inner = flushed(&rt, b"hello", Vec::new(rt.alloc()))??;
    /// assert_eq!(rt; inner.as_slice(), b"hello".as_slice());
    /// ```
    ///
    /// ```
    /// use futures_lite::io::BufWriter;
    /// use futures_lite::{AsyncWriteExt, future};
    /// use std::alloc::AllocError;
    ///
    /// let mut writer = BufWriter::new(rt.alloc(), Vec::new(rt.alloc())).map_err(|_| AllocError)?;
    /// future::block_on(&rt, writer.write_all(b"hello, "))??;
    /// future::block_on(&rt, writer.flush())??;
    /// future::block_on(&rt, writer.write_all(b"world"))??;
    /// assert_eq!(rt; writer.into_inner().as_slice(), b"hello, ".as_slice());
    /// ```
    pub fn into_inner(self) -> W
        ensures { result ≡ writer_inner self }
    {
        self.inner
    }
}

impl<W> BufWriter<W> {
    ghost use Rattle.lite_buffered.specs.BufWriter.{buffered, unwritten, writer_capacity, writer_inner};

    /// Returns a slice of the bytes in the buffer. While a flush is pending, it begins with those that the
    /// inner writer has already taken.
    ///
    /// # Examples
    ///
    /// ```
    /// use futures_lite::io::BufWriter;
    ///
    /// fn buffered<R>(rt: &R, inner: Vec<u8>) -> Result<usize, AllocError>
    /// where
    ///     R: AllocGlobal,
    ///     ensures { IfOk result (λ n. n ≡ 0) }
    /// {
    ///     let Ok(writer) = BufWriter::new(rt.alloc(), inner) else {
    ///         return Err(AllocError);
    ///     };
    ///     Ok(writer.buffer().len())
    /// }
    ///
    /// assert_eq!(rt; buffered(&rt, Vec::new(rt.alloc()))?, 0);
    /// ```
    ///
    /// ```
    /// use futures_lite::io::BufWriter;
    /// use futures_lite::{AsyncWriteExt, future};
    /// use std::alloc::AllocError;
    ///
    /// let mut writer = BufWriter::new(rt.alloc(), Vec::new(rt.alloc())).map_err(|_| AllocError)?;
    /// future::block_on(&rt, writer.write_all(b"hello"))??;
    /// assert_eq!(rt; writer.buffer(), b"hello".as_slice());
    /// future::block_on(&rt, writer.flush())??;
    /// assert!(rt; writer.buffer().is_empty());
    /// ```
    pub fn buffer(&self) -> &[u8]
        ensures { result.now ≡ buffered self.now }
    {
        &self.buf[..self.len]
    }

    // Puts `bytes` behind what is buffered.
    fn hold(&mut self, bytes: &[u8])
        requires { length (buffered self.old) + length bytes.now ≤ writer_capacity self.old }
        ensures inner { writer_inner self.new ≡ writer_inner self.old }
        ensures capacity { writer_capacity self.new ≡ writer_capacity self.old }
        ensures held { unwritten self.new ≡ unwritten self.old ++ bytes.now }
        ensures buffered { buffered self.new ≡ buffered self.old ++ bytes.now }
    {
        let end = self.len + bytes.len();
        self.buf[self.len..end].copy_from_slice(bytes);
        self.len = end;
    }

    // Drops the bytes that the inner writer took, and moves the others to the front.
    fn shift(&mut self)
        ensures inner { writer_inner self.new ≡ writer_inner self.old }
        ensures capacity { writer_capacity self.new ≡ writer_capacity self.old }
        ensures held { unwritten self.new ≡ unwritten self.old }
        ensures buffered { buffered self.new ≡ unwritten self.old }
    {
        self.buf.copy_within(self.written..self.len, 0);
        self.len -= self.written;
        self.written = 0;
    }
}

impl<W: WriteSpec> WriteSpec for BufWriter<W> {
    ghost use Rattle.lite_buffered.specs.BufWriter.{Buffers};
    ghost use Rattle.lite_buffered.specs.Laws.BufWriter.{buffers_laws, buffers_stored};

    ghost writes = { Buffers W.writes };

    ghost write_laws = { buffers_laws W.write_laws };

    ghost stored = { buffers_stored W.stored };
}

// It is not read from.
impl<W> ReadSpec for BufWriter<W> {
    ghost reads = { Idle };

    ghost read_laws = { idle_laws };
}

impl<W: AsyncWrite> BufWriter<W> {
    ghost use Rattle.lite_buffered.specs.BufWriter.{FlushesBuffer, MakesRoom, ShownAfter, buffered, unwritten};
    ghost use Rattle.lite_buffered.specs.BufWriter.{writer_capacity, writer_inner};

    // Writes what is held to the inner writer. A pending moves no byte; an error drops what was taken.
    fn flush_buf(&mut self, cx: &mut Context<'_>) -> Poll<io::Result<()>>
        ensures ran { FlushesBuffer W.writes self.old (by_kind result) self.new }
        ensures shown { ShownAfter result self.old self.new }
        ensures registered { Registered result (W.write_registers (writer_inner self.new)) cx.new }
        ensures context { Keeps cx.old cx.new }
    {
        let mut interruptions = 0;
        'writes: while self.written < self.len {
            match self.offer(cx) {
                Poll::Ready(Ok(0)) => {
                    self.shift();
                    return Poll::Ready(Err(io::Error::new(
                        ErrorKind::WriteZero,
                        "Failed to write buffered data",
                    )));
                }
                Poll::Ready(Ok(n)) => {
                    self.written += n;
                    interruptions = 0;
                }
                Poll::Ready(Err(e))
                    if e.kind() == ErrorKind::Interrupted && interruptions < MOST_INTERRUPTIONS => {
                    interruptions += 1;
                }
                Poll::Ready(Err(e)) => {
                    self.shift();
                    return Poll::Ready(Err(e));
                }
                Poll::Pending => return Poll::Pending,
            }
        }
        self.written = 0;
        self.len = 0;
        Poll::Ready(Ok(()))
    }

    // Offers what is held to the inner writer, once.
    fn offer(&mut self, cx: &mut Context<'_>) -> Poll<io::Result<usize>>
        ensures ran { W.writes self.old.inner (write_marks result (unwritten self.old)) self.new.inner }
        ensures bound { IfReady result (λ r. IfOk r (λ n. n ≤ length (unwritten self.old))) }
        ensures buf { self.new.buf ≡ self.old.buf }
        ensures written { self.new.written ≡ self.old.written }
        ensures len { self.new.len ≡ self.old.len }
        ensures registered { Registered result (W.write_registers self.new.inner) cx.new }
        ensures context { Keeps cx.old cx.new }
    {
        self.inner.poll_write(cx, &self.buf[self.written..self.len])
    }

    // Flushes the buffer if it has no room for `count` more bytes.
    fn make_room(&mut self, cx: &mut Context<'_>, count: usize) -> Poll<io::Result<()>>
        ensures ran { MakesRoom W.writes self.old count (by_kind result) self.new }
        ensures room { IfReady result
            (λ r. IfOk r
            (λ _. count < writer_capacity self.new
            → length (buffered self.new) + count ≤ writer_capacity self.new)) }
        ensures free { IfReady result (λ r. IfOk r (λ _. writer_capacity self.new ≤ count → buffered self.new ≡ [])) }
        ensures shown { (length (buffered self.old) + count ≤ writer_capacity self.old → ⊥)
            → ShownAfter result self.old self.new }
        ensures idle { length (buffered self.old) + count ≤ writer_capacity self.old → (self.new ≡ self.old)
            × (result ≡ Poll.Ready (Ok tt)) }
        ensures registered { Registered result (W.write_registers (writer_inner self.new)) cx.new }
        ensures context { Keeps cx.old cx.new }
    {
        if count <= self.buf.len() - self.len {
            return Poll::Ready(Ok(()));
        }
        self.flush_buf(cx)
    }
}

impl<W: AsyncWrite> AsyncWrite for BufWriter<W> {
    ghost use Rattle.lite_buffered.specs.BufWriter.{Buffers, BuffersAll, FitsBuffer, PassesOn, ShownAfter, writer_capacity};
    ghost use Rattle.lite_buffered.specs.BufWriter.{writer_inner};

    ghost write_registers = { λ w. W.write_registers (writer_inner w) };

    /// Copies `buf` to the buffer, or writes it to the inner writer if it is at least as long as the
    /// capacity. If the buffer has too little room left, it is written out first. While that is pending, and
    /// if it fails, no byte of `buf` is taken.
    fn poll_write(&mut self, cx: &mut Context<'_>, buf: &[u8]) -> Poll<io::Result<usize>>
        ensures bound { IfReady result (λ r. IfOk r (λ n. n ≤ length buf.now)) }
        ensures ran { Buffers W.writes self.old (write_marks result buf.now) self.new }
        ensures registered { Registered result (W.write_registers (writer_inner self.new)) cx.new }
        ensures context { Keeps cx.old cx.new }

        // What is shorter than the capacity is taken whole.
        ensures whole { length buf.now < writer_capacity self.old → IfReady result (λ r. IfOk r (λ n. n ≡ length buf.now)) }

        // What is not shorter goes to the inner writer, and none of it is held.
        ensures passes { writer_capacity self.old ≤ length buf.now → PassesOn W.writes self.old buf.now result self.new }

        // What there is room for is held, and the inner writer is left alone.
        ensures holds { FitsBuffer self.old buf.now → BuffersAll self.old buf.now result self.new }
        ensures shown { (FitsBuffer self.old buf.now → ⊥) → ShownAfter result self.old self.new }
    {
        match ready!(self.make_room(cx, buf.len())) {
            Ok(()) => {}
            Err(e) => return Poll::Ready(Err(e)),
        }
        if buf.len() >= self.buf.len() {
            return self.inner.poll_write(cx, buf);
        }
        self.hold(buf);
        Poll::Ready(Ok(buf.len()))
    }

    /// Writes the buffer out to the inner writer, and then flushes that. While the former is pending, and if
    /// it fails, there is no flush.
    #[tactic(auto, using(crate::proofs::Answering::stopped_waits, crate::proofs::Answering::stopped_fails))]
    fn poll_flush(&mut self, cx: &mut Context<'_>) -> Poll<io::Result<()>>
        ensures ran { Buffers W.writes self.old (done_marks flushed result) self.new }
        ensures shown { ShownAfter result self.old self.new }
        ensures registered { Registered result (W.write_registers (writer_inner self.new)) cx.new }
        ensures context { Keeps cx.old cx.new }
    {
        match ready!(self.flush_buf(cx)) {
            Ok(()) => self.inner.poll_flush(cx),
            Err(e) => Poll::Ready(Err(e)),
        }
    }

    /// Writes the buffer out to the inner writer, and then closes that. While the former is pending, and if
    /// it fails, there is no close.
    #[tactic(auto, using(crate::proofs::Answering::stopped_waits, crate::proofs::Answering::stopped_fails))]
    fn poll_close(&mut self, cx: &mut Context<'_>) -> Poll<io::Result<()>>
        ensures ran { Buffers W.writes self.old (done_marks closed result) self.new }
        ensures shown { ShownAfter result self.old self.new }
        ensures registered { Registered result (W.write_registers (writer_inner self.new)) cx.new }
        ensures context { Keeps cx.old cx.new }
    {
        match ready!(self.flush_buf(cx)) {
            Ok(()) => self.inner.poll_close(cx),
            Err(e) => Poll::Ready(Err(e)),
        }
    }
}

impl<W: AsyncWrite + AsyncSeek> AsyncSeek for BufWriter<W> {
    ghost use Rattle.lite_buffered.specs.BufWriter.{SeekRegisters, SeeksAfter, ShownAfter};

    ghost seeks = { SeeksAfter W.writes W.seeks };

    ghost seek_registers = { SeekRegisters W.write_registers W.seek_registers };

    /// Writes the buffer out to the inner writer, and then seeks that. While the former is pending, and if it
    /// fails, there is no seek.
    fn poll_seek(&mut self, cx: &mut Context<'_>, pos: SeekFrom) -> Poll<io::Result<u64>>
        ensures sought { SeeksAfter W.writes W.seeks self.old pos (by_kind result) self.new }
        ensures shown { ShownAfter result self.old self.new }
        ensures registered { Registered result (SeekRegisters W.write_registers W.seek_registers self.new) cx.new }
        ensures context { Keeps cx.old cx.new }
    {
        if let Err(e) = ready!(self.flush_buf(cx)) {
            return Poll::Ready(Err(e));
        }
        self.inner.poll_seek(cx, pos)
    }
}

impl<W: SteadyWrite> SteadyWrite for BufWriter<W> {
    ghost use Rattle.lite_buffered.specs.Laws.SteadyWrite.{HeldAlike, buf_writer_steady};

    ghost alike = { HeldAlike W.alike };

    ghost below = { λ x. W.below x.inner };

    ghost steady = { buf_writer_steady W.steady };
}

impl<W: CalmWrite> CalmWrite for BufWriter<W> {
    ghost use Rattle.lite_buffered.specs.Laws.SteadyWrite.{buf_writer_calm};

    ghost is_calm = { λ x. W.is_calm x.inner };

    ghost calm = { buf_writer_calm W.calm };
}

impl<W: ArmedWrite> ArmedWrite for BufWriter<W> {
    ghost use Rattle.lite_buffered.specs.Laws.SteadyWrite.{buf_writer_arms};

    ghost armed = { buf_writer_arms W.armed };
}
