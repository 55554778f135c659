ghost use Rattle.std.specs.Prelude.{◌≡◌, ◌≤◌, [], length, None, IfOk};
ghost use Rattle.lite_bridge.specs.Uses.{Lends, sem, ReadsAtMost, WritesAtMost, SeekMoves, io_slices_bytes, by_kind, read_marks, room_in, done_marks};
ghost use Rattle.lite_bridge.specs.Uses.{write_marks, closed, flushed};
ghost use Rattle.lite_io_base.specs.Runs.{ReadsInto};
ghost use Rattle.std.specs.Io.KnownBytes.{Keeps as KeepsKnown, ReadConsumes, WriteAppends};
ghost use mir.Syntax.{named};
ghost use Rattle.lite_bridge.specs.AsyncAsSync.{InTime, PollsWith, SameContext, Synced};

use lite_base::{Context, Poll};
use lite_io_base::{AsyncRead, AsyncSeek, AsyncWrite};
use std::io::{ErrorKind, IoSlice, IoSliceMut, Read, Seek, SeekFrom, Write};
use std::{fmt, io};

/// Wraps a value that is polled, with the context of a poll, as one that has the I/O traits of std.
///
/// `Pending` becomes an error of the kind `WouldBlock`. The wrapper lives within one poll. After such an
/// error, return `Poll::Pending` from that poll: the task is registered in the context as by the pending
/// call.
///
/// # Examples
///
/// ```
/// use futures_lite::io::{AsyncAsSync, Cursor};
/// use futures_lite::{Poll, future};
/// use std::io::{Seek, SeekFrom, Write};
///
/// let mut cursor = Cursor::new(Vec::from_slice(rt.alloc(), b"hello")?);
/// let writing = future::poll_fn(|cx| {
///     let mut io = AsyncAsSync::new(cx, &mut cursor);
///     match io.seek(SeekFrom::Start(4)) {
///         Ok(_) => Poll::Ready(io.write(b" yes")),
///         Err(e) => Poll::Ready(Err(e)),
///     }
/// });
/// assert_eq!(rt; future::block_on(&rt, writing)??, 4);
/// assert_eq!(rt; cursor.get_ref().as_slice(), b"hell yes".as_slice());
/// ```
#[derive(Drop)]
pub struct AsyncAsSync<'r, 'ctx, T> {
    /// The context of the poll.
    pub context: &'r mut Context<'ctx>,

    /// The value that is polled.
    pub inner: T,
}

impl<T: fmt::Debug> fmt::Debug for AsyncAsSync<'_, '_, T> {
    fn fmt<W: fmt::Write>(&self, f: &mut fmt::Formatter<W>) -> fmt::Result {
        f.debug_struct("AsyncAsSync")
            .field("inner", &self.inner)
            .finish_non_exhaustive()
    }
}

// Returns the result of a poll; `Pending` becomes an error.
fn in_time<A>(answer: Poll<io::Result<A>>) -> io::Result<A>
    ensures { InTime answer result }
{
    match answer {
        Poll::Ready(result) => result,
        Poll::Pending => Err(ErrorKind::WouldBlock.into()),
    }
}

impl<'r, 'ctx, T> AsyncAsSync<'r, 'ctx, T> {
    ghost use Rattle.lite_bridge.specs.contracts.async_as_sync.AsyncAsSync.{the_row};

    /// Returns a wrapper that polls `inner` with `context`.
    ///
    /// # Examples
    ///
    /// ```
    /// use futures_lite::io::AsyncAsSync;
    /// use futures_lite::{Context, Poll, future};
    ///
    /// fn length(cx: &mut Context<'_>, bytes: &[u8]) -> usize
    ///     ensures { result ≡ length bytes.now }
    /// {
    ///     AsyncAsSync::new(cx, bytes).borrow().len()
    /// }
    ///
    /// let wrapped = future::poll_fn(|cx| Poll::Ready(length(cx, b"hello")));
    /// assert_eq!(rt; future::block_on(&rt, wrapped)?, 5);
    /// ```
    ///
    /// ```
    /// use futures_lite::io::{AsyncAsSync, ErrorKind};
    /// use futures_lite::{AsyncReadExt, Poll, future};
    /// use std::io::Read;
    ///
    /// let mut reader = b"hello".as_slice().with_budget(3);
    /// let mut buf = [b'-'; 4];
    /// let read = future::poll_fn(|cx| Poll::Ready(AsyncAsSync::new(cx, &mut reader).read(&mut buf)));
    /// assert_eq!(rt; future::block_on(&rt, read)??, 3);
    ///
    /// // Now the reader is pending once.
    /// let read = future::poll_fn(|cx| Poll::Ready(AsyncAsSync::new(cx, &mut reader).read(&mut buf)));
    /// assert!(rt; future::block_on(&rt, read)?.is_err_and(|e| e.kind() == ErrorKind::WouldBlock));
    /// assert_eq!(rt; buf, *b"hel-");
    /// ```
    pub fn new(context: &'r mut Context<'ctx>, inner: T) -> AsyncAsSync<'r, 'ctx, T>
        ensures { result ≡ record { context = context.entry; inner = inner } }
    {
        AsyncAsSync { context, inner }
    }

    /// Closes `inner`. `Pending` becomes an error of the kind `WouldBlock`; every other result is passed on.
    ///
    /// # Examples
    ///
    /// ```
    /// use futures_lite::io::{AsyncAsSync, BufWriter};
    /// use futures_lite::{AsyncWriteExt, Context, Poll, future};
    /// use std::alloc::AllocError;
    /// use std::io;
    ///
    /// fn closed(cx: &mut Context<'_>, out: &mut Vec<u8>) -> io::Result<()>
    ///     ensures { out.new.items ≡ out.old.items }
    /// {
    ///     AsyncAsSync::new(cx, out).close()
    /// }
    ///
    /// let mut output = Vec::from_slice(rt.alloc(), b"hello")?;
    /// let closing = future::poll_fn(|cx| Poll::Ready(closed(cx, &mut output)));
    /// future::block_on(&rt, closing)??;
    ///
    /// let mut writer = BufWriter::new(rt.alloc(), Vec::new(rt.alloc())).map_err(|_| AllocError)?;
    /// future::block_on(&rt, writer.write_all(b"hello"))??;
    /// let closing = future::poll_fn(|cx| Poll::Ready(AsyncAsSync::new(cx, &mut writer).close()));
    /// future::block_on(&rt, closing)??;
    /// assert_eq!(rt; writer.get_ref().as_slice(), b"hello".as_slice());
    /// ```
    pub fn close(&mut self) -> io::Result<()>
    where
        T: AsyncWrite,
        ensures ran { Synced (λ answer. T.writes self.old.inner (done_marks closed answer) self.new.inner)
            (T.write_registers self.new.inner) self.new.context.now result }
        ensures seen { SameContext self.old.context self.new.context }
    {
        in_time(self.inner.poll_close(self.context))
    }

    /// Calls `f` with `inner` and the context, and returns its result.
    ///
    /// `Pending` becomes an error of the kind `WouldBlock`; every other result is passed on. `f` must be
    /// callable with any arguments.
    ///
    /// # Examples
    ///
    /// ```
    /// use futures_lite::io::{AsyncAsSync, AsyncRead};
    /// use futures_lite::{Context, Poll, future};
    /// use std::io;
    ///
    /// fn left(cx: &mut Context<'_>, bytes: &[u8]) -> io::Result<usize>
    ///     ensures { result ≡ Ok (length bytes.now) }
    /// {
    ///     let mut reader = AsyncAsSync::new(cx, bytes);
    ///     reader.poll_with(|io: &mut &[u8], _cx: &mut Context<'_>| Poll::Ready(Ok(io.len())))
    /// }
    ///
    /// let asking = future::poll_fn(|cx| Poll::Ready(left(cx, b"hello")));
    /// assert_eq!(rt; future::block_on(&rt, asking)??, 5);
    ///
    /// let mut reader = b"hello".as_slice();
    /// let reading = future::poll_fn(|cx| {
    ///     let mut io = AsyncAsSync::new(cx, &mut reader);
    ///     Poll::Ready(io.poll_with(|reader: &mut &mut &[u8], cx: &mut Context<'_>| {
    ///         reader.poll_read(cx, &mut [0; 3])
    ///     }))
    /// });
    /// assert_eq!(rt; future::block_on(&rt, reading)??, 3);
    /// assert_eq!(rt; reader, b"lo".as_slice());
    /// ```
    pub fn poll_with<A, F>(&mut self, f: F) -> io::Result<A>
    where
        F: FnOnce(&mut T, &mut Context<'_>) -> Poll<io::Result<A>>,
        requires { F.IsAlwaysCallable f }
        ensures { PollsWith F.FnOnce f self.old self.new result }
    {
        in_time(f(&mut self.inner, self.context))
    }

    /// Reads into the buffers by one poll, as `read` reads into one.
    ///
    /// `Read::read_vectored` of std reads only into the first buffer that is not empty, and cannot be
    /// overridden.
    ///
    /// # Examples
    ///
    /// ```
    /// use futures_lite::io::{AsyncAsSync, IoSliceMut};
    /// use futures_lite::{Poll, future};
    ///
    /// let mut reader = b"hello".as_slice();
    /// let (mut first, mut second) = ([b'-'; 2], [b'-'; 2]);
    /// let mut bufs = [IoSliceMut::new(&mut first), IoSliceMut::new(&mut second)];
    /// let reading = future::poll_fn(|cx| {
    ///     Poll::Ready(AsyncAsSync::new(cx, &mut reader).read_vectored(&mut bufs))
    /// });
    /// assert_eq!(rt; future::block_on(&rt, reading)??, 4);
    /// assert_eq!(rt; first, *b"he");
    /// assert_eq!(rt; second, *b"ll");
    /// ```
    pub fn read_vectored(&mut self, bufs: &mut [IoSliceMut<'_>]) -> io::Result<usize>
    where
        T: AsyncRead,
        ensures bound { IfOk result (λ n. n ≤ room_in bufs.old) }
        ensures ran { Synced (λ answer. ReadsInto T.reads self.old.inner answer bufs.old self.new.inner)
            (T.registers self.new.inner) self.new.context.now result }
        ensures seen { SameContext self.old.context self.new.context }
    {
        in_time(self.inner.poll_read_vectored(self.context, bufs))
    }

    /// Writes the bytes of the buffers by one poll, as `write` writes those of one.
    ///
    /// `Write::write_vectored` of std writes one buffer after another, and cannot be overridden.
    ///
    /// # Examples
    ///
    /// ```
    /// use futures_lite::io::{AsyncAsSync, IoSlice};
    /// use futures_lite::{Poll, future};
    ///
    /// let mut writer = Vec::new(rt.alloc());
    /// let bufs = [IoSlice::new(b"hello, "), IoSlice::new(b"world")];
    /// let writing = future::poll_fn(|cx| {
    ///     Poll::Ready(AsyncAsSync::new(cx, &mut writer).write_vectored(&bufs))
    /// });
    /// assert_eq!(rt; future::block_on(&rt, writing)??, 12);
    /// assert_eq!(rt; writer.as_slice(), b"hello, world".as_slice());
    /// ```
    pub fn write_vectored(&mut self, bufs: &[IoSlice<'_>]) -> io::Result<usize>
    where
        T: AsyncWrite,
        ensures bound { IfOk result (λ n. n ≤ length (io_slices_bytes bufs.now)) }
        ensures ran { Synced
            (λ answer. T.writes self.old.inner (write_marks answer (io_slices_bytes bufs.now)) self.new.inner)
            (T.write_registers self.new.inner) self.new.context.now result }
        ensures seen { SameContext self.old.context self.new.context }
    {
        in_time(self.inner.poll_write_vectored(self.context, bufs))
    }

    /// Borrows the inner value. Unlike in futures-lite, this is a method of the type, not of std's `Borrow`.
    ///
    /// # Examples
    ///
    /// ```
    /// use futures_lite::io::{AsyncAsSync, Cursor};
    /// use futures_lite::{Poll, future};
    /// use std::io::{Seek, SeekFrom};
    ///
    /// let position = future::poll_fn(|cx| {
    ///     let mut io = AsyncAsSync::new(cx, Cursor::new(b"hello".as_slice()));
    ///     match io.seek(SeekFrom::End(-1)) {
    ///         Ok(_) => Poll::Ready(Some(io.borrow().position())),
    ///         Err(_) => Poll::Ready(None),
    ///     }
    /// });
    /// assert_eq!(rt; future::block_on(&rt, position)?, Some(4));
    /// ```
    pub fn borrow(&self) -> &T
        ensures { result.now ≡ self.now.inner }
    {
        &self.inner
    }

    /// Borrows the inner value mutably. Unlike in futures-lite, this is a method of the type, not of std's
    /// `BorrowMut`.
    ///
    /// # Examples
    ///
    /// ```
    /// use futures_lite::io::{AsyncAsSync, Cursor};
    /// use futures_lite::{Poll, future};
    /// use std::io::Read;
    ///
    /// let mut buf = [b'-'; 3];
    /// let reading = future::poll_fn(|cx| {
    ///     let mut io = AsyncAsSync::new(cx, Cursor::new(b"hello".as_slice()));
    ///     io.borrow_mut().set_position(3);
    ///     Poll::Ready(io.read(&mut buf))
    /// });
    /// assert_eq!(rt; future::block_on(&rt, reading)??, 2);
    /// assert_eq!(rt; buf, *b"lo-");
    /// ```
    pub fn borrow_mut(&mut self) -> &mut T
        ensures value { result.now ≡ self.old.inner }
        ensures* writes_back { sem 𝓛 (Lends
            (the_row (record { mir = named 1; lft = [] })
            (record { mir = named 2; lft = [] }) T.row) T.row self.entry result
            (λ t. record self.old { inner = t })) }
    {
        &mut self.inner
    }
}

impl<T: AsyncRead> Read for AsyncAsSync<'_, '_, T> {
    fn read(&mut self, buf: &mut [u8]) -> io::Result<usize>
        ensures bound { ReadsAtMost result buf.new }
        ensures bytes { ReadConsumes None None result buf.new }
        ensures ran { Synced (λ answer. T.reads self.old.inner (read_marks answer buf.new) self.new.inner)
            (T.registers self.new.inner) self.new.context.now result }
        ensures seen { SameContext self.old.context self.new.context }
    {
        in_time(self.inner.poll_read(self.context, buf))
    }
}

impl<T: AsyncWrite> Write for AsyncAsSync<'_, '_, T> {
    fn write(&mut self, buf: &[u8]) -> io::Result<usize>
        ensures bound { WritesAtMost result buf.now }
        ensures bytes { WriteAppends None None result buf.now }
        ensures ran { Synced (λ answer. T.writes self.old.inner (write_marks answer buf.now) self.new.inner)
            (T.write_registers self.new.inner) self.new.context.now result }
        ensures seen { SameContext self.old.context self.new.context }
    {
        in_time(self.inner.poll_write(self.context, buf))
    }

    fn flush(&mut self) -> io::Result<()>
        ensures bytes { KeepsKnown None None }
        ensures ran { Synced (λ answer. T.writes self.old.inner (done_marks flushed answer) self.new.inner)
            (T.write_registers self.new.inner) self.new.context.now result }
        ensures seen { SameContext self.old.context self.new.context }
    {
        in_time(self.inner.poll_flush(self.context))
    }
}

impl<T: AsyncSeek> Seek for AsyncAsSync<'_, '_, T> {
    fn seek(&mut self, to: SeekFrom) -> io::Result<u64>
        ensures moves { SeekMoves None None None to result }
        ensures bytes { KeepsKnown None None }
        ensures ran { Synced (λ answer. T.seeks self.old.inner to (by_kind answer) self.new.inner)
            (T.seek_registers self.new.inner) self.new.context.now result }
        ensures seen { SameContext self.old.context self.new.context }
    {
        in_time(self.inner.poll_seek(self.context, to))
    }
}

impl<T> AsRef<T> for AsyncAsSync<'_, '_, T> {
    fn as_ref(&self) -> &T
        ensures { result.now ≡ self.now.inner }
    {
        &self.inner
    }
}

impl<T> AsMut<T> for AsyncAsSync<'_, '_, T> {
    ghost use Rattle.lite_bridge.specs.contracts.async_as_sync.AsyncAsSync.{the_row};

    fn as_mut(&mut self) -> &mut T
        ensures value { result.now ≡ self.old.inner }
        ensures* writes_back { sem 𝓛 (Lends
            (the_row (record { mir = named 1; lft = [] })
            (record { mir = named 2; lft = [] }) T.row) T.row self.entry result
            (λ t. record self.old { inner = t })) }
    {
        &mut self.inner
    }
}
