ghost use Rattle.std.specs.Prelude.{◌≡◌, ℕ, List, [], length, None, IfSome, IfOk, drop, take};
ghost use Rattle.lite_bridge.specs.Uses.{Lends, sem, ReadsAtMost, WritesAtMost, Keeps, ReadConsumes, WriteAppends, SeekMoves, ReadMark, bytes};
ghost use Rattle.lite_bridge.specs.Uses.{fill_marks, read_marks, WriteMark, done_marks, write_marks};
ghost use Rattle.std.specs.Io.{StartsWith};
ghost use Rattle.std.specs.Io.BufRead.{DropsConsumable, FillKeeps, Rests};
ghost use Rattle.lite_bridge.specs.Waits.{Blocks, GaveOrRefused, NoMemoryToWait, SeekBlocks};

use crate::filling::Filling;
use lite_base::Future;
use lite_consume::{Blocking, ByRuntime, ByWaiter};
use lite_io_base::{AsyncBufRead, AsyncRead, AsyncSeek, AsyncWrite};
use lite_read::make::{read, seek};
use lite_write::make::{flush, write};
use std::io::{BufRead, Read, Seek, SeekFrom, Write};
use std::{fmt, io};

/// Wraps a value that is polled as one that has the I/O traits of std: each call blocks the thread until its
/// poll is ready.
///
/// Each call may wait for ever. The type `K` says what the calls wait by. With a runtime ([`new`](BlockOn::new)) the
/// first call that waits allocates what a wait needs; no later call allocates. If that allocation fails, the call
/// returns an error of the kind `OutOfMemory` and polls nothing. With a waiter that is lent ([`by`](BlockOn::by))
/// no call allocates. A drop flushes nothing, so flush before it.
///
/// # Examples
///
/// ```
/// use futures_lite::io::{BlockOn, Cursor};
/// use std::io::{Read, Seek, SeekFrom, Write};
///
/// let mut io = BlockOn::new(rt, Cursor::new(Vec::new(rt.alloc())));
/// io.write_all(b"hello")?;
/// io.seek(SeekFrom::Start(3))?;
/// let mut buf = [b'-'; 3];
/// assert_eq!(rt; io.read(&mut buf)?, 2);
/// assert_eq!(rt; buf, *b"lo-");
/// ```
#[derive(Drop)]
pub struct BlockOn<K, T> {
    by: K,
    io: T,
}

impl<K, T: fmt::Debug> fmt::Debug for BlockOn<K, T> {
    fn fmt<W: fmt::Write>(&self, f: &mut fmt::Formatter<W>) -> fmt::Result {
        f.debug_tuple("BlockOn").field(&self.io).finish()
    }
}

// Waits for the value of the future.
fn wait_for<K, F, A>(by: &mut K, future: &mut F) -> io::Result<A>
where
    K: Blocking,
    F: Future<Output = io::Result<A>>,
    requires { F.can_poll future.old }
    ensures gave { GaveOrRefused (K.is_unused by.old) F.run future.old result future.new }
    ensures used { K.is_unused by.new → NoMemoryToWait (K.is_unused by.old) result }
{
    by.wait_for(future)?
}

impl<R, T> BlockOn<ByRuntime<R>, T> {
    ghost use Rattle.lite_bridge.specs.BlockOn.{io_of};

    /// Returns a wrapper whose calls wait by `rt` for `io`. Nothing is allocated before the first call that
    /// waits.
    ///
    /// # Examples
    ///
    /// ```
    /// use futures_lite::AsyncReadExt;
    /// use futures_lite::io::BlockOn;
    /// use std::io::Read;
    ///
    /// let mut io = BlockOn::new(rt, b"hello".as_slice().with_budget(2));
    /// let mut buf = [b'-'; 8];
    /// assert_eq!(rt; io.read(&mut buf)?, 2);
    ///
    /// // The budget is used up, so the first poll is pending. The call waits.
    /// assert_eq!(rt; io.read(&mut buf)?, 2);
    /// assert_eq!(rt; buf, *b"ll------");
    /// ```
    pub fn new(rt: R, io: T) -> BlockOn<ByRuntime<R>, T>
        ensures { io_of result ≡ io }
    {
        BlockOn {
            by: ByRuntime::new(rt),
            io,
        }
    }
}

impl<'w, R, W, T> BlockOn<ByWaiter<'w, R, W>, T> {
    ghost use Rattle.lite_bridge.specs.BlockOn.{io_of};

    /// Returns a wrapper whose calls wait for `io` by `waiter`, which is lent.
    ///
    /// No call allocates, so none fails because an allocation for the wait did. The waits of a `Waits` share one context,
    /// so a program that makes many small reads or writes is faster with it than with [`new`](BlockOn::new).
    ///
    /// # Examples
    ///
    /// ```
    /// use futures_lite::AsyncReadExt;
    /// use futures_lite::{future, io};
    /// use std::io::Read;
    ///
    /// let mut on = future::BlockOn::new(&rt)?;
    /// let mut waits = on.waits();
    /// let mut reader = io::BlockOn::by(&mut waits, rt, b"hello".as_slice().with_budget(2));
    /// let mut buf = [b'-'; 8];
    /// assert_eq!(rt; reader.read(&mut buf)?, 2);
    /// assert_eq!(rt; reader.read(&mut buf)?, 2);
    /// assert_eq!(rt; buf, *b"ll------");
    /// ```
    pub fn by(waiter: &'w mut W, rt: R, io: T) -> BlockOn<ByWaiter<'w, R, W>, T>
        ensures { io_of result ≡ io }
    {
        BlockOn {
            by: ByWaiter::new(waiter, rt),
            io,
        }
    }
}

impl<K, T> BlockOn<K, T> {
    ghost use Rattle.lite_bridge.specs.contracts.block_on.BlockOn.{the_row};
    ghost use Rattle.lite_bridge.specs.BlockOn.{io_of};

    /// Borrows the inner value.
    ///
    /// # Examples
    ///
    /// ```
    /// use futures_lite::io::BlockOn;
    ///
    /// fn left<R>(rt: &R, bytes: &[u8]) -> usize
    /// where
    ///     R: Wait + RandomSource + AllocGlobal,
    ///     ensures { result ≡ length bytes.now }
    /// {
    ///     let reader = BlockOn::new(rt, bytes);
    ///     reader.get_ref().len()
    /// }
    ///
    /// assert_eq!(rt; left(&rt, b"hello"), 5);
    /// ```
    ///
    /// ```
    /// use futures_lite::io::BlockOn;
    /// use std::io::Read;
    ///
    /// let mut io = BlockOn::new(rt, b"hello".as_slice());
    /// io.read(&mut [0; 3])?;
    /// assert_eq!(rt; *io.get_ref(), b"lo".as_slice());
    /// ```
    pub fn get_ref(&self) -> &T
        ensures { result.now ≡ io_of self.now }
    {
        &self.io
    }

    /// Borrows the inner value mutably.
    ///
    /// # Examples
    ///
    /// ```
    /// use futures_lite::io::BlockOn;
    ///
    /// fn replaced<R>(rt: &R, bytes: &[u8]) -> usize
    /// where
    ///     R: Wait + RandomSource + AllocGlobal,
    ///     ensures { result ≡ 2 }
    /// {
    ///     let mut reader = BlockOn::new(rt, bytes);
    ///     *reader.get_mut() = b"hi";
    ///     reader.get_ref().len()
    /// }
    ///
    /// assert_eq!(rt; replaced(&rt, b"hello"), 2);
    /// ```
    ///
    /// ```
    /// use futures_lite::io::{BlockOn, Cursor};
    /// use std::io::Read;
    ///
    /// let mut io = BlockOn::new(rt, Cursor::new(b"hello".as_slice()));
    /// io.get_mut().set_position(3);
    /// let mut buf = [b'-'; 3];
    /// assert_eq!(rt; io.read(&mut buf)?, 2);
    /// assert_eq!(rt; buf, *b"lo-");
    /// ```
    pub fn get_mut(&mut self) -> &mut T
        ensures value { result.now ≡ io_of self.old }
        ensures* writes_back { sem 𝓛 (Lends (the_row K.row T.row) T.row self.entry result
            (λ t. record self.old { io = t })) }
    {
        &mut self.io
    }

    /// Returns the inner value, and drops what the calls waited by, which must be `Drop`.
    ///
    /// # Examples
    ///
    /// ```
    /// use futures_lite::io::BlockOn;
    ///
    /// fn inner<R>(rt: &R, bytes: Vec<u8>) -> Vec<u8>
    /// where
    ///     R: Wait + RandomSource + AllocGlobal,
    ///     ensures { result ≡ bytes }
    /// {
    ///     BlockOn::new(rt, bytes).into_inner()
    /// }
    ///
    /// let bytes = inner(&rt, Vec::from_slice(rt.alloc(), b"hello")?);
    /// assert_eq!(rt; bytes.as_slice(), b"hello".as_slice());
    /// ```
    ///
    /// ```
    /// use futures_lite::io::BlockOn;
    /// use std::io::Write;
    ///
    /// let mut io = BlockOn::new(rt, Vec::new(rt.alloc()));
    /// io.write_all(b"hello")?;
    /// assert_eq!(rt; io.into_inner().as_slice(), b"hello".as_slice());
    /// ```
    pub fn into_inner(self) -> T
    where
        K: Drop,
        ensures { result ≡ io_of self }
    {
        self.io
    }
}

impl<K: Blocking, T: AsyncRead> Read for BlockOn<K, T> {
    ghost use Rattle.lite_bridge.specs.BlockOn.{by_of, io_of};

    fn read(&mut self, buf: &mut [u8]) -> io::Result<usize>
        ensures bound { ReadsAtMost result buf.new }
        ensures bytes { ReadConsumes None None result buf.new }
        ensures ran { Blocks (K.is_unused (by_of self.old)) T.reads ReadMark.pending (λ answer. read_marks answer buf.new) (io_of self.old) result
            (io_of self.new) }
        ensures used { K.is_unused (by_of self.new) → NoMemoryToWait (K.is_unused (by_of self.old)) result }
    {
        wait_for(&mut self.by, &mut read(&mut self.io, buf))
    }
}

impl<K: Blocking, T: AsyncBufRead> BufRead for BlockOn<K, T> {
    ghost use Rattle.lite_bridge.specs.contracts.block_on.BlockOn.{the_row};
    ghost use Rattle.lite_bridge.specs.BlockOn.{by_of, io_of};

    /// Waits until there are bytes in the buffer, or an end of file, and returns a slice of them.
    fn fill_buf(&mut self) -> io::Result<&[u8]>
        ensures front { IfSome None (λ (xs : List ℕ). IfOk result (λ s. StartsWith xs s.now)) }
        ensures end { IfSome None (λ (xs : List ℕ). IfOk result (λ s. length s.now ≡ 0 → xs ≡ [])) }
        ensures* after_borrow { sem 𝓛 (Rests (the_row K.row T.row) self.entry (λ new. FillKeeps None None None result
            × Blocks (K.is_unused (by_of self.old)) T.reads ReadMark.pending (λ answer. fill_marks answer (T.buffer_of (io_of new))) (io_of self.old) result
            (io_of new)
            × IfOk result (λ s. s.now ≡ T.buffer_of (io_of new))
            × (K.is_unused (by_of new) → NoMemoryToWait (K.is_unused (by_of self.old)) result))) }
        ensures shown { (left : T)
            × Blocks (K.is_unused (by_of self.old)) T.reads ReadMark.pending (λ answer. fill_marks answer (T.buffer_of left))
            (io_of self.old) result left × IfOk result (λ s. s.now ≡ T.buffer_of left) }
    {
        let mut filling = Filling { io: &mut self.io };
        match wait_for(&mut self.by, &mut filling) {
            Ok(()) => Ok(self.io.buffer()),
            Err(e) => Err(e),
        }
    }

    /// Consumes the first `amount` bytes of the buffer, or all of them if there are fewer. It does not wait.
    fn consume(&mut self, amount: usize)
        ensures bytes { DropsConsumable None None None amount }
        ensures ran { T.reads (io_of self.old) (bytes (take amount (T.buffer_of (io_of self.old)))) (io_of self.new) }
        ensures rest { T.buffer_of (io_of self.new) ≡ drop amount (T.buffer_of (io_of self.old)) }
        ensures used { K.is_unused (by_of self.new) → K.is_unused (by_of self.old) }
    {
        let most = self.io.buffer().len();
        self.io.consume(amount.min(most));
    }
}

impl<K: Blocking, T: AsyncWrite> Write for BlockOn<K, T> {
    ghost use Rattle.lite_bridge.specs.BlockOn.{by_of, io_of};

    fn write(&mut self, buf: &[u8]) -> io::Result<usize>
        ensures bound { WritesAtMost result buf.now }
        ensures bytes { WriteAppends None None result buf.now }
        ensures ran { Blocks (K.is_unused (by_of self.old)) T.writes WriteMark.pending (λ answer. write_marks answer buf.now) (io_of self.old) result
            (io_of self.new) }
        ensures used { K.is_unused (by_of self.new) → NoMemoryToWait (K.is_unused (by_of self.old)) result }
    {
        wait_for(&mut self.by, &mut write(&mut self.io, buf))
    }

    fn flush(&mut self) -> io::Result<()>
        ensures bytes { Keeps None None }
        ensures ran { Blocks (K.is_unused (by_of self.old)) T.writes WriteMark.pending (λ answer. done_marks WriteMark.flushed answer)
            (io_of self.old) result (io_of self.new) }
        ensures used { K.is_unused (by_of self.new) → NoMemoryToWait (K.is_unused (by_of self.old)) result }
    {
        wait_for(&mut self.by, &mut flush(&mut self.io))
    }
}

impl<K: Blocking, T: AsyncSeek> Seek for BlockOn<K, T> {
    ghost use Rattle.lite_bridge.specs.BlockOn.{by_of, io_of};

    fn seek(&mut self, to: SeekFrom) -> io::Result<u64>
        ensures moves { SeekMoves None None None to result }
        ensures bytes { Keeps None None }
        ensures ran { SeekBlocks (K.is_unused (by_of self.old)) T.seeks (io_of self.old) to result (io_of self.new) }
        ensures used { K.is_unused (by_of self.new) → NoMemoryToWait (K.is_unused (by_of self.old)) result }
    {
        wait_for(&mut self.by, &mut seek(&mut self.io, to))
    }
}
