ghost use Rattle.std.specs.Prelude.{◌≡◌, ⊤};
ghost use Rattle.lite_bridge.specs.Uses.{Lends, sem};
ghost use Rattle.lite_io_base.specs.Laws.Runs.{idle_laws};
ghost use Rattle.lite_io_base.specs.Runs.{Idle};
ghost use Rattle.lite_bridge.specs.Known.{GainsKnown, MovesKnown, SameKnown, SpendsKnown, SpendsWell, known_bytes};
ghost use Rattle.lite_bridge.specs.Laws.StdKnown.{gains_calm, gains_laws, gains_steady, spends_calm, spends_laws};
ghost use Rattle.lite_bridge.specs.Laws.StdKnown.{spends_steady};
ghost use Rattle.lite_io_base.specs.Laws.Armed.{arms_marks_always};

use crate::interrupted::{MOST_INTERRUPTIONS, insist};
use lite_base::{Context, Poll};
use lite_io_base::{
    ArmedRead, ArmedWrite, AsyncRead, AsyncSeek, AsyncWrite, CalmRead, CalmWrite, ReadSpec,
    SteadyRead, SteadyWrite, WriteSpec,
};
use std::io;
use std::io::{ErrorKind, IoSlice, Read, Seek, SeekFrom, Write};

/// Wraps a value that has the I/O traits of std, asserts that its calls never block, and makes them by polls.
///
/// Each poll makes one call of std. After an error of the kind `Interrupted` it makes the call again, up to
/// 16 times in a row. A 17th interruption is returned. No poll returns `Pending`.
///
/// # Examples
///
/// ```
/// use futures_lite::io::AssertAsync;
/// use futures_lite::{AsyncWriteExt, future};
/// use std::io::Cursor;
///
/// // The cursor of std, which is written to by std's `Write`.
/// let mut room = [b'-'; 3];
/// let mut writer = AssertAsync::new(Cursor::new(&mut room[..]));
/// assert_eq!(rt; future::block_on(&rt, writer.write(b"hello"))??, 3);
/// assert_eq!(rt; room, *b"hel");
/// ```
#[derive(Clone, Copy, PartialEq, Eq, PartialOrd, Ord, Hash, Debug, Drop)]
pub struct AssertAsync<T> {
    inner: T,
}

impl<T> AssertAsync<T> {
    ghost use Rattle.lite_bridge.specs.contracts.assert_async.AssertAsync.{the_row};
    ghost use Rattle.lite_bridge.specs.AssertAsync.{handle_of};

    /// Returns a wrapper that makes the calls of `io` by polls.
    ///
    /// # Examples
    ///
    /// ```
    /// use futures_lite::io::AssertAsync;
    ///
    /// fn left(bytes: &[u8]) -> usize
    ///     ensures { result ≡ length bytes.now }
    /// {
    ///     AssertAsync::new(bytes).get_ref().len()
    /// }
    ///
    /// assert_eq!(rt; left(b"hello"), 5);
    /// ```
    ///
    /// ```
    /// use futures_lite::io::AssertAsync;
    /// use futures_lite::{AsyncReadExt, future};
    ///
    /// let mut reader = AssertAsync::new(b"hello".as_slice());
    /// let mut buf = [b'-'; 8];
    /// assert_eq!(rt; future::block_on(&rt, reader.read(&mut buf))??, 5);
    /// assert_eq!(rt; buf, *b"hello---");
    /// ```
    pub fn new(io: T) -> AssertAsync<T>
        ensures { handle_of result ≡ io }
    {
        AssertAsync { inner: io }
    }

    /// Borrows the inner value.
    ///
    /// # Examples
    ///
    /// ```
    /// use futures_lite::io::AssertAsync;
    ///
    /// fn left(bytes: &[u8]) -> usize
    ///     ensures { result ≡ length bytes.now }
    /// {
    ///     let reader = AssertAsync::new(bytes);
    ///     reader.get_ref().len()
    /// }
    ///
    /// assert_eq!(rt; left(b"hello"), 5);
    /// ```
    ///
    /// ```
    /// use futures_lite::io::AssertAsync;
    /// use futures_lite::{AsyncReadExt, future};
    ///
    /// let mut reader = AssertAsync::new(b"hello".as_slice());
    /// future::block_on(&rt, reader.read(&mut [0; 3]))??;
    /// assert_eq!(rt; *reader.get_ref(), b"lo".as_slice());
    /// ```
    pub fn get_ref(&self) -> &T
        ensures { result.now ≡ handle_of self.now }
    {
        &self.inner
    }

    /// Borrows the inner value mutably.
    ///
    /// # Examples
    ///
    /// ```
    /// use futures_lite::io::AssertAsync;
    ///
    /// fn replaced(bytes: &[u8]) -> usize
    ///     ensures { result ≡ 2 }
    /// {
    ///     let mut reader = AssertAsync::new(bytes);
    ///     *reader.get_mut() = b"hi";
    ///     reader.get_ref().len()
    /// }
    ///
    /// assert_eq!(rt; replaced(b"hello"), 2);
    /// ```
    ///
    /// ```
    /// use futures_lite::io::AssertAsync;
    /// use futures_lite::{AsyncReadExt, future};
    ///
    /// let mut reader = AssertAsync::new(b"hello".as_slice());
    /// *reader.get_mut() = b"world".as_slice();
    /// let mut buf = [0; 5];
    /// future::block_on(&rt, reader.read(&mut buf))??;
    /// assert_eq!(rt; buf, *b"world");
    /// ```
    pub fn get_mut(&mut self) -> &mut T
        ensures value { result.now ≡ handle_of self.old }
        ensures* writes_back { sem 𝓛 (Lends (the_row T.row) T.row self.entry result
            (λ t. record self.old { inner = t })) }
    {
        &mut self.inner
    }

    /// Returns the inner value.
    ///
    /// # Examples
    ///
    /// ```
    /// use futures_lite::io::AssertAsync;
    ///
    /// fn inner(bytes: Vec<u8>) -> Vec<u8>
    ///     ensures { result ≡ bytes }
    /// {
    ///     AssertAsync::new(bytes).into_inner()
    /// }
    ///
    /// let bytes = inner(Vec::from_slice(rt.alloc(), b"hello")?);
    /// assert_eq!(rt; bytes.as_slice(), b"hello".as_slice());
    /// ```
    ///
    /// ```
    /// use futures_lite::io::AssertAsync;
    /// use futures_lite::{AsyncReadExt, future};
    ///
    /// let mut reader = AssertAsync::new(b"hello".as_slice());
    /// future::block_on(&rt, reader.read(&mut [0; 3]))??;
    /// assert_eq!(rt; reader.into_inner(), b"lo".as_slice());
    /// ```
    pub fn into_inner(self) -> T
        ensures { result ≡ handle_of self }
    {
        self.inner
    }
}

impl<T: Read> ReadSpec for AssertAsync<T> {
    ghost use Rattle.lite_bridge.specs.AssertAsync.{handle_of};

    ghost reads = { λ x l y. SpendsKnown (T.remaining (handle_of x)) l (T.remaining (handle_of y)) };

    ghost read_laws = { spends_laws (λ x. T.remaining (handle_of x)) };
}

#[tactic(auto, using(crate::specs::Laws::StdKnown::read_spends))]
impl<T: Read> AsyncRead for AssertAsync<T> {
    // It is never pending.
    ghost registers = { λ _ _. ⊤ };

    /// Reads once. After an interruption it reads again, up to 16 times in a row.
    fn poll_read(&mut self, _cx: &mut Context<'_>, buf: &mut [u8]) -> Poll<io::Result<usize>> {
        insist!(self.inner.read(buf))
    }
}

// For two values of which the same bytes are known, if no read fails: std does not say when an error comes.
impl<T: Read> SteadyRead for AssertAsync<T> {
    ghost use Rattle.lite_bridge.specs.AssertAsync.{handle_of};

    ghost ample = { λ x l y. SpendsWell (T.remaining (handle_of x)) l (T.remaining (handle_of y)) };

    ghost needs_none = { ⊥ };

    ghost alike = { λ x y. SameKnown (T.remaining (handle_of x)) (T.remaining (handle_of y)) };

    ghost steady = { spends_steady (λ x. T.remaining (handle_of x)) };
}

// It is never pending.
impl<T: Read> CalmRead for AssertAsync<T> {
    ghost use Rattle.lite_bridge.specs.AssertAsync.{handle_of};

    ghost is_calm = { λ _. ⊤ };

    ghost calm = { spends_calm (λ x. T.remaining (handle_of x)) };
}

impl<T: Read> ArmedRead for AssertAsync<T> {
    ghost armed = { arms_marks_always };
}

impl<T: Write> WriteSpec for AssertAsync<T> {
    ghost use Rattle.lite_bridge.specs.AssertAsync.{handle_of};

    ghost writes = { λ x l y. GainsKnown (T.contents (handle_of x)) l (T.contents (handle_of y)) };

    ghost write_laws = { gains_laws (λ x. T.contents (handle_of x)) };
}

#[tactic(auto, using(crate::specs::Laws::StdKnown::write_gains, crate::specs::Laws::StdKnown::flush_gains, crate::specs::Laws::StdKnown::close_gains))]
impl<T: Write> AsyncWrite for AssertAsync<T> {
    // It is never pending.
    ghost write_registers = { λ _ _. ⊤ };

    fn poll_write(&mut self, _cx: &mut Context<'_>, buf: &[u8]) -> Poll<io::Result<usize>> {
        insist!(self.inner.write(buf))
    }

    fn poll_write_vectored(
        &mut self,
        _cx: &mut Context<'_>,
        bufs: &[IoSlice<'_>],
    ) -> Poll<io::Result<usize>> {
        insist!(self.inner.write_vectored(bufs))
    }

    fn poll_flush(&mut self, _cx: &mut Context<'_>) -> Poll<io::Result<()>> {
        insist!(self.inner.flush())
    }

    /// Flushes: the writers of std have no close.
    fn poll_close(&mut self, cx: &mut Context<'_>) -> Poll<io::Result<()>> {
        self.poll_flush(cx)
    }
}

// Two of which the same bytes are known to be there.
impl<T: Write> SteadyWrite for AssertAsync<T> {
    ghost use Rattle.lite_bridge.specs.AssertAsync.{handle_of};

    ghost alike = { λ x y. SameKnown (T.contents (handle_of x)) (T.contents (handle_of y)) };

    ghost below = { λ x. known_bytes (T.contents (handle_of x)) };

    ghost steady = { gains_steady (λ x. T.contents (handle_of x)) };
}

// It is never pending.
impl<T: Write> CalmWrite for AssertAsync<T> {
    ghost use Rattle.lite_bridge.specs.AssertAsync.{handle_of};

    ghost is_calm = { λ _. ⊤ };

    ghost calm = { gains_calm (λ x. T.contents (handle_of x)) };
}

impl<T: Write> ArmedWrite for AssertAsync<T> {
    ghost armed = { arms_marks_always };
}

#[tactic(auto, using(crate::specs::Laws::StdKnown::seek_moves))]
impl<T: Seek> AsyncSeek for AssertAsync<T> {
    ghost use Rattle.lite_bridge.specs.AssertAsync.{handle_of};

    ghost seeks = { λ x pos r y. MovesKnown (T.stream_position (handle_of x)) (T.stream_position (handle_of y))
        (T.stream_bytes (handle_of x)) (T.stream_bytes (handle_of y)) pos r };

    // It is never pending.
    ghost seek_registers = { λ _ _. ⊤ };

    fn poll_seek(&mut self, _cx: &mut Context<'_>, pos: SeekFrom) -> Poll<io::Result<u64>> {
        insist!(self.inner.seek(pos))
    }
}
