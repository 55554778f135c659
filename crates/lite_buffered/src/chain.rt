ghost use Rattle.std.specs.Prelude.{◌≡◌, ◌<◌, ◌≤◌, ℕ, List, Ok, length, min, IfOk, false};
ghost use Rattle.lite_buffered.specs.Uses.{IoSliceMut, Lends, sem, IfReady, Keeps, fill_marks, read_marks, Idle};
ghost use Rattle.lite_buffered.specs.Uses.{OnlyOkLends, ReadsInto, room_in, idle_laws, Registered};

use lite_base::{Context, Poll, ready};
use lite_io_base::{
    AsyncBufRead, AsyncRead, CalmRead, CountedRead, ReadSpec, SteadyRead, WriteSpec, fill,
    fill_slices, total_room,
};
use std::io::IoSliceMut;
use std::{fmt, io};

/// A reader over the bytes of one reader, followed by those of another.
///
/// Returned by [`chain`](crate::make::chain). The second reader is polled in the same call in which the first
/// one ends. After that the first one is not polled.
#[derive(Drop)]
pub struct Chain<R1, R2> {
    first: R1,
    second: R2,
    has_ended: bool,
}

impl<R1: fmt::Debug, R2: fmt::Debug> fmt::Debug for Chain<R1, R2> {
    fn fmt<W: fmt::Write>(&self, f: &mut fmt::Formatter<W>) -> fmt::Result {
        f.debug_struct("Chain")
            .field("r1", &self.first)
            .field("r2", &self.second)
            .finish()
    }
}

impl<R1, R2> Chain<R1, R2> {
    ghost use Rattle.lite_buffered.specs.contracts.chain.Chain.{the_row};
    ghost use Rattle.lite_buffered.specs.Chain.{first_of, has_ended, second_of};

    pub(crate) fn new(first: R1, second: R2) -> Chain<R1, R2>
        ensures first { first_of result ≡ first }
        ensures second { second_of result ≡ second }
        ensures fresh { has_ended result ≡ false }
    {
        Chain {
            first,
            second,
            has_ended: false,
        }
    }

    /// Borrows both readers.
    ///
    /// # Examples
    ///
    /// ```
    /// use futures_lite::AsyncReadExt;
    ///
    /// fn left(first: &[u8], second: &[u8]) -> (usize, usize)
    ///     ensures { result ≡ (length first.now, length second.now) }
    /// {
    ///     let reader = AsyncReadExt::chain(first, second);
    ///     let (first, second) = reader.get_ref();
    ///     (first.len(), second.len())
    /// }
    ///
    /// assert_eq!(rt; left(b"hello", b"world!"), (5, 6));
    /// ```
    ///
    /// ```
    /// use futures_lite::AsyncReadExt;
    ///
    /// let (hello, world): (&[u8], &[u8]) = (b"hello", b"world");
    /// let reader = AsyncReadExt::chain(hello, world);
    /// let (first, second) = reader.get_ref();
    /// assert_eq!(rt; *first, b"hello".as_slice());
    /// assert_eq!(rt; *second, b"world".as_slice());
    /// ```
    pub fn get_ref(&self) -> (&R1, &R2)
        ensures first { result.0.now ≡ first_of self.now }
        ensures second { result.1.now ≡ second_of self.now }
    {
        (&self.first, &self.second)
    }

    /// Borrows both readers mutably. What is read from them this way is missing from the chain.
    ///
    /// The contract does not say what the chain holds afterwards. `first_mut` and `second_mut` do, each for
    /// one reader.
    ///
    /// # Examples
    ///
    /// ```
    /// use futures_lite::{AsyncReadExt, future};
    ///
    /// fn lengths(first: &[u8], second: &[u8]) -> (usize, usize)
    ///     ensures { result ≡ (length first.now, length second.now) }
    /// {
    ///     let mut reader = AsyncReadExt::chain(first, second);
    ///     let (first, second) = reader.get_mut();
    ///     (first.len(), second.len())
    /// }
    ///
    /// let (hello, world): (&[u8], &[u8]) = (b"hello", b"world");
    /// assert_eq!(rt; lengths(hello, world), (5, 5));
    ///
    /// let mut reader = AsyncReadExt::chain(hello, world);
    /// let (first, second) = reader.get_mut();
    /// future::block_on(&rt, first.read(&mut [0; 3]))??;
    /// future::block_on(&rt, second.read(&mut [0; 4]))??;
    /// let mut buf = Vec::new(rt.alloc());
    /// future::block_on(&rt, reader.read_to_end(&mut buf))??;
    /// assert_eq!(rt; buf.as_slice(), b"lod".as_slice());
    /// ```
    pub fn get_mut(&mut self) -> (&mut R1, &mut R2)
        ensures first { result.0.now ≡ first_of self.old }
        ensures second { result.1.now ≡ second_of self.old }
    {
        (&mut self.first, &mut self.second)
    }

    /// Borrows the first reader mutably. What is read from it this way is missing from the chain.
    ///
    /// # Examples
    ///
    /// ```
    /// use futures_lite::{AsyncReadExt, future};
    ///
    /// let (hello, world): (&[u8], &[u8]) = (b"hello", b"world");
    /// let mut reader = AsyncReadExt::chain(hello, world);
    /// future::block_on(&rt, reader.first_mut().read(&mut [0; 3]))??;
    /// let mut buf = Vec::new(rt.alloc());
    /// future::block_on(&rt, reader.read_to_end(&mut buf))??;
    /// assert_eq!(rt; buf.as_slice(), b"loworld".as_slice());
    /// ```
    pub fn first_mut(&mut self) -> &mut R1
        ensures value { result.now ≡ first_of self.old }
        ensures* writes_back { sem 𝓛 (Lends (the_row R1.row R2.row) R1.row self.entry result
            (λ w. record self.old { first = w })) }
    {
        &mut self.first
    }

    /// Borrows the second reader mutably. What is read from it this way is missing from the chain.
    ///
    /// # Examples
    ///
    /// ```
    /// use futures_lite::{AsyncReadExt, future};
    ///
    /// let (hello, world): (&[u8], &[u8]) = (b"hello", b"world");
    /// let mut reader = AsyncReadExt::chain(hello, world);
    /// future::block_on(&rt, reader.second_mut().read(&mut [0; 3]))??;
    /// let mut buf = Vec::new(rt.alloc());
    /// future::block_on(&rt, reader.read_to_end(&mut buf))??;
    /// assert_eq!(rt; buf.as_slice(), b"hellold".as_slice());
    /// ```
    pub fn second_mut(&mut self) -> &mut R2
        ensures value { result.now ≡ second_of self.old }
        ensures* writes_back { sem 𝓛 (Lends (the_row R1.row R2.row) R2.row self.entry result
            (λ w. record self.old { second = w })) }
    {
        &mut self.second
    }

    /// Returns both readers.
    ///
    /// # Examples
    ///
    /// ```
    /// use futures_lite::AsyncReadExt;
    /// use futures_lite::io::Cursor;
    ///
    /// fn inner(first: Vec<u8>, second: Vec<u8>) -> (Vec<u8>, Vec<u8>)
    ///     ensures { result ≡ (first, second) }
    /// {
    ///     let (first, second) = Cursor::new(first).chain(Cursor::new(second)).into_inner();
    ///     (first.into_inner(), second.into_inner())
    /// }
    ///
    /// let (first, second) = inner(Vec::from_slice(rt.alloc(), b"hello")?, Vec::new(rt.alloc()));
    /// assert_eq!(rt; first.as_slice(), b"hello".as_slice());
    /// assert!(rt; second.is_empty());
    /// ```
    ///
    /// ```
    /// use futures_lite::{AsyncReadExt, future};
    ///
    /// let (hello, world): (&[u8], &[u8]) = (b"hello", b"world");
    /// let mut reader = AsyncReadExt::chain(hello, world);
    /// future::block_on(&rt, reader.read(&mut [0; 3]))??;
    /// let (first, second) = reader.into_inner();
    /// assert_eq!(rt; first, b"lo".as_slice());
    /// assert_eq!(rt; second, b"world".as_slice());
    /// ```
    pub fn into_inner(self) -> (R1, R2)
        ensures first { result.0 ≡ first_of self }
        ensures second { result.1 ≡ second_of self }
    {
        (self.first, self.second)
    }
}

impl<R1: ReadSpec, R2: ReadSpec> ReadSpec for Chain<R1, R2> {
    ghost use Rattle.lite_buffered.specs.Chain.{ChainsReaders};
    ghost use Rattle.lite_buffered.specs.Laws.Chain.{chains_laws};
    ghost use Rattle.lite_buffered.specs.Laws.Known.{chains_known};

    ghost reads = { ChainsReaders R1.reads R2.reads };

    ghost read_laws = { chains_laws R1.reads R2.reads R1.read_laws R2.read_laws };

    ghost known = { chains_known R1.known R2.known };
}

// It is not written to.
impl<R1, R2> WriteSpec for Chain<R1, R2> {
    ghost writes = { Idle };

    ghost write_laws = { idle_laws };
}

impl<R1: AsyncRead, R2: AsyncRead> AsyncRead for Chain<R1, R2> {
    ghost use Rattle.lite_buffered.specs.Chain.{ChainsReaders, ChainReadRegisters};

    ghost registers = { ChainReadRegisters R1.registers R2.registers };

    fn poll_read(&mut self, cx: &mut Context<'_>, buf: &mut [u8]) -> Poll<io::Result<usize>>
        ensures bound { IfReady result (λ r. IfOk r (λ n. n ≤ length buf.new)) }
        ensures ran { ChainsReaders R1.reads R2.reads self.old (read_marks result buf.new) self.new }
        ensures registered { Registered result (ChainReadRegisters R1.registers R2.registers self.new) cx.new }
        ensures context { Keeps cx.old cx.new }

        // Without room nothing is polled.
        ensures idle { length buf.old ≡ 0 → (result ≡ Poll.Ready (Ok 0)) × (self.new ≡ self.old) }
    {
        if buf.is_empty() {
            return Poll::Ready(Ok(0));
        }
        if self.has_ended {
            return self.second.poll_read(cx, buf);
        }
        self.read_on(cx, buf)
    }

    fn poll_read_vectored(
        &mut self,
        cx: &mut Context<'_>,
        bufs: &mut [IoSliceMut<'_>],
    ) -> Poll<io::Result<usize>>
        ensures bound { IfReady result (λ r. IfOk r (λ n. n ≤ room_in bufs.old)) }
        ensures ran { ReadsInto (ChainsReaders R1.reads R2.reads) self.old result bufs.old self.new }
        ensures registered { Registered result (ChainReadRegisters R1.registers R2.registers self.new) cx.new }
        ensures context { Keeps cx.old cx.new }

        // Without room nothing is polled.
        ensures idle { room_in bufs.old ≡ 0 → (result ≡ Poll.Ready (Ok 0)) × (self.new ≡ self.old) }
    {
        let total = total_room(bufs);
        if total == 0 {
            return Poll::Ready(Ok(0));
        }
        if self.has_ended {
            return self.second.poll_read_vectored(cx, bufs);
        }
        self.read_on_vectored(cx, bufs, total)
    }
}

impl<R1: AsyncRead, R2: AsyncRead> Chain<R1, R2> {
    ghost use Rattle.lite_buffered.specs.Chain.{ChainsReaders, ChainReadRegisters, has_ended};

    // Reads the first reader, and then the second if the first is at end of file.
    #[inline(always)]
    #[tactic(auto, using(crate::proofs::Crossing::crossed, crate::proofs::Crossing::no_end_moved))]
    fn read_on(&mut self, cx: &mut Context<'_>, buf: &mut [u8]) -> Poll<io::Result<usize>>
        requires first { has_ended self.old ≡ false }
        requires some { 0 < length buf.old }
        ensures bound { IfReady result (λ r. IfOk r (λ n. n ≤ length buf.new)) }
        ensures ran { ChainsReaders R1.reads R2.reads self.old (read_marks result buf.new) self.new }
        ensures registered { Registered result (ChainReadRegisters R1.registers R2.registers self.new) cx.new }
        ensures context { Keeps cx.old cx.new }
    {
        match ready!(self.first.poll_read(cx, buf)) {
            Ok(0) => self.has_ended = true,
            Ok(n) => return Poll::Ready(Ok(n)),
            Err(e) => return Poll::Ready(Err(e)),
        }
        self.second.poll_read(cx, buf)
    }

    // Reads as `read_on` does, into several buffers, which have this room.
    #[inline(always)]
    #[tactic(auto, using(crate::proofs::Crossing::no_end_moved))]
    fn read_on_vectored(
        &mut self,
        cx: &mut Context<'_>,
        bufs: &mut [IoSliceMut<'_>],
        room: usize,
    ) -> Poll<io::Result<usize>>
        requires first { has_ended self.old ≡ false }
        requires some { 0 < room }
        requires room { room ≡ min (room_in bufs.old) usize.MAX }
        ensures bound { IfReady result (λ r. IfOk r (λ n. n ≤ room_in bufs.old)) }
        ensures ran { ReadsInto (ChainsReaders R1.reads R2.reads) self.old result bufs.old self.new }
        ensures registered { Registered result (ChainReadRegisters R1.registers R2.registers self.new) cx.new }
        ensures context { Keeps cx.old cx.new }
    {
        match ready!(self.first.poll_read_vectored(cx, bufs)) {
            Ok(0) => {}
            Ok(count) => return Poll::Ready(Ok(count)),
            Err(e) => return Poll::Ready(Err(e)),
        }
        self.has_ended = true;
        read_within(&mut self.second, cx, bufs, room)
    }
}

// Reads into the buffers if they have this room, and else one byte. Either is a read into any buffers with at
// least this room.
#[inline(always)]
fn read_within<R: AsyncRead>(
    reader: &mut R,
    cx: &mut Context<'_>,
    bufs: &mut [IoSliceMut<'_>],
    room: usize,
) -> Poll<io::Result<usize>>
    requires { 0 < room }
    ensures bound { IfReady result (λ r. IfOk r (λ n. n ≤ room)) }
    ensures ran { (wide : List IoSliceMut) → room ≤ room_in wide → ReadsInto R.reads reader.old result wide reader.new }
    ensures registered { Registered result (R.registers reader.new) cx.new }
    ensures context { Keeps cx.old cx.new }
{
    // No contract says that the first left the buffers' room as it was.
    if total_room(bufs) == room {
        return reader.poll_read_vectored(cx, bufs);
    }
    read_byte(reader, cx, bufs)
}

// Reads a byte, and puts it into the first of the buffers that has room.
#[cold]
fn read_byte<R: AsyncRead>(
    reader: &mut R,
    cx: &mut Context<'_>,
    bufs: &mut [IoSliceMut<'_>],
) -> Poll<io::Result<usize>>
    ensures bound { IfReady result (λ r. IfOk r (λ n. n ≤ 1)) }
    ensures ran { (byte : List ℕ) × (length byte ≡ 1) × R.reads reader.old (read_marks result byte) reader.new }
    ensures registered { Registered result (R.registers reader.new) cx.new }
    ensures context { Keeps cx.old cx.new }
{
    let mut one = [0];
    let polled = reader.poll_read(cx, &mut one);
    if let Poll::Ready(Ok(n)) = &polled {
        fill_slices(&one[..*n], bufs);
    }
    polled
}

impl<R1: AsyncBufRead, R2: AsyncBufRead> Chain<R1, R2> {
    ghost use Rattle.lite_buffered.specs.Chain.{ChainsReaders, ChainReadRegisters, chain_shown};

    // Fills the buffer of the current reader, and then that of the second if the first is at end of file.
    #[tactic(auto, using(crate::proofs::Crossing::crossed))]
    fn fill(&mut self, cx: &mut Context<'_>) -> Poll<io::Result<()>>
        ensures ran { ChainsReaders R1.reads R2.reads self.old
            (fill_marks result (chain_shown R1.buffer_of R2.buffer_of self.new)) self.new }
        ensures lends { OnlyOkLends result (chain_shown R1.buffer_of R2.buffer_of self.new) }
        ensures registered { Registered result (ChainReadRegisters R1.registers R2.registers self.new) cx.new }
        ensures context { Keeps cx.old cx.new }
    {
        if !self.has_ended {
            match ready!(fill(&mut self.first, cx)) {
                Ok(()) => {
                    if !self.first.buffer().is_empty() {
                        return Poll::Ready(Ok(()));
                    }
                }
                Err(e) => return Poll::Ready(Err(e)),
            }
            self.has_ended = true;
        }
        fill(&mut self.second, cx)
    }

    fn show(&self) -> &[u8]
        ensures { result.now ≡ chain_shown R1.buffer_of R2.buffer_of self.now }
    {
        if self.has_ended {
            self.second.buffer()
        } else {
            self.first.buffer()
        }
    }
}

impl<R1: AsyncBufRead, R2: AsyncBufRead> AsyncBufRead for Chain<R1, R2> {
    ghost use Rattle.lite_buffered.specs.Chain.{chain_shown};
    ghost use Rattle.lite_buffered.specs.Laws.Chain.{chains_show};

    ghost buffer_of = { chain_shown R1.buffer_of R2.buffer_of };

    ghost shows = { chains_show R1.reads R2.reads R1.buffer_of R2.buffer_of R1.read_laws R1.shows R2.shows };

    fn poll_fill_buf(&mut self, cx: &mut Context<'_>) -> Poll<io::Result<&[u8]>> {
        match ready!(self.fill(cx)) {
            Ok(()) => Poll::Ready(Ok(self.show())),
            Err(e) => Poll::Ready(Err(e)),
        }
    }

    fn buffer(&self) -> &[u8] {
        self.show()
    }

    #[tactic(auto, using(crate::proofs::Crossing::no_end_bytes))]
    fn consume(&mut self, amount: usize) {
        if self.has_ended {
            self.second.consume(amount);
        } else {
            self.first.consume(amount);
        }
    }
}

impl<R1: CountedRead, R2: CountedRead> CountedRead for Chain<R1, R2> {
    ghost use Rattle.lite_buffered.specs.Chain.{chain_read_ranks};
    ghost use Rattle.lite_buffered.specs.Laws.Chain.{chains_counting};

    ghost ranks = { chain_read_ranks R1.ranks R2.ranks };

    ghost counting = { chains_counting R1.reads R2.reads R1.counting R2.counting };
}

impl<R1: SteadyRead, R2: SteadyRead> SteadyRead for Chain<R1, R2> {
    ghost use Rattle.lite_buffered.specs.Chain.{ChainsReaders};
    ghost use Rattle.lite_buffered.specs.Laws.Chain.{PlaceAlike, chain_steady};

    ghost ample = { ChainsReaders R1.ample R2.ample };

    ghost needs_none = { R1.needs_none × R2.needs_none };

    ghost alike = { PlaceAlike R1.alike R2.alike };

    ghost steady = { chain_steady R1.steady R2.steady };
}

impl<R1: CalmRead, R2: CalmRead> CalmRead for Chain<R1, R2> {
    ghost use Rattle.lite_buffered.specs.Laws.Chain.{chain_calm};

    ghost is_calm = { λ x. R1.is_calm x.first × R2.is_calm x.second };

    ghost calm = { chain_calm R1.calm R2.calm };
}
