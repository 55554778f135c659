ghost use Rattle.std.specs.Prelude.{◌≡◌, ◌≤◌, ◌<◌, ◌⊎◌, Ok, length, take, IfOk};
ghost use Rattle.lite_buffered.specs.Uses.{Lends, sem, IfReady, Keeps, read_marks, Idle, ReadsInto, room_in, idle_laws, Registered};

use lite_base::{Context, Poll, ready};
use lite_io_base::{
    ArmedRead, AsyncBufRead, AsyncRead, CalmRead, CountedRead, ReadSpec, SteadyRead, WriteSpec,
    fill, first_room,
};
use std::io;
use std::io::IoSliceMut;

/// A reader over the first bytes of another reader, up to a limit, and then at end of file until
/// [`set_limit`](Take::set_limit) raises the limit.
///
/// Returned by [`take`](crate::make::take). A read lowers the limit by the number of bytes that it returns,
/// and `consume` lowers it by its amount. A vectored read fills one buffer: the first that is not empty.
///
/// Once the limit is used up, the inner reader is not polled. Before that, `Pending`, errors and end of file
/// of the inner reader are passed on. They leave the limit unchanged. The inner reader is dropped with the
/// `Take`.
#[derive(Debug, Drop)]
pub struct Take<R> {
    inner: R,
    limit: u64,
}

impl<R> Take<R> {
    ghost use Rattle.lite_buffered.specs.contracts.take.Take.{the_row};
    ghost use Rattle.lite_buffered.specs.Take.{limit_of, take_inner};

    pub(crate) fn new(inner: R, limit: u64) -> Take<R>
        ensures inner { take_inner result ≡ inner }
        ensures limit { limit_of result ≡ limit }
    {
        Take { inner, limit }
    }

    /// Returns how many bytes may still be read.
    ///
    /// # Examples
    ///
    /// ```
    /// use futures_lite::AsyncReadExt;
    ///
    /// fn limit(bytes: &[u8]) -> u64
    ///     ensures { result ≡ 3 }
    /// {
    ///     AsyncReadExt::take(bytes, 3).limit()
    /// }
    ///
    /// assert_eq!(rt; limit(b"hello"), 3);
    /// ```
    ///
    /// ```
    /// use futures_lite::{AsyncReadExt, future};
    ///
    /// let mut reader = AsyncReadExt::take(b"hello".as_slice(), 4);
    /// future::block_on(&rt, reader.read(&mut [0; 3]))??;
    /// assert_eq!(rt; reader.limit(), 1);
    /// ```
    pub fn limit(&self) -> u64
        ensures { result ≡ limit_of self.now }
    {
        self.limit
    }

    /// Sets how many bytes may still be read.
    ///
    /// # Examples
    ///
    /// ```
    /// use futures_lite::AsyncReadExt;
    ///
    /// fn limits(bytes: &[u8]) -> (u64, u64)
    ///     ensures { result ≡ (10, 3) }
    /// {
    ///     let mut reader = AsyncReadExt::take(bytes, 10);
    ///     let first = reader.limit();
    ///     reader.set_limit(3);
    ///     (first, reader.limit())
    /// }
    ///
    /// assert_eq!(rt; limits(b"hello"), (10, 3));
    /// ```
    ///
    /// ```
    /// use futures_lite::{AsyncReadExt, future};
    ///
    /// let mut reader = AsyncReadExt::take(b"hello".as_slice(), 4);
    /// reader.set_limit(2);
    /// let mut buf = Vec::new(rt.alloc());
    /// future::block_on(&rt, reader.read_to_end(&mut buf))??;
    /// assert_eq!(rt; buf.as_slice(), b"he".as_slice());
    /// ```
    pub fn set_limit(&mut self, limit: u64)
        ensures { self.new ≡ record self.old { limit = limit } }
    {
        self.limit = limit;
    }

    /// Borrows the inner reader.
    ///
    /// # Examples
    ///
    /// ```
    /// use futures_lite::AsyncReadExt;
    ///
    /// fn left(bytes: &[u8]) -> usize
    ///     ensures { result ≡ length bytes.now }
    /// {
    ///     let reader = AsyncReadExt::take(bytes, 3);
    ///     reader.get_ref().len()
    /// }
    ///
    /// assert_eq!(rt; left(b"hello"), 5);
    /// ```
    ///
    /// ```
    /// use futures_lite::{AsyncReadExt, future};
    ///
    /// let mut reader = AsyncReadExt::take(b"hello".as_slice(), 4);
    /// future::block_on(&rt, reader.read(&mut [0; 3]))??;
    /// assert_eq!(rt; *reader.get_ref(), b"lo".as_slice());
    /// ```
    pub fn get_ref(&self) -> &R
        ensures { result.now ≡ take_inner self.now }
    {
        &self.inner
    }

    /// Borrows the inner reader mutably. What is read from it this way does not count towards the limit.
    ///
    /// # Examples
    ///
    /// ```
    /// use futures_lite::AsyncReadExt;
    ///
    /// fn replaced(bytes: &[u8]) -> usize
    ///     ensures { result ≡ 2 }
    /// {
    ///     let mut reader = AsyncReadExt::take(bytes, 3);
    ///     *reader.get_mut() = b"hi";
    ///     reader.get_ref().len()
    /// }
    ///
    /// assert_eq!(rt; replaced(b"hello"), 2);
    /// ```
    ///
    /// ```
    /// use futures_lite::{AsyncReadExt, future};
    ///
    /// let mut reader = AsyncReadExt::take(b"hello".as_slice(), 4);
    /// future::block_on(&rt, reader.get_mut().read(&mut [0; 3]))??;
    /// assert_eq!(rt; reader.limit(), 4);
    /// assert_eq!(rt; reader.into_inner(), b"lo".as_slice());
    /// ```
    pub fn get_mut(&mut self) -> &mut R
        ensures value { result.now ≡ take_inner self.old }
        ensures* writes_back { sem 𝓛 (Lends (the_row R.row) R.row self.entry result
            (λ w. record self.old { inner = w })) }
    {
        &mut self.inner
    }

    /// Returns the inner reader.
    ///
    /// # Examples
    ///
    /// ```
    /// use futures_lite::AsyncReadExt;
    /// use futures_lite::io::Cursor;
    ///
    /// fn inner(bytes: Vec<u8>) -> Vec<u8>
    ///     ensures { result ≡ bytes }
    /// {
    ///     Cursor::new(bytes).take(3).into_inner().into_inner()
    /// }
    ///
    /// let bytes = inner(Vec::from_slice(rt.alloc(), b"hello")?);
    /// assert_eq!(rt; bytes.as_slice(), b"hello".as_slice());
    /// ```
    ///
    /// ```
    /// use futures_lite::{AsyncReadExt, future};
    ///
    /// let mut reader = AsyncReadExt::take(b"hello".as_slice(), 2);
    /// future::block_on(&rt, reader.read(&mut [0; 4]))??;
    /// assert_eq!(rt; reader.into_inner(), b"llo".as_slice());
    /// ```
    pub fn into_inner(self) -> R
        ensures { result ≡ take_inner self }
    {
        self.inner
    }
}

impl<R: ReadSpec> ReadSpec for Take<R> {
    ghost use Rattle.lite_buffered.specs.Take.{ReadsWithin};
    ghost use Rattle.lite_buffered.specs.Laws.Known.{takes_known};
    ghost use Rattle.lite_buffered.specs.Laws.Take.{takes_laws};

    ghost reads = { ReadsWithin R.reads };

    ghost read_laws = { takes_laws R.read_laws };

    ghost known = { takes_known R.known };
}

// It is not written to.
impl<R> WriteSpec for Take<R> {
    ghost writes = { Idle };

    ghost write_laws = { idle_laws };
}

impl<R: AsyncRead> Take<R> {
    ghost use Rattle.lite_buffered.specs.Take.{ReadsWithin, limit_of, take_inner};

    // Reads into a buffer that is not empty and no longer than the limit.
    #[inline(always)]
    fn read_within(&mut self, cx: &mut Context<'_>, buf: &mut [u8]) -> Poll<io::Result<usize>>
        requires some { 0 < length buf.old }
        requires fits { length buf.old ≤ limit_of self.old }
        ensures bound { IfReady result (λ r. IfOk r (λ n. n ≤ length buf.new)) }
        ensures ran { ReadsWithin R.reads self.old (read_marks result buf.new) self.new }
        ensures registered { Registered result (R.registers (take_inner self.new)) cx.new }
        ensures context { Keeps cx.old cx.new }
    {
        match ready!(self.inner.poll_read(cx, buf)) {
            Ok(n) => {
                self.limit -= n as u64;
                Poll::Ready(Ok(n))
            }
            Err(e) => Poll::Ready(Err(e)),
        }
    }
}

impl<R: AsyncRead> AsyncRead for Take<R> {
    ghost use Rattle.lite_buffered.specs.Take.{ReadsWithin, limit_of, take_inner};

    ghost registers = { λ r. R.registers (take_inner r) };

    fn poll_read(&mut self, cx: &mut Context<'_>, buf: &mut [u8]) -> Poll<io::Result<usize>>
        ensures bound { IfReady result (λ r. IfOk r (λ n. n ≤ length buf.new)) }
        ensures ran { ReadsWithin R.reads self.old (read_marks result buf.new) self.new }
        ensures registered { Registered result (R.registers (take_inner self.new)) cx.new }
        ensures context { Keeps cx.old cx.new }

        // Without room, and if the limit is used up, nothing is polled.
        ensures idle { (length buf.old ≡ 0) ⊎ (limit_of self.old ≡ 0) → (result ≡ Poll.Ready (Ok 0)) × (self.new ≡ self.old) }
    {
        if self.limit == 0 || buf.is_empty() {
            return Poll::Ready(Ok(0));
        }
        // A buffer that is not cut keeps the length that a compiler may know.
        if buf.len() as u64 <= self.limit {
            return self.read_within(cx, buf);
        }
        let most = self.limit as usize;
        self.read_within(cx, &mut buf[..most])
    }

    #[tactic(auto, using(lite_io_base::specs::Laws::Runs::within_more))]
    fn poll_read_vectored(
        &mut self,
        cx: &mut Context<'_>,
        bufs: &mut [IoSliceMut<'_>],
    ) -> Poll<io::Result<usize>>
        ensures bound { IfReady result (λ r. IfOk r (λ n. n ≤ room_in bufs.old)) }
        ensures ran { ReadsInto (ReadsWithin R.reads) self.old result bufs.old self.new }
        ensures registered { Registered result (R.registers (take_inner self.new)) cx.new }
        ensures context { Keeps cx.old cx.new }

        // Without room, and if the limit is used up, nothing is polled.
        ensures idle { (room_in bufs.old ≡ 0) ⊎ (limit_of self.old ≡ 0) → (result ≡ Poll.Ready (Ok 0)) × (self.new ≡ self.old) }
    {
        self.poll_read(cx, first_room(bufs))
    }
}

impl<R: AsyncBufRead> Take<R> {
    ghost use Rattle.lite_buffered.specs.Take.{limit_of, take_inner};

    fn show(&self) -> &[u8]
        ensures { result.now ≡ take (limit_of self.now) (R.buffer_of (take_inner self.now)) }
    {
        first_bytes(self.inner.buffer(), self.limit)
    }
}

/// Returns the first `limit` bytes of a slice, or all of them if there are fewer.
fn first_bytes(all: &[u8], limit: u64) -> &[u8]
    ensures { result.now ≡ take limit all.now }
{
    let most = limit.min(all.len() as u64) as usize;
    &all[..most]
}

impl<R: AsyncBufRead> AsyncBufRead for Take<R> {
    ghost use Rattle.lite_buffered.specs.Take.{limit_of, take_inner};
    ghost use Rattle.lite_buffered.specs.Laws.Take.{takes_show};

    ghost buffer_of = { λ r. take (limit_of r) (R.buffer_of (take_inner r)) };

    ghost shows = { takes_show R.buffer_of R.shows };

    fn poll_fill_buf(&mut self, cx: &mut Context<'_>) -> Poll<io::Result<&[u8]>> {
        // What is compared is what cuts, so that it is known below that it is not 0.
        let limit = self.limit;
        if limit == 0 {
            return Poll::Ready(Ok(&[]));
        }
        match ready!(fill(&mut self.inner, cx)) {
            Ok(()) => Poll::Ready(Ok(first_bytes(self.inner.buffer(), limit))),
            Err(e) => Poll::Ready(Err(e)),
        }
    }

    fn buffer(&self) -> &[u8] {
        self.show()
    }

    fn consume(&mut self, amount: usize) {
        // At the limit the inner reader is not called.
        if amount == 0 {
            return;
        }
        self.inner.consume(amount);
        self.limit -= amount as u64;
    }
}

impl<R: CountedRead> CountedRead for Take<R> {
    ghost use Rattle.lite_buffered.specs.Uses.{ranks_of};
    ghost use Rattle.lite_buffered.specs.Take.{take_inner};
    ghost use Rattle.lite_buffered.specs.Laws.Take.{takes_counting};

    ghost ranks = { ranks_of take_inner R.ranks };

    ghost counting = { takes_counting R.counting };
}

impl<R: SteadyRead> SteadyRead for Take<R> {
    ghost use Rattle.lite_buffered.specs.Take.{ReadsWithin};
    ghost use Rattle.lite_buffered.specs.Laws.Take.{LimitAlike, take_steady};

    ghost ample = { ReadsWithin R.ample };

    ghost needs_none = { R.needs_none };

    ghost alike = { LimitAlike R.alike };

    ghost steady = { take_steady R.steady };
}

impl<R: CalmRead> CalmRead for Take<R> {
    ghost use Rattle.lite_buffered.specs.Laws.Take.{take_calm};

    ghost is_calm = { λ x. R.is_calm x.inner };

    ghost calm = { take_calm R.calm };
}

impl<R: ArmedRead> ArmedRead for Take<R> {
    ghost use Rattle.lite_buffered.specs.Laws.Take.{take_arms};

    ghost armed = { take_arms R.armed };
}
