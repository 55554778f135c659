//! The type that has the traits of the other side.
ghost use Rattle.std.specs.Prelude.{◌≡◌, false};
ghost use Rattle.std.specs.Borrow.{Lends, sem};
ghost use Rattle.compat.specs.contracts.compat.Compat.{the_row};

use futures::task::{Source, Waker};
use std::fmt;

/// A future, stream, reader or writer with the traits of the other side.
///
/// Made by [`compat`](CompatExt::compat) or [`Compat::new`]. If `T` has a trait of this library, then `Compat<T>` has
/// the toolchain's trait of the same name, and the other way round. Each poll is one poll of `T`. Values, items, bytes,
/// ends and errors pass unchanged.
///
/// | `T` | `Compat<T>` |
/// |---|---|
/// | `futures_lite::Future` | `futures::Future` |
/// | `futures_lite::Stream` | `futures::Stream` |
/// | `futures_lite::io::AsyncRead`, `AsyncBufRead`, `AsyncWrite` | those of `tokio::io` |
/// | `futures::Future` | `futures_lite::Future` |
/// | `futures::Stream` | `futures_lite::Stream` |
/// | `tokio::io::AsyncRead`, `AsyncWrite` | those of `futures_lite::io` |
///
/// A close here is a shutdown there. A stream of the toolchain may not be polled after its end. So `Compat` remembers
/// the end, and then returns `Ready(None)` at each poll.
///
/// # Examples
///
/// A channel of the toolchain, read by this library's adapters.
///
/// ```
/// use compat::{Compat, CompatExt};
/// use futures::channel::mpsc;
/// use futures::channel::mpsc::UnboundedReceiver;
/// use futures_lite::{StreamExt, future};
///
/// let (sender, receiver) = mpsc::unbounded::<u32>(rt.alloc())?;
/// for n in 1..=3u32 {
///     assert!(rt; sender.unbounded_send(n).is_ok());
/// }
/// drop(sender);
///
/// let receiver: Compat<UnboundedReceiver<u32>> = receiver.compat();
/// let doubled = receiver.map(|n: u32| n * 2).with_budget(16);
/// let all = future::block_on(&rt, doubled.collect::<Vec<u32>>(rt.alloc()))?;
/// assert_eq!(rt; all.map_err(|_| AllocError)?.as_slice(), [2, 4, 6].as_slice());
/// ```
#[derive(Drop)]
pub struct Compat<T> {
    pub(crate) inner: T,
    // Whether a stream of the toolchain has ended.
    pub(crate) ended: bool,
    // The toolchain asks that each `Pending` has registered somewhere, and this library does not. So a `Pending` of
    // this library's registers here as well. Nothing ever fires this source.
    pub(crate) source: Source,
    pub(crate) slot: Option<Waker>,
}

impl<T: fmt::Debug> fmt::Debug for Compat<T> {
    fn fmt<W: fmt::Write>(&self, f: &mut fmt::Formatter<W>) -> fmt::Result {
        f.debug_struct("Compat")
            .field("inner", &self.inner)
            .finish_non_exhaustive()
    }
}

impl<T> Compat<T> {
    /// Wraps a value of either side. It allocates nothing.
    ///
    /// # Examples
    ///
    /// ```
    /// use compat::Compat;
    /// use futures_lite::future;
    ///
    /// let seven = futures::future::ready(7u8);
    /// assert_eq!(rt; future::block_on(&rt, Compat::new(seven))?, 7);
    /// ```
    pub fn new(inner: T) -> Compat<T>
        ensures inner { result.inner ≡ inner }
        ensures running { result.ended ≡ false }
    {
        Compat {
            inner,
            ended: false,
            source: Source::new(),
            slot: None,
        }
    }

    /// Borrows the value that is wrapped.
    ///
    /// # Examples
    ///
    /// ```
    /// use compat::CompatExt;
    ///
    /// let reader = b"hello".as_slice().compat();
    /// assert_eq!(rt; *reader.get_ref(), b"hello".as_slice());
    /// ```
    pub fn get_ref(&self) -> &T
        ensures { result.now ≡ self.now.inner }
    {
        &self.inner
    }

    /// Borrows the value that is wrapped mutably.
    ///
    /// # Examples
    ///
    /// ```
    /// use compat::CompatExt;
    ///
    /// let mut reader = b"hello".as_slice().compat();
    /// *reader.get_mut() = b"bye".as_slice();
    /// assert_eq!(rt; reader.into_inner(), b"bye".as_slice());
    /// ```
    pub fn get_mut(&mut self) -> &mut T
        ensures value { result.now ≡ self.old.inner }
        ensures* writes_back { sem 𝓛 (Lends (the_row T.row) T.row self.entry result
            (λ t. record self.old { inner = t })) }
    {
        &mut self.inner
    }

    /// Returns the value that is wrapped.
    ///
    /// # Examples
    ///
    /// ```
    /// use compat::CompatExt;
    ///
    /// assert_eq!(rt; 7u8.compat().into_inner(), 7);
    /// ```
    pub fn into_inner(self) -> T
        ensures { result ≡ self.inner }
    {
        self.inner
    }
}

/// Wraps any value, so that it has the traits of the other side.
pub trait CompatExt {
    /// Returns the value as a [`Compat`]. It allocates nothing.
    ///
    /// # Examples
    ///
    /// A task of this library in an executor of the toolchain. It sends numbers to a future of this library.
    ///
    /// ```
    /// use compat::CompatExt;
    /// use futures::channel::mpsc;
    /// use futures::executor::LocalPool;
    /// use futures_lite::{StreamExt, stream};
    ///
    /// let (sender, receiver) = mpsc::unbounded::<u64>(rt.alloc())?;
    /// let sending = stream::iter(1..=3u64).for_each(move |n: u64| {
    ///     let _ = sender.unbounded_send(n);
    /// });
    /// let mut pool = LocalPool::new(&rt)?;
    /// assert!(rt; pool.spawner()?.spawn(sending.compat()).is_ok());
    ///
    /// let numbers = receiver.compat().with_budget(16);
    /// let last = numbers.last();
    /// assert_eq!(rt; pool.run_until(&rt, last.compat())?, Some(3));
    /// ```
    final fn compat(self) -> Compat<Self>
    where
        Self: Sized,
        ensures inner { result.inner ≡ self }
        ensures running { result.ended ≡ false }
    {
        Compat::new(self)
    }
}

impl<T> CompatExt for T {}
