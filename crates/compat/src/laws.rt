//! What is kept between the two sides.
ghost use Rattle.std.specs.Prelude.{◌≡◌, ◌⊎◌, ◌++◌, ◌∷◌, List, Option, Some, false, map, ℕ};
ghost use Rattle.compat.specs.FromKit.{KitLists, StreamStep};
ghost use Rattle.compat.specs.ToKit.{FinishesWith, GaveBytes, TookBytes, YieldsUpTo};
ghost use Rattle.compat.specs.Uses.{Answer, FoldsTo, ReadMark, WriteMark, bytes_taken, bytes_told, strip};
ghost use Rattle.compat.specs.declared.compat.Compat.{Compat};
ghost use Rattle.lite_views.specs.Views.{ListsAs};

use crate::compat::Compat;
use lite_base::{Future, Stream};
use lite_future::Or;
use lite_io_base::{AsyncRead, AsyncWrite, ReadSpec, WriteSpec};

/// States that a future of the toolchain gives each value that it has here, and each that it has when it is wrapped
/// twice.
///
/// # Examples
///
/// ```
/// use compat::{Compat, gives_same};
///
/// gives_same(&Compat::new(futures::future::ready(7u8)));
/// ```
pub fn gives_same<F: futures::Future>(_future: &Compat<F>)
where
    ensures here { (x : _) (value : F.Output) → FinishesWith ⟦<Compat<F> as Future>⟧.run x value
        → F.gives (Compat.inner x) value }
    ensures back { (x : _) (value : F.Output) → ⟦<Compat<Compat<F>> as futures::Future>⟧.gives x value
        → F.gives (Compat.inner (Compat.inner x)) value }
{}

/// States that a stream of the toolchain yields the items that it has here, up to its end, and those that it has when it
/// is wrapped twice.
///
/// # Examples
///
/// ```
/// use compat::{Compat, yields_same};
///
/// yields_same(&Compat::new(futures::stream::iter(0u8..3)));
/// ```
pub fn yields_same<S: futures::Stream>(_stream: &Compat<S>)
where
    ensures here { (x : _) (y : _) (l : List (Answer S.Item)) (xs : List S.Item) (last : Option S.Item) (rest : List (Option S.Item))
        → Compat.ended x ≡ false → ⟦<Compat<S> as Stream>⟧.run x l y → strip l ≡ map Some xs ++ last ∷ rest
        → S.yields (Compat.inner x) xs last }
    ensures back { (x : _) (xs : List S.Item) (last : Option S.Item) → Compat.ended (Compat.inner x) ≡ false
        → ⟦<Compat<Compat<S>> as futures::Stream>⟧.yields x xs last → S.yields (Compat.inner (Compat.inner x)) xs last }
{}

/// States that a reader of the toolchain gave exactly the bytes that were read from it here, in order, and those that
/// were read when it is wrapped twice.
///
/// # Examples
///
/// ```
/// use compat::{Compat, reads_same};
///
/// reads_same(&Compat::new(tokio::io::empty()));
/// ```
pub fn reads_same<R: tokio::io::AsyncRead>(_reader: &Compat<R>)
where
    ensures here { (x : _) (y : _) (l : List ReadMark) → ⟦<Compat<R> as ReadSpec>⟧.reads x l y
        → R.reads (Compat.inner x) (bytes_told l) (Compat.inner y) }
    ensures back { (x : _) (y : _) (xs : List ℕ) → ⟦<Compat<Compat<R>> as tokio::io::AsyncRead>⟧.reads x xs y
        → R.reads (Compat.inner (Compat.inner x)) xs (Compat.inner (Compat.inner y)) }
{}

/// States that a writer of the toolchain took exactly the bytes that were written to it here, in order, and those that
/// were written when it is wrapped twice.
///
/// # Examples
///
/// ```
/// use compat::{Compat, writes_same};
///
/// writes_same(&Compat::new(tokio::io::sink()));
/// ```
pub fn writes_same<W: tokio::io::AsyncWrite>(_writer: &Compat<W>)
where
    ensures here { (x : _) (y : _) (l : List WriteMark) → ⟦<Compat<W> as WriteSpec>⟧.writes x l y
        → W.writes (Compat.inner x) (bytes_taken l) (Compat.inner y) }
    ensures back { (x : _) (y : _) (xs : List ℕ) → ⟦<Compat<Compat<W>> as tokio::io::AsyncWrite>⟧.writes x xs y
        → W.writes (Compat.inner (Compat.inner x)) xs (Compat.inner (Compat.inner y)) }
{}

/// States that a future of this library that is wrapped twice has no value but those that it may itself be polled to.
///
/// # Examples
///
/// ```
/// use compat::{Compat, future_comes_back};
/// use futures_lite::future;
///
/// future_comes_back(&Compat::new(Compat::new(future::ready(7u8))));
/// ```
pub fn future_comes_back<F: Future + Drop>(_future: &Compat<Compat<F>>)
where
    ensures { (x : _) (value : F.Output) → FinishesWith ⟦<Compat<Compat<F>> as Future>⟧.run x value
        → FinishesWith F.run (Compat.inner (Compat.inner x)) value }
{}

/// States that a stream of this library that is wrapped twice yields items that it itself yields, up to its end.
///
/// # Examples
///
/// ```
/// use compat::{Compat, stream_comes_back};
/// use futures_lite::stream;
///
/// stream_comes_back(&Compat::new(Compat::new(stream::iter(0u8..3))));
/// ```
pub fn stream_comes_back<S: Stream + Drop>(_stream: &Compat<Compat<S>>)
where
    ensures { (x : _) (y : _) (l : List (Answer S.Item)) (xs : List S.Item) (last : Option S.Item) (rest : List (Option S.Item))
        → Compat.ended x ≡ false → ⟦<Compat<Compat<S>> as Stream>⟧.run x l y → strip l ≡ map Some xs ++ last ∷ rest
        → YieldsUpTo S.run (Compat.inner (Compat.inner x)) xs last }
{}

/// States that a reader of this library that is wrapped twice gives exactly the bytes that it itself gives, in order.
///
/// # Examples
///
/// ```
/// use compat::{Compat, reader_comes_back};
///
/// reader_comes_back(&Compat::new(Compat::new(b"hello".as_slice())));
/// ```
pub fn reader_comes_back<R: AsyncRead + Drop>(_reader: &Compat<Compat<R>>)
where
    ensures { (x : _) (y : _) (l : List ReadMark) → ⟦<Compat<Compat<R>> as ReadSpec>⟧.reads x l y
        → GaveBytes R.reads (Compat.inner (Compat.inner x)) (bytes_told l) (Compat.inner (Compat.inner y)) }
{}

/// States that a writer of this library that is wrapped twice takes exactly the bytes that it itself takes, in order.
///
/// # Examples
///
/// ```
/// use compat::{Compat, writer_comes_back};
///
/// writer_comes_back(&Compat::new(Compat::new(Vec::<u8>::new(rt.alloc()))));
/// ```
pub fn writer_comes_back<W: AsyncWrite + Drop>(_writer: &Compat<Compat<W>>)
where
    ensures { (x : _) (y : _) (l : List WriteMark) → ⟦<Compat<Compat<W>> as WriteSpec>⟧.writes x l y
        → TookBytes W.writes (Compat.inner (Compat.inner x)) (bytes_taken l) (Compat.inner (Compat.inner y)) }
{}

/// States that a nest of this library over two futures of the toolchain needs the sources of both, if it is wrapped for
/// the toolchain again.
///
/// So what the toolchain's event loop says of the sources that a task needs holds of those below a nest of this library.
///
/// # Examples
///
/// ```
/// use compat::{Compat, needs_both};
/// use futures_lite::future;
///
/// let (one, other) = (futures::future::ready(7u8), futures::future::pending());
/// needs_both(&Compat::new(future::or(Compat::new(one), Compat::new(other))));
/// ```
pub fn needs_both<A, B>(nest: &Compat<Or<Compat<A>, Compat<B>>>)
where
    A: futures::Future,
    B: futures::Future<Output = A::Output>,
    ensures { (s : ℕ) → A.needs nest.now.inner.future1.inner s ⊎ B.needs nest.now.inner.future2.inner s
        → ⟦<Compat<Or<Compat<A>, Compat<B>>> as futures::Future>⟧.needs nest.now s }
{}

/// Wraps a stream of the toolchain, and passes its list on.
///
/// If the toolchain knows the list of the items, as of its `iter` over a vector, then this stream has that list. So have
/// the adapters over it. Of a channel or a socket the toolchain knows none.
///
/// # Examples
///
/// ```
/// use compat::stream_from_kit;
/// use futures_lite::{StreamExt, future};
///
/// let numbers = stream_from_kit(futures::stream::iter(0u8..3)).map(|n: u8| n * 2).with_budget(9);
/// let all = future::block_on(&rt, numbers.collect::<Vec<u8>>(rt.alloc()))?;
/// assert_eq!(rt; all.map_err(|_| AllocError)?.as_slice(), [0, 2, 4].as_slice());
/// ```
pub fn stream_from_kit<S: futures::Stream>(inner: S) -> Compat<S>
where
    ensures { (xs : List S.Item) → KitLists (S.yields inner) xs
        → ListsAs (FoldsTo (StreamStep S.can_poll S.yields)) result xs }
{
    Compat::new(inner)
}
