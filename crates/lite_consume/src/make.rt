//! Functions that make the futures.
ghost use Rattle.std.specs.Prelude.{◌≡◌, None, Some};

use crate::all::{All, AllFuture};
use crate::any::{Any, AnyFuture};
use crate::block_on::BlockOn;
use crate::blocking::{ByRuntime, ByWaiter};
use crate::consume::Consume;
use crate::count::{Count, CountFuture};
use crate::find::{Find, FindFuture};
use crate::find_map::{FindMap, FindMapFuture};
use crate::fold::{Fold, FoldFuture};
use crate::for_each::{ForEach, ForEachFuture};
use crate::last::{Last, LastFuture};
use crate::next::{Next, NextFuture};
use crate::nth::{Nth, NthFuture};
use crate::position::{Position, PositionFuture};
use crate::try_fold::{TryFold, TryFoldFuture};
use crate::try_for_each::{TryForEach, TryForEachFuture};
use crate::try_next::{TryNext, TryNextFuture};
use lite_base::Stream;

/// Returns a future that resolves to what `folder` makes of the items of `stream`.
pub fn consume<S, F>(stream: S, folder: F) -> Consume<S, F>
    ensures { result ≡ record { stream = stream; folder = folder } }
{
    Consume { stream, folder }
}

/// Returns a future that resolves to whether `predicate` returns true for each item of `stream`.
pub fn all<S, P>(stream: &mut S, predicate: P) -> AllFuture<'_, S, P>
    ensures { result ≡ record { stream = stream.entry; folder = record { predicate = predicate } } }
{
    consume(stream, All { predicate })
}

/// Returns a future that resolves to whether `predicate` returns true for an item of `stream`.
pub fn any<S, P>(stream: &mut S, predicate: P) -> AnyFuture<'_, S, P>
    ensures { result ≡ record { stream = stream.entry; folder = record { predicate = predicate } } }
{
    consume(stream, Any { predicate })
}

/// Returns a future that resolves to the number of items of `stream`.
pub fn count<S>(stream: S) -> CountFuture<S>
    ensures { result ≡ record { stream = stream; folder = record { count = 0 } } }
{
    consume(stream, Count { count: 0 })
}

/// Returns a future that resolves to the first item of `stream` for which `predicate` returns true.
pub fn find<S, P>(stream: &mut S, predicate: P) -> FindFuture<'_, S, P>
    ensures { result ≡ record { stream = stream.entry; folder = record { predicate = predicate } } }
{
    consume(stream, Find { predicate })
}

/// Returns a future that resolves to the first result of `f` on the items of `stream` that is not `None`.
pub fn find_map<S, F>(stream: &mut S, f: F) -> FindMapFuture<'_, S, F>
    ensures { result ≡ record { stream = stream.entry; folder = record { f = f } } }
{
    consume(stream, FindMap { f })
}

/// Returns a future that folds the items of `stream` into `init` by `f`.
pub fn fold<S, F, T>(stream: S, init: T, f: F) -> FoldFuture<S, F, T>
    ensures { result ≡ record { stream = stream; folder = record { f = f; acc = Some init } } }
{
    consume(stream, Fold { f, acc: Some(init) })
}

/// Returns a future that calls `f` with each item of `stream`.
pub fn for_each<S, F>(stream: S, f: F) -> ForEachFuture<S, F>
    ensures { result ≡ record { stream = stream; folder = record { f = f } } }
{
    consume(stream, ForEach { f })
}

/// Returns a future that resolves to the last item of `stream`.
pub fn last<S: Stream>(stream: S) -> LastFuture<S>
    ensures { result ≡ record { stream = stream; folder = record { last = None } } }
{
    consume(stream, Last { last: None })
}

/// Returns a future that resolves to the next item of `stream`.
pub fn next<S>(stream: &mut S) -> NextFuture<'_, S>
    ensures { result ≡ record { stream = stream.entry; folder = record {} } }
{
    consume(stream, Next)
}

/// Returns a future that resolves to the item of `stream` with the index `n`, counted from 0.
pub fn nth<S>(stream: &mut S, n: usize) -> NthFuture<'_, S>
    ensures { result ≡ record { stream = stream.entry; folder = record { n = n } } }
{
    consume(stream, Nth { n })
}

/// Returns a future that resolves to the index of the first item of `stream` for which `predicate` returns
/// true.
pub fn position<S, P>(stream: &mut S, predicate: P) -> PositionFuture<'_, S, P>
    ensures { result ≡ record { stream = stream.entry; folder = record { predicate = predicate; index = 0 } } }
{
    consume(
        stream,
        Position {
            predicate,
            index: 0,
        },
    )
}

/// Returns a future that folds the values in the `Ok` items of `stream` into `init` by `f`, up to the first
/// error.
pub fn try_fold<S, F, B>(stream: &mut S, init: B, f: F) -> TryFoldFuture<'_, S, F, B>
    ensures { result ≡ record { stream = stream.entry; folder = record { f = f; acc = Some init } } }
{
    consume(stream, TryFold { f, acc: Some(init) })
}

/// Returns a future that calls `f` with each item of `stream`, up to the first error that `f` returns.
pub fn try_for_each<S, F>(stream: &mut S, f: F) -> TryForEachFuture<'_, S, F>
    ensures { result ≡ record { stream = stream.entry; folder = record { f = f } } }
{
    consume(stream, TryForEach { f })
}

/// Returns a future that resolves to the value in the next item of `stream`, or to its error.
pub fn try_next<S>(stream: &mut S) -> TryNextFuture<'_, S>
    ensures { result ≡ record { stream = stream.entry; folder = record {} } }
{
    consume(stream, TryNext)
}

/// Returns a [`BlockOn`], whose methods block this thread, by `rt`, until `stream` yields what they need.
///
/// # Examples
///
/// ```
/// use futures_lite::stream;
///
/// let mut numbers = stream::block_on(rt, stream::iter(1u8..4));
/// assert_eq!(rt; numbers.next()?, Some(1));
/// assert_eq!(rt; numbers.count()?, 2);
/// ```
pub fn block_on<R, S>(rt: R, stream: S) -> BlockOn<ByRuntime<R>, S>
    ensures { result ≡ record { by = record { rt = rt; on = None }; stream = stream } }
{
    BlockOn {
        by: ByRuntime::new(rt),
        stream,
    }
}

/// Returns a stream whose items are waited for on this thread by `waiter`, which is lent.
///
/// No call allocates, so none returns `Err`. The waits of a `Waits` share one context, so a loop that waits for one item
/// after another is faster with it than with [`block_on`].
///
/// # Examples
///
/// ```
/// use futures_lite::future::BlockOn;
/// use futures_lite::stream;
///
/// let mut on = BlockOn::new(&rt)?;
/// let mut waits = on.waits();
/// let mut numbers = stream::block_on_by(&mut waits, rt, stream::iter(1u8..4));
/// assert_eq!(rt; numbers.next()?, Some(1));
/// assert_eq!(rt; numbers.count()?, 2);
/// ```
pub fn block_on_by<'w, R, W, S>(
    waiter: &'w mut W,
    rt: R,
    stream: S,
) -> BlockOn<ByWaiter<'w, R, W>, S>
    ensures { result ≡ record { by = record { rt = rt; waiter = waiter.entry }; stream = stream } }
{
    BlockOn {
        by: ByWaiter::new(waiter, rt),
        stream,
    }
}
