//! Functions that make the sources.
ghost use Rattle.std.specs.Prelude.{◌≡◌, Some};
ghost use Rattle.lite_source.specs.Unfolding.{Holding};

use crate::empty::Empty;
use crate::iter::Iter;
use crate::once::Once;
use crate::once_future::OnceFuture;
use crate::pending::Pending;
use crate::poll_fn::PollFn;
use crate::repeat::Repeat;
use crate::repeat_with::RepeatWith;
use crate::script::Script;
use crate::try_unfold::TryUnfold;
use crate::unfold::Unfold;
use crate::unfolding::Unfolding;
use lite_base::{Context, Future, Poll};
use std::marker::PhantomData;

/// Returns an empty stream: every poll returns `Ready(None)`.
pub fn empty<T>() -> Empty<T>
    ensures { result ≡ record { item = record {} } }
{
    Empty { item: PhantomData }
}

/// Returns a stream that yields the items of an iterator.
///
/// Each poll calls `next` once, also after an end. The stream never returns `Pending`. Size hint: the
/// iterator's. The caller guarantees that `next` may be called, now and after any calls.
///
/// # Examples
///
/// ```
/// use futures_lite::{StreamExt, future, stream};
///
/// let numbers = stream::iter(1u8..4);
/// let numbers = future::block_on(&rt, numbers.collect::<Vec<u8>>(rt.alloc()))??;
/// assert_eq!(rt; numbers.as_slice(), [1, 2, 3].as_slice());
/// ```
pub fn iter<I: IntoIterator>(iter: I) -> Iter<I::IntoIter>
    ensures { I.into_iter_gives iter result.iter }
{
    Iter {
        iter: iter.into_iter(),
    }
}

/// Returns a stream that yields `t`, and then is at an end for ever.
pub fn once<T>(t: T) -> Once<T>
    ensures { result ≡ record { value = Some t } }
{
    Once { value: Some(t) }
}

/// Returns a stream that yields the value of `future`, and then is at an end for ever.
pub fn once_future<F: Future>(future: F) -> OnceFuture<F>
    ensures { result ≡ record { future = Some future } }
{
    OnceFuture {
        future: Some(future),
    }
}

/// Returns a stream that is pending for ever.
pub fn pending<T>() -> Pending<T>
    ensures { result ≡ record { item = record {} } }
{
    Pending { item: PhantomData }
}

/// Returns a stream that calls `f` at each poll, and returns the result.
pub fn poll_fn<T, F>(f: F) -> PollFn<F>
where
    F: FnMut(&mut Context<'_>) -> Poll<Option<T>>,
    ensures { result ≡ record { f = f } }
{
    PollFn { f }
}

/// Returns a stream that yields clones of `item` for ever. A refused clone is the item `Err(AllocError)`.
pub fn repeat<T: Clone>(item: T) -> Repeat<T>
    ensures { result ≡ record { item = item } }
{
    Repeat { item }
}

/// Returns a stream that yields what `repeater` returns, one call a poll, for ever.
pub fn repeat_with<T, F>(repeater: F) -> RepeatWith<F>
where
    F: FnMut() -> T,
    ensures { result ≡ record { f = repeater } }
{
    RepeatWith { f: repeater }
}

/// Returns a stream whose polls return `answers` in order, and after them `Ready(None)`.
pub fn script<T>(answers: Vec<Poll<Option<T>>>) -> Script<T>
    ensures { result ≡ answers.items }
{
    Script::new(answers)
}

/// Returns a stream of the items that futures make, up to the first error.
pub fn try_unfold<T, E, F, Fut, Item>(init: T, f: F) -> TryUnfold<T, F, Fut>
where
    F: FnMut(T) -> Fut,
    Fut: Future<Output = Result<Option<(Item, T)>, E>>,
    ensures { result ≡ record { f = f; state = Holding.Seed init } }
{
    TryUnfold {
        f,
        state: Unfolding::new(init),
    }
}

/// Returns a stream of the items that futures make.
pub fn unfold<T, F, Fut, Item>(seed: T, f: F) -> Unfold<T, F, Fut>
where
    F: FnMut(T) -> Fut,
    Fut: Future<Output = Option<(Item, T)>>,
    ensures { result ≡ record { f = f; state = Holding.Seed seed } }
{
    Unfold {
        f,
        state: Unfolding::new(seed),
    }
}
