//! Streams: sources, and the methods that adapt and consume every stream.
ghost use Rattle.std.specs.Prelude.{◌≡◌, ℕ, ◌+◌, ◌-◌, ◌<◌, ◌≤◌, ◌^◌, ◌++◌, ◌∷◌, [], List, Bool, IfOk, IfSome, IsSome};
ghost use Rattle.std.specs.Prelude.{MatchResult, None, Ok, Option, Result, Some, drop, false, flat_map, length, map};
ghost use Rattle.std.specs.Prelude.{not, replicate, take};
ghost use Rattle.futures_lite.specs.Uses.{Called, CalledAt, AllocError, Calls, Inspects, ActsAsOnState, Fronts};
ghost use Rattle.futures_lite.specs.Uses.{FrontsAs, HasValue, ListsAs, Seen, ValueHolds, ValueIs, CountRuns, FindRuns};
ghost use Rattle.futures_lite.specs.Uses.{FoldRuns, LastRuns, NthRuns, TryFoldRuns, TriesCollect, first_error, AtOnce};
ghost use Rattle.futures_lite.specs.Uses.{FoundBy, NeverReady, RacesOn, WhenLeft, Context, GivesFuture, Holding};
ghost use Rattle.futures_lite.specs.Uses.{MutBor, TryUnfoldsBy, UnfoldsBy, item_of, seed_of, try_item_of, try_seed_of};
ghost use Rattle.futures_lite.specs.Uses.{try_fold, AllTaken, CycleOf};
ghost use Rattle.futures.specs.declared.task.Poll.TheVariants.{Ready};
ghost use Rattle.lite_base.specs.Answers.{until_end};
ghost use Rattle.lite_merge.specs.Budgeted.{Budgets};
ghost use Rattle.lite_merge.specs.Or.{Ors};
ghost use Rattle.lite_merge.specs.Zip.{Zips};
ghost use Rattle.lite_reshape.specs.Filter.{Filters};
ghost use Rattle.lite_reshape.specs.FlatMap.{FlatMaps};
ghost use Rattle.lite_reshape.specs.Flatten.{Flattens};
ghost use Rattle.lite_reshape.specs.Skip.{SkipsFirst};
ghost use Rattle.lite_reshape.specs.SkipWhile.{SkipsWhile};
ghost use Rattle.lite_reshape.specs.StepBy.{StepsBy};
ghost use Rattle.lite_reshape.specs.Then.{Thens};
ghost use Rattle.lite_reshape.specs.Ended.Turn.{First};
ghost use Rattle.lite_base.specs.EachItem.{MayCallEach, items_in};
ghost use Rattle.lite_stream.specs.Fuse.{Fuses};
ghost use Rattle.lite_stream.specs.Take.{Takes};
ghost use Rattle.lite_stream.specs.TakeWhile.{TakesWhile};
ghost use Rattle.lite_views.specs.Futures.{RestIfFound, behind_match};
ghost use Rattle.lite_views.specs.Lists.{map_while, scan, step_from};
ghost use Rattle.lite_views.specs.Trying.{OkLists, OkSeen};
ghost use Rattle.lite_views.specs.Unfold.{UnfoldsInto};
ghost use Rattle.lite_views.specs.Views.{ListsIf, OfItems, RestIs, GoesOn, Lists};
ghost use Rattle.std.specs.Iterator.{ActsAs, ActsAsAt, ActsAsOnTwo};
ghost use Rattle.std.specs.Iterator.Runs.{CallKeepsClosure};
ghost use Rattle.std.specs.List.{AllByRecursion, enumerate_from, filter, filter_map, find, fold, last_or, list_all};
ghost use Rattle.std.specs.List.{list_any, position, prefix_len, range_with_len, slice_get, zip};
ghost use Rattle.std.specs.Option.{option_transpose};
ghost use denote.Ref.{Bor};

use lite_base::{Context, Future, Poll};
pub use lite_base::{Counted, OkCounted, Stream, poll_armed_next};
pub use lite_consume::make::{block_on, block_on_by};
pub use lite_consume::{
    AllFuture, AnyFuture, BlockOn, Consume, CountFuture, FindFuture, FindMapFuture, FoldFuture,
    Folder, ForEachFuture, LastFuture, NextFuture, NthFuture, PositionFuture, SteadyFolder,
    TryFoldFuture, TryForEachFuture, TryNextFuture,
};
pub use lite_gather::{
    CollectFuture, Gather, PartitionFuture, Refused, TryCollectError, TryCollectFuture,
    UnzipFuture, UnzipRefused,
};
pub use lite_merge::make::stop_after_future;
pub use lite_merge::{Budgeted, Cycle, Drain, Or, Race, StopAfterFuture, Zip};
pub use lite_reshape::{
    Chain, Cloned, Filter, FilterMap, FlatMap, Flatten, Skip, SkipWhile, StepBy, Then,
};
pub use lite_source::make::iter;
pub use lite_source::{
    Empty, Iter, Once, OnceFuture, Pending, PollFn, Repeat, RepeatWith, Script, TryUnfold, Unfold,
};
use lite_stream::make;
pub use lite_stream::{Copied, Enumerate, Fuse, Inspect, Map, MapWhile, Scan, Take, TakeWhile};
use rand_core::{Rng, SeedableRng};
use rand_pcg::Pcg32;
use std::ops::Range;
use std::{array, iter as iterators, slice, vec};

/// Returns an empty stream: every poll returns `Ready(None)`.
///
/// Size hint: `(0, Some(0))`.
///
/// # Examples
///
/// ```
/// use futures_lite::{StreamExt, future, stream};
///
/// fn nothing<R>(rt: &R) -> Result<Option<u8>, AllocError>
/// where
///     R: Wait + RandomSource + AllocGlobal,
///     ensures { IfOk result (λ v. v ≡ None) }
/// {
///     let mut empty = stream::empty::<u8>();
///     future::block_on(rt, empty.next())
/// }
///
/// assert_eq!(rt; nothing(&rt)?, None);
/// ```
pub fn empty<T>() -> Empty<T>
    ensures made { result ≡ record { item = record {} } }
    ensures lists { ListsAs {A = T} ⟦<Empty<T> as Stream>⟧.run result [] }
{
    lite_source::make::empty()
}

/// Returns a stream of the items of a vector.
///
/// Like [`iter`], for a `Vec`; its contract also gives the list of items. Items that were not polled are
/// dropped with the stream, so the items must be `Drop`.
///
/// # Examples
///
/// ```
/// use futures_lite::{StreamExt, future, stream};
///
/// fn numbers<R>(rt: &R) -> Result<Vec<u8>, AllocError>
/// where
///     R: Wait + RandomSource + AllocGlobal,
///     ensures { IfOk result (λ v. v.items ≡ 1 ∷ 2 ∷ []) }
/// {
///     let numbers = stream::iter_vec(vec![in rt.alloc(); 1u8, 2]?);
///     future::block_on(rt, numbers.collect::<Vec<u8>>(rt.alloc()))?.map_err(|_| AllocError)
/// }
///
/// assert_eq!(rt; numbers(&rt)?.as_slice(), [1, 2].as_slice());
/// ```
pub fn iter_vec<T: Drop>(items: Vec<T>) -> Iter<vec::IntoIter<T>>
    ensures fronts { Fronts ⟦<Iter<vec::IntoIter<T>> as Stream>⟧.run result items.items }
    ensures small { length items.items < 2 ^ 64 }
    ensures lists { ListsAs ⟦<Iter<vec::IntoIter<T>> as Stream>⟧.run result items.items }
{
    iter(items)
}

/// Returns a stream of copies of the items of a slice.
///
/// Like [`iter`], for a slice; its contract also gives the list of items.
///
/// # Examples
///
/// ```
/// use futures_lite::{StreamExt, future, stream};
///
/// fn copied<R>(rt: &R, prices: &[u32]) -> Result<Vec<u32>, AllocError>
/// where
///     R: Wait + RandomSource + AllocGlobal,
///     ensures { IfOk result (λ v. v.items ≡ prices.now) }
/// {
///     future::block_on(rt, stream::iter_slice(prices).collect::<Vec<u32>>(rt.alloc()))?.map_err(|_| AllocError)
/// }
///
/// assert_eq!(rt; copied(&rt, &[3, 5])?.as_slice(), [3, 5].as_slice());
/// ```
pub fn iter_slice<'a, T: Copy>(items: &'a [T]) -> Iter<iterators::Copied<slice::Iter<'a, T>>>
    ensures fronts { Fronts ⟦<Iter<iterators::Copied<slice::Iter<'a, T>>> as Stream>⟧.run result items.now }
    ensures small { length items.now < 2 ^ 64 }
    ensures lists { ListsAs ⟦<Iter<iterators::Copied<slice::Iter<'a, T>>> as Stream>⟧.run result items.now }
{
    iter(items.iter().copied())
}

/// Returns a stream of the items of an array.
///
/// Like [`iter`], for an array; its contract also gives the list of items. Items that were not polled are
/// dropped with the stream, so the items must be `Drop`.
///
/// # Examples
///
/// ```
/// use futures_lite::{StreamExt, future, stream};
///
/// fn letters<R>(rt: &R, first: char, second: char) -> Result<Vec<char>, AllocError>
/// where
///     R: Wait + RandomSource + AllocGlobal,
///     ensures { IfOk result (λ v. v.items ≡ first ∷ second ∷ []) }
/// {
///     future::block_on(rt, stream::iter_array([first, second]).collect::<Vec<char>>(rt.alloc()))?.map_err(|_| AllocError)
/// }
///
/// assert_eq!(rt; letters(&rt, 'a', 'b')?.as_slice(), ['a', 'b'].as_slice());
/// ```
pub fn iter_array<T: Drop, const N: usize>(items: [T; N]) -> Iter<array::IntoIter<T, N>>
    ensures fronts { Fronts ⟦<Iter<array::IntoIter<T, N>> as Stream>⟧.run result items }
    ensures lists { ListsAs ⟦<Iter<array::IntoIter<T, N>> as Stream>⟧.run result items }
{
    iter(items)
}

/// Returns a stream of the numbers of a range.
///
/// Like [`iter`], for a `Range<usize>`; its contract also gives the list of items.
///
/// # Examples
///
/// ```
/// use futures_lite::{StreamExt, future, stream};
///
/// fn numbers<R>(rt: &R, start: usize, end: usize) -> Result<Vec<usize>, AllocError>
/// where
///     R: Wait + RandomSource + AllocGlobal,
///     ensures { IfOk result (λ v. v.items ≡ range_with_len start (end - start)) }
/// {
///     future::block_on(rt, stream::iter_range(start..end).collect::<Vec<usize>>(rt.alloc()))?.map_err(|_| AllocError)
/// }
///
/// assert_eq!(rt; numbers(&rt, 2, 5)?.as_slice(), [2, 3, 4].as_slice());
/// ```
pub fn iter_range(items: Range<usize>) -> Iter<Range<usize>>
    ensures fronts { (n : ℕ) → items.end - items.start ≡ n
        → FrontsAs ⟦<Iter<Range<usize>> as Stream>⟧.run result (range_with_len items.start n) }
    ensures lists { (n : ℕ) → items.end - items.start ≡ n
        → ListsAs ⟦<Iter<Range<usize>> as Stream>⟧.run result (range_with_len items.start n) }
{
    iter(items)
}

/// Returns a stream that yields `t`, and then ends forever.
///
/// Size hint: `(1, Some(1))`, and after the item `(0, Some(0))`.
///
/// # Examples
///
/// ```
/// use futures_lite::{StreamExt, future, stream};
///
/// fn only<R>(rt: &R) -> Result<(Option<u8>, Option<u8>), AllocError>
/// where
///     R: Wait + RandomSource + AllocGlobal,
///     ensures { IfOk result (λ v. v ≡ (Some 7, None)) }
/// {
///     let mut seven = stream::once(7);
///     let first = future::wait_for(rt, &mut seven.next())?;
///     Ok((first, future::wait_for(rt, &mut seven.next())?))
/// }
///
/// assert_eq!(rt; only(&rt)?, (Some(7), None));
/// ```
pub fn once<T>(t: T) -> Once<T>
    ensures made { result ≡ record { value = Some t } }
    ensures lists { ListsAs ⟦<Once<T> as Stream>⟧.run result (t ∷ []) }
    ensures at_once { AtOnce ⟦<Once<T> as Stream>⟧.run result (Some t) }
    ensures fronts { Fronts ⟦<Once<T> as Stream>⟧.run result (t ∷ []) }
{
    lite_source::make::once(t)
}

/// Returns a stream that yields the value of `future`, and then ends forever.
///
/// Each poll polls `future` until that is ready, and then drops it. So `future` has to be `Drop`. The caller
/// guarantees that it may be polled. Size hint: `(0, None)`.
///
/// # Examples
///
/// ```
/// use futures_lite::{StreamExt, future, stream};
///
/// fn value<R>(rt: &R) -> Result<Vec<u8>, AllocError>
/// where
///     R: Wait + RandomSource + AllocGlobal,
///     ensures { IfOk result (λ v. v.items ≡ 7 ∷ []) }
/// {
///     let seven = stream::once_future(future::ready(7));
///     future::block_on(rt, seven.collect::<Vec<u8>>(rt.alloc()))?.map_err(|_| AllocError)
/// }
///
/// assert_eq!(rt; value(&rt)?.as_slice(), [7].as_slice());
/// ```
pub fn once_future<F: Future>(future: F) -> OnceFuture<F>
    ensures made { result ≡ record { future = Some future } }
    ensures lists { (v : F.Output) → HasValue F.run future v → ListsAs (GivesFuture F.run) result (v ∷ []) }
{
    lite_source::make::once_future(future)
}

/// Returns a stream that yields clones of `item` forever, one a poll.
///
/// Unlike futures-lite, a clone may be refused for want of memory, so each item is a `Result`. `Ok` is a
/// clone. `Err(AllocError)` means that the clone was refused; the next poll tries again. Size hint:
/// `(usize::MAX, None)`.
///
/// # Examples
///
/// ```
/// use futures_lite::{StreamExt, future, stream};
///
/// fn repeated<R>(rt: &R, item: u8, n: usize) -> Result<Vec<Result<u8, AllocError>>, AllocError>
/// where
///     R: Wait + RandomSource + AllocGlobal,
///     ensures { IfOk result (λ v. v.items ≡ replicate n (Ok item)) }
/// {
///     let items = stream::repeat(item).take(n);
///     future::block_on(rt, items.collect::<Vec<_>>(rt.alloc()))?.map_err(|_| AllocError)
/// }
///
/// assert_eq!(rt; repeated(&rt, 7, 2)?.as_slice(), [Ok(7), Ok(7)].as_slice());
/// ```
#[tactic(auto, using(lite_views::proofs::Views::seen, lite_views::proofs::Repeat::repeated_on))]
pub fn repeat<T: Clone>(item: T) -> Repeat<T>
    ensures made { result ≡ record { item = item } }
    ensures on { T.is_infallible item → ((y : T) → T.is_clone item y → y ≡ item)
        → Seen {Y = Result T AllocError} result (Ok item) × GoesOn ⟦<Repeat<T> as Stream>⟧.run result (Ok item) }
{
    lite_source::make::repeat(item)
}

/// Returns a stream that yields what `repeater` returns, one call a poll, forever.
///
/// Size hint: `(usize::MAX, None)`. The caller guarantees that `repeater` may always be called.
///
/// # Examples
///
/// ```
/// use futures_lite::{StreamExt, future, stream};
///
/// fn sevens<R>(rt: &R, n: usize) -> Result<Vec<u8>, AllocError>
/// where
///     R: Wait + RandomSource + AllocGlobal,
///     ensures { IfOk result (λ v. v.items ≡ replicate n 7) }
/// {
///     let sevens = stream::repeat_with(|| 7u8).take(n);
///     future::block_on(rt, sevens.collect::<Vec<u8>>(rt.alloc()))?.map_err(|_| AllocError)
/// }
///
/// assert_eq!(rt; sevens(&rt, 2)?.as_slice(), [7, 7].as_slice());
///
/// let mut next = 0u8;
/// let numbers = stream::repeat_with(|| {
///     next += 1;
///     next
/// });
/// let numbers = future::block_on(&rt, numbers.take(3).collect::<Vec<u8>>(rt.alloc()))??;
/// assert_eq!(rt; numbers.as_slice(), [1, 2, 3].as_slice());
/// ```
pub fn repeat_with<T, F>(repeater: F) -> RepeatWith<F>
where
    F: FnMut() -> T,
    ensures made { result ≡ record { f = repeater } }
    ensures on { (x : T) → ((v : T) (g : F) → Called F.FnMut repeater tt v g → (g ≡ repeater) × (v ≡ x))
        → Seen result x × GoesOn ⟦<RepeatWith<F> as Stream>⟧.run result x }
{
    lite_source::make::repeat_with(repeater)
}

/// Returns a stream that is pending forever. A poll wakes nothing. Size hint: `(0, Some(0))`.
///
/// # Examples
///
/// ```
/// use futures_lite::{StreamExt, future, stream};
///
/// fn at_first<R>(rt: &R) -> Result<Option<Option<u8>>, AllocError>
/// where
///     R: Wait + RandomSource + AllocGlobal,
///     ensures { IfOk result (λ v. v ≡ None) }
/// {
///     let mut never = stream::pending::<u8>();
///     future::block_on(rt, future::poll_once(never.next()))
/// }
///
/// assert_eq!(rt; at_first(&rt)?, None);
///
/// // Its clause says that it does not return `Ok`. A call waits forever.
/// fn waits<R>(rt: &R) -> Result<Option<u8>, AllocError>
/// where
///     R: Wait + RandomSource + AllocGlobal,
///     ensures { IfOk result (λ _. ⊥) }
/// {
///     let mut never = stream::pending::<u8>();
///     future::block_on(rt, never.next())
/// }
/// ```
#[tactic(auto, using(lite_views::proofs::Pending::pending_never))]
pub fn pending<T>() -> Pending<T>
    ensures made { result ≡ record { item = record {} } }
    ensures never { NeverReady {A = Option T} ⟦<Pending<T> as Stream>⟧.run result }
{
    lite_source::make::pending()
}

/// Returns a stream that calls `f` at each poll, also after an end, and returns the result.
///
/// The caller guarantees that `f` may be called with any context, and keeps what the context holds. Size
/// hint: `(0, None)`.
///
/// # Examples
///
/// ```
/// use futures_lite::{Context, Poll, stream};
///
/// let mut left = 2u8;
/// let mut numbers = stream::block_on(rt, stream::poll_fn(move |_cx: &mut Context<'_>| {
///     if left == 0 {
///         return Poll::Ready(None);
///     }
///     left -= 1;
///     Poll::Ready(Some(left))
/// }));
/// assert_eq!(rt; numbers.next()?, Some(1));
/// assert_eq!(rt; numbers.next()?, Some(0));
/// assert_eq!(rt; numbers.next()?, None);
/// ```
pub fn poll_fn<T, F>(f: F) -> PollFn<F>
where
    F: FnMut(&mut Context<'_>) -> Poll<Option<T>>,
    ensures made { result ≡ record { f = f } }
    ensures on { (x : T) → ((cx left : MutBor Context) (a : Poll (Option T)) (g : F) → Called F.FnMut f (cx, tt) (a, (left, tt)) g
        → (g ≡ f) × (a ≡ Ready (Some x)))
        → Seen result x × GoesOn ⟦<PollFn<F> as Stream>⟧.run result x }
{
    lite_source::make::poll_fn(f)
}

/// Returns a stream that returns these poll results in order, one a poll, and then ends forever.
///
/// A `Pending` in the list does not wake the task, so a `block_on` over it waits forever. For `Pending`s that
/// wake the task use [`with_budget`](StreamExt::with_budget). A poll allocates nothing. Size hint: `(0, None)`.
///
/// # Examples
///
/// ```
/// use futures_lite::{Poll, StreamExt, future, stream};
///
/// let results = vec![in rt.alloc(); Poll::Pending, Poll::Ready(Some(7u8))]?;
/// let mut scripted = stream::script(results);
/// assert_eq!(rt; future::block_on(&rt, future::poll_once(scripted.next()))?, None);
/// assert_eq!(rt; future::block_on(&rt, future::poll_once(scripted.next()))?, Some(Some(7)));
/// assert_eq!(rt; future::block_on(&rt, future::poll_once(scripted.next()))?, Some(None));
/// ```
#[tactic(auto, using(lite_views::proofs::Script::script_lists, lite_views::proofs::Script::script_fronts))]
pub fn script<T>(answers: Vec<Poll<Option<T>>>) -> Script<T>
    ensures made { result ≡ answers.items }
    ensures lists { ListsAs ⟦<Script<T> as Stream>⟧.run result (items_in (until_end answers.items)) }
    ensures fronts { Fronts ⟦<Script<T> as Stream>⟧.run result (items_in answers.items) }
{
    lite_source::make::script(answers)
}

/// Returns a stream of the items that futures make.
///
/// `f` makes the first future of `seed`, and each later one of the seed that the future before it returned. A
/// future that returns `Some((item, seed))` yields `item`. `None` ends the stream forever.
///
/// A poll may call `f` once, and polls the future in the same poll. Size hint: `(0, None)`. The caller
/// guarantees that `f` may always be called, and makes futures that may be polled. The seeds and the futures
/// have to be `Drop`. The stream may be polled after its end; that of futures-lite panics then.
///
/// # Examples
///
/// ```
/// use futures_lite::{StreamExt, future, stream};
///
/// let below_two = stream::unfold(0u32, |n: u32| {
///     future::ready(if n < 2 { Some((n, n + 1)) } else { None })
/// });
/// let numbers = future::block_on(&rt, below_two.take(3).collect::<Vec<u32>>(rt.alloc()))??;
/// assert_eq!(rt; numbers.as_slice(), [0, 1].as_slice());
/// ```
pub fn unfold<T, F, Fut, Item>(seed: T, f: F) -> Unfold<T, F, Fut>
where
    F: FnMut(T) -> Fut,
    Fut: Future<Output = Option<(Item, T)>>,
    ensures made { result ≡ record { f = f; state = Holding.Seed seed } }
    ensures lists { ListsIf (UnfoldsBy F.FnMut Fut.run) result (UnfoldsInto F.FnMut Fut.run seed_of item_of f seed) }
{
    lite_source::make::unfold(seed, f)
}

/// Returns a stream of the items that futures make, up to the first error.
///
/// `f` makes the first future of `init`, and each later one of the state that the future before it returned.
/// A future that returns `Ok(Some((item, state)))` yields `Ok(item)`. `Ok(None)` ends the stream.
/// `Err(error)` is yielded as the last item. After either the stream ends forever.
///
/// A poll may call `f` once, and polls the future in the same poll. Size hint: `(0, None)`. The caller
/// guarantees that `f` may always be called, and makes futures that may be polled. The states and the futures
/// have to be `Drop`.
///
/// # Examples
///
/// ```
/// use futures_lite::{future, stream};
///
/// let below_two = stream::try_unfold(0u8, |n: u8| {
///     future::ready(if n < 2 { Ok(Some((n, n + 1))) } else { Err("too large") })
/// });
/// let mut numbers = stream::block_on(rt, below_two);
/// assert_eq!(rt; numbers.next()?, Some(Ok(0)));
/// assert_eq!(rt; numbers.next()?, Some(Ok(1)));
/// assert_eq!(rt; numbers.next()?, Some(Err("too large")));
/// assert_eq!(rt; numbers.next()?, None);
/// ```
pub fn try_unfold<T, E, F, Fut, Item>(init: T, f: F) -> TryUnfold<T, F, Fut>
where
    F: FnMut(T) -> Fut,
    Fut: Future<Output = Result<Option<(Item, T)>, E>>,
    ensures made { result ≡ record { f = f; state = Holding.Seed init } }
    ensures lists { ListsIf (TryUnfoldsBy F.FnMut Fut.run) result (UnfoldsInto F.FnMut Fut.run try_seed_of try_item_of f init) }
{
    lite_source::make::try_unfold(init, f)
}

/// Returns a stream that yields the items of both streams as they come, with `stream1` first.
///
/// Each poll polls `stream1`, unless it has ended. If `stream1` gives no item or has ended, the poll polls
/// `stream2`, unless that has ended. So a `stream1` that always has an item keeps `stream2` from being
/// polled. Once both streams have ended, the result ends forever; until then a poll without an item returns
/// `Pending`. Unlike futures-lite, it does not end before both have ended. No item is lost or repeated, and
/// the items of each stream keep their order. The result is `Counted` if both streams are. Size hint: `(0,
/// None)`.
///
/// # Examples
///
/// ```
/// use futures_lite::{StreamExt, future, stream};
///
/// fn first<R>(rt: &R) -> Result<Option<u8>, AllocError>
/// where
///     R: Wait + RandomSource + AllocGlobal,
///     ensures { IfOk result (λ v. v ≡ Some 1) }
/// {
///     let mut merged = stream::or(stream::once(1u8), stream::pending());
///     future::block_on(rt, merged.next())
/// }
///
/// fn second<R>(rt: &R) -> Result<Option<u8>, AllocError>
/// where
///     R: Wait + RandomSource + AllocGlobal,
///     ensures { IfOk result (λ v. v ≡ Some 2) }
/// {
///     let mut merged = stream::or(stream::pending(), stream::once(2u8));
///     future::block_on(rt, merged.next())
/// }
///
/// fn preferred<R>(rt: &R) -> Result<Option<u8>, AllocError>
/// where
///     R: Wait + RandomSource + AllocGlobal,
///     ensures { IfOk result (λ v. v ≡ Some 1) }
/// {
///     let mut merged = stream::or(stream::once(1u8), stream::once(2));
///     future::block_on(rt, merged.next())
/// }
///
/// assert_eq!(rt; first(&rt)?, Some(1));
/// assert_eq!(rt; second(&rt)?, Some(2));
/// assert_eq!(rt; preferred(&rt)?, Some(1));
/// let both = stream::or(stream::once(1u8), stream::once(2)).collect::<Vec<_>>(rt.alloc());
/// assert_eq!(rt; future::block_on(&rt, both)??.as_slice(), [1, 2].as_slice());
/// ```
#[tactic(auto, using(lite_views::proofs::Merge::or_rules))]
pub fn or<T, S1, S2>(stream1: S1, stream2: S2) -> Or<S1, S2>
where
    S1: Stream<Item = T>,
    S2: Stream<Item = T>,
    ensures parts { result ≡ record {
      stream1 = record { stream = stream1; done = false };
      stream2 = record { stream = stream2; done = false };
    } }
    ensures first_never { (ys : List T) → NeverReady S1.run stream1 → Lists S2.run stream2 ys → ListsAs (Ors S1.run S2.run) result ys }
    ensures second_never { (xs : List T) → NeverReady S2.run stream2 → Lists S1.run stream1 xs → ListsAs (Ors S1.run S2.run) result xs }
    ensures at_once { (x : T) → AtOnce S1.run stream1 (Some x) → Seen result x × AtOnce (Ors S1.run S2.run) result (Some x) }
{
    lite_merge::make::or(stream1, stream2)
}

/// Returns a stream that yields the items of both streams as they come, with neither preferred.
///
/// Each poll takes a word from `rng`. If its lowest bit is 1, it polls `stream1` first, otherwise `stream2`.
/// If that gives no item or has ended, the poll polls the other stream. A stream that has ended is not
/// polled. Once both streams have ended, the result ends forever; until then a poll without an item returns
/// `Pending`. No item is lost or repeated, and the items of each stream keep their order.
///
/// That bit alone decides; nothing more is promised of fairness. The result is `Counted` if both streams are;
/// its `ranks.counts` then requires `ranks.firm` of both. Unlike futures-lite, the generator is an argument.
/// Size hint: `(0, None)`.
///
/// # Examples
///
/// ```
/// use futures_lite::{StreamExt, future, stream};
/// use rand_core::SeedableRng;
/// use rand_pcg::Pcg32;
/// use std::collections::BTreeSet;
///
/// fn first<R>(rt: &R) -> Result<Option<u8>, AllocError>
/// where
///     R: Wait + RandomSource + AllocGlobal,
///     ensures { IfOk result (λ v. v ≡ Some 1) }
/// {
///     let mut merged = stream::race(stream::once(1u8), stream::pending(), Pcg32::seed_from_u64(1));
///     future::block_on(rt, merged.next())
/// }
///
/// fn second<R>(rt: &R) -> Result<Option<u8>, AllocError>
/// where
///     R: Wait + RandomSource + AllocGlobal,
///     ensures { IfOk result (λ v. v ≡ Some 2) }
/// {
///     let mut merged = stream::race(stream::pending(), stream::once(2u8), Pcg32::seed_from_u64(1));
///     future::block_on(rt, merged.next())
/// }
///
/// assert_eq!(rt; first(&rt)?, Some(1));
/// assert_eq!(rt; second(&rt)?, Some(2));
/// let rng = Pcg32::seed_from_u64(1);
/// let merged = stream::race(stream::iter(0u8..3), stream::iter(7u8..9), rng);
/// let got = future::block_on(&rt, merged.collect::<BTreeSet<_>>(rt.alloc()))??;
/// assert!(rt; got.iter().copied().eq([0, 1, 2, 7, 8].into_iter()));
/// ```
#[tactic(auto, using(lite_views::proofs::Merge::race_rules))]
pub fn race<T, S1, S2, R>(stream1: S1, stream2: S2, rng: R) -> Race<S1, S2, R>
where
    S1: Stream<Item = T>,
    S2: Stream<Item = T>,
    R: Rng,
    ensures parts { result ≡ record {
      stream1 = record { stream = stream1; done = false };
      stream2 = record { stream = stream2; done = false };
      rng = rng;
    } }
    ensures first_never { (ys : List T) → NeverReady S1.run stream1 → Lists S2.run stream2 ys → ListsAs (RacesOn S1.run S2.run R.stream) result ys }
    ensures second_never { (xs : List T) → NeverReady S2.run stream2 → Lists S1.run stream1 xs → ListsAs (RacesOn S1.run S2.run R.stream) result xs }
{
    lite_merge::make::race(stream1, stream2, rng)
}

/// Returns the stream that [`race`] returns, with a generator that is made from `seed`.
///
/// The generator is a `Pcg32`, so one seed always gives the same order.
///
/// # Examples
///
/// ```
/// use futures_lite::{StreamExt, future, stream};
///
/// fn first<R>(rt: &R) -> Result<Option<u8>, AllocError>
/// where
///     R: Wait + RandomSource + AllocGlobal,
///     ensures { IfOk result (λ v. v ≡ Some 1) }
/// {
///     let mut merged = stream::race_with_seed(stream::once(1u8), stream::pending(), 123);
///     future::block_on(rt, merged.next())
/// }
///
/// fn second<R>(rt: &R) -> Result<Option<u8>, AllocError>
/// where
///     R: Wait + RandomSource + AllocGlobal,
///     ensures { IfOk result (λ v. v ≡ Some 2) }
/// {
///     let mut merged = stream::race_with_seed(stream::pending(), stream::once(2u8), 123);
///     future::block_on(rt, merged.next())
/// }
///
/// assert_eq!(rt; first(&rt)?, Some(1));
/// assert_eq!(rt; second(&rt)?, Some(2));
/// let mut orders = Vec::new(rt.alloc());
/// for _ in 0..2 {
///     let merged = stream::race_with_seed(stream::iter(0u8..9), stream::iter(10u8..19), 7);
///     orders.push(future::block_on(&rt, merged.collect::<Vec<_>>(rt.alloc()))??)?;
/// }
/// assert_eq!(rt; orders[0].len(), 18);
/// assert_eq!(rt; orders[0].as_slice(), orders[1].as_slice());
/// ```
#[tactic(auto, using(lite_views::proofs::Merge::race_rules))]
pub fn race_with_seed<T, S1, S2>(stream1: S1, stream2: S2, seed: u64) -> Race<S1, S2, Pcg32>
where
    S1: Stream<Item = T>,
    S2: Stream<Item = T>,
    ensures parts { result ≡ record {
      stream1 = record { stream = stream1; done = false };
      stream2 = record { stream = stream2; done = false };
      rng = ⟦<Pcg32 as SeedableRng>⟧.of_seed (⟦<Pcg32 as SeedableRng>⟧.seed_of_u64 seed);
    } }
    ensures first_never { (ys : List T) → NeverReady S1.run stream1 → Lists S2.run stream2 ys → ListsAs (RacesOn S1.run S2.run ⟦<Pcg32 as Rng>⟧.stream) result ys }
    ensures second_never { (xs : List T) → NeverReady S2.run stream2 → Lists S1.run stream1 xs → ListsAs (RacesOn S1.run S2.run ⟦<Pcg32 as Rng>⟧.stream) result xs }
{
    lite_merge::make::race_with_seed(stream1, stream2, seed)
}

/// The methods that every stream has: adapters, and futures that consume a stream.
///
/// A closure is called only with items of the stream, once for each item and in order. A poll of an adapter
/// after an end polls the stream again, unless the adapter's entry says that it ends forever, or says what
/// else it does.
///
/// The future of a consuming method polls the stream until an item decides its value, the stream returns
/// `Pending`, or it ends. One poll may consume many items, so the stream must be `Counted`, unless the method
/// says that it accepts any stream. A poll of the future then requires that `ranks.counts` holds for the
/// stream. The future keeps what it has consumed across `Pending`. Methods taking `&mut self` leave the
/// stream after the last item they polled.
///
/// # Examples
///
/// ```
/// use futures_lite::{StreamExt, future, stream};
///
/// let squares = stream::iter(1u32..=6).filter(|n: &u32| *n % 2 == 0).map(|n: u32| n * n);
/// let sum = squares.fold(0, |sum: u32, n: u32| sum + n);
/// assert_eq!(rt; future::block_on(&rt, sum)?, 56);
/// ```
pub trait StreamExt: Stream {
    /// Returns a stream that yields `f(item)` for each item.
    ///
    /// `f` is called once for each item, in order. `Pending` and the end of this stream pass through. Size
    /// hint: that of this stream.
    ///
    /// # Examples
    ///
    /// ```
    /// use futures_lite::{StreamExt, future, stream};
    ///
    /// fn doubled<R>(rt: &R, numbers: Vec<u32>) -> Result<Vec<u64>, AllocError>
    /// where
    ///     R: Wait + RandomSource + AllocGlobal,
    ///     ensures { IfOk result (λ v. v.items ≡ map (λ x. x * 2) numbers.items) }
    /// {
    ///     let doubled = stream::iter_vec(numbers).map(|x: u32| x as u64 * 2);
    ///     future::block_on(rt, doubled.collect::<Vec<u64>>(rt.alloc()))?.map_err(|_| AllocError)
    /// }
    ///
    /// assert_eq!(rt; doubled(&rt, vec![in rt.alloc(); 1, 2, 3]?)?.as_slice(), [2, 4, 6].as_slice());
    /// ```
    final fn map<U, F>(self, f: F) -> Map<Self, F>
    where
        Self: Sized,
        F: FnMut(Self::Item) -> U,
        ensures parts { result ≡ record { stream = self; f = f } }
        ensures may { (xs : List Self.Item) → Fronts Self.run self xs → AllByRecursion (λ x. F.FnMut.pre f (x, tt)) xs
            → CallKeepsClosure F.FnMut f
            → Seen self xs × MayCallEach Self.run F.FnMut result.stream result.f }
        ensures lists { (h : Self.Item → U) (xs : List Self.Item) → Lists Self.run self xs → ActsAs F.FnMut f h
            → ListsAs ⟦<Map<Self, F> as Stream>⟧.run result (map h xs) }
    {
        make::map(self, f)
    }

    /// Returns a stream that yields the items for which `predicate` returns true.
    ///
    /// `predicate` is called once for each item, in order. `Pending` and ends pass through. One poll may skip
    /// many items, so this stream must be `Counted`. Skipped items are dropped, so the items must be `Drop`.
    /// Size hint: `(0, upper)`, with the upper bound of this stream.
    ///
    /// # Examples
    ///
    /// ```
    /// use futures_lite::{StreamExt, future, stream};
    ///
    /// fn evens<R>(rt: &R, numbers: Vec<u32>) -> Result<Vec<u32>, AllocError>
    /// where
    ///     R: Wait + RandomSource + AllocGlobal,
    ///     ensures { IfOk result (λ v. v.items ≡ filter (λ x. x % 2 == 0) numbers.items) }
    /// {
    ///     let evens = stream::iter_vec(numbers).filter(|x: &u32| *x % 2 == 0);
    ///     future::block_on(rt, evens.collect::<Vec<u32>>(rt.alloc()))?.map_err(|_| AllocError)
    /// }
    ///
    /// assert_eq!(rt; evens(&rt, vec![in rt.alloc(); 1, 2, 3, 4]?)?.as_slice(), [2, 4].as_slice());
    /// ```
    final fn filter<P>(self, predicate: P) -> Filter<Self, P>
    where
        Self: Counted + Sized,
        P: FnMut(&Self::Item) -> bool,
        ensures parts { result ≡ record { stream = self; predicate = predicate } }
        ensures lists { (test : Self.Item → Bool) (xs : _) → Lists Self.run self xs → ActsAsAt P.FnMut predicate test
            → ListsAs (Filters Self.run (CalledAt P.FnMut)) result (filter test xs)
            × (length (filter test xs) ≤ length xs) }
    {
        lite_reshape::make::filter(self, predicate)
    }

    /// Returns a stream that calls `f` with each item, and yields the items of the streams that `f` returns,
    /// one stream after the other.
    ///
    /// While there is an inner stream, this stream is not polled. When an inner stream ends it is dropped, so
    /// it must be `Drop`. This stream is then polled for the next one in the same call. One poll may go
    /// through many inner streams, so this stream must be `Counted`. The result is `Counted` if the inner
    /// streams are. Size hint: `(0, None)`.
    ///
    /// # Examples
    ///
    /// ```
    /// use futures_lite::{StreamExt, future, stream};
    ///
    /// fn twice<R>(rt: &R, numbers: Vec<u32>) -> Result<Vec<u32>, AllocError>
    /// where
    ///     R: Wait + RandomSource + AllocGlobal,
    ///     ensures { IfOk result (λ v. v.items ≡ flat_map (λ x. x ∷ x ∷ []) numbers.items) }
    /// {
    ///     let twice = stream::iter_vec(numbers).flat_map(|x: u32| stream::iter_array([x, x]));
    ///     future::block_on(rt, twice.collect::<Vec<u32>>(rt.alloc()))?.map_err(|_| AllocError)
    /// }
    ///
    /// assert_eq!(rt; twice(&rt, vec![in rt.alloc(); 1, 2]?)?.as_slice(), [1, 1, 2, 2].as_slice());
    /// ```
    #[tactic(auto, using(lite_views::proofs::Views::seen, lite_views::proofs::Holding::flat_mapped_lists))]
    final fn flat_map<U, F>(self, f: F) -> FlatMap<Self, U, F>
    where
        Self: Counted + Sized,
        U: Stream,
        F: FnMut(Self::Item) -> U,
        ensures parts { result ≡ record { stream = record { stream = self; f = f }; inner_stream = None } }
        ensures lists { (h : Self.Item → List U.Item) (xs : List Self.Item) → Lists Self.run self xs
            → ((x : Self.Item) (inner : U) (g : F) → Called F.FnMut f (x, tt) inner g → (g ≡ f)
            × Lists U.run inner (h x))
            → ListsAs (FlatMaps Self.run F.FnMut U.run) result (flat_map h xs) }
    {
        lite_reshape::make::flat_map(self, f)
    }

    /// Returns a stream that yields the items of the streams that this stream yields, one stream after the
    /// other.
    ///
    /// While there is an inner stream, this stream is not polled. When an inner stream ends it is dropped, so
    /// it must be `Drop`. This stream is then polled for the next one in the same call. One poll may go
    /// through many inner streams, so this stream must be `Counted`. The result is `Counted` if the inner
    /// streams are. Size hint: `(0, None)`.
    ///
    /// # Examples
    ///
    /// ```
    /// use futures_lite::{StreamExt, future, stream};
    ///
    /// let parts = stream::iter_array([stream::iter(1u8..3), stream::iter(5u8..7)]);
    /// let got = future::block_on(&rt, parts.flatten().collect::<Vec<_>>(rt.alloc()))??;
    /// assert_eq!(rt; got.as_slice(), [1, 2, 5, 6].as_slice());
    /// ```
    #[tactic(auto, using(lite_views::proofs::Views::seen, lite_views::proofs::Holding::flattened_lists))]
    final fn flatten(self) -> Flatten<Self>
    where
        Self: Counted + Sized,
        Self::Item: Stream,
        ensures parts { result ≡ record { stream = self; inner_stream = None } }
        ensures lists { (h : Self.Item → List Self.Item.Item) (xs : List Self.Item) → Lists Self.run self xs
            → ((inner : Self.Item) → Lists Self.Item.run inner (h inner))
            → ListsAs (Flattens Self.Item.run Self.run) result (flat_map h xs) }
    {
        lite_reshape::make::flatten(self)
    }

    /// Returns a stream that calls `f` with each item, and yields the values of the futures that `f` returns.
    ///
    /// A future is polled in the call that made it. While it is pending it is kept, and this stream is not
    /// polled. A future is dropped in the poll that yields its value, so it must be `Drop`. Ends of this
    /// stream pass through. Size hint: that of this stream, plus one while a future is in flight. The lower
    /// bound saturates at `usize::MAX`; an upper bound that would exceed it becomes `None`.
    ///
    /// # Examples
    ///
    /// ```
    /// use futures_lite::{StreamExt, future, stream};
    ///
    /// fn doubled<R>(rt: &R, numbers: Vec<u32>) -> Result<Vec<u64>, AllocError>
    /// where
    ///     R: Wait + RandomSource + AllocGlobal,
    ///     ensures { IfOk result (λ v. v.items ≡ map (λ x. x * 2) numbers.items) }
    /// {
    ///     let doubled = stream::iter_vec(numbers).then(|x: u32| future::ready(x as u64 * 2));
    ///     future::block_on(rt, doubled.collect::<Vec<u64>>(rt.alloc()))?.map_err(|_| AllocError)
    /// }
    ///
    /// assert_eq!(rt; doubled(&rt, vec![in rt.alloc(); 1, 2, 3]?)?.as_slice(), [2, 4, 6].as_slice());
    /// ```
    #[tactic(auto, using(lite_views::proofs::Views::seen, lite_views::proofs::Holding::awaited_lists))]
    final fn then<F, Fut>(self, f: F) -> Then<Self, F, Fut>
    where
        Self: Sized,
        F: FnMut(Self::Item) -> Fut,
        Fut: Future,
        ensures parts { result ≡ record { stream = self; future = None; f = f } }
        ensures lists { (h : Self.Item → Fut.Output) (xs : List Self.Item) → Lists Self.run self xs
            → ((x : Self.Item) (future : Fut) (g : F) → Called F.FnMut f (x, tt) future g → (g ≡ f)
            × HasValue Fut.run future (h x))
            → ListsAs (Thens Self.run (Calls F.FnMut) Fut.run) result (map h xs) }
    {
        lite_reshape::make::then(self, f)
    }

    /// Returns a stream that calls `f` with each item, and yields what is in each `Some` that `f` returns.
    ///
    /// `f` is called once for each item, in order. `Pending` and ends pass through. One poll may skip many
    /// items, so this stream must be `Counted`. Size hint: `(0, None)`.
    ///
    /// # Examples
    ///
    /// ```
    /// use futures_lite::{StreamExt, future, stream};
    ///
    /// fn halves<R>(rt: &R, numbers: Vec<u32>) -> Result<Vec<u32>, AllocError>
    /// where
    ///     R: Wait + RandomSource + AllocGlobal,
    ///     ensures { IfOk result (λ v. v.items ≡ filter_map (λ x. if x % 2 == 0 then Some (x / 2) else None) numbers.items) }
    /// {
    ///     let halves = stream::iter_vec(numbers).filter_map(|x: u32| if x % 2 == 0 { Some(x / 2) } else { None });
    ///     future::block_on(rt, halves.collect::<Vec<u32>>(rt.alloc()))?.map_err(|_| AllocError)
    /// }
    ///
    /// assert_eq!(rt; halves(&rt, vec![in rt.alloc(); 1, 2, 4]?)?.as_slice(), [1, 2].as_slice());
    /// ```
    #[tactic(auto, using(lite_views::proofs::Views::seen, lite_views::proofs::FilterMap::filter_mapped_lists, lite_views::proofs::FilterMap::filter_map_fewer))]
    final fn filter_map<T, F>(self, f: F) -> FilterMap<Self, F>
    where
        Self: Counted + Sized,
        F: FnMut(Self::Item) -> Option<T>,
        ensures parts { result ≡ record { stream = self; f = f } }
        ensures lists { (h : Self.Item → Option T) (xs : List Self.Item) → Lists Self.run self xs → ActsAs F.FnMut f h
            → ListsAs ⟦<FilterMap<Self, F> as Stream>⟧.run result (filter_map h xs)
            × (length (filter_map h xs) ≤ length xs) }
    {
        lite_reshape::make::filter_map(self, f)
    }

    /// Returns a stream that yields the first `n` items, and then ends forever.
    ///
    /// `Pending` is passed on. If this stream ends sooner, the result ends forever too. Once the result has
    /// ended, it does not poll this stream. If `n` is 0, it never polls this stream. This stream is dropped with
    /// the result, and not before. Size hint: `(0, None)`.
    ///
    /// # Examples
    ///
    /// ```
    /// use futures_lite::{StreamExt, future, stream};
    ///
    /// fn firsts<R>(rt: &R) -> Result<Vec<u8>, AllocError>
    /// where
    ///     R: Wait + RandomSource + AllocGlobal,
    ///     ensures { IfOk result (λ v. v.items ≡ 1 ∷ 2 ∷ []) }
    /// {
    ///     let firsts = stream::iter_array([1, 2, 3, 4]).take(2);
    ///     future::block_on(rt, firsts.collect::<Vec<u8>>(rt.alloc()))?.map_err(|_| AllocError)
    /// }
    ///
    /// assert_eq!(rt; firsts(&rt)?.as_slice(), [1, 2].as_slice());
    /// ```
    #[tactic(auto, using(lite_views::proofs::Views::seen, lite_views::proofs::Take::taken_lists, lite_views::proofs::Take::repeated_lists))]
    final fn take(self, n: usize) -> Take<Self>
    where
        Self: Sized,
        ensures parts { result ≡ record { stream = self; n = n } }
        ensures lists { OfItems Self.run self (λ xs. ListsAs (Takes Self.run) result (take n xs)) }
        ensures repeats { (x : Self.Item) → FoundBy (replicate n x) self x
            (GoesOn Self.run self x → ListsAs (Takes Self.run) result (replicate n x)) }
    {
        make::take(self, n)
    }

    /// Returns a stream that yields the items while `predicate` returns true, and ends at the first item for
    /// which it returns false.
    ///
    /// That item is dropped, so the items must be `Drop`. The end is not forever: the next poll polls this
    /// stream again. Size hint: `(0, None)`.
    ///
    /// # Examples
    ///
    /// ```
    /// use futures_lite::{StreamExt, future, stream};
    ///
    /// fn small<R>(rt: &R, numbers: Vec<u32>) -> Result<Vec<u32>, AllocError>
    /// where
    ///     R: Wait + RandomSource + AllocGlobal,
    ///     ensures { IfOk result (λ v. v.items ≡ take (prefix_len (λ x. nat_lt x 5) numbers.items) numbers.items) }
    /// {
    ///     let small = stream::iter_vec(numbers).take_while(|x: &u32| *x < 5);
    ///     future::block_on(rt, small.collect::<Vec<u32>>(rt.alloc()))?.map_err(|_| AllocError)
    /// }
    ///
    /// assert_eq!(rt; small(&rt, vec![in rt.alloc(); 1, 7, 2]?)?.as_slice(), [1].as_slice());
    ///
    /// let mut small = stream::iter_array([1u8, 7, 2]).take_while(|x: &u8| *x < 5);
    /// assert_eq!(rt; future::block_on(&rt, small.next())?, Some(1));
    /// assert_eq!(rt; future::block_on(&rt, small.next())?, None);
    /// // The 7 is dropped; a poll after the end continues with the 2.
    /// assert_eq!(rt; future::block_on(&rt, small.next())?, Some(2));
    /// ```
    final fn take_while<P>(self, predicate: P) -> TakeWhile<Self, P>
    where
        Self: Sized,
        P: FnMut(&Self::Item) -> bool,
        ensures parts { result ≡ record { stream = self; predicate = predicate } }
        ensures lists { (test : Self.Item → Bool) (xs : _) → Lists Self.run self xs → ActsAsAt P.FnMut predicate test
            → ListsAs (TakesWhile Self.run (CalledAt P.FnMut)) result (take (prefix_len test xs) xs) }
    {
        make::take_while(self, predicate)
    }

    /// Returns a stream that calls `f` with each item and yields what is in `Some`, and ends when `f` returns
    /// `None`.
    ///
    /// The end is not forever: the next poll polls this stream again. Size hint: `(0, None)`.
    ///
    /// # Examples
    ///
    /// ```
    /// use futures_lite::{StreamExt, future, stream};
    ///
    /// fn halves<R>(rt: &R, numbers: Vec<u32>) -> Result<Vec<u32>, AllocError>
    /// where
    ///     R: Wait + RandomSource + AllocGlobal,
    ///     ensures { IfOk result (λ v. v.items ≡ map_while (λ x. if x % 2 == 0 then Some (x / 2) else None) numbers.items) }
    /// {
    ///     let halves = stream::iter_vec(numbers).map_while(|x: u32| if x % 2 == 0 { Some(x / 2) } else { None });
    ///     future::block_on(rt, halves.collect::<Vec<u32>>(rt.alloc()))?.map_err(|_| AllocError)
    /// }
    ///
    /// assert_eq!(rt; halves(&rt, vec![in rt.alloc(); 2, 1, 4]?)?.as_slice(), [1].as_slice());
    ///
    /// let mut below = stream::iter_array([1u8, 0, 5]).map_while(|x: u8| x.checked_sub(1));
    /// assert_eq!(rt; future::block_on(&rt, below.next())?, Some(0));
    /// assert_eq!(rt; future::block_on(&rt, below.next())?, None);
    /// assert_eq!(rt; future::block_on(&rt, below.next())?, Some(4));
    /// ```
    #[tactic(auto, using(lite_views::proofs::Views::seen, lite_views::proofs::MapWhile::mapped_while_lists, lite_views::proofs::MapWhile::map_while_fewer))]
    final fn map_while<B, F>(self, f: F) -> MapWhile<Self, F>
    where
        Self: Sized,
        F: FnMut(Self::Item) -> Option<B>,
        ensures parts { result ≡ record { stream = self; f = f } }
        ensures lists { (h : Self.Item → Option B) (xs : List Self.Item) → Lists Self.run self xs → ActsAs F.FnMut f h
            → ListsAs ⟦<MapWhile<Self, F> as Stream>⟧.run result (map_while h xs)
            × (length (map_while h xs) ≤ length xs) }
    {
        make::map_while(self, f)
    }

    /// Returns a stream that skips the first `n` items, and yields the others.
    ///
    /// One poll may skip up to `n` items. `Pending` and ends pass through. Skipped items are dropped, so the
    /// items must be `Drop`. Size hint: `(0, None)`.
    ///
    /// # Examples
    ///
    /// ```
    /// use futures_lite::{StreamExt, future, stream};
    ///
    /// fn rest<R>(rt: &R) -> Result<Vec<u8>, AllocError>
    /// where
    ///     R: Wait + RandomSource + AllocGlobal,
    ///     ensures { IfOk result (λ v. v.items ≡ 2 ∷ 3 ∷ []) }
    /// {
    ///     let rest = stream::iter_array([1, 2, 3]).skip(1);
    ///     future::block_on(rt, rest.collect::<Vec<u8>>(rt.alloc()))?.map_err(|_| AllocError)
    /// }
    ///
    /// assert_eq!(rt; rest(&rt)?.as_slice(), [2, 3].as_slice());
    /// ```
    #[tactic(auto, using(lite_views::proofs::Views::seen, lite_views::proofs::Skip::skipped_lists))]
    final fn skip(self, n: usize) -> Skip<Self>
    where
        Self: Sized,
        ensures parts { result ≡ record { stream = self; n = n } }
        ensures lists { OfItems Self.run self (λ xs. ListsAs (SkipsFirst Self.run) result (drop n xs)) }
    {
        lite_reshape::make::skip(self, n)
    }

    /// Returns a stream that skips items while `predicate` returns true, and yields the first other item and
    /// all after it.
    ///
    /// At the first item that it yields, `predicate` is dropped and no longer called. One poll may skip many
    /// items, so this stream must be `Counted`. Skipped items are dropped, so the items and `predicate` must
    /// be `Drop`. Size hint: `(0, None)`.
    ///
    /// # Examples
    ///
    /// ```
    /// use futures_lite::{StreamExt, future, stream};
    ///
    /// fn rest<R>(rt: &R, numbers: Vec<u32>) -> Result<Vec<u32>, AllocError>
    /// where
    ///     R: Wait + RandomSource + AllocGlobal,
    ///     ensures { IfOk result (λ v. v.items ≡ drop (prefix_len (λ x. nat_lt x 3) numbers.items) numbers.items) }
    /// {
    ///     let rest = stream::iter_vec(numbers).skip_while(|x: &u32| *x < 3);
    ///     future::block_on(rt, rest.collect::<Vec<u32>>(rt.alloc()))?.map_err(|_| AllocError)
    /// }
    ///
    /// assert_eq!(rt; rest(&rt, vec![in rt.alloc(); 1, 2, 3, 1]?)?.as_slice(), [3, 1].as_slice());
    /// ```
    final fn skip_while<P>(self, predicate: P) -> SkipWhile<Self, P>
    where
        Self: Counted + Sized,
        P: FnMut(&Self::Item) -> bool,
        ensures parts { result ≡ record { stream = self; predicate = Some predicate } }
        ensures lists { (test : Self.Item → Bool) (xs : _) → Lists Self.run self xs → ActsAsAt P.FnMut predicate test
            → ListsAs (SkipsWhile Self.run (CalledAt P.FnMut)) result (drop (prefix_len test xs) xs) }
    {
        lite_reshape::make::skip_while(self, predicate)
    }

    /// Returns a stream that yields the first item, and then each `step`-th item after it.
    ///
    /// Items are numbered from 0; the multiples of `step` are yielded. `step` must be greater than 0.
    /// `Pending` and ends pass through, and the numbers continue after them. One poll may skip up to `step -
    /// 1` items. Skipped items are dropped, so the items must be `Drop`. Size hint: `(0, None)`.
    ///
    /// # Examples
    ///
    /// ```
    /// use futures_lite::{StreamExt, future, stream};
    ///
    /// fn seconds<R>(rt: &R) -> Result<Vec<u8>, AllocError>
    /// where
    ///     R: Wait + RandomSource + AllocGlobal,
    ///     ensures { IfOk result (λ v. v.items ≡ 0 ∷ 2 ∷ 4 ∷ []) }
    /// {
    ///     let seconds = stream::iter_array([0, 1, 2, 3, 4]).step_by(2);
    ///     future::block_on(rt, seconds.collect::<Vec<u8>>(rt.alloc()))?.map_err(|_| AllocError)
    /// }
    ///
    /// assert_eq!(rt; seconds(&rt)?.as_slice(), [0, 2, 4].as_slice());
    /// ```
    #[tactic(auto, using(lite_views::proofs::Views::seen, lite_views::proofs::StepBy::stepped_lists, lite_views::proofs::StepBy::step_fewer))]
    final fn step_by(self, step: usize) -> StepBy<Self>
    where
        Self: Sized,
        requires { 0 < step }
        ensures parts { result ≡ record { stream = self; step = step; i = 0 } }
        ensures lists { OfItems Self.run self (λ xs. ListsAs (StepsBy Self.run) result (step_from step 0 xs) × (length (step_from step 0 xs) ≤ length xs)) }
    {
        lite_reshape::make::step_by(self, step)
    }

    /// Returns a stream that yields the items of this stream, and after its end those of `other`.
    ///
    /// Polls `other` in the same call in which this stream ends. Neither is polled after its end, and the
    /// result ends forever. Size hint: `(0, None)`.
    ///
    /// # Examples
    ///
    /// ```
    /// use futures_lite::{StreamExt, future, stream};
    ///
    /// fn joined<R>(rt: &R, first: Vec<u8>, second: Vec<u8>) -> Result<Vec<u8>, AllocError>
    /// where
    ///     R: Wait + RandomSource + AllocGlobal,
    ///     ensures { IfOk result (λ v. v.items ≡ first.items ++ second.items) }
    /// {
    ///     let both = stream::iter_vec(first).chain(stream::iter_vec(second));
    ///     future::block_on(rt, both.collect::<Vec<u8>>(rt.alloc()))?.map_err(|_| AllocError)
    /// }
    ///
    /// let joined = joined(&rt, vec![in rt.alloc(); 1, 2]?, vec![in rt.alloc(); 7, 8]?)?;
    /// assert_eq!(rt; joined.as_slice(), [1, 2, 7, 8].as_slice());
    /// ```
    #[tactic(auto, using(lite_views::proofs::Chain::joined_lists))]
    final fn chain<U>(self, other: U) -> Chain<Self, U>
    where
        Self: Sized,
        U: Stream<Item = Self::Item>,
        ensures parts { result ≡ record { first = self; second = other; part = First } }
        ensures lists { (xs ys : List Self.Item) → Lists Self.run self xs → Lists U.run other ys
            → ListsAs ⟦<Chain<Self, U> as Stream>⟧.run result (xs ++ ys) }
    {
        lite_reshape::make::chain(self, other)
    }

    /// Returns a stream that yields pairs: an item of this stream, and an item of `other`.
    ///
    /// An item is kept while `other` is pending; until then this stream is not polled. If `other` ends, the
    /// kept item is dropped and the result ends, so this stream's items must be `Drop`. `Pending` and the end
    /// of this stream pass through. The result is not fused: a poll after an end polls the streams again.
    /// Size hint: `(0, None)`.
    ///
    /// # Examples
    ///
    /// ```
    /// use futures_lite::{StreamExt, future, stream};
    ///
    /// fn pairs<R>(rt: &R, first: Vec<u32>, second: Vec<u8>) -> Result<Vec<(u32, u8)>, AllocError>
    /// where
    ///     R: Wait + RandomSource + AllocGlobal,
    ///     ensures { IfOk result (λ v. v.items ≡ zip first.items second.items) }
    /// {
    ///     let pairs = stream::iter_vec(first).zip(stream::iter_vec(second));
    ///     future::block_on(rt, pairs.collect::<Vec<(u32, u8)>>(rt.alloc()))?.map_err(|_| AllocError)
    /// }
    ///
    /// let pairs = pairs(&rt, vec![in rt.alloc(); 1, 2, 3]?, vec![in rt.alloc(); 4, 5]?)?;
    /// assert_eq!(rt; pairs.as_slice(), [(1, 4), (2, 5)].as_slice());
    /// ```
    #[tactic(auto, using(lite_views::proofs::Zip::paired_lists))]
    final fn zip<U>(self, other: U) -> Zip<Self, U>
    where
        Self: Sized,
        U: Stream,
        ensures parts { result ≡ record { item_slot = None; first = self; second = other } }
        ensures lists { (xs : List Self.Item) (ys : List U.Item) → Lists Self.run self xs → Lists U.run other ys
            → ListsAs (Zips Self.run U.run) result (zip xs ys) }
    {
        lite_merge::make::zip(self, other)
    }

    /// Returns a stream that yields the items of both streams as they come, with this stream first.
    ///
    /// Each poll polls this stream, unless it has ended. If this stream gives no item or has ended, the poll
    /// polls `other`, unless that has ended. So a stream that always has an item keeps `other` from being
    /// polled. Once both streams have ended, the result ends forever; until then a poll without an item
    /// returns `Pending`. Unlike futures-lite, it does not end before both have ended. No item is lost or
    /// repeated, and the items of each stream keep their order. The result is `Counted` if both streams are.
    /// Size hint: `(0, None)`.
    ///
    /// # Examples
    ///
    /// ```
    /// use futures_lite::{StreamExt, future, stream};
    ///
    /// fn first<R>(rt: &R) -> Result<Option<u8>, AllocError>
    /// where
    ///     R: Wait + RandomSource + AllocGlobal,
    ///     ensures { IfOk result (λ v. v ≡ Some 1) }
    /// {
    ///     let mut merged = stream::once(1u8).or(stream::pending());
    ///     future::block_on(rt, merged.next())
    /// }
    ///
    /// fn second<R>(rt: &R) -> Result<Option<u8>, AllocError>
    /// where
    ///     R: Wait + RandomSource + AllocGlobal,
    ///     ensures { IfOk result (λ v. v ≡ Some 2) }
    /// {
    ///     let mut merged = stream::pending().or(stream::once(2u8));
    ///     future::block_on(rt, merged.next())
    /// }
    ///
    /// fn preferred<R>(rt: &R) -> Result<Option<u8>, AllocError>
    /// where
    ///     R: Wait + RandomSource + AllocGlobal,
    ///     ensures { IfOk result (λ v. v ≡ Some 1) }
    /// {
    ///     let mut merged = stream::once(1u8).or(stream::once(2));
    ///     future::block_on(rt, merged.next())
    /// }
    ///
    /// assert_eq!(rt; first(&rt)?, Some(1));
    /// assert_eq!(rt; second(&rt)?, Some(2));
    /// assert_eq!(rt; preferred(&rt)?, Some(1));
    /// let both = stream::once(1u8).or(stream::once(2)).collect::<Vec<_>>(rt.alloc());
    /// assert_eq!(rt; future::block_on(&rt, both)??.as_slice(), [1, 2].as_slice());
    /// ```
    #[tactic(auto, using(lite_views::proofs::Merge::or_rules))]
    final fn or<S>(self, other: S) -> Or<Self, S>
    where
        Self: Sized,
        S: Stream<Item = Self::Item>,
        ensures parts { result ≡ record {
          stream1 = record { stream = self; done = false };
          stream2 = record { stream = other; done = false };
        } }
        ensures first_never { (ys : List Self.Item) → NeverReady Self.run self → Lists S.run other ys → ListsAs (Ors Self.run S.run) result ys }
        ensures second_never { (xs : List Self.Item) → NeverReady S.run other → Lists Self.run self xs → ListsAs (Ors Self.run S.run) result xs }
        ensures at_once { (x : Self.Item) → AtOnce Self.run self (Some x) → Seen result x × AtOnce (Ors Self.run S.run) result (Some x) }
    {
        lite_merge::make::or(self, other)
    }

    /// Returns a stream that yields the items of both streams as they come, with neither preferred.
    ///
    /// Each poll takes a word from `rng`. If its lowest bit is 1, it polls this stream first, otherwise
    /// `other`. If that gives no item or has ended, the poll polls the other stream. A stream that has ended
    /// is not polled. Once both streams have ended, the result ends forever; until then a poll without an
    /// item returns `Pending`. No item is lost or repeated, and the items of each stream keep their order.
    ///
    /// That bit alone decides; nothing more is promised of fairness. The result is `Counted` if both streams
    /// are; its `ranks.counts` then requires `ranks.firm` of both. Unlike futures-lite, the generator is an
    /// argument. Size hint: `(0, None)`.
    ///
    /// # Examples
    ///
    /// ```
    /// use futures_lite::{StreamExt, future, stream};
    /// use rand_core::SeedableRng;
    /// use rand_pcg::Pcg32;
    /// use std::collections::BTreeSet;
    ///
    /// fn first<R>(rt: &R) -> Result<Option<u8>, AllocError>
    /// where
    ///     R: Wait + RandomSource + AllocGlobal,
    ///     ensures { IfOk result (λ v. v ≡ Some 1) }
    /// {
    ///     let mut merged = stream::once(1u8).race(stream::pending(), Pcg32::seed_from_u64(1));
    ///     future::block_on(rt, merged.next())
    /// }
    ///
    /// fn second<R>(rt: &R) -> Result<Option<u8>, AllocError>
    /// where
    ///     R: Wait + RandomSource + AllocGlobal,
    ///     ensures { IfOk result (λ v. v ≡ Some 2) }
    /// {
    ///     let mut merged = stream::pending().race(stream::once(2u8), Pcg32::seed_from_u64(1));
    ///     future::block_on(rt, merged.next())
    /// }
    ///
    /// assert_eq!(rt; first(&rt)?, Some(1));
    /// assert_eq!(rt; second(&rt)?, Some(2));
    /// let merged = stream::iter(0u8..3).race(stream::iter(7u8..9), Pcg32::seed_from_u64(1));
    /// let got = future::block_on(&rt, merged.collect::<BTreeSet<_>>(rt.alloc()))??;
    /// assert!(rt; got.iter().copied().eq([0, 1, 2, 7, 8].into_iter()));
    /// ```
    #[tactic(auto, using(lite_views::proofs::Merge::race_rules))]
    final fn race<S, R>(self, other: S, rng: R) -> Race<Self, S, R>
    where
        Self: Sized,
        S: Stream<Item = Self::Item>,
        R: Rng,
        ensures parts { result ≡ record {
          stream1 = record { stream = self; done = false };
          stream2 = record { stream = other; done = false };
          rng = rng;
        } }
        ensures first_never { (ys : List Self.Item) → NeverReady Self.run self → Lists S.run other ys → ListsAs (RacesOn Self.run S.run R.stream) result ys }
        ensures second_never { (xs : List Self.Item) → NeverReady S.run other → Lists Self.run self xs → ListsAs (RacesOn Self.run S.run R.stream) result xs }
    {
        lite_merge::make::race(self, other, rng)
    }

    /// Returns a stream that yields the items of this stream over and over.
    ///
    /// It keeps a clone of this stream as it is now. When the stream ends, it clones that one and returns the
    /// clone's first result in the same poll, even if that is an end. So the cycle of an empty stream returns
    /// `Ready(None)` at each poll. Unlike futures-lite, an item is a `Result`, because a clone may be
    /// refused. Size hint: `(0, None)`.
    ///
    /// # Errors
    ///
    /// `Err` returns this stream, not polled: the memory for the first clone was refused. The item
    /// `Err(AllocError)` means that a later clone was refused. The next poll tries again, without polling the
    /// stream that has ended.
    ///
    /// # Examples
    ///
    /// ```
    /// use futures_lite::{StreamExt, future, stream};
    /// use std::alloc::AllocError;
    ///
    /// let Ok(round) = stream::iter(1u8..3).cycle() else {
    ///     return Err(AllocError.into());
    /// };
    /// let got = future::block_on(&rt, round.take(3).collect::<Vec<_>>(rt.alloc()))??;
    /// assert_eq!(rt; got.as_slice(), [Ok(1), Ok(2), Ok(1)].as_slice());
    /// ```
    final fn cycle(self) -> Result<Cycle<Self>, Self>
    where
        Self: Clone + Sized,
        ensures { MatchResult result (CycleOf Self.is_clone self)
            (λ back. (back ≡ self) × ¬ (Self.is_infallible self)) }
    {
        lite_merge::make::cycle(self)
    }

    /// Returns a stream that yields the items of this stream that are ready, and ends whenever this stream is
    /// pending.
    ///
    /// The end is not forever: the next poll polls this stream again. Size hint: `(0, upper)`, with the
    /// upper bound of this stream.
    ///
    /// # Examples
    ///
    /// ```
    /// use futures_lite::{Poll, StreamExt, future, stream};
    ///
    /// let results = vec![in rt.alloc(); Poll::Ready(Some(1u8)), Poll::Pending, Poll::Ready(Some(2))]?;
    /// let mut source = stream::script(results);
    /// let mut ready = source.drain();
    /// assert_eq!(rt; future::block_on(&rt, ready.next())?, Some(1));
    /// assert_eq!(rt; future::block_on(&rt, ready.next())?, None);
    /// assert_eq!(rt; future::block_on(&rt, ready.next())?, Some(2));
    /// ```
    final fn drain(&mut self) -> Drain<'_, Self>
    where
        Self: Sized,
        ensures { result ≡ record { stream = self.entry } }
    {
        lite_merge::make::drain(self)
    }

    /// Returns a stream of the same items. After `items` of them in a row it returns `Pending` once, and
    /// wakes the task.
    ///
    /// So another task can run in between. The next poll continues with this stream. `items` must be greater
    /// than 0. A `Pending` of this stream starts the count again; an end passes through and does not. The
    /// result is `Counted`, whatever this stream is. Size hint: that of this stream.
    ///
    /// # Examples
    ///
    /// ```
    /// use futures_lite::{StreamExt, future, stream};
    ///
    /// fn unchanged<R>(rt: &R) -> Result<Vec<u8>, AllocError>
    /// where
    ///     R: Wait + RandomSource + AllocGlobal,
    ///     ensures { IfOk result (λ v. v.items ≡ 1 ∷ 2 ∷ 3 ∷ []) }
    /// {
    ///     let paced = stream::iter_array([1, 2, 3]).with_budget(2);
    ///     future::block_on(rt, paced.collect::<Vec<u8>>(rt.alloc()))?.map_err(|_| AllocError)
    /// }
    ///
    /// assert_eq!(rt; unchanged(&rt)?.as_slice(), [1, 2, 3].as_slice());
    /// ```
    ///
    /// ```
    /// use futures_lite::{StreamExt, future, stream};
    ///
    /// let mut paced = stream::iter(1u8..=3).with_budget(2);
    /// for expected in [Some(Some(1)), Some(Some(2)), None, Some(Some(3))] {
    ///     assert_eq!(rt; future::block_on(&rt, future::poll_once(paced.next()))?, expected);
    /// }
    /// ```
    #[tactic(auto, using(lite_views::proofs::Views::seen, lite_views::proofs::Budgeted::paced_lists))]
    final fn with_budget(self, items: usize) -> Budgeted<Self>
    where
        Self: Sized,
        requires { 0 < items }
        ensures parts { result ≡ record { stream = self; budget = items; left = items; paused = false } }
        ensures lists { OfItems Self.run self (λ xs. ListsAs (Budgets Self.run) result xs) }
    {
        lite_merge::make::with_budget(self, items)
    }

    /// Returns a stream that yields a clone of the value behind each item, as a `Result`.
    ///
    /// Unlike futures-lite, a clone may be refused for want of memory, so each item is a `Result`. `Ok` is a
    /// clone. `Err(AllocError)` means that the clone was refused. The next poll tries it again, without
    /// polling this stream. The result is `OkCounted` if this stream is `Counted`. Size hint: `(0, None)`.
    ///
    /// # Examples
    ///
    /// ```
    /// use futures_lite::{StreamExt, future, stream};
    ///
    /// fn copy_of<R>(rt: &R, number: &u32) -> Result<Option<Result<u32, AllocError>>, AllocError>
    /// where
    ///     R: Wait + RandomSource + AllocGlobal,
    ///     ensures { IfOk result (λ v. v ≡ slice_get (map (λ x. Ok x.now) (number.entry ∷ [])) 0) }
    /// {
    ///     let mut clones = stream::once(number).cloned();
    ///     future::block_on(rt, clones.next())
    /// }
    ///
    /// assert_eq!(rt; copy_of(&rt, &7)?, Some(Ok(7)));
    /// ```
    ///
    /// ```
    /// use futures_lite::{StreamExt, future, stream};
    ///
    /// let numbers = [1u8, 2];
    /// let mut clones = stream::iter(numbers.iter()).cloned();
    /// assert_eq!(rt; future::block_on(&rt, clones.next())?, Some(Ok(1)));
    /// assert_eq!(rt; future::block_on(&rt, clones.next())?, Some(Ok(2)));
    /// assert_eq!(rt; future::block_on(&rt, clones.next())?, None);
    /// ```
    #[tactic(auto, using(lite_views::proofs::Views::seen, lite_views::proofs::Holding::cloned_lists))]
    final fn cloned<'a, T: 'a>(self) -> Cloned<Self>
    where
        Self: Stream<Item = &'a T> + Sized,
        T: Clone,
        ensures parts { result ≡ record { stream = self; held = None } }
        ensures lists { (xs : List (Bor T)) → Lists Self.run self xs → ((x : T) → T.is_infallible x)
            → ((x y : T) → T.is_clone x y → y ≡ x)
            → ListsAs ⟦<Cloned<Self> as Stream>⟧.run result (map (λ x. Ok x.now) xs) }
    {
        lite_reshape::make::cloned(self)
    }

    /// Returns a stream that yields a copy of the value behind each item, which is a reference.
    ///
    /// Size hint: `(0, None)`.
    ///
    /// # Examples
    ///
    /// ```
    /// use futures_lite::{StreamExt, future, stream};
    ///
    /// fn copies<R>(rt: &R) -> Result<Vec<u8>, AllocError>
    /// where
    ///     R: Wait + RandomSource + AllocGlobal,
    ///     ensures { IfOk result (λ v. v.items ≡ 1 ∷ 2 ∷ []) }
    /// {
    ///     let numbers = [1u8, 2];
    ///     let copies = stream::iter_array([&numbers[0], &numbers[1]]).copied();
    ///     future::block_on(rt, copies.collect::<Vec<u8>>(rt.alloc()))?.map_err(|_| AllocError)
    /// }
    ///
    /// assert_eq!(rt; copies(&rt)?.as_slice(), [1, 2].as_slice());
    /// ```
    #[tactic(auto, using(lite_views::proofs::Views::seen, lite_views::proofs::Copied::copied_lists))]
    final fn copied<'a, T: 'a>(self) -> Copied<Self>
    where
        Self: Stream<Item = &'a T> + Sized,
        T: Copy,
        ensures parts { result ≡ record { stream = self } }
        ensures lists { OfItems Self.run self (λ xs. ListsAs ⟦<Copied<Self> as Stream>⟧.run result (map (λ x. x.now) xs)) }
    {
        make::copied(self)
    }

    /// Returns a stream that calls `f` with a state and each item and yields what is in `Some`, and ends when
    /// `f` returns `None`.
    ///
    /// The state starts as `initial_state`; each call gets it as the call before left it. The end is not for
    /// ever: the next poll polls this stream again. Size hint: `(0, None)`.
    ///
    /// # Examples
    ///
    /// ```
    /// use futures_lite::{StreamExt, future, stream};
    ///
    /// fn sums<R>(rt: &R, numbers: Vec<u32>) -> Result<Vec<u32>, AllocError>
    /// where
    ///     R: Wait + RandomSource + AllocGlobal,
    ///     ensures { IfOk result (λ v. v.items ≡ scan (λ s x. ((s + x) % 2 ^ 32, Some ((s + x) % 2 ^ 32))) 0 numbers.items) }
    /// {
    ///     let sums = stream::iter_vec(numbers).scan(0u32, |sum: &mut u32, x: u32| {
    ///         *sum = sum.wrapping_add(x);
    ///         Some(*sum)
    ///     });
    ///     future::block_on(rt, sums.collect::<Vec<u32>>(rt.alloc()))?.map_err(|_| AllocError)
    /// }
    ///
    /// assert_eq!(rt; sums(&rt, vec![in rt.alloc(); 1, 2, 3]?)?.as_slice(), [1, 3, 6].as_slice());
    /// ```
    final fn scan<St, B, F>(self, initial_state: St, f: F) -> Scan<Self, St, F>
    where
        Self: Sized,
        F: FnMut(&mut St, Self::Item) -> Option<B>,
        ensures parts { result ≡ record { stream = self; state = initial_state; f = f } }
        ensures lists { (h : St → Self.Item → St × Option B) (xs : List Self.Item) → Lists Self.run self xs
            → ActsAsOnState F.FnMut f h
            → ListsAs ⟦<Scan<Self, St, F> as Stream>⟧.run result (scan h initial_state xs)
            × (length (scan h initial_state xs) ≤ length xs) }
    {
        make::scan(self, initial_state, f)
    }

    /// Returns a stream that yields the items up to the first end, and then ends forever.
    ///
    /// After that end this stream is not polled. Size hint: `(0, None)`.
    ///
    /// # Examples
    ///
    /// ```
    /// use futures_lite::{StreamExt, future, stream};
    ///
    /// fn first<R>(rt: &R) -> Result<Option<u8>, AllocError>
    /// where
    ///     R: Wait + RandomSource + AllocGlobal,
    ///     ensures { IfOk result (λ v. v ≡ Some 1) }
    /// {
    ///     let mut fused = stream::once(1u8).fuse();
    ///     future::block_on(rt, fused.next())
    /// }
    ///
    /// assert_eq!(rt; first(&rt)?, Some(1));
    /// ```
    ///
    /// ```
    /// use futures_lite::{Poll, StreamExt, future, stream};
    ///
    /// let results = vec![in rt.alloc(); Poll::Ready(Some(1u8)), Poll::Ready(None), Poll::Ready(Some(2))]?;
    /// let mut fused = stream::script(results).fuse();
    /// assert_eq!(rt; future::block_on(&rt, fused.next())?, Some(1));
    /// assert_eq!(rt; future::block_on(&rt, fused.next())?, None);
    /// assert_eq!(rt; future::block_on(&rt, fused.next())?, None);
    /// ```
    #[tactic(auto, using(lite_views::proofs::Views::seen, lite_views::proofs::Fuse::fused_lists))]
    final fn fuse(self) -> Fuse<Self>
    where
        Self: Sized,
        ensures parts { result ≡ record { stream = self; done = false } }
        ensures lists { OfItems Self.run self (λ xs. ListsAs (Fuses Self.run) result xs) }
    {
        make::fuse(self)
    }

    /// Returns a stream that yields pairs of a number and an item; the numbers count from 0.
    ///
    /// `Pending` and ends pass through, and the numbers continue after them. After `usize::MAX` comes 0;
    /// unlike in futures-lite, nothing panics. Size hint: `(0, None)`.
    ///
    /// # Examples
    ///
    /// ```
    /// use futures_lite::{StreamExt, future, stream};
    ///
    /// fn numbered<R>(rt: &R, first: char, second: char) -> Result<Vec<(usize, char)>, AllocError>
    /// where
    ///     R: Wait + RandomSource + AllocGlobal,
    ///     ensures { IfOk result (λ v. v.items ≡ (0, first) ∷ (1, second) ∷ []) }
    /// {
    ///     let numbered = stream::iter_array([first, second]).enumerate();
    ///     future::block_on(rt, numbered.collect::<Vec<(usize, char)>>(rt.alloc()))?.map_err(|_| AllocError)
    /// }
    ///
    /// let numbered = numbered(&rt, 'a', 'b')?;
    /// assert_eq!(rt; numbered.as_slice(), [(0, 'a'), (1, 'b')].as_slice());
    /// ```
    #[tactic(auto, using(lite_views::proofs::Views::seen, lite_views::proofs::Enumerate::enumerated_lists))]
    final fn enumerate(self) -> Enumerate<Self>
    where
        Self: Sized,
        ensures parts { result ≡ record { stream = self; i = 0 } }
        ensures lists { OfItems Self.run self (λ xs. length xs < 2 ^ 64 → ListsAs ⟦<Enumerate<Self> as Stream>⟧.run result (enumerate_from 0 xs)) }
    {
        make::enumerate(self)
    }

    /// Returns a stream that calls `f` with a reference to each item, and then yields the item.
    ///
    /// Size hint: `(0, None)`.
    ///
    /// # Examples
    ///
    /// ```
    /// use futures_lite::{StreamExt, future, stream};
    ///
    /// fn unchanged<R>(rt: &R) -> Result<Vec<u8>, AllocError>
    /// where
    ///     R: Wait + RandomSource + AllocGlobal,
    ///     ensures { IfOk result (λ v. v.items ≡ 5 ∷ 6 ∷ []) }
    /// {
    ///     let shown = stream::iter_array([5, 6]).inspect(|_x: &u8| ());
    ///     future::block_on(rt, shown.collect::<Vec<u8>>(rt.alloc()))?.map_err(|_| AllocError)
    /// }
    ///
    /// assert_eq!(rt; unchanged(&rt)?.as_slice(), [5, 6].as_slice());
    /// ```
    ///
    /// ```
    /// use futures_lite::{StreamExt, future, stream};
    /// use std::cell::Cell;
    ///
    /// let seen = Cell::new(0u8);
    /// let mut items = stream::iter(5u8..8).inspect(|x: &u8| seen.set(*x));
    /// assert_eq!(rt; future::block_on(&rt, items.next())?, Some(5));
    /// assert_eq!(rt; seen.get(), 5);
    /// ```
    #[tactic(auto, using(lite_views::proofs::Views::seen, lite_views::proofs::Inspect::shown_lists))]
    final fn inspect<F>(self, f: F) -> Inspect<Self, F>
    where
        Self: Sized,
        F: FnMut(&Self::Item),
        ensures parts { result ≡ record { stream = self; f = f } }
        ensures lists { OfItems Self.run self (λ xs. ListsAs (Inspects Self.run (CalledAt F.FnMut)) result xs) }
    {
        make::inspect(self, f)
    }

    /// Returns a future of the next item, or of `None` if the stream ends.
    ///
    /// It accepts any stream, and polls it once in each poll. It is `Pending` if the stream is; no item is
    /// lost if the future is dropped then. It borrows the stream, which can be polled further afterwards. A
    /// poll of the future after its value polls the stream again.
    ///
    /// The contract also says which items a wait leaves, if [`wait_for`](crate::future::wait_for) waits for the
    /// future. So a proof can follow the stream over several calls.
    ///
    /// # Examples
    ///
    /// ```
    /// use futures_lite::{StreamExt, future, stream};
    ///
    /// fn first_two<R>(rt: &R) -> Result<(Option<u8>, Option<u8>), AllocError>
    /// where
    ///     R: Wait + RandomSource + AllocGlobal,
    ///     ensures { IfOk result (λ v. v ≡ (Some 7, Some 8)) }
    /// {
    ///     let mut numbers = stream::iter_array([7, 8]);
    ///     let first = future::wait_for(rt, &mut numbers.next())?;
    ///     Ok((first, future::wait_for(rt, &mut numbers.next())?))
    /// }
    ///
    /// fn third<R>(rt: &R) -> Result<Option<u8>, AllocError>
    /// where
    ///     R: Wait + RandomSource + AllocGlobal,
    ///     ensures { IfOk result (λ v. v ≡ None) }
    /// {
    ///     let mut numbers = stream::iter_array([7, 8]);
    ///     future::wait_for(rt, &mut numbers.next())?;
    ///     future::wait_for(rt, &mut numbers.next())?;
    ///     future::wait_for(rt, &mut numbers.next())
    /// }
    ///
    /// assert_eq!(rt; first_two(&rt)?, (Some(7), Some(8)));
    /// assert_eq!(rt; third(&rt)?, None);
    /// ```
    #[tactic(auto, using(lite_views::proofs::Views::seen, lite_views::proofs::Next::next_value, lite_views::proofs::Next::next_on, lite_views::proofs::Next::next_at_once, lite_views::proofs::Next::next_never))]
    final fn next<'a>(&'a mut self) -> NextFuture<'a, Self>
    where
        Self: Sized,
        ensures parts { result ≡ record { stream = self.entry; folder = record {} } }
        ensures value { OfItems Self.run self.old (λ xs. ValueIs ⟦<NextFuture<'a, Self> as Future>⟧.run result (slice_get xs 0)) }
        ensures at_once { (x : Self.Item) → FoundBy (Some x) self.old x
            (AtOnce Self.run self.old (Some x) → ValueIs ⟦<NextFuture<'a, Self> as Future>⟧.run result (Some x)) }
        ensures left { OfItems Self.run self.old (λ xs. WhenLeft AllocError ⟦<NextFuture<'a, Self> as Future>⟧.run result
            (λ f. f.stream.ghost_name ≡ self.entry.ghost_name)
            (λ f v. (v ≡ slice_get xs 0) × RestIs Self.run f.stream.now xs)) }
        ensures on { (x : Self.Item) → FoundBy (Some x) self.old x
            (GoesOn Self.run self.old x → ValueIs ⟦<NextFuture<'a, Self> as Future>⟧.run result (Some x)) }
        ensures never { NeverReady Self.run self.old → ValueHolds AllocError ⟦<NextFuture<'a, Self> as Future>⟧.run result (λ v. ⊥) }
    {
        lite_consume::make::next(self)
    }

    /// Returns a future of the value of the next item, for a stream of `Result`s.
    ///
    /// The future resolves to `Ok(Some(value))` for an item `Ok(value)`, to `Err(e)` for an item `Err(e)`,
    /// and to `Ok(None)` if the stream ends. It accepts any stream of `Result`s, and polls it once in each
    /// poll. No item is lost if the future is dropped while it is pending.
    ///
    /// # Examples
    ///
    /// ```
    /// use futures_lite::{StreamExt, future, stream};
    ///
    /// fn first<R>(rt: &R) -> Result<Result<Option<u8>, u8>, AllocError>
    /// where
    ///     R: Wait + RandomSource + AllocGlobal,
    ///     ensures { IfOk result (λ v. v ≡ Ok (Some 1)) }
    /// {
    ///     let mut results = stream::iter_array([Ok(1), Err(9)]);
    ///     future::block_on(rt, results.try_next())
    /// }
    ///
    /// assert_eq!(rt; first(&rt)?, Ok(Some(1)));
    /// let mut results = stream::iter_array([Ok(1), Err(9)]);
    /// assert_eq!(rt; future::block_on(&rt, results.try_next())?, Ok(Some(1)));
    /// assert_eq!(rt; future::block_on(&rt, results.try_next())?, Err(9));
    /// assert_eq!(rt; future::block_on(&rt, results.try_next())?, Ok(None));
    /// ```
    #[tactic(auto, using(lite_views::proofs::Views::seen, lite_views::proofs::TryNext::try_next_value))]
    final fn try_next<'a, T, E>(&'a mut self) -> TryNextFuture<'a, Self>
    where
        Self: Stream<Item = Result<T, E>> + Sized,
        ensures parts { result ≡ record { stream = self.entry; folder = record {} } }
        ensures value { OfItems Self.run self.old (λ xs. ValueIs ⟦<TryNextFuture<'a, Self> as Future>⟧.run result (option_transpose (slice_get xs 0))) }
        ensures left { OfItems Self.run self.old (λ xs. WhenLeft AllocError ⟦<TryNextFuture<'a, Self> as Future>⟧.run result
            (λ f. f.stream.ghost_name ≡ self.entry.ghost_name)
            (λ f v. (v ≡ option_transpose (slice_get xs 0))
            × RestIs Self.run f.stream.now xs)) }
    {
        lite_consume::make::try_next(self)
    }

    /// Returns a future of the number of items before the end.
    ///
    /// After `usize::MAX` it continues at 0. The items are dropped, so they must be `Drop`. A poll requires
    /// that `ranks.counts` holds for the stream.
    ///
    /// # Examples
    ///
    /// ```
    /// use futures_lite::{StreamExt, future, stream};
    ///
    /// fn evens<R>(rt: &R, numbers: Vec<u32>) -> Result<usize, AllocError>
    /// where
    ///     R: Wait + RandomSource + AllocGlobal,
    ///     ensures { IfOk result (λ v. v ≡ length (filter (λ x. x % 2 == 0) numbers.items)) }
    /// {
    ///     let evens = stream::iter_vec(numbers).filter(|x: &u32| *x % 2 == 0);
    ///     future::block_on(rt, evens.count())
    /// }
    ///
    /// assert_eq!(rt; evens(&rt, vec![in rt.alloc(); 1, 2, 3, 4]?)?, 2);
    /// ```
    #[tactic(auto, using(lite_views::proofs::Views::seen, lite_views::proofs::Count::counted_value))]
    final fn count(self) -> CountFuture<Self>
    where
        Self: Counted + Sized,
        ensures parts { result ≡ record { stream = self; folder = record { count = 0 } } }
        ensures value { OfItems Self.run self (λ xs. length xs < 2 ^ 64 → ValueIs (CountRuns Self.run) result (length xs)) }
    {
        lite_consume::make::count(self)
    }

    /// Returns a future that folds the items into one value: `f` gets the value so far, at first `init`, and
    /// each item, and returns the next value.
    ///
    /// The future's value is the one at the end of the stream. The value must be `Drop`. A poll requires that
    /// `ranks.counts` holds for the stream. Do not poll the future again after it has returned its value.
    ///
    /// # Examples
    ///
    /// ```
    /// use futures_lite::{StreamExt, future, stream};
    ///
    /// fn sum<R>(rt: &R, numbers: Vec<u32>) -> Result<u32, AllocError>
    /// where
    ///     R: Wait + RandomSource + AllocGlobal,
    ///     ensures { IfOk result (λ v. v ≡ fold (λ a x. (a + x) % 2 ^ 32) 0 numbers.items) }
    /// {
    ///     let sum = stream::iter_vec(numbers).fold(0u32, |a: u32, x: u32| a.wrapping_add(x));
    ///     future::block_on(rt, sum)
    /// }
    ///
    /// assert_eq!(rt; sum(&rt, vec![in rt.alloc(); 1, 2, 3]?)?, 6);
    /// ```
    final fn fold<T, F>(self, init: T, f: F) -> FoldFuture<Self, F, T>
    where
        Self: Counted + Sized,
        F: FnMut(T, Self::Item) -> T,
        ensures parts { result ≡ record { stream = self; folder = record { f = f; acc = Some init } } }
        ensures value { (h : T → Self.Item → T) (xs : List Self.Item) → Lists Self.run self xs → ActsAsOnTwo F.FnMut f h
            → ValueIs (FoldRuns Self.run F.FnMut) result (fold h init xs) }
    {
        lite_consume::make::fold(self, init, f)
    }

    /// Returns a future that folds the `Ok` values of the items into one value, up to the first error.
    ///
    /// `f` gets the value so far, at first `init`, and the value of each item. The future's value is the one
    /// at the end of the stream, or the first error, of an item or returned by `f`. One poll may consume many
    /// `Ok` items, so this stream must be `OkCounted`. A poll requires that `ok_ranks.counts` holds for the
    /// stream. The folded value must be `Drop`. Do not poll the future again after it has returned its value.
    ///
    /// # Examples
    ///
    /// ```
    /// use futures_lite::{StreamExt, future, stream};
    ///
    /// fn sum<R>(rt: &R, results: Vec<Result<u32, u32>>) -> Result<Result<u32, u32>, AllocError>
    /// where
    ///     R: Wait + RandomSource + AllocGlobal,
    ///     ensures { IfOk result (λ v. v ≡ try_fold (λ a x. Ok ((a + x) % 2 ^ 32)) 0 results.items) }
    /// {
    ///     let mut results = stream::iter_vec(results);
    ///     let sum = results.try_fold(0u32, |a: u32, x: u32| Ok(a.wrapping_add(x)));
    ///     future::block_on(rt, sum)
    /// }
    ///
    /// assert_eq!(rt; sum(&rt, vec![in rt.alloc(); Ok(1), Ok(2)]?)?, Ok(3));
    /// assert_eq!(rt; sum(&rt, vec![in rt.alloc(); Ok(1), Err(7), Ok(2)]?)?, Err(7));
    ///
    /// let mut results = stream::iter_array([Ok(1u32), Err("no number"), Ok(4)]);
    /// let sum = results.try_fold(0u32, |sum: u32, x: u32| Ok(sum + x));
    /// assert_eq!(rt; future::block_on(&rt, sum)?, Err("no number"));
    /// // The stream is left after the error.
    /// assert_eq!(rt; future::block_on(&rt, results.next())?, Some(Ok(4)));
    /// ```
    final fn try_fold<T, E, F, B>(&mut self, init: B, f: F) -> TryFoldFuture<'_, Self, F, B>
    where
        Self: OkCounted<Ok = T, Err = E> + Sized,
        F: FnMut(B, T) -> Result<B, E>,
        ensures parts { result ≡ record { stream = self.entry; folder = record { f = f; acc = Some init } } }
        ensures value { (h : B → T → Result B E) (xs : _) → Lists Self.run self.old xs → ActsAsOnTwo F.FnMut f h
            → ValueIs (TryFoldRuns Self.run F.FnMut) result (try_fold h init xs) }
    {
        lite_consume::make::try_fold(self, init, f)
    }

    /// Returns a future of the item number `n`, counted from 0, or of `None` if the stream ends before it.
    ///
    /// It accepts any stream. The items before that one are dropped, so the items must be `Drop`. If the
    /// stream ends first, all its items are dropped, and the value is `None`. A poll of the future after its
    /// value, and another call of `nth`, poll the stream again; over [`fuse`](StreamExt::fuse) the value is
    /// `None` again.
    ///
    /// # Examples
    ///
    /// ```
    /// use futures_lite::{StreamExt, future, stream};
    ///
    /// fn second<R>(rt: &R) -> Result<Option<u8>, AllocError>
    /// where
    ///     R: Wait + RandomSource + AllocGlobal,
    ///     ensures { IfOk result (λ v. v ≡ Some 5) }
    /// {
    ///     let mut numbers = stream::iter_array([0, 1, 2, 3, 4, 5, 6, 7]);
    ///     future::wait_for(rt, &mut numbers.nth(2))?;
    ///     future::wait_for(rt, &mut numbers.nth(2))
    /// }
    ///
    /// fn third<R>(rt: &R) -> Result<Option<u8>, AllocError>
    /// where
    ///     R: Wait + RandomSource + AllocGlobal,
    ///     ensures { IfOk result (λ v. v ≡ None) }
    /// {
    ///     let mut numbers = stream::iter_array([0, 1, 2, 3, 4, 5, 6, 7]);
    ///     future::wait_for(rt, &mut numbers.nth(2))?;
    ///     future::wait_for(rt, &mut numbers.nth(2))?;
    ///     future::wait_for(rt, &mut numbers.nth(2))
    /// }
    ///
    /// fn first<R>(rt: &R) -> Result<Option<u8>, AllocError>
    /// where
    ///     R: Wait + RandomSource + AllocGlobal,
    ///     ensures { IfOk result (λ v. v ≡ Some 2) }
    /// {
    ///     let mut numbers = stream::iter_array([0, 1, 2, 3, 4, 5, 6, 7]);
    ///     future::block_on(rt, numbers.nth(2))
    /// }
    ///
    /// assert_eq!(rt; first(&rt)?, Some(2));
    /// assert_eq!(rt; second(&rt)?, Some(5));
    /// assert_eq!(rt; third(&rt)?, None);
    /// ```
    #[tactic(auto, using(lite_views::proofs::Views::seen, lite_views::proofs::Nth::nth_value))]
    final fn nth(&mut self, n: usize) -> NthFuture<'_, Self>
    where
        Self: Sized,
        ensures parts { result ≡ record { stream = self.entry; folder = record { n = n } } }
        ensures value { OfItems Self.run self.old (λ xs. ValueIs (NthRuns Self.run) result (slice_get xs n)) }
        ensures left { OfItems Self.run self.old (λ xs. WhenLeft AllocError (NthRuns Self.run) result
            (λ f. f.stream.ghost_name ≡ self.entry.ghost_name)
            (λ f v. (v ≡ slice_get xs n) × RestIs Self.run f.stream.now (drop n xs))) }
    {
        lite_consume::make::nth(self, n)
    }

    /// Returns a future of the last item before the end, or of `None` if there is no item.
    ///
    /// The other items are dropped, so the items must be `Drop`. A poll requires that `ranks.counts` holds
    /// for the stream.
    ///
    /// # Examples
    ///
    /// ```
    /// use futures_lite::{StreamExt, future, stream};
    ///
    /// fn last<R>(rt: &R) -> Result<Option<u8>, AllocError>
    /// where
    ///     R: Wait + RandomSource + AllocGlobal,
    ///     ensures { IfOk result (λ v. v ≡ Some 4) }
    /// {
    ///     future::block_on(rt, stream::iter_array([1u8, 2, 3, 4]).last())
    /// }
    ///
    /// fn none<R>(rt: &R) -> Result<Option<u8>, AllocError>
    /// where
    ///     R: Wait + RandomSource + AllocGlobal,
    ///     ensures { IfOk result (λ v. v ≡ None) }
    /// {
    ///     future::block_on(rt, stream::empty::<u8>().last())
    /// }
    ///
    /// assert_eq!(rt; last(&rt)?, Some(4));
    /// assert_eq!(rt; none(&rt)?, None);
    /// ```
    #[tactic(auto, using(lite_views::proofs::Views::seen, lite_views::proofs::Last::last_value))]
    final fn last(self) -> LastFuture<Self>
    where
        Self: Counted + Sized,
        ensures parts { result ≡ record { stream = self; folder = record { last = None } } }
        ensures value { OfItems Self.run self (λ xs. ValueIs (LastRuns Self.run) result (last_or None xs)) }
    {
        lite_consume::make::last(self)
    }

    /// Returns a future of the first item for which `predicate` returns true, or of `None` if the stream ends
    /// before one.
    ///
    /// The items before it are dropped, so the items must be `Drop`. A poll requires that `ranks.counts`
    /// holds for the stream.
    ///
    /// # Examples
    ///
    /// ```
    /// use futures_lite::{StreamExt, future, stream};
    ///
    /// fn even<R>(rt: &R, numbers: Vec<u32>) -> Result<Option<u32>, AllocError>
    /// where
    ///     R: Wait + RandomSource + AllocGlobal,
    ///     ensures { IfOk result (λ v. v ≡ find (λ x. x % 2 == 0) numbers.items) }
    /// {
    ///     let mut numbers = stream::iter_vec(numbers);
    ///     future::block_on(rt, numbers.find(|x: &u32| *x % 2 == 0))
    /// }
    ///
    /// assert_eq!(rt; even(&rt, vec![in rt.alloc(); 3, 8, 5]?)?, Some(8));
    ///
    /// let mut numbers = stream::iter_array([3u8, 8, 5]);
    /// assert_eq!(rt; future::block_on(&rt, numbers.find(|x: &u8| *x % 2 == 0))?, Some(8));
    /// assert_eq!(rt; future::block_on(&rt, numbers.next())?, Some(5));
    /// ```
    final fn find<P>(&mut self, predicate: P) -> FindFuture<'_, Self, P>
    where
        Self: Counted + Sized,
        P: FnMut(&Self::Item) -> bool,
        ensures parts { result ≡ record { stream = self.entry; folder = record { predicate = predicate } } }
        ensures value { (test : Self.Item → Bool) (xs : List Self.Item) → Lists Self.run self.old xs
            → ActsAsAt P.FnMut predicate test
            → ValueIs (FindRuns Self.run (CalledAt P.FnMut)) result (find test xs) }
        ensures left { (test : Self.Item → Bool) (xs : List Self.Item) → FoundBy (behind_match test xs) self.old xs
            (Lists Self.run self.old xs → ActsAsAt P.FnMut predicate test
            → WhenLeft AllocError (FindRuns Self.run (CalledAt P.FnMut)) result
            (λ f. f.stream.ghost_name ≡ self.entry.ghost_name)
            (λ f v. (v ≡ find test xs) × RestIfFound Self.run f.stream.now v (behind_match test xs))) }
    {
        lite_consume::make::find(self, predicate)
    }

    /// Returns a future that calls `f` with the items, and returns the value in the first `Some`.
    ///
    /// The future's value is `None` if the stream ends before a `Some`. A poll requires that `ranks.counts`
    /// holds for the stream.
    ///
    /// # Examples
    ///
    /// ```
    /// use futures_lite::{StreamExt, future, stream};
    ///
    /// fn half<R>(rt: &R, numbers: Vec<u32>) -> Result<Option<u32>, AllocError>
    /// where
    ///     R: Wait + RandomSource + AllocGlobal,
    ///     ensures { IfOk result (λ v. v ≡ slice_get (filter_map (λ x. if x % 2 == 0 then Some (x / 2) else None) numbers.items) 0) }
    /// {
    ///     let mut numbers = stream::iter_vec(numbers);
    ///     future::block_on(rt, numbers.find_map(|x: u32| if x % 2 == 0 { Some(x / 2) } else { None }))
    /// }
    ///
    /// assert_eq!(rt; half(&rt, vec![in rt.alloc(); 3, 8, 5]?)?, Some(4));
    ///
    /// let mut words = stream::iter_array(["lol", "NaN", "2", "5"]);
    /// let number = words.find_map(|word: &str| word.parse::<u32>().ok());
    /// assert_eq!(rt; future::block_on(&rt, number)?, Some(2));
    /// ```
    final fn find_map<'a, F, B>(&'a mut self, f: F) -> FindMapFuture<'a, Self, F>
    where
        Self: Counted + Sized,
        F: FnMut(Self::Item) -> Option<B>,
        ensures parts { result ≡ record { stream = self.entry; folder = record { f = f } } }
        ensures value { (h : Self.Item → Option B) (xs : _) → Lists Self.run self.old xs → ActsAs F.FnMut f h
            → ValueIs ⟦<FindMapFuture<'a, Self, F> as Future>⟧.run result (slice_get (filter_map h xs) 0) }
    {
        lite_consume::make::find_map(self, f)
    }

    /// Returns a future of the number of the first item for which `predicate` returns true, or of `None` if
    /// the stream ends before one.
    ///
    /// The first item that this future polls has the number 0. After `usize::MAX` comes 0. A poll requires
    /// that `ranks.counts` holds for the stream.
    ///
    /// # Examples
    ///
    /// ```
    /// use futures_lite::{StreamExt, future, stream};
    ///
    /// fn place_of_seven<R>(rt: &R, numbers: Vec<u32>) -> Result<Option<usize>, AllocError>
    /// where
    ///     R: Wait + RandomSource + AllocGlobal,
    ///     ensures { IfOk result (λ v. v ≡ position (λ x. x == 7) numbers.items) }
    /// {
    ///     let mut numbers = stream::iter_vec(numbers);
    ///     future::block_on(rt, numbers.position(|x: u32| x == 7))
    /// }
    ///
    /// assert_eq!(rt; place_of_seven(&rt, vec![in rt.alloc(); 5, 6, 7]?)?, Some(2));
    ///
    /// let mut numbers = stream::iter(5u8..9);
    /// assert_eq!(rt; future::block_on(&rt, numbers.position(|x: u8| x == 7))?, Some(2));
    /// // It counts from the item after the one that was found.
    /// assert_eq!(rt; future::block_on(&rt, numbers.position(|x: u8| x == 8))?, Some(0));
    /// ```
    final fn position<'a, P>(&'a mut self, predicate: P) -> PositionFuture<'a, Self, P>
    where
        Self: Counted + Sized,
        P: FnMut(Self::Item) -> bool,
        ensures parts { result ≡ record { stream = self.entry; folder = record { predicate = predicate; index = 0 } } }
        ensures value { (test : Self.Item → Bool) (xs : List Self.Item) → Lists Self.run self.old xs
            → ActsAs P.FnMut predicate test
            → length xs < 2 ^ 64 → ValueIs ⟦<PositionFuture<'a, Self, P> as Future>⟧.run result (position test xs) }
        ensures left { (test : Self.Item → Bool) (xs : List Self.Item) → FoundBy (behind_match test xs) self.old xs
            (Lists Self.run self.old xs → ActsAs P.FnMut predicate test → length xs < 2 ^ 64
            → WhenLeft AllocError ⟦<PositionFuture<'a, Self, P> as Future>⟧.run result
            (λ f. f.stream.ghost_name ≡ self.entry.ghost_name)
            (λ f v. (v ≡ position test xs) × RestIfFound Self.run f.stream.now v (behind_match test xs))) }
    {
        lite_consume::make::position(self, predicate)
    }

    /// Returns a future of whether `predicate` returns true for every item.
    ///
    /// The first item for which it returns false decides. The value is true if there is no item. A poll
    /// requires that `ranks.counts` holds for the stream.
    ///
    /// # Examples
    ///
    /// ```
    /// use futures_lite::{StreamExt, future, stream};
    ///
    /// fn all_even<R>(rt: &R, numbers: Vec<u32>) -> Result<bool, AllocError>
    /// where
    ///     R: Wait + RandomSource + AllocGlobal,
    ///     ensures { IfOk result (λ v. v ≡ list_all (λ x. x % 2 == 0) numbers.items) }
    /// {
    ///     let mut numbers = stream::iter_vec(numbers);
    ///     future::block_on(rt, numbers.all(|x: u32| x % 2 == 0))
    /// }
    ///
    /// assert_eq!(rt; all_even(&rt, vec![in rt.alloc(); 1, 2, 3]?)?, false);
    /// ```
    ///
    /// ```
    /// use futures_lite::{StreamExt, future, stream};
    ///
    /// let mut numbers = stream::iter(1u8..=9);
    /// assert!(rt; !future::block_on(&rt, numbers.all(|x: u8| x < 3))?);
    /// // The stream is left after the 3, which decided.
    /// assert!(rt; future::block_on(&rt, numbers.all(|x: u8| x > 3))?);
    /// ```
    final fn all<'a, P>(&'a mut self, predicate: P) -> AllFuture<'a, Self, P>
    where
        Self: Counted + Sized,
        P: FnMut(Self::Item) -> bool,
        ensures parts { result ≡ record { stream = self.entry; folder = record { predicate = predicate } } }
        ensures value { (test : Self.Item → Bool) (xs : List Self.Item) → Lists Self.run self.old xs
            → ActsAs P.FnMut predicate test
            → ValueIs ⟦<AllFuture<'a, Self, P> as Future>⟧.run result (list_all test xs) }
    {
        lite_consume::make::all(self, predicate)
    }

    /// Returns a future of whether `predicate` returns true for at least one item.
    ///
    /// The first item for which it returns true decides. The value is false if there is no item. A poll
    /// requires that `ranks.counts` holds for the stream.
    ///
    /// # Examples
    ///
    /// ```
    /// use futures_lite::{StreamExt, future, stream};
    ///
    /// fn any_even<R>(rt: &R, numbers: Vec<u32>) -> Result<bool, AllocError>
    /// where
    ///     R: Wait + RandomSource + AllocGlobal,
    ///     ensures { IfOk result (λ v. v ≡ list_any (λ x. x % 2 == 0) numbers.items) }
    /// {
    ///     let mut numbers = stream::iter_vec(numbers);
    ///     future::block_on(rt, numbers.any(|x: u32| x % 2 == 0))
    /// }
    ///
    /// assert_eq!(rt; any_even(&rt, vec![in rt.alloc(); 1, 2, 3]?)?, true);
    /// ```
    ///
    /// ```
    /// use futures_lite::{StreamExt, future, stream};
    ///
    /// let mut numbers = stream::iter(1u8..=9);
    /// assert!(rt; future::block_on(&rt, numbers.any(|x: u8| x == 3))?);
    /// // The stream is left after the 3, which decided.
    /// assert!(rt; !future::block_on(&rt, numbers.any(|x: u8| x == 3))?);
    /// ```
    final fn any<'a, P>(&'a mut self, predicate: P) -> AnyFuture<'a, Self, P>
    where
        Self: Counted + Sized,
        P: FnMut(Self::Item) -> bool,
        ensures parts { result ≡ record { stream = self.entry; folder = record { predicate = predicate } } }
        ensures value { (test : Self.Item → Bool) (xs : List Self.Item) → Lists Self.run self.old xs
            → ActsAs P.FnMut predicate test
            → ValueIs ⟦<AnyFuture<'a, Self, P> as Future>⟧.run result (list_any test xs) }
    {
        lite_consume::make::any(self, predicate)
    }

    /// Returns a future that calls `f` with each item before the end.
    ///
    /// A poll requires that `ranks.counts` holds for the stream.
    ///
    /// # Examples
    ///
    /// ```
    /// use futures_lite::{StreamExt, future, stream};
    /// use std::cell::Cell;
    ///
    /// let sum = Cell::new(0u32);
    /// let added = stream::iter(1u32..=4).for_each(|x: u32| sum.set(sum.get() + x));
    /// future::block_on(&rt, added)?;
    /// assert_eq!(rt; sum.get(), 10);
    /// ```
    final fn for_each<F>(self, f: F) -> ForEachFuture<Self, F>
    where
        Self: Counted + Sized,
        F: FnMut(Self::Item),
        ensures { result ≡ record { stream = self; folder = record { f = f } } }
    {
        lite_consume::make::for_each(self, f)
    }

    /// Returns a future that calls `f` with each item, up to the end or the first error.
    ///
    /// The future's value is the first error that `f` returns, or `Ok(())` at the end. A poll requires that
    /// `ranks.counts` holds for the stream.
    ///
    /// # Examples
    ///
    /// ```
    /// use futures_lite::{StreamExt, future, stream};
    ///
    /// fn checked<R>(rt: &R, numbers: Vec<u32>) -> Result<Result<(), u32>, AllocError>
    /// where
    ///     R: Wait + RandomSource + AllocGlobal,
    ///     ensures { IfOk result (λ v. v ≡ first_error {T = Unit {0}} (map (λ x. if nat_lt x 3 then Ok tt else Err x) numbers.items)) }
    /// {
    ///     let mut numbers = stream::iter_vec(numbers);
    ///     let checked = numbers.try_for_each(|x: u32| if x < 3 { Ok(()) } else { Err(x) });
    ///     future::block_on(rt, checked)
    /// }
    ///
    /// assert_eq!(rt; checked(&rt, vec![in rt.alloc(); 1, 2, 3]?)?, Err(3));
    /// ```
    ///
    /// ```
    /// use futures_lite::{StreamExt, future, stream};
    ///
    /// let mut numbers = stream::iter(1u8..=5);
    /// let checked = numbers.try_for_each(|x: u8| if x < 3 { Ok(()) } else { Err(x) });
    /// assert_eq!(rt; future::block_on(&rt, checked)?, Err(3));
    /// assert_eq!(rt; future::block_on(&rt, numbers.next())?, Some(4));
    /// ```
    final fn try_for_each<'a, F, E>(&'a mut self, f: F) -> TryForEachFuture<'a, Self, F>
    where
        Self: Counted + Sized,
        F: FnMut(Self::Item) -> Result<(), E>,
        ensures parts { result ≡ record { stream = self.entry; folder = record { f = f } } }
        ensures value { (h : Self.Item → Result (Unit {0}) E) (xs : List Self.Item) → Lists Self.run self.old xs
            → ActsAs F.FnMut f h
            → ValueIs ⟦<TryForEachFuture<'a, Self, F> as Future>⟧.run result (first_error (map h xs)) }
    {
        lite_consume::make::try_for_each(self, f)
    }

    /// Returns a future that collects the items before the end into a collection, which takes its memory from
    /// `alloc`. It resolves to a `Result<C, Refused<C, Self::Item>>`: `Ok(collection)` at the end of the
    /// stream.
    ///
    /// The future takes the stream. It is `Pending` when the stream is, and keeps what it has collected. To
    /// keep the rest of a stream, collect from a `&mut` to it. A poll requires that `ranks.counts` holds for
    /// the stream.
    ///
    /// A `Vec` and a `VecDeque` append items at the back, and a `String` appends characters. A `BTreeMap`
    /// collects pairs: for a key that it has, the old key stays and the value is replaced. A `BTreeSet` keeps
    /// the item that it has. Keys, values and items of these two must be `Drop`. Do not poll the future again
    /// after it has returned its value.
    ///
    /// # Errors
    ///
    /// If the collection has no memory for an item, the future resolves to `Err` of a [`Refused`]: what was
    /// collected before, and that item. The rest of a stream that the future took is dropped with it. The
    /// fields of a `Refused` are `collected` and `item`.
    ///
    /// # Examples
    ///
    /// ```
    /// use futures_lite::{StreamExt, future, stream};
    ///
    /// fn collected<R>(rt: &R) -> Result<Vec<u8>, AllocError>
    /// where
    ///     R: Wait + RandomSource + AllocGlobal,
    ///     ensures { IfOk result (λ v. v.items ≡ 1 ∷ 2 ∷ 3 ∷ []) }
    /// {
    ///     future::block_on(rt, stream::iter_array([1, 2, 3]).collect::<Vec<u8>>(rt.alloc()))?.map_err(|_| AllocError)
    /// }
    ///
    /// assert_eq!(rt; collected(&rt)?.as_slice(), [1, 2, 3].as_slice());
    /// ```
    ///
    /// ```
    /// use futures_lite::{StreamExt, future, stream};
    ///
    /// let letters = stream::iter_array(['a', 'b', 'c']);
    /// let text = future::block_on(&rt, letters.collect::<String>(rt.alloc()))??;
    /// assert_eq!(rt; text.as_str(), "abc");
    /// ```
    final fn collect<C>(self, alloc: C::Alloc) -> CollectFuture<Self, C>
    where
        Self: Counted + Sized,
        C: Gather<Self::Item>,
        ensures stream { result.stream ≡ self }
        ensures open { IsSome result.folder.collection }
        ensures empty { IfSome result.folder.collection (λ c. C.holds c []) }
        ensures value { (xs : List Self.Item) → Lists Self.run self xs
            → Seen self xs
            × ValueHolds AllocError ⟦<CollectFuture<Self, C> as Future>⟧.run result (λ v. IfOk v (λ c. C.holds c xs)) }
    {
        lite_gather::make::collect(self, alloc)
    }

    /// Returns a future that collects the `Ok` values of the items, up to the end or the first error.
    ///
    /// The collection takes its memory from `alloc`. One poll may consume many `Ok` items, so this stream
    /// must be `OkCounted`. A poll requires that `ok_ranks.counts` holds for the stream. Do not poll the
    /// future again after it has returned its value.
    ///
    /// # Errors
    ///
    /// - `TryCollectError::Source`: an item is this error. What was collected is dropped with the future.
    /// - `TryCollectError::Memory`: the collection has no memory for the value of an item. It has what was
    ///   collected, and that value.
    ///
    /// # Examples
    ///
    /// ```
    /// use futures_lite::{StreamExt, future, stream};
    ///
    /// fn collected<R>(rt: &R) -> Result<Vec<u8>, AllocError>
    /// where
    ///     R: Wait + RandomSource + AllocGlobal,
    ///     ensures { IfOk result (λ v. v.items ≡ 1 ∷ 2 ∷ []) }
    /// {
    ///     let results = stream::iter_array([Ok::<u8, u8>(1), Ok(2)]);
    ///     future::block_on(rt, results.try_collect::<u8, u8, Vec<u8>>(rt.alloc()))?.map_err(|_| AllocError)
    /// }
    ///
    /// assert_eq!(rt; collected(&rt)?.as_slice(), [1, 2].as_slice());
    /// ```
    ///
    /// ```
    /// use futures_lite::stream::TryCollectError;
    /// use futures_lite::{StreamExt, future, stream};
    ///
    /// let good = stream::iter_array([Ok::<u8, u8>(1), Ok(2)]);
    /// let all = future::block_on(&rt, good.try_collect::<u8, u8, Vec<u8>>(rt.alloc()))??;
    /// assert_eq!(rt; all.as_slice(), [1, 2].as_slice());
    /// let bad = stream::iter_array([Ok(1u8), Err(7u8), Ok(3)]);
    /// let failed = future::block_on(&rt, bad.try_collect::<u8, u8, Vec<u8>>(rt.alloc()))?;
    /// assert!(rt; matches!(failed, Err(TryCollectError::Source(7))));
    /// ```
    final fn try_collect<T, E, C>(self, alloc: C::Alloc) -> TryCollectFuture<Self, C>
    where
        Self: OkCounted<Ok = T, Err = E> + Sized,
        C: Gather<T>,
        ensures stream { result.stream ≡ self }
        ensures open { IsSome result.folder.items }
        ensures empty { IfSome result.folder.items (λ c. C.holds c []) }
        ensures value { (xs : List (Result T E)) → Lists Self.run self xs
            → Seen self xs
            × ValueHolds AllocError ⟦<TryCollectFuture<Self, C> as Future>⟧.run result
            (λ v. TriesCollect C.holds xs v) }
        ensures read { (f : T → List ℕ) (xs : List (List ℕ)) → OkLists Self.run self f xs
            → OkSeen self f xs
            × ValueHolds AllocError ⟦<TryCollectFuture<Self, C> as Future>⟧.run result (AllTaken C.holds f xs) }
    {
        lite_gather::make::try_collect(self, alloc)
    }

    /// Returns a future that collects the items into two collections: those for which `predicate` returns
    /// true, and the others.
    ///
    /// Both collections take their memory from `alloc`. A poll requires that `ranks.counts` holds for the
    /// stream. Do not poll the future again after it has returned its value.
    ///
    /// # Errors
    ///
    /// If a collection has no memory for an item, the future resolves to `Err` of a [`Refused`]: both
    /// collections as they were before, and that item.
    ///
    /// # Examples
    ///
    /// ```
    /// use futures_lite::{StreamExt, future, stream};
    ///
    /// fn parted<R>(rt: &R, numbers: Vec<u32>) -> Result<(Vec<u32>, Vec<u32>), AllocError>
    /// where
    ///     R: Wait + RandomSource + AllocGlobal,
    ///     ensures evens { IfOk result (λ v. v.0.items ≡ filter (λ x. x % 2 == 0) numbers.items) }
    ///     ensures odds { IfOk result (λ v. v.1.items ≡ filter (λ x. not (x % 2 == 0)) numbers.items) }
    /// {
    ///     let parted = stream::iter_vec(numbers).partition::<Vec<u32>, _>(rt.alloc(), |x: &u32| *x % 2 == 0);
    ///     future::block_on(rt, parted)?.map_err(|_| AllocError)
    /// }
    ///
    /// let (evens, odds) = parted(&rt, vec![in rt.alloc(); 1, 2, 3]?)?;
    /// assert_eq!(rt; evens.as_slice(), [2].as_slice());
    /// assert_eq!(rt; odds.as_slice(), [1, 3].as_slice());
    /// ```
    final fn partition<B, P>(self, alloc: B::Alloc, predicate: P) -> PartitionFuture<Self, P, B>
    where
        Self: Counted + Sized,
        B: Gather<Self::Item, Alloc: Copy>,
        P: FnMut(&Self::Item) -> bool,
        ensures stream { result.stream ≡ self }
        ensures predicate { result.folder.predicate ≡ predicate }
        ensures open { IsSome result.folder.res }
        ensures empty { IfSome result.folder.res (λ c. B.holds c.0 [] × B.holds c.1 []) }
        ensures accepted { (test : Self.Item → Bool) (xs : _) → Lists Self.run self xs → ActsAsAt P.FnMut predicate test
            → (filter test xs ≡ filter test xs)
            × ValueHolds AllocError ⟦<PartitionFuture<Self, P, B> as Future>⟧.run result
            (λ v. IfOk v (λ c. B.holds c.0 (filter test xs))) }
        ensures others { (rest : Self.Item → Bool) (xs : List Self.Item) → Lists Self.run self xs
            → ActsAsAt P.FnMut predicate (λ x. not (rest x))
            → (filter rest xs ≡ filter rest xs)
            × ValueHolds AllocError ⟦<PartitionFuture<Self, P, B> as Future>⟧.run result
            (λ v. IfOk v (λ c. B.holds c.1 (filter rest xs))) }
    {
        lite_gather::make::partition(self, alloc, predicate)
    }

    /// Returns a future that collects pairs into two collections: of the first parts, and of the second
    /// parts.
    ///
    /// Both collections take their memory from `alloc`. A poll requires that `ranks.counts` holds for the
    /// stream. Do not poll the future again after it has returned its value.
    ///
    /// # Errors
    ///
    /// - `UnzipRefused::Left`: the first collection has no memory for its part. It has both collections, and
    ///   both parts.
    /// - `UnzipRefused::Right`: the second collection has no memory for its part. It has both collections,
    ///   the first with its part of the item, and the second part.
    ///
    /// # Examples
    ///
    /// ```
    /// use futures_lite::{StreamExt, future, stream};
    ///
    /// fn parted<R>(rt: &R) -> Result<(Vec<u8>, Vec<u8>), AllocError>
    /// where
    ///     R: Wait + RandomSource + AllocGlobal,
    ///     ensures lefts { IfOk result (λ v. v.0.items ≡ 1 ∷ 2 ∷ []) }
    ///     ensures rights { IfOk result (λ v. v.1.items ≡ 7 ∷ 8 ∷ []) }
    /// {
    ///     let pairs = stream::iter_array([(1u8, 7u8), (2, 8)]);
    ///     let parting = pairs.unzip::<u8, u8, Vec<u8>, Vec<u8>>(rt.alloc());
    ///     future::block_on(rt, parting)?.map_err(|_| AllocError)
    /// }
    ///
    /// let (lefts, rights) = parted(&rt)?;
    /// assert_eq!(rt; lefts.as_slice(), [1, 2].as_slice());
    /// assert_eq!(rt; rights.as_slice(), [7, 8].as_slice());
    /// ```
    ///
    /// ```
    /// use futures_lite::{StreamExt, future, stream};
    ///
    /// let pairs = stream::iter_array([(1u8, 'a'), (2, 'b')]);
    /// let parted = pairs.unzip::<u8, char, Vec<u8>, String>(rt.alloc());
    /// let (numbers, letters) = future::block_on(&rt, parted)??;
    /// assert_eq!(rt; numbers.as_slice(), [1, 2].as_slice());
    /// assert_eq!(rt; letters.as_str(), "ab");
    /// ```
    final fn unzip<A, B, FromA, FromB>(self, alloc: FromA::Alloc) -> UnzipFuture<Self, FromA, FromB>
    where
        Self: Counted<Item = (A, B)> + Sized,
        FromA: Gather<A, Alloc: Copy>,
        FromB: Gather<B, Alloc = FromA::Alloc>,
        ensures stream { result.stream ≡ self }
        ensures open { IsSome result.folder.res }
        ensures empty { IfSome result.folder.res (λ c. FromA.holds c.0 [] × FromB.holds c.1 []) }
        ensures value { (xs : List (A × B)) → Lists Self.run self xs
            → Seen self xs × ValueHolds AllocError ⟦<UnzipFuture<Self, FromA, FromB> as Future>⟧.run result
            (λ v. IfOk v (λ c. FromA.holds c.0 (map (λ x. x.0) xs) × FromB.holds c.1 (map (λ x. x.1) xs))) }
    {
        lite_gather::make::unzip(self, alloc)
    }
}

impl<S: Stream> StreamExt for S {}
