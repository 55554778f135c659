ghost use Rattle.std.specs.Prelude.{◌≡◌, [], IfSome, IsSome, false};
ghost use Rattle.lite_theorems.specs.Uses.{AtEachOk};
ghost use Rattle.lite_theorems.specs.Interleaving.{OrHolds};

use lite_base::{Counted, Future};
use lite_gather::make::collect;
use lite_gather::{CollectFuture, Gather};
use lite_merge::Or;
use lite_merge::make::or;

/// Returns a future that collects the items of `first` and `second`, merged by `or`. The collection allocates
/// from `alloc`.
///
/// It is the future that `collect` returns for `or`; its contract says more. If it resolves to `Ok`, the
/// collection is an interleaving of all items that the two yield before their first ends. None is lost, none
/// is added, and the items of each stream keep their order. How many polls that took, and when the two were
/// pending, does not matter.
///
/// The future may be polled if `ranks.counts` holds for both streams. Its `Err` has what was collected, and
/// the item that the collection refused.
///
/// # Examples
///
/// ```
/// use futures_lite::{future, laws, stream};
///
/// let collecting = laws::collect_or::<_, _, Vec<u8>>(stream::iter(1u8..3), stream::once(7u8), rt.alloc());
/// let merged = future::block_on(&rt, collecting)??;
/// assert_eq!(rt; merged.as_slice(), [1, 2, 7].as_slice());
/// ```
pub fn collect_or<S1, S2, C>(first: S1, second: S2, alloc: C::Alloc) -> CollectFuture<Or<S1, S2>, C>
where
    S1: Counted,
    S2: Counted<Item = S1::Item>,
    C: Gather<S1::Item>,
    ensures merged { result.stream ≡ record {
      stream1 = record { stream = first; done = false };
      stream2 = record { stream = second; done = false };
    } }
    ensures open { IsSome result.folder.collection }
    ensures empty { IfSome result.folder.collection (λ c. C.holds c []) }
    ensures whole { AtEachOk ⟦<CollectFuture<Or<S1, S2>, C> as Future>⟧.run result (OrHolds C.holds S1.run S2.run [] result) }
{
    collect(or(first, second), alloc)
}
