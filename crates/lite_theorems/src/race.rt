ghost use Rattle.std.specs.Prelude.{◌≡◌, [], IfSome, IsSome, false};
ghost use Rattle.lite_theorems.specs.Uses.{AtEachOk};
ghost use Rattle.lite_theorems.specs.Interleaving.{RaceHolds};

use lite_base::{Counted, Future};
use lite_gather::make::collect;
use lite_gather::{CollectFuture, Gather};
use lite_merge::Race;
use lite_merge::make::race;
use rand_core::Rng;

/// Returns a future that collects the items of `first` and `second`, merged by `race` with the words of
/// `rng`. The collection allocates from `alloc`.
///
/// It is the future that `collect` returns for `race`; its contract says more. If it resolves to `Ok`, the
/// collection is an interleaving of all items that the two yield before their first ends. None is lost, none
/// is added, and the items of each stream keep their order. How many polls that took, when the two were
/// pending, and what the words were does not matter.
///
/// The future may be polled if `ranks.firm` holds for both streams. Its `Err` has what was collected, and the
/// item that the collection refused.
///
/// # Examples
///
/// ```
/// use futures_lite::{future, laws, stream};
/// use rand_core::SeedableRng;
/// use rand_pcg::Pcg32;
///
/// let (small, large) = (stream::iter(1u8..4), stream::iter(11u8..14));
/// let rng = Pcg32::seed_from_u64(7);
/// let collecting = laws::collect_race::<_, _, _, Vec<u8>>(small, large, rng, rt.alloc());
/// let merged = future::block_on(&rt, collecting)??;
/// assert_eq!(rt; merged.len(), 6);
/// assert!(rt; merged.iter().copied().filter(|x: &u8| *x < 10).eq(1u8..4));
/// assert!(rt; merged.iter().copied().filter(|x: &u8| *x > 10).eq(11u8..14));
/// ```
pub fn collect_race<S1, S2, R, C>(
    first: S1,
    second: S2,
    rng: R,
    alloc: C::Alloc,
) -> CollectFuture<Race<S1, S2, R>, C>
where
    S1: Counted,
    S2: Counted<Item = S1::Item>,
    R: Rng,
    C: Gather<S1::Item>,
    ensures merged { result.stream ≡ record {
      stream1 = record { stream = first; done = false };
      stream2 = record { stream = second; done = false };
      rng = rng;
    } }
    ensures open { IsSome result.folder.collection }
    ensures empty { IfSome result.folder.collection (λ c. C.holds c []) }
    ensures whole { AtEachOk ⟦<CollectFuture<Race<S1, S2, R>, C> as Future>⟧.run result
        (RaceHolds C.holds S1.run S2.run [] result) }
{
    collect(race(first, second, rng), alloc)
}
