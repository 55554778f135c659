//! Functions that make the adapters.
ghost use Rattle.std.specs.Prelude.{◌≡◌, ◌<◌, None, false, MatchResult};
ghost use Rattle.lite_merge.specs.Cycle.{CycleOf};
ghost use Rattle.lite_merge.specs.declared.stop_after_future.Stopping.TheVariants.{Holding};

use crate::budgeted::Budgeted;
use crate::cycle::Cycle;
use crate::drain::Drain;
use crate::or::Or;
use crate::race::Race;
use crate::stop_after_future::{StopAfterFuture, Stopping};
use crate::zip::Zip;
use lite_base::{Future, Stream};
use rand_core::{Rng, SeedableRng};
use rand_pcg::Pcg32;

/// Returns a stream that yields pairs of an item of `stream1` and an item of `stream2`.
pub fn zip<A: Stream, B>(stream1: A, stream2: B) -> Zip<A, B>
    ensures { result ≡ record { item_slot = None; first = stream1; second = stream2 } }
{
    Zip {
        item_slot: None,
        first: stream1,
        second: stream2,
    }
}

/// Returns a stream that yields the items of both streams as they come, with `stream1` first.
pub fn or<T, S1, S2>(stream1: S1, stream2: S2) -> Or<S1, S2>
where
    S1: Stream<Item = T>,
    S2: Stream<Item = T>,
    ensures { result ≡ record {
      stream1 = record { stream = stream1; done = false };
      stream2 = record { stream = stream2; done = false };
    } }
{
    Or::new(stream1, stream2)
}

/// Returns a stream that yields the items of both streams as they come, with neither preferred.
pub fn race<T, S1, S2, R>(stream1: S1, stream2: S2, rng: R) -> Race<S1, S2, R>
where
    S1: Stream<Item = T>,
    S2: Stream<Item = T>,
    R: Rng,
    ensures { result ≡ record {
      stream1 = record { stream = stream1; done = false };
      stream2 = record { stream = stream2; done = false };
      rng = rng;
    } }
{
    Race::new(stream1, stream2, rng)
}

/// Returns the stream that [`race`] returns, with a generator that is made from `seed`.
pub fn race_with_seed<T, S1, S2>(stream1: S1, stream2: S2, seed: u64) -> Race<S1, S2, Pcg32>
where
    S1: Stream<Item = T>,
    S2: Stream<Item = T>,
    ensures { result ≡ record {
      stream1 = record { stream = stream1; done = false };
      stream2 = record { stream = stream2; done = false };
      rng = ⟦<Pcg32 as SeedableRng>⟧.of_seed (⟦<Pcg32 as SeedableRng>⟧.seed_of_u64 seed);
    } }
{
    race(stream1, stream2, Pcg32::seed_from_u64(seed))
}

/// Returns a stream that yields the items of `stream` over and over, or `Err(stream)` if a clone of it is
/// refused.
pub fn cycle<S: Clone>(stream: S) -> Result<Cycle<S>, S>
    ensures { MatchResult result (CycleOf S.is_clone stream) (λ back. (back ≡ stream) × ¬ (S.is_infallible stream)) }
{
    match stream.clone() {
        Ok(original) => Ok(Cycle {
            original,
            stream: Some(stream),
        }),
        Err(_refused) => Err(stream),
    }
}

/// Returns a stream that yields the items of `stream` that are ready, and ends whenever `stream` is pending.
pub fn drain<S>(stream: &mut S) -> Drain<'_, S>
    ensures { result ≡ record { stream = stream.entry } }
{
    Drain { stream }
}

/// Returns a stream that yields the items of `stream` until `future` is ready, and then ends for ever.
///
/// Each poll polls `future` first. When it is ready, `stream` is not polled and the result ends. If `stream`
/// ends first, the result ends for ever too. The future is then dropped, so it must be `Drop`. Size hint:
/// `(0, upper)`, with the upper bound of `stream`, and `(0, Some(0))` after the end.
///
/// # Examples
///
/// ```
/// use futures_lite::{StreamExt, future, stream};
///
/// let mut ticks = stream::stop_after_future(stream::iter(0u8..9), future::yield_now());
/// assert_eq!(rt; future::block_on(&rt, ticks.next())?, Some(0));
/// // The second poll of `yield_now` is ready.
/// assert_eq!(rt; future::block_on(&rt, ticks.next())?, None);
/// ```
pub fn stop_after_future<S, Fut: Future>(stream: S, future: Fut) -> StopAfterFuture<S, Fut>
    ensures { result ≡ record { stream = stream; future = Holding future } }
{
    StopAfterFuture {
        stream,
        future: Stopping::Holding(future),
    }
}

/// Returns a stream that returns `Pending` once after `budget` items in a row; `budget` must be greater than
/// 0.
pub fn with_budget<S>(stream: S, budget: usize) -> Budgeted<S>
    requires { 0 < budget }
    ensures { result ≡ record { stream = stream; budget = budget; left = budget; paused = false } }
{
    Budgeted {
        stream,
        budget,
        left: budget,
        paused: false,
    }
}
