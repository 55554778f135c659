//! Functions that make futures.
ghost use Rattle.std.specs.Prelude.{◌≡◌, None, Result, Some, false};
ghost use Rattle.lite_future.specs.declared.side.Side.TheVariants.{Asked};

use crate::side::Side;
use crate::{Fuse, Or, Pending, PollFn, PollLimited, PollOnce, Race, Ready, TryZip, YieldNow, Zip};
use lite_base::{Context, Future, Poll};
use rand_core::{Rng, SeedableRng};
use rand_pcg::Pcg32;
use std::marker::PhantomData;

/// Returns a future that is ready with `value` at the first poll.
pub fn ready<T>(value: T) -> Ready<T>
    ensures { result ≡ record { value = Some value } }
{
    Ready { value: Some(value) }
}

/// Returns a future that is never ready.
pub fn pending<T>() -> Pending<T>
    ensures { result ≡ record { marker = record {} } }
{
    Pending {
        marker: PhantomData,
    }
}

/// Returns a future that calls `f` at each poll, and returns the result.
pub fn poll_fn<T, F>(f: F) -> PollFn<F>
where
    F: FnMut(&mut Context<'_>) -> Poll<T>,
    ensures { result ≡ record { f = f } }
{
    PollFn { f }
}

/// Returns a future that returns `Pending` once, and then is ready.
///
/// The first poll wakes its context, so the task is polled again. The future may also be polled after it was
/// ready.
///
/// # Examples
///
/// ```
/// use futures_lite::future;
///
/// fn first_poll<R>(rt: &R) -> Result<Option<()>, AllocError>
/// where
///     R: Wait + RandomSource + AllocGlobal,
///     ensures { IfOk result (λ v. v ≡ None) }
/// {
///     future::block_on(rt, future::poll_once(future::yield_now()))
/// }
///
/// assert_eq!(rt; first_poll(&rt)?, None);
///
/// let mut yielding = future::yield_now();
/// assert_eq!(rt; future::block_on(&rt, future::poll_once(&mut yielding))?, None);
/// assert_eq!(rt; future::block_on(&rt, future::poll_once(&mut yielding))?, Some(()));
/// ```
pub fn yield_now() -> YieldNow
    ensures { result ≡ record { yielded = false } }
{
    YieldNow { yielded: false }
}

/// Returns a future that polls `f` once, and is ready with the result.
///
/// The value is `Some(value)` if `f` was ready, and `None` if it returned `Pending`. The future may be polled
/// again only if `f` may, as after a `None`.
///
/// # Examples
///
/// ```
/// use futures_lite::future;
///
/// fn at_once<R>(rt: &R) -> Result<Option<u8>, AllocError>
/// where
///     R: Wait + RandomSource + AllocGlobal,
///     ensures { IfOk result (λ v. v ≡ Some 42) }
/// {
///     future::block_on(rt, future::poll_once(future::ready(42)))
/// }
///
/// fn not_yet<R>(rt: &R) -> Result<Option<u8>, AllocError>
/// where
///     R: Wait + RandomSource + AllocGlobal,
///     ensures { IfOk result (λ v. v ≡ None) }
/// {
///     future::block_on(rt, future::poll_once(future::pending()))
/// }
///
/// assert_eq!(rt; at_once(&rt)?, Some(42));
/// assert_eq!(rt; not_yet(&rt)?, None);
/// ```
pub fn poll_once<F: Future>(f: F) -> PollOnce<F>
    ensures { result ≡ record { f = f } }
{
    PollOnce { f }
}

/// Returns a future that resolves to the pair of both values, once both futures are ready.
pub fn zip<F1, F2>(future1: F1, future2: F2) -> Zip<F1, F2>
where
    F1: Future<Output: Drop>,
    F2: Future<Output: Drop>,
    ensures first { result.first ≡ Asked future1 }
    ensures second { result.second ≡ Asked future2 }
{
    Zip {
        first: Side::Asked(future1),
        second: Side::Asked(future2),
    }
}

/// Returns a future that resolves to the pair of both values, or to the first error.
pub fn try_zip<T1, T2, E, F1, F2>(future1: F1, future2: F2) -> TryZip<F1, T1, F2, T2>
where
    F1: Future<Output = Result<T1, E>>,
    F2: Future<Output = Result<T2, E>>,
    ensures first { result.first ≡ Asked future1 }
    ensures second { result.second ≡ Asked future2 }
{
    TryZip {
        first: Side::Asked(future1),
        second: Side::Asked(future2),
    }
}

/// Returns a future that resolves to the value of the future that is ready first. It prefers `future1` if
/// both are.
pub fn or<T, F1, F2>(future1: F1, future2: F2) -> Or<F1, F2>
where
    F1: Future<Output = T>,
    F2: Future<Output = T>,
    ensures { result ≡ record { future1 = future1; future2 = future2 } }
{
    Or { future1, future2 }
}

/// Returns a future that resolves to the value of the future that is ready first. If both are, `rng` chooses.
pub fn race<T, F1, F2, G>(future1: F1, future2: F2, rng: G) -> Race<F1, F2, G>
where
    F1: Future<Output = T>,
    F2: Future<Output = T>,
    G: Rng,
    ensures { result ≡ record { future1 = future1; future2 = future2; rng = rng } }
{
    Race {
        future1,
        future2,
        rng,
    }
}

/// Returns a future like that of [`race`], with a generator made from `seed`.
pub fn race_with_seed<T, F1, F2>(future1: F1, future2: F2, seed: u64) -> Race<F1, F2, Pcg32>
where
    F1: Future<Output = T>,
    F2: Future<Output = T>,
    ensures { result ≡ record {
      future1 = future1;
      future2 = future2;
      rng = ⟦<Pcg32 as SeedableRng>⟧.of_seed (⟦<Pcg32 as SeedableRng>⟧.seed_of_u64 seed);
    } }
{
    race(future1, future2, Pcg32::seed_from_u64(seed))
}

/// Returns a future that resolves to the value of `future`, and may be polled for ever after that.
///
/// It drops `future` in the poll that returns the value, so `future` has to be `Drop`. All later polls return
/// `Pending`.
///
/// # Examples
///
/// ```
/// use futures_lite::future;
///
/// let mut fused = future::fuse(future::ready(7u8));
/// assert_eq!(rt; future::block_on(&rt, future::poll_once(&mut fused))?, Some(7));
/// assert_eq!(rt; future::block_on(&rt, future::poll_once(&mut fused))?, None);
/// ```
pub fn fuse<F: Future>(future: F) -> Fuse<F>
    ensures { result ≡ record { inner = Some future } }
{
    Fuse {
        inner: Some(future),
    }
}

/// Returns a future that polls `future` at most `polls` times. Its value is `Ok` with that of `future`. If the
/// last of these polls is pending, the value is `Err(Exhausted)`, and it is so at once if `polls` is 0.
pub fn with_poll_limit<F>(future: F, polls: usize) -> PollLimited<F>
    ensures { result ≡ record { inner = future; left = polls } }
{
    PollLimited {
        inner: future,
        left: polls,
    }
}
