//! Functions that make futures, and the extension methods of every future.
ghost use Rattle.std.specs.Prelude.{◌≡◌, Err, IfOk, List, Ok, OnErr, Result, Some};
ghost use Rattle.futures_lite.specs.Uses.{LeftAs, HasValue, Seen, ValueIs, Waited, AllocError, Called, Context, MutBor};
ghost use Rattle.futures_lite.specs.Uses.{ValueHolds, AtOnce, NeverReady, TryZipRuns, ZipRuns};
ghost use Rattle.futures.specs.declared.task.Poll.{Poll};
ghost use Rattle.lite_base.specs.Answers.{Gives};
ghost use Rattle.lite_base.specs.Spent.{Finishes};
ghost use Rattle.lite_future.specs.TryZip.{try_pair};
ghost use Rattle.lite_future.specs.declared.side.Side.TheVariants.{Asked};
ghost use Rattle.lite_views.specs.Answering.{HasOk, HasValueAs, PickedValue, ReturnedBy, LeftSeen};

pub use lite_base::Future;
pub use lite_base::future::block_on::BlockOn;
pub use lite_base::future::{Waiter, Waits, poll_armed};
use lite_base::{Context, Poll};
pub use lite_consume::{Blocking, ByRuntime, ByWaiter};
use lite_future::make;
pub use lite_future::make::{fuse, poll_once, yield_now};
pub use lite_future::{
    Either, Exhausted, Fuse, Or, Pending, PollFn, PollLimited, PollOnce, Race, Ready, TryZip,
    YieldNow, Zip,
};
use rand_core::{Rng, SeedableRng};
use rand_pcg::Pcg32;
use std::alloc::{AllocError, AllocGlobal};
use std::random::RandomSource;
use std::sync::Wait;

/// Returns a future that is ready with `value` at the first poll. Do not poll it after that.
///
/// The contract says that the value is `value`, and that the first poll returns it.
///
/// # Examples
///
/// ```
/// use futures_lite::future;
///
/// assert_eq!(rt; future::block_on(&rt, future::ready(7u8))?, 7);
/// ```
#[tactic(auto, using(lite_views::proofs::Ready::ready_value, lite_views::proofs::Ready::ready_at_once))]
pub fn ready<T>(value: T) -> Ready<T>
    ensures parts { result ≡ record { value = Some value } }
    ensures value { HasValue ⟦<Ready<T> as Future>⟧.run result value }
    ensures at_once { AtOnce ⟦<Ready<T> as Future>⟧.run result value }
{
    make::ready(value)
}

/// Returns a future that is never ready. Every poll returns `Pending`, and wakes nothing.
///
/// The contract says that it is never ready. So `or` and `race` with another future have that one's value.
///
/// # Examples
///
/// ```
/// use futures_lite::future;
///
/// let never = future::pending::<u8>();
/// assert_eq!(rt; future::block_on(&rt, future::poll_once(never))?, None);
/// ```
#[tactic(auto, using(lite_views::proofs::Picking::pending_never))]
pub fn pending<T>() -> Pending<T>
    ensures parts { result ≡ record { marker = record {} } }
    ensures never { NeverReady {A = T} ⟦<Pending<T> as Future>⟧.run result }
{
    make::pending()
}

/// Returns a future that calls `f` at each poll, and returns the result.
///
/// The caller guarantees that `f` may be called with any context, and keeps what the context holds.
///
/// # Examples
///
/// ```
/// use futures_lite::{Context, Poll, future};
///
/// fn seven<R>(rt: &R) -> Result<u8, AllocError>
/// where
///     R: Wait + RandomSource + AllocGlobal,
///     ensures { IfOk result (λ v. v ≡ 7) }
/// {
///     future::block_on(rt, future::poll_fn(|_cx: &mut Context<'_>| Poll::Ready(7u8)))
/// }
///
/// assert_eq!(rt; seven(&rt)?, 7);
///
/// let mut polls = 0u8;
/// let third = future::poll_fn(|cx: &mut Context<'_>| {
///     polls = polls.wrapping_add(1);
///     if polls < 3 { cx.yield_now() } else { Poll::Ready(polls) }
/// });
/// assert_eq!(rt; future::block_on(&rt, third)?, 3);
/// ```
pub fn poll_fn<T, F>(f: F) -> PollFn<F>
where
    F: FnMut(&mut Context<'_>) -> Poll<T>,
    ensures made { result ≡ record { f = f } }
    ensures returned { ValueHolds AllocError ⟦<PollFn<F> as Future>⟧.run result (ReturnedBy F.FnMut) }
    ensures value { (v : T) → ((cx left : MutBor Context) (a : Poll T) (g : F) → Called F.FnMut f (cx, tt) (a, (left, tt)) g → a ≡ Poll.Ready v)
        → HasValueAs ⟦<PollFn<F> as Future>⟧.run result v × AtOnce ⟦<PollFn<F> as Future>⟧.run result v }
{
    make::poll_fn(f)
}

/// Returns a future that resolves to the value of the future that is ready first. It prefers `future1` if
/// both are.
///
/// Each poll polls `future1`, and then `future2` only if `future1` returned `Pending`.
///
/// The contract says which value comes. It is that of `future1` if its first poll returns one. If one of the
/// two is never ready, it is the other's. If the values of both are known, it is one of these.
///
/// # Examples
///
/// ```
/// use futures_lite::future;
///
/// fn first<R>(rt: &R) -> Result<u8, AllocError>
/// where
///     R: Wait + RandomSource + AllocGlobal,
///     ensures { IfOk result (λ v. v ≡ 1) }
/// {
///     future::block_on(rt, future::or(future::ready(1), future::pending()))
/// }
///
/// fn second<R>(rt: &R) -> Result<u8, AllocError>
/// where
///     R: Wait + RandomSource + AllocGlobal,
///     ensures { IfOk result (λ v. v ≡ 2) }
/// {
///     future::block_on(rt, future::or(future::pending(), future::ready(2)))
/// }
///
/// fn preferred<R>(rt: &R) -> Result<u8, AllocError>
/// where
///     R: Wait + RandomSource + AllocGlobal,
///     ensures { IfOk result (λ v. v ≡ 1) }
/// {
///     future::block_on(rt, future::or(future::ready(1), future::ready(2)))
/// }
///
/// assert_eq!(rt; first(&rt)?, 1);
/// assert_eq!(rt; second(&rt)?, 2);
/// assert_eq!(rt; preferred(&rt)?, 1);
/// ```
pub fn or<T, F1, F2>(future1: F1, future2: F2) -> Or<F1, F2>
where
    F1: Future<Output = T>,
    F2: Future<Output = T>,
    ensures parts { result ≡ record { future1 = future1; future2 = future2 } }
    ensures at_once { (v : T) → AtOnce F1.run future1 v
        → ValueIs ⟦<Or<F1, F2> as Future>⟧.run result v × AtOnce ⟦<Or<F1, F2> as Future>⟧.run result v }
    ensures picked { PickedValue F1.run future1 F2.run future2 ⟦<Or<F1, F2> as Future>⟧.run result }
{
    make::or(future1, future2)
}

/// Returns a future that resolves to the value of the future that is ready first. If both are, `rng` chooses.
///
/// Each poll draws one word of `rng`. If its lowest bit is 1, it polls `future1` first, otherwise `future2`.
/// It polls the other future only if this returned `Pending`. That bit alone decides; nothing more is
/// promised of fairness. Unlike futures-lite, the caller supplies the generator.
///
/// The contract says which value comes, whatever the generator. If one of the two is never ready, it is the
/// other's. If the values of both are known, it is one of these.
///
/// # Examples
///
/// ```
/// use futures_lite::future;
/// use rand_core::SeedableRng;
/// use rand_pcg::Pcg32;
///
/// fn first<R>(rt: &R) -> Result<u8, AllocError>
/// where
///     R: Wait + RandomSource + AllocGlobal,
///     ensures { IfOk result (λ v. v ≡ 1) }
/// {
///     let rng = Pcg32::seed_from_u64(7);
///     future::block_on(rt, future::race(future::ready(1), future::pending(), rng))
/// }
///
/// fn second<R>(rt: &R) -> Result<u8, AllocError>
/// where
///     R: Wait + RandomSource + AllocGlobal,
///     ensures { IfOk result (λ v. v ≡ 2) }
/// {
///     let rng = Pcg32::seed_from_u64(7);
///     future::block_on(rt, future::race(future::pending(), future::ready(2), rng))
/// }
///
/// assert_eq!(rt; first(&rt)?, 1);
/// assert_eq!(rt; second(&rt)?, 2);
/// ```
pub fn race<T, F1, F2, G>(future1: F1, future2: F2, rng: G) -> Race<F1, F2, G>
where
    F1: Future<Output = T>,
    F2: Future<Output = T>,
    G: Rng,
    ensures parts { result ≡ record { future1 = future1; future2 = future2; rng = rng } }
    ensures picked { PickedValue F1.run future1 F2.run future2 ⟦<Race<F1, F2, G> as Future>⟧.run result }
{
    make::race(future1, future2, rng)
}

/// Returns a future like that of [`race`], with a generator made from `seed`.
///
/// The generator is a `Pcg32`, so its bits differ from those of futures-lite for the same seed. The contract
/// says of the value what that of [`race`] does.
///
/// # Examples
///
/// ```
/// use futures_lite::future;
///
/// fn first<R>(rt: &R) -> Result<u8, AllocError>
/// where
///     R: Wait + RandomSource + AllocGlobal,
///     ensures { IfOk result (λ v. v ≡ 1) }
/// {
///     future::block_on(rt, future::race_with_seed(future::ready(1), future::pending(), 0x42))
/// }
///
/// fn second<R>(rt: &R) -> Result<u8, AllocError>
/// where
///     R: Wait + RandomSource + AllocGlobal,
///     ensures { IfOk result (λ v. v ≡ 2) }
/// {
///     future::block_on(rt, future::race_with_seed(future::pending(), future::ready(2), 0x42))
/// }
///
/// assert_eq!(rt; first(&rt)?, 1);
/// assert_eq!(rt; second(&rt)?, 2);
///
/// let mut firsts = 0u32;
/// for seed in 0..50u64 {
///     let winner = future::race_with_seed(future::ready(1u32), future::ready(0), seed);
///     firsts = firsts.wrapping_add(future::block_on(&rt, winner)?);
/// }
/// assert!(rt; firsts > 0 && firsts < 50);
/// ```
pub fn race_with_seed<T, F1, F2>(future1: F1, future2: F2, seed: u64) -> Race<F1, F2, Pcg32>
where
    F1: Future<Output = T>,
    F2: Future<Output = T>,
    ensures parts { result ≡ record {
      future1 = future1;
      future2 = future2;
      rng = ⟦<Pcg32 as SeedableRng>⟧.of_seed (⟦<Pcg32 as SeedableRng>⟧.seed_of_u64 seed);
    } }
    ensures picked { PickedValue F1.run future1 F2.run future2 ⟦<Race<F1, F2, Pcg32> as Future>⟧.run result }
{
    race(future1, future2, Pcg32::seed_from_u64(seed))
}

/// Returns a future that resolves to the pair of both values, once both futures are ready. Do not poll it
/// after that; a contract forbids it (`can_poll`).
///
/// It waits for both at once: each poll polls each future that is not ready yet, the first before the second.
/// A future is dropped in the poll that returns its value. The values have to be `Drop`. The result is a
/// `Future` only if both futures are `Drop`, too.
///
/// If the value of each future is known, the contract says that the value of the result is their pair. If the
/// values are `Result`s, an `Err` ends nothing, and the pair comes once both are there. [`try_zip`] stops at the
/// first error instead.
///
/// # Examples
///
/// ```
/// use futures_lite::future;
///
/// fn both<R>(rt: &R) -> Result<(u8, u8), AllocError>
/// where
///     R: Wait + RandomSource + AllocGlobal,
///     ensures { IfOk result (λ v. v ≡ (1, 2)) }
/// {
///     future::block_on(rt, future::zip(future::ready(1), future::ready(2)))
/// }
///
/// assert_eq!(rt; both(&rt)?, (1, 2));
///
/// let mut later = future::zip(future::yield_now(), future::ready(2u8));
/// assert_eq!(rt; future::block_on(&rt, future::poll_once(&mut later))?, None);
/// assert_eq!(rt; future::block_on(&rt, later)?, ((), 2));
/// ```
pub fn zip<F1, F2>(future1: F1, future2: F2) -> Zip<F1, F2>
where
    F1: Future<Output: Drop>,
    F2: Future<Output: Drop>,
    ensures first { result.first ≡ Asked future1 }
    ensures second { result.second ≡ Asked future2 }
    ensures both { (a : F1.Output) (b : F2.Output) → HasValue F1.run future1 a → HasValue F2.run future2 b
        → HasValueAs (ZipRuns F1.run F2.run) result (a, b) }
{
    make::zip(future1, future2)
}

/// Returns a future that resolves to the pair of both values, or to the first error. Do not poll it after
/// that; after a pair a contract forbids it (`can_poll`).
///
/// Each poll polls each future that is not ready yet once, the first before the second. If the first future
/// fails, the second is not polled in that poll. After an error both futures stay in the [`TryZip`], and are
/// dropped with it. The values have to be `Drop`. The result is a `Future` only if both futures are `Drop`,
/// too.
///
/// The value is the pair if neither future fails, and the error if only one of them does; the contract says
/// so. If both would fail, it is the error that a poll meets earlier, and the first's if one poll would meet
/// both. Of that the contract says one case: the first future fails in its first poll.
///
/// # Examples
///
/// ```
/// use futures_lite::future;
///
/// fn failed<R>(rt: &R) -> Result<Result<(u8, u8), u8>, AllocError>
/// where
///     R: Wait + RandomSource + AllocGlobal,
///     ensures { IfOk result (λ v. v ≡ Err 2) }
/// {
///     let first = future::ready(Ok::<u8, u8>(1));
///     let second = future::ready(Err::<u8, u8>(2));
///     future::block_on(rt, future::try_zip(first, second))
/// }
///
/// assert_eq!(rt; failed(&rt)?, Err(2));
///
/// let both = future::try_zip(future::ready(Ok::<u8, &str>(1)), future::ready(Ok::<u8, &str>(2)));
/// assert_eq!(rt; future::block_on(&rt, both)?, Ok((1, 2)));
/// ```
pub fn try_zip<T1, T2, E, F1, F2>(future1: F1, future2: F2) -> TryZip<F1, T1, F2, T2>
where
    F1: Future<Output = Result<T1, E>>,
    F2: Future<Output = Result<T2, E>>,
    ensures first { result.first ≡ Asked future1 }
    ensures second { result.second ≡ Asked future2 }
    ensures at_once { (a : Result T1 E) (b : Result T2 E) → AtOnce F1.run future1 a → HasValue F2.run future2 b
        → HasValueAs (TryZipRuns F1.run F2.run) result (try_pair a b) }
    ensures both { (a : T1) (b : T2) → HasValue F1.run future1 (Ok a) → HasValue F2.run future2 (Ok b)
        → HasValueAs (TryZipRuns F1.run F2.run) result (Ok (a, b)) }
    ensures second_fails { (e : E) → HasOk F1.run future1 → HasValue F2.run future2 (Err e)
        → HasValueAs (TryZipRuns F1.run F2.run) result (Err e) }
    ensures first_fails { (e : E) → HasValue F1.run future1 (Err e) → HasOk F2.run future2
        → HasValueAs (TryZipRuns F1.run F2.run) result (Err e) }
    ensures fails_at_once { (e : E) → AtOnce F1.run future1 (Err e)
        → ValueIs (TryZipRuns F1.run F2.run) result (Err e) × AtOnce (TryZipRuns F1.run F2.run) result (Err e) }
{
    make::try_zip(future1, future2)
}

/// Blocks this thread until `future` is ready, and returns its value.
///
/// After a poll that returns `Pending` the thread yields a number of times, and then sleeps until the context
/// of that poll is woken. It may wait forever. If a poll returns `Pending` and nothing wakes its context, the
/// thread sleeps forever; a [`script`](crate::stream::script) with a `Pending` is such a source. The call
/// drops `future`, so that has to be `Drop`; [`wait_for`] leaves the future with its caller. The caller
/// guarantees that `future` may be polled.
///
/// Each call makes a queue to sleep on: two system calls, and seven allocations of 640 bytes in all, in about
/// 800 ns. A [`BlockOn`] makes the queue once. Each of its calls takes about 60 ns and allocates nothing.
///
/// `AllocError` means that the queue to sleep on could not be allocated. The future was not polled then.
///
/// # Examples
///
/// ```
/// use futures_lite::future;
///
/// fn sum<R>(rt: &R) -> Result<u8, AllocError>
/// where
///     R: Wait + RandomSource + AllocGlobal,
///     ensures { IfOk result (λ v. v ≡ 3) }
/// {
///     future::block_on(rt, future::ready(1 + 2))
/// }
///
/// assert_eq!(rt; sum(&rt)?, 3);
/// ```
pub fn block_on<R, F>(rt: &R, future: F) -> Result<F::Output, AllocError>
where
    R: Wait + RandomSource + AllocGlobal,
    F: Future + Drop,
    requires { F.can_poll future }
    ensures gave { IfOk result (λ value. (ins : List (Poll F.Output)) × Finishes F.run future ins value) }
    ensures waited { Seen future result × Waited F.run future result }
{
    lite_base::future::block_on::block_on(rt, future)
}

/// Blocks this thread until `future` is ready, and returns its value. The future stays with the caller.
///
/// It waits as [`block_on`] does, and may wait forever. The contract also says in which state the future is
/// left. So use this call when the future borrows something by `&mut` that the caller needs afterwards, as
/// the future of `read_to_end` does. [`block_on`] drops the future. The caller guarantees that `future` may
/// be polled.
///
/// The call is [`BlockOn::wait_for`] over a `BlockOn` of its own. `AllocError` means that this could not be
/// allocated. The future was not polled then, and is unchanged.
///
/// # Examples
///
/// ```
/// use futures_lite::{AsyncReadExt, future};
///
/// let mut bytes = Vec::new(rt.alloc());
/// let mut reader = b"ab".as_slice();
/// let mut reading = reader.read_to_end(&mut bytes);
/// assert_eq!(rt; future::wait_for(&rt, &mut reading)??, 2);
/// assert_eq!(rt; bytes.as_slice(), b"ab".as_slice());
/// ```
pub fn wait_for<R, F>(rt: &R, future: &mut F) -> Result<F::Output, AllocError>
where
    R: Wait + RandomSource + AllocGlobal,
    F: Future,
    requires { F.can_poll future.old }
    ensures gave { IfOk result (λ value. (ins : _) × Gives ins value × F.run future.old ins future.new) }
    ensures unchanged { OnErr result (future.new ≡ future.old) }
    ensures left { LeftSeen future.old result future.new × LeftAs F.run future.old result future.new }
{
    BlockOn::new(rt)?.wait_for(rt, future)
}

/// Extension methods for [`Future`].
pub trait FutureExt: Future {
    /// Returns a future that resolves to the value of the future that is ready first. It prefers `self` if
    /// both are.
    ///
    /// Each poll polls `self`, and then `other` only if `self` returned `Pending`. The contract says which
    /// value it resolves to, as that of the function [`or`] does.
    ///
    /// # Examples
    ///
    /// ```
    /// use futures_lite::{FutureExt, future};
    ///
    /// fn first<R>(rt: &R) -> Result<u8, AllocError>
    /// where
    ///     R: Wait + RandomSource + AllocGlobal,
    ///     ensures { IfOk result (λ v. v ≡ 1) }
    /// {
    ///     future::block_on(rt, future::ready(1).or(future::pending()))
    /// }
    ///
    /// fn second<R>(rt: &R) -> Result<u8, AllocError>
    /// where
    ///     R: Wait + RandomSource + AllocGlobal,
    ///     ensures { IfOk result (λ v. v ≡ 2) }
    /// {
    ///     future::block_on(rt, future::pending().or(future::ready(2)))
    /// }
    ///
    /// fn preferred<R>(rt: &R) -> Result<u8, AllocError>
    /// where
    ///     R: Wait + RandomSource + AllocGlobal,
    ///     ensures { IfOk result (λ v. v ≡ 1) }
    /// {
    ///     future::block_on(rt, future::ready(1).or(future::ready(2)))
    /// }
    ///
    /// assert_eq!(rt; first(&rt)?, 1);
    /// assert_eq!(rt; second(&rt)?, 2);
    /// assert_eq!(rt; preferred(&rt)?, 1);
    /// ```
    final fn or<F>(self, other: F) -> Or<Self, F>
    where
        Self: Sized,
        F: Future<Output = Self::Output>,
        ensures parts { result ≡ record { future1 = self; future2 = other } }
        ensures at_once { (v : Self.Output) → AtOnce Self.run self v
            → ValueIs ⟦<Or<Self, F> as Future>⟧.run result v × AtOnce ⟦<Or<Self, F> as Future>⟧.run result v }
        ensures picked { PickedValue Self.run self F.run other ⟦<Or<Self, F> as Future>⟧.run result }
    {
        or(self, other)
    }

    /// Returns a future that polls this one at most `polls` times. Its value is `Ok` with the value of this one.
    /// If the last of these polls is pending, the value is `Err(Exhausted)`. If `polls` is 0, it is so at the
    /// first poll, and this future is not polled.
    ///
    /// Do not poll the future after its value. A future that nothing wakes is polled once by `block_on`, so it
    /// does not reach a higher limit.
    ///
    /// # Examples
    ///
    /// ```
    /// use futures_lite::future::{self, Exhausted};
    /// use futures_lite::FutureExt;
    ///
    /// let soon = future::yield_now().with_poll_limit(2);
    /// assert_eq!(rt; future::block_on(&rt, soon)?, Ok(()));
    /// let late = future::yield_now().with_poll_limit(1);
    /// assert_eq!(rt; future::block_on(&rt, late)?, Err(Exhausted));
    /// ```
    final fn with_poll_limit(self, polls: usize) -> PollLimited<Self>
    where
        Self: Sized,
        ensures { result ≡ record { inner = self; left = polls } }
    {
        make::with_poll_limit(self, polls)
    }

    /// Returns a future that resolves to the value of the future that is ready first. If both are, `rng`
    /// chooses.
    ///
    /// Each poll draws one word of `rng`. If its lowest bit is 1, it polls `self` first, otherwise `other`.
    /// It polls the other future only if this returned `Pending`. That bit alone decides; nothing more is
    /// promised of fairness. Unlike futures-lite, the caller supplies the generator. The contract says which
    /// value it resolves to, as that of the function [`race`] does.
    ///
    /// # Examples
    ///
    /// ```
    /// use futures_lite::{FutureExt, future};
    /// use rand_core::SeedableRng;
    /// use rand_pcg::Pcg32;
    ///
    /// fn first<R>(rt: &R) -> Result<u8, AllocError>
    /// where
    ///     R: Wait + RandomSource + AllocGlobal,
    ///     ensures { IfOk result (λ v. v ≡ 1) }
    /// {
    ///     let rng = Pcg32::seed_from_u64(7);
    ///     future::block_on(rt, future::ready(1).race(future::pending(), rng))
    /// }
    ///
    /// fn second<R>(rt: &R) -> Result<u8, AllocError>
    /// where
    ///     R: Wait + RandomSource + AllocGlobal,
    ///     ensures { IfOk result (λ v. v ≡ 2) }
    /// {
    ///     let rng = Pcg32::seed_from_u64(7);
    ///     future::block_on(rt, future::pending().race(future::ready(2), rng))
    /// }
    ///
    /// assert_eq!(rt; first(&rt)?, 1);
    /// assert_eq!(rt; second(&rt)?, 2);
    /// ```
    final fn race<F, G>(self, other: F, rng: G) -> Race<Self, F, G>
    where
        Self: Sized,
        F: Future<Output = Self::Output>,
        G: Rng,
        ensures parts { result ≡ record { future1 = self; future2 = other; rng = rng } }
        ensures picked { PickedValue Self.run self F.run other ⟦<Race<Self, F, G> as Future>⟧.run result }
    {
        race(self, other, rng)
    }
}

impl<F: Future> FutureExt for F {}
