//! Futures: two that are alike, and a calm one, of each type.
//! A poll of `PollOnce` and of `Ready` is never pending, so it may be said to have registered every fact. One of `Pending`
//! registers nothing, and has no line on that.
ghost use Rattle.std.specs.Prelude.{Some, false, true, ◌≡◌};
ghost use Rattle.lite_base.specs.Alike.{Alike};
ghost use Rattle.lite_base.specs.Pollers.{NeverPends, Polled, CallRegisters};
ghost use Rattle.lite_base.specs.Registered.{HoldsWoken};
ghost use Rattle.lite_future.specs.declared.either.Either.TheVariants.{Left, Right};
ghost use Rattle.lite_future.specs.declared.side.Side.TheVariants.{Asked};
ghost use Rattle.properties_met.specs.Registering.{TellsAll, TellsEach};

use lite_base::{
    CalmFuture, CalmStream, Context, Future, Poll, SteadyFuture, SteadyStream, Stream,
};
use lite_future::{
    Either, Fuse, Or, Pending, PollFn, PollLimited, PollOnce, Race, Ready, TryZip, YieldNow, Zip,
};
use rand_core::Rng;

/// Futures of values are alike to themselves, one that yields to one that has yielded, and adapters where their futures
/// are.
pub fn futures_are_alike<T, V, E, P>(x: &E, y: &E, v: &V, w: &V, t: &T, p: &P)
where
    E: SteadyFuture<Output: Drop> + Drop,
    V: SteadyFuture<Output: Drop> + Drop,
    P: FnMut(&mut Context<'_>) -> Poll<T>,
    requires first { E.alike x.now y.now }
    requires second { V.alike v.now w.now }
    requires polls { Alike (Polled P.FnMut) p.now p.now }
    ensures fuse { ⟦<Fuse<E> as SteadyFuture>⟧.alike (record { inner = Some x.now }) (record { inner = Some y.now }) }
    ensures pending { ⟦<Pending<T> as SteadyFuture>⟧.alike (record { marker = record {} }) (record { marker = record {} }) }
    ensures poll_fn { ⟦<PollFn<P> as SteadyFuture>⟧.alike (record { f = p.now }) (record { f = p.now }) }
    ensures ready { ⟦<Ready<T> as SteadyFuture>⟧.alike (record { value = Some t.now }) (record { value = Some t.now }) }
    ensures yield_now { ⟦<YieldNow as SteadyFuture>⟧.alike (record { yielded = false }) (record { yielded = true }) }
    ensures zip { ⟦<Zip<E, V> as SteadyFuture>⟧.alike
        (record { first = Asked x.now; second = Asked v.now }) (record { first = Asked y.now; second = Asked w.now }) }
{}

/// A future of a value is calm, one that has yielded, and adapters where their futures are; of two that race, one is enough.
pub fn futures_are_calm<T, E, A, B, C, D, R, P>(a: &A, b: &B, c: &C, d: &D, r: &R, t: &T, p: &P)
where
    T: Drop,
    E: Drop,
    A: CalmFuture<Output = T> + Drop,
    B: CalmFuture<Output = T> + Drop,
    C: CalmFuture<Output = Result<T, E>> + Drop,
    D: CalmFuture<Output = Result<T, E>> + Drop,
    R: Rng,
    P: FnMut(&mut Context<'_>) -> Poll<T>,
    requires first { A.is_calm a.now }
    requires second { B.is_calm b.now }
    requires polls { NeverPends P.FnMut p.now }
    requires first_try { C.is_calm c.now }
    requires second_try { D.is_calm d.now }
    ensures or { ⟦<Or<A, B> as CalmFuture>⟧.is_calm (record { future1 = a.now; future2 = b.now }) }
    ensures poll_fn { ⟦<PollFn<P> as CalmFuture>⟧.is_calm (record { f = p.now }) }
    ensures poll_once { ⟦<PollOnce<A> as CalmFuture>⟧.is_calm (record { f = a.now }) }
    ensures race { ⟦<Race<A, B, R> as CalmFuture>⟧.is_calm (record { future1 = a.now; future2 = b.now; rng = r.now }) }
    ensures ready { ⟦<Ready<T> as CalmFuture>⟧.is_calm (record { value = Some t.now }) }
    ensures try_zip { ⟦<TryZip<C, T, D, T> as CalmFuture>⟧.is_calm (record { first = Asked c.now; second = Asked d.now }) }
    ensures yield_now { ⟦<YieldNow as CalmFuture>⟧.is_calm (record { yielded = true }) }
    ensures zip { ⟦<Zip<A, B> as CalmFuture>⟧.is_calm (record { first = Asked a.now; second = Asked b.now }) }
{}

/// One of two futures has the properties of that one. A future with a budget is calm if it is calm without.
pub fn either_has_properties<A, B>(x: &A, y: &A, v: &B, w: &B, left: usize)
where
    A: SteadyFuture + CalmFuture,
    B: SteadyFuture<Output = A::Output> + CalmFuture,
    requires first { A.alike x.now y.now }
    requires second { B.alike v.now w.now }
    requires calm_first { A.is_calm x.now }
    requires calm_second { B.is_calm v.now }
    ensures first { ⟦<Either<A, B> as SteadyFuture>⟧.alike (Left x.now) (Left y.now) }
    ensures second { ⟦<Either<A, B> as SteadyFuture>⟧.alike (Right v.now) (Right w.now) }
    ensures calm_first { ⟦<Either<A, B> as CalmFuture>⟧.is_calm (Left x.now) }
    ensures calm_second { ⟦<Either<A, B> as CalmFuture>⟧.is_calm (Right v.now) }
    ensures budget { ⟦<PollLimited<A> as CalmFuture>⟧.is_calm (record { inner = x.now; left = left }) }
{}

/// What is lent has the properties of what lends it.
pub fn lent_have_properties<'a, S, E>(x: &&'a mut S, y: &&'a mut S, a: &&'a mut E, b: &&'a mut E)
where
    S: SteadyStream + CalmStream,
    E: SteadyFuture + CalmFuture,
    requires streams { S.alike x.now.now y.now.now }
    requires futures { E.alike a.now.now b.now.now }
    requires calm_stream { S.is_calm x.now.now }
    requires calm_future { E.is_calm a.now.now }
    ensures alike_streams { ⟦<&'a mut S as SteadyStream>⟧.alike x.now y.now }
    ensures alike_futures { ⟦<&'a mut E as SteadyFuture>⟧.alike a.now b.now }
    ensures calm_stream { ⟦<&'a mut S as CalmStream>⟧.is_calm x.now }
    ensures calm_future { ⟦<&'a mut E as CalmFuture>⟧.is_calm a.now }
{}

/// Two futures that are waited for together: each that has no value yet has registered what it registers.
pub fn zipped<E, V>(zip: &Zip<E, V>, first: &E, second: &V)
where
    E: SteadyFuture<Output: Drop> + Drop,
    V: SteadyFuture<Output: Drop> + Drop,
    ensures first { zip.now.first ≡ Asked first.now
        → TellsAll (E.registers first.now) (⟦<Zip<E, V> as Future>⟧.registers zip.now) }
    ensures second { zip.now.second ≡ Asked second.now
        → TellsAll (V.registers second.now) (⟦<Zip<E, V> as Future>⟧.registers zip.now) }
    ensures needs_none { E.needs_none → V.needs_none → ⟦<Zip<E, V> as SteadyFuture>⟧.needs_none }
{}

/// Two futures that may fail, and are waited for together.
pub fn try_zipped<T, U, R, E, V>(try_zip: &TryZip<E, T, V, U>, first: &E, second: &V)
where
    E: Future<Output = Result<T, R>> + Drop,
    V: Future<Output = Result<U, R>> + Drop,
    T: Drop,
    U: Drop,
    ensures first { try_zip.now.first ≡ Asked first.now
        → TellsAll (E.registers first.now) (⟦<TryZip<E, T, V, U> as Future>⟧.registers try_zip.now) }
    ensures second { try_zip.now.second ≡ Asked second.now
        → TellsAll (V.registers second.now) (⟦<TryZip<E, T, V, U> as Future>⟧.registers try_zip.now) }
{}

/// Two futures of which one is waited for: after a pending, both were polled.
pub fn picked<E, V, G>(or: &Or<E, V>, race: &Race<E, V, G>)
where
    E: Future,
    V: Future<Output = E::Output>,
    G: Rng,
    ensures or { TellsAll (E.registers or.now.future1) (⟦<Or<E, V> as Future>⟧.registers or.now)
        × TellsAll (V.registers or.now.future2) (⟦<Or<E, V> as Future>⟧.registers or.now) }
    ensures race { TellsAll (E.registers race.now.future1) (⟦<Race<E, V, G> as Future>⟧.registers race.now)
        × TellsAll (V.registers race.now.future2) (⟦<Race<E, V, G> as Future>⟧.registers race.now) }
{}

/// A future that is dropped once it is ready, and one that is lent.
pub fn held_futures<'a, E>(fuse: &Fuse<E>, inner: &E, lent: &&'a mut E)
where
    E: SteadyFuture + Drop,
    ensures fuse { (fuse.now.inner ≡ Some inner.now
        → TellsAll (E.registers inner.now) (⟦<Fuse<E> as Future>⟧.registers fuse.now))
        × (E.needs_none → ⟦<Fuse<E> as SteadyFuture>⟧.needs_none) }
    ensures lent { TellsAll (E.registers lent.now.now) (⟦<&'a mut E as Future>⟧.registers lent.now)
        × (E.needs_none → ⟦<&'a mut E as SteadyFuture>⟧.needs_none) }
{}

/// One of two futures: it has registered what that one registers.
pub fn one_of_two_futures<A, B>(either: &Either<A, B>, first: &A, second: &B)
where
    A: SteadyFuture,
    B: SteadyFuture<Output = A::Output>,
    ensures first { either.now ≡ Left first.now
        → TellsAll (A.registers first.now) (⟦<Either<A, B> as Future>⟧.registers either.now) }
    ensures second { either.now ≡ Right second.now
        → TellsAll (B.registers second.now) (⟦<Either<A, B> as Future>⟧.registers either.now) }
    ensures needs_none { A.needs_none → B.needs_none → ⟦<Either<A, B> as SteadyFuture>⟧.needs_none }
{}

/// A future with a budget. It has no line on memory, since its value depends on how often it was pending.
pub fn budgeted_future<E: Future>(budgeted: &PollLimited<E>)
    ensures { TellsAll (E.registers budgeted.now.inner) (⟦<PollLimited<E> as Future>⟧.registers budgeted.now) }
{}

/// A stream that is lent.
pub fn lent_stream<'a, S>(lent: &&'a mut S)
where
    S: SteadyStream,
    ensures { TellsAll (S.registers lent.now.now) (⟦<&'a mut S as Stream>⟧.registers lent.now)
        × (S.needs_none → ⟦<&'a mut S as SteadyStream>⟧.needs_none) }
{}

/// A future that is polled once is never pending.
pub fn polled_once<E: Future>(once: &PollOnce<E>)
    ensures { TellsEach (⟦<PollOnce<E> as Future>⟧.registers once.now) }
{}

/// Futures over no other: no poll of one asks for memory.
pub fn futures_alone<T, P>(
    yield_now: &YieldNow,
    poll_fn: &PollFn<P>,
    ready: &Ready<T>,
    pending: &Pending<T>,
)
where
    P: FnMut(&mut Context<'_>) -> Poll<T>,
    ensures yield_now { TellsAll HoldsWoken (⟦<YieldNow as Future>⟧.registers yield_now.now)
        × ⟦<YieldNow as SteadyFuture>⟧.needs_none }
    ensures poll_fn { TellsAll (CallRegisters P.FnMut poll_fn.now.f) (⟦<PollFn<P> as Future>⟧.registers poll_fn.now)
        × ⟦<PollFn<P> as SteadyFuture>⟧.needs_none }
    ensures ready { TellsEach (⟦<Ready<T> as Future>⟧.registers ready.now) × ⟦<Ready<T> as SteadyFuture>⟧.needs_none }
    ensures pending { ⟦<Pending<T> as SteadyFuture>⟧.needs_none }
{}
