//! Adapters of streams. Two of a type are alike if their streams are, if their closures agree, and if all else that they hold is equal. One is calm if
//! its stream is, and asks for no memory if its stream asks for none. What the context holds at a `Pending` of the stream it holds at one of the adapter.
ghost use Rattle.std.specs.Fn.{CalledAt};
ghost use Rattle.std.specs.Prelude.{◌≡◌, Some};
ghost use Rattle.lite_base.specs.Alike.{SameItem};
ghost use Rattle.lite_base.specs.Calling.{AgreeFrom, AgreeKeeping, AgreeOver, Calls, CallsWith};
ghost use Rattle.properties_met.specs.Registering.{TellsAll};

use lite_base::{CalmStream, Counted, SteadyStream, Stream};
use lite_reshape::{Filter, FilterMap, Skip, SkipWhile, StepBy};
use lite_stream::{Copied, Enumerate, Fuse, Inspect, Map, MapWhile, Scan, Take, TakeWhile};

/// A [`Copied`] is steady.
pub fn copied_is_steady<'a, T: Copy + 'a, S: SteadyStream<Item = &'a T>>(
    x: &Copied<S>,
    y: &Copied<S>,
)
    ensures alike { S.alike x.now.stream y.now.stream → ⟦<Copied<S> as SteadyStream>⟧.alike x.now y.now }
    ensures registers { TellsAll (S.registers x.now.stream) (⟦<Copied<S> as Stream>⟧.registers x.now) }
    ensures needs_none { S.needs_none → ⟦<Copied<S> as SteadyStream>⟧.needs_none }
{}

/// A [`Copied`] is calm over a calm stream.
pub fn copied_is_calm<'a, T: Copy + 'a, S: CalmStream<Item = &'a T>>(x: &Copied<S>)
    ensures { S.is_calm x.now.stream → ⟦<Copied<S> as CalmStream>⟧.is_calm x.now }
{}

/// An [`Enumerate`] is steady.
pub fn enumerate_is_steady<S: SteadyStream>(x: &Enumerate<S>, y: &Enumerate<S>)
    ensures alike { S.alike x.now.stream y.now.stream → y.now.i ≡ x.now.i → ⟦<Enumerate<S> as SteadyStream>⟧.alike x.now y.now }
    ensures registers { TellsAll (S.registers x.now.stream) (⟦<Enumerate<S> as Stream>⟧.registers x.now) }
    ensures needs_none { S.needs_none → ⟦<Enumerate<S> as SteadyStream>⟧.needs_none }
{}

/// An [`Enumerate`] is calm over a calm stream.
pub fn enumerate_is_calm<S: CalmStream>(x: &Enumerate<S>)
    ensures { S.is_calm x.now.stream → ⟦<Enumerate<S> as CalmStream>⟧.is_calm x.now }
{}

/// A [`Fuse`] is steady.
pub fn fuse_is_steady<S: SteadyStream>(x: &Fuse<S>, y: &Fuse<S>)
    ensures alike { S.alike x.now.stream y.now.stream → y.now.done ≡ x.now.done → ⟦<Fuse<S> as SteadyStream>⟧.alike x.now y.now }
    ensures registers { TellsAll (S.registers x.now.stream) (⟦<Fuse<S> as Stream>⟧.registers x.now) }
    ensures needs_none { S.needs_none → ⟦<Fuse<S> as SteadyStream>⟧.needs_none }
{}

/// A [`Fuse`] is calm over a calm stream.
pub fn fuse_is_calm<S: CalmStream>(x: &Fuse<S>)
    ensures { S.is_calm x.now.stream → ⟦<Fuse<S> as CalmStream>⟧.is_calm x.now }
{}

/// An [`Inspect`] is steady.
pub fn inspect_is_steady<S: SteadyStream, F: FnMut(&S::Item)>(x: &Inspect<S, F>, y: &Inspect<S, F>)
    ensures alike { S.alike x.now.stream y.now.stream → ⟦<Inspect<S, F> as SteadyStream>⟧.alike x.now y.now }
    ensures registers { TellsAll (S.registers x.now.stream) (⟦<Inspect<S, F> as Stream>⟧.registers x.now) }
    ensures needs_none { S.needs_none → ⟦<Inspect<S, F> as SteadyStream>⟧.needs_none }
{}

/// An [`Inspect`] is calm over a calm stream.
pub fn inspect_is_calm<S: CalmStream, F: FnMut(&S::Item)>(x: &Inspect<S, F>)
    ensures { S.is_calm x.now.stream → ⟦<Inspect<S, F> as CalmStream>⟧.is_calm x.now }
{}

/// Two of [`Map`] are alike, if their closures agree.
pub fn map_is_alike<U, S: SteadyStream, F: FnMut(S::Item) -> U>(x: &S, y: &S, f: &F)
    requires alike { S.alike x.now y.now }
    requires maps { AgreeOver S.same (Calls F.FnMut) f.now f.now }
    ensures { ⟦<Map<S, F> as SteadyStream>⟧.alike (record { stream = x.now; f = f.now })
        (record { stream = y.now; f = f.now }) }
{}

/// A [`Map`] is steady.
pub fn map_is_steady<U, S: SteadyStream, F: FnMut(S::Item) -> U>(x: &Map<S, F>)
    ensures registers { TellsAll (S.registers x.now.stream) (⟦<Map<S, F> as Stream>⟧.registers x.now) }
    ensures needs_none { S.needs_none → ⟦<Map<S, F> as SteadyStream>⟧.needs_none }
{}

/// A [`Map`] is calm over a calm stream.
pub fn map_is_calm<U, S: CalmStream, F: FnMut(S::Item) -> U>(x: &Map<S, F>)
    ensures { S.is_calm x.now.stream → ⟦<Map<S, F> as CalmStream>⟧.is_calm x.now }
{}

/// Two of [`MapWhile`] are alike, if their closures agree.
pub fn map_while_is_alike<U, S: SteadyStream, F: FnMut(S::Item) -> Option<U>>(x: &S, y: &S, f: &F)
    requires alike { S.alike x.now y.now }
    requires chooses { AgreeKeeping S.same (Calls F.FnMut) f.now f.now }
    ensures { ⟦<MapWhile<S, F> as SteadyStream>⟧.alike (record { stream = x.now; f = f.now })
        (record { stream = y.now; f = f.now }) }
{}

/// A [`MapWhile`] is steady.
pub fn map_while_is_steady<U, S: SteadyStream, F: FnMut(S::Item) -> Option<U>>(x: &MapWhile<S, F>)
    ensures registers { TellsAll (S.registers x.now.stream) (⟦<MapWhile<S, F> as Stream>⟧.registers x.now) }
    ensures needs_none { S.needs_none → ⟦<MapWhile<S, F> as SteadyStream>⟧.needs_none }
{}

/// A [`MapWhile`] is calm over a calm stream.
pub fn map_while_is_calm<U, S: CalmStream, F: FnMut(S::Item) -> Option<U>>(x: &MapWhile<S, F>)
    ensures { S.is_calm x.now.stream → ⟦<MapWhile<S, F> as CalmStream>⟧.is_calm x.now }
{}

/// Two of [`Scan`] are alike, if their closures agree.
pub fn scan_is_alike<T, U, S: SteadyStream, F: FnMut(&mut T, S::Item) -> Option<U>>(
    x: &S,
    y: &S,
    state: &T,
    f: &F,
)
    requires alike { S.alike x.now y.now }
    requires scans { AgreeKeeping S.same (CallsWith F.FnMut) (f.now, state.now) (f.now, state.now) }
    ensures { ⟦<Scan<S, T, F> as SteadyStream>⟧.alike (record { stream = x.now; state = state.now; f = f.now })
        (record { stream = y.now; state = state.now; f = f.now }) }
{}

/// A [`Scan`] is steady.
pub fn scan_is_steady<T, U, S: SteadyStream, F: FnMut(&mut T, S::Item) -> Option<U>>(
    x: &Scan<S, T, F>,
)
    ensures registers { TellsAll (S.registers x.now.stream) (⟦<Scan<S, T, F> as Stream>⟧.registers x.now) }
    ensures needs_none { S.needs_none → ⟦<Scan<S, T, F> as SteadyStream>⟧.needs_none }
{}

/// A [`Scan`] is calm over a calm stream.
pub fn scan_is_calm<T, U, S: CalmStream, F: FnMut(&mut T, S::Item) -> Option<U>>(x: &Scan<S, T, F>)
    ensures { S.is_calm x.now.stream → ⟦<Scan<S, T, F> as CalmStream>⟧.is_calm x.now }
{}

/// A [`Take`] is steady.
pub fn take_is_steady<S: SteadyStream>(x: &Take<S>, y: &Take<S>)
    ensures alike { S.alike x.now.stream y.now.stream → y.now.n ≡ x.now.n → ⟦<Take<S> as SteadyStream>⟧.alike x.now y.now }
    ensures registers { TellsAll (S.registers x.now.stream) (⟦<Take<S> as Stream>⟧.registers x.now) }
    ensures needs_none { S.needs_none → ⟦<Take<S> as SteadyStream>⟧.needs_none }
{}

/// A [`Take`] is calm over a calm stream.
pub fn take_is_calm<S: CalmStream>(x: &Take<S>)
    ensures { S.is_calm x.now.stream → ⟦<Take<S> as CalmStream>⟧.is_calm x.now }
{}

/// Two of [`TakeWhile`] are alike, if their closures agree.
pub fn take_while_is_alike<S: SteadyStream<Item: Drop>, P: FnMut(&S::Item) -> bool>(
    x: &S,
    y: &S,
    p: &P,
)
    requires alike { S.alike x.now y.now }
    requires tests { AgreeFrom (SameItem S.same) (λ b c. b ≡ c) (CalledAt P.FnMut) p.now p.now }
    ensures { ⟦<TakeWhile<S, P> as SteadyStream>⟧.alike (record { stream = x.now; predicate = p.now })
        (record { stream = y.now; predicate = p.now }) }
{}

/// A [`TakeWhile`] is steady.
pub fn take_while_is_steady<S: SteadyStream<Item: Drop>, P: FnMut(&S::Item) -> bool>(
    x: &TakeWhile<S, P>,
)
    ensures registers { TellsAll (S.registers x.now.stream) (⟦<TakeWhile<S, P> as Stream>⟧.registers x.now) }
    ensures needs_none { S.needs_none → ⟦<TakeWhile<S, P> as SteadyStream>⟧.needs_none }
{}

/// A [`TakeWhile`] is calm over a calm stream.
pub fn take_while_is_calm<S: CalmStream<Item: Drop>, P: FnMut(&S::Item) -> bool>(
    x: &TakeWhile<S, P>,
)
    ensures { S.is_calm x.now.stream → ⟦<TakeWhile<S, P> as CalmStream>⟧.is_calm x.now }
{}

/// Two of [`Filter`] are alike, if their closures agree.
pub fn filter_is_alike<S: Counted<Item: Drop> + SteadyStream, P: FnMut(&S::Item) -> bool>(
    x: &S,
    y: &S,
    p: &P,
)
    requires alike { S.alike x.now y.now }
    requires tests { AgreeFrom (SameItem S.same) (λ b c. b ≡ c) (CalledAt P.FnMut) p.now p.now }
    ensures { ⟦<Filter<S, P> as SteadyStream>⟧.alike (record { stream = x.now; predicate = p.now })
        (record { stream = y.now; predicate = p.now }) }
{}

/// A [`Filter`] is steady.
pub fn filter_is_steady<S: Counted<Item: Drop> + SteadyStream, P: FnMut(&S::Item) -> bool>(
    x: &Filter<S, P>,
)
    ensures registers { TellsAll (S.registers x.now.stream) (⟦<Filter<S, P> as Stream>⟧.registers x.now) }
    ensures needs_none { S.needs_none → ⟦<Filter<S, P> as SteadyStream>⟧.needs_none }
{}

/// A [`Filter`] is calm over a calm stream.
pub fn filter_is_calm<S: Counted<Item: Drop> + CalmStream, P: FnMut(&S::Item) -> bool>(
    x: &Filter<S, P>,
)
    ensures { S.is_calm x.now.stream → ⟦<Filter<S, P> as CalmStream>⟧.is_calm x.now }
{}

/// Two of [`FilterMap`] are alike, if their closures agree.
pub fn filter_map_is_alike<U, S: Counted + SteadyStream, F: FnMut(S::Item) -> Option<U>>(
    x: &S,
    y: &S,
    f: &F,
)
    requires alike { S.alike x.now y.now }
    requires chooses { AgreeKeeping S.same (Calls F.FnMut) f.now f.now }
    ensures { ⟦<FilterMap<S, F> as SteadyStream>⟧.alike (record { stream = x.now; f = f.now })
        (record { stream = y.now; f = f.now }) }
{}

/// A [`FilterMap`] is steady.
pub fn filter_map_is_steady<U, S: Counted + SteadyStream, F: FnMut(S::Item) -> Option<U>>(
    x: &FilterMap<S, F>,
)
    ensures registers { TellsAll (S.registers x.now.stream) (⟦<FilterMap<S, F> as Stream>⟧.registers x.now) }
    ensures needs_none { S.needs_none → ⟦<FilterMap<S, F> as SteadyStream>⟧.needs_none }
{}

/// A [`FilterMap`] is calm over a calm stream.
pub fn filter_map_is_calm<U, S: Counted + CalmStream, F: FnMut(S::Item) -> Option<U>>(
    x: &FilterMap<S, F>,
)
    ensures { S.is_calm x.now.stream → ⟦<FilterMap<S, F> as CalmStream>⟧.is_calm x.now }
{}

/// A [`Skip`] is steady.
pub fn skip_is_steady<S: SteadyStream<Item: Drop>>(x: &Skip<S>, y: &Skip<S>)
    ensures alike { S.alike x.now.stream y.now.stream → y.now.n ≡ x.now.n → ⟦<Skip<S> as SteadyStream>⟧.alike x.now y.now }
    ensures registers { TellsAll (S.registers x.now.stream) (⟦<Skip<S> as Stream>⟧.registers x.now) }
    ensures needs_none { S.needs_none → ⟦<Skip<S> as SteadyStream>⟧.needs_none }
{}

/// A [`Skip`] is calm over a calm stream.
pub fn skip_is_calm<S: CalmStream<Item: Drop>>(x: &Skip<S>)
    ensures { S.is_calm x.now.stream → ⟦<Skip<S> as CalmStream>⟧.is_calm x.now }
{}

/// Two of [`SkipWhile`] are alike, if their closures agree.
pub fn skip_while_is_alike<
    S: Counted<Item: Drop> + SteadyStream,
    P: FnMut(&S::Item) -> bool + Drop,
>(x: &S, y: &S, p: &P)
    requires alike { S.alike x.now y.now }
    requires tests { AgreeFrom (SameItem S.same) (λ b c. b ≡ c) (CalledAt P.FnMut) p.now p.now }
    ensures { ⟦<SkipWhile<S, P> as SteadyStream>⟧.alike (record { stream = x.now; predicate = Some p.now })
        (record { stream = y.now; predicate = Some p.now }) }
{}

/// A [`SkipWhile`] is steady.
pub fn skip_while_is_steady<
    S: Counted<Item: Drop> + SteadyStream,
    P: FnMut(&S::Item) -> bool + Drop,
>(x: &SkipWhile<S, P>)
    ensures registers { TellsAll (S.registers x.now.stream) (⟦<SkipWhile<S, P> as Stream>⟧.registers x.now) }
    ensures needs_none { S.needs_none → ⟦<SkipWhile<S, P> as SteadyStream>⟧.needs_none }
{}

/// A [`SkipWhile`] is calm over a calm stream.
pub fn skip_while_is_calm<S: Counted<Item: Drop> + CalmStream, P: FnMut(&S::Item) -> bool + Drop>(
    x: &SkipWhile<S, P>,
)
    ensures { S.is_calm x.now.stream → ⟦<SkipWhile<S, P> as CalmStream>⟧.is_calm x.now }
{}

/// A [`StepBy`] is steady.
pub fn step_by_is_steady<S: SteadyStream<Item: Drop>>(x: &StepBy<S>, y: &StepBy<S>)
    ensures alike { S.alike x.now.stream y.now.stream → y.now.step ≡ x.now.step → y.now.i ≡ x.now.i
        → ⟦<StepBy<S> as SteadyStream>⟧.alike x.now y.now }
    ensures registers { TellsAll (S.registers x.now.stream) (⟦<StepBy<S> as Stream>⟧.registers x.now) }
    ensures needs_none { S.needs_none → ⟦<StepBy<S> as SteadyStream>⟧.needs_none }
{}

/// A [`StepBy`] is calm over a calm stream.
pub fn step_by_is_calm<S: CalmStream<Item: Drop>>(x: &StepBy<S>)
    ensures { S.is_calm x.now.stream → ⟦<StepBy<S> as CalmStream>⟧.is_calm x.now }
{}
