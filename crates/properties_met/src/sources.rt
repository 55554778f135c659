//! Sources: two that are alike, and a calm one, of each type.
//! Polls of an iterator, of one item, of no item and of `Repeat` and `RepeatWith` are never pending, so they may be said to have
//! registered every fact. Those of `Pending` and `Script` register nothing.
ghost use Rattle.std.specs.List.{FoldsTo};
ghost use Rattle.std.specs.Prelude.{◌∷◌, Some, None, [], ◌≡◌};
ghost use Rattle.futures.specs.declared.task.Poll.TheVariants.{Pending as Waits, Ready};
ghost use Rattle.lite_base.specs.Alike.{Alike, SameItem};
ghost use Rattle.lite_base.specs.Calling.{AgreeFrom, Calls, MakesAlways};
ghost use Rattle.lite_base.specs.Pollers.{CallAnswers, NeverPends, CallRegisters};
ghost use Rattle.lite_reshape.specs.Cloned.{NoCloneRefused};
ghost use Rattle.lite_source.specs.Iter.{Iterates};
ghost use Rattle.lite_source.specs.RepeatWith.{Call};
ghost use Rattle.lite_source.specs.TryUnfold.{try_item_of, try_seed_of};
ghost use Rattle.lite_source.specs.Unfold.{item_of, seed_of};
ghost use Rattle.lite_source.specs.Unfolding.{BothHave, Holding, PartOf};
ghost use Rattle.properties_met.specs.Registering.{TellsAll, TellsEach};
ghost use Rattle.properties_met.specs.Unrefused.{AmpleWhere};

use lite_base::{CalmFuture, CalmStream, Context, Poll, SteadyFuture, SteadyStream, Stream};
use lite_source::{
    Empty, Iter, Once, OnceFuture, Pending, PollFn, Repeat, RepeatWith, Script, TryUnfold, Unfold,
};

/// Sources of values are alike to themselves, and a script to the same with a pending before it.
pub fn sources_are_alike<T>(t: &T, byte: u8, script: &Script<T>)
    ensures empty { ⟦<Empty<T> as SteadyStream>⟧.alike (record { item = record {} }) (record { item = record {} }) }
    ensures once { ⟦<Once<T> as SteadyStream>⟧.alike (record { value = Some t.now }) (record { value = Some t.now }) }
    ensures pending { ⟦<Pending<T> as SteadyStream>⟧.alike (record { item = record {} }) (record { item = record {} }) }
    ensures repeat { ⟦<Repeat<u8> as SteadyStream>⟧.alike (record { item = byte }) (record { item = byte }) }
    ensures script { ⟦<Script<T> as SteadyStream>⟧.alike script.now (Waits ∷ script.now) }
{}

/// Sources that call what agrees with itself are alike, and one of an iterator that does; those that unfold, where values that
/// are the same have an item both or neither, and so a seed.
pub fn calls_are_alike<T, E, U, V, I, Fut, Fut2, P, R, F, G>(
    x: &Fut,
    y: &Fut,
    t: &T,
    i: &I,
    p: &P,
    r: &R,
    f: &F,
    g: &G,
)
where
    T: Drop,
    I: Iterator,
    Fut: SteadyFuture<Output = Option<(U, T)>> + Drop,
    Fut2: SteadyFuture<Output = Result<Option<(U, T)>, E>> + Drop,
    P: FnMut(&mut Context<'_>) -> Poll<Option<V>>,
    R: FnMut() -> V,
    F: FnMut(T) -> Fut,
    G: FnMut(T) -> Fut2,
    requires future { Fut.alike x.now y.now }
    requires iterates { Alike (Iterates I.can_next I.next_gives I.remaining) i.now i.now }
    requires polls { Alike (FoldsTo (CallAnswers P.FnMut)) p.now p.now }
    requires repeats { Alike (FoldsTo (Call R.FnMut)) r.now r.now }
    requires unfolds { AgreeFrom (SameItem (PartOf Fut.same seed_of)) Fut.alike (Calls F.FnMut) f.now f.now }
    requires seed { SameItem (PartOf Fut.same seed_of) t.now t.now }
    requires both { BothHave (SameItem Fut.same) item_of × BothHave (SameItem Fut.same) seed_of }
    requires tries { AgreeFrom (SameItem (PartOf Fut2.same try_seed_of)) Fut2.alike (Calls G.FnMut) g.now g.now }
    requires try_seed { SameItem (PartOf Fut2.same try_seed_of) t.now t.now }
    requires try_both { BothHave (SameItem Fut2.same) try_item_of × BothHave (SameItem Fut2.same) try_seed_of }
    ensures iter { ⟦<Iter<I> as SteadyStream>⟧.alike (record { iter = i.now }) (record { iter = i.now }) }
    ensures once_future { ⟦<OnceFuture<Fut> as SteadyStream>⟧.alike (record { future = Some x.now }) (record { future = Some y.now }) }
    ensures poll_fn { ⟦<PollFn<P> as SteadyStream>⟧.alike (record { f = p.now }) (record { f = p.now }) }
    ensures repeat_with { ⟦<RepeatWith<R> as SteadyStream>⟧.alike (record { f = r.now }) (record { f = r.now }) }
    ensures unfold { ⟦<Unfold<T, F, Fut> as SteadyStream>⟧.alike
        (record { f = f.now; state = Holding.Seed t.now }) (record { f = f.now; state = Holding.Seed t.now }) }
    ensures try_unfold { ⟦<TryUnfold<T, G, Fut2> as SteadyStream>⟧.alike
        (record { f = g.now; state = Holding.Seed t.now }) (record { f = g.now; state = Holding.Seed t.now }) }
{}

/// Sources of values are calm, and so is a script without a pending.
pub fn sources_are_calm<T: Clone, I: Iterator, V, R: FnMut() -> V>(t: &T, i: &I, r: &R)
    ensures empty { ⟦<Empty<T> as CalmStream>⟧.is_calm (record { item = record {} }) }
    ensures iter { ⟦<Iter<I> as CalmStream>⟧.is_calm (record { iter = i.now }) }
    ensures once { ⟦<Once<T> as CalmStream>⟧.is_calm (record { value = Some t.now }) }
    ensures repeat { ⟦<Repeat<T> as CalmStream>⟧.is_calm (record { item = t.now }) }
    ensures repeat_with { ⟦<RepeatWith<R> as CalmStream>⟧.is_calm (record { f = r.now }) }
    ensures script { ⟦<Script<T> as CalmStream>⟧.is_calm (Ready (Some t.now) ∷ Ready None ∷ []) }
{}

/// Sources that call what is never pending, or makes calm futures, are calm.
pub fn calls_are_calm<T, E, U, V, Fut, Fut2, P, F, G>(x: &Fut, t: &T, p: &P, f: &F, g: &G)
where
    T: Drop,
    Fut: CalmFuture<Output = Option<(U, T)>> + Drop,
    Fut2: CalmFuture<Output = Result<Option<(U, T)>, E>> + Drop,
    P: FnMut(&mut Context<'_>) -> Poll<Option<V>>,
    F: FnMut(T) -> Fut,
    G: FnMut(T) -> Fut2,
    requires future { Fut.is_calm x.now }
    requires polls { NeverPends P.FnMut p.now }
    requires unfolds { MakesAlways F.FnMut Fut.is_calm f.now }
    requires tries { MakesAlways G.FnMut Fut2.is_calm g.now }
    ensures once_future { ⟦<OnceFuture<Fut> as CalmStream>⟧.is_calm (record { future = Some x.now }) }
    ensures poll_fn { ⟦<PollFn<P> as CalmStream>⟧.is_calm (record { f = p.now }) }
    ensures unfold { ⟦<Unfold<T, F, Fut> as CalmStream>⟧.is_calm (record { f = f.now; state = Holding.Seed t.now }) }
    ensures try_unfold { ⟦<TryUnfold<T, G, Fut2> as CalmStream>⟧.is_calm (record { f = g.now; state = Holding.Seed t.now }) }
{}

/// Sources over no future: no poll of one asks for memory, and those that are never pending tell each fact.
pub fn sources_alone<T, I, R>(
    empty: &Empty<T>,
    iter: &Iter<I>,
    once: &Once<T>,
    pending: &Pending<T>,
    repeat_with: &RepeatWith<R>,
    script: &Script<T>,
)
where
    I: Iterator,
    R: FnMut() -> T,
    ensures empty { TellsEach (⟦<Empty<T> as Stream>⟧.registers empty.now) × ⟦<Empty<T> as SteadyStream>⟧.needs_none }
    ensures iter { TellsEach (⟦<Iter<I> as Stream>⟧.registers iter.now) × ⟦<Iter<I> as SteadyStream>⟧.needs_none }
    ensures once { TellsEach (⟦<Once<T> as Stream>⟧.registers once.now) × ⟦<Once<T> as SteadyStream>⟧.needs_none }
    ensures pending { ⟦<Pending<T> as SteadyStream>⟧.needs_none }
    ensures repeat_with { TellsEach (⟦<RepeatWith<R> as Stream>⟧.registers repeat_with.now) × ⟦<RepeatWith<R> as SteadyStream>⟧.needs_none }
    ensures script { ⟦<Script<T> as SteadyStream>⟧.needs_none }
{}

/// Clones of one item: a poll asks for no memory if no clone may fail, and a run without a refused clone is ample.
pub fn repeated<T: Clone>(repeat: &Repeat<T>)
    ensures registers { TellsEach (⟦<Repeat<T> as Stream>⟧.registers repeat.now) }
    ensures needs_none { ((x : T) → T.is_infallible x) → ⟦<Repeat<T> as SteadyStream>⟧.needs_none }
    ensures ample { AmpleWhere NoCloneRefused ⟦<Repeat<T> as Stream>⟧.run ⟦<Repeat<T> as SteadyStream>⟧.ample }
{}

/// A function that is polled as a stream, and the value of a future.
pub fn polled<T, P, Fut>(poll_fn: &PollFn<P>, once_future: &OnceFuture<Fut>, future: &Fut)
where
    P: FnMut(&mut Context<'_>) -> Poll<Option<T>>,
    Fut: SteadyFuture + Drop,
    ensures poll_fn { TellsAll (CallRegisters P.FnMut poll_fn.now.f) (⟦<PollFn<P> as Stream>⟧.registers poll_fn.now)
        × ⟦<PollFn<P> as SteadyStream>⟧.needs_none }
    ensures once_future { (once_future.now.future ≡ Some future.now
        → TellsAll (Fut.registers future.now) (⟦<OnceFuture<Fut> as Stream>⟧.registers once_future.now))
        × (Fut.needs_none → ⟦<OnceFuture<Fut> as SteadyStream>⟧.needs_none) }
{}

/// Sources that unfold: the future that is held has registered what it registers.
pub fn unfolded<T, U, E, F, G, Fut, Fut2>(
    source: &Unfold<T, F, Fut>,
    try_source: &TryUnfold<T, G, Fut2>,
    future: &Fut,
    trying: &Fut2,
)
where
    T: Drop,
    Fut: SteadyFuture<Output = Option<(U, T)>> + Drop,
    Fut2: SteadyFuture<Output = Result<Option<(U, T)>, E>> + Drop,
    F: FnMut(T) -> Fut,
    G: FnMut(T) -> Fut2,
    ensures source { (source.now.state ≡ Holding.Asked future.now
        → TellsAll (Fut.registers future.now) (⟦<Unfold<T, F, Fut> as Stream>⟧.registers source.now))
        × (Fut.needs_none → ⟦<Unfold<T, F, Fut> as SteadyStream>⟧.needs_none) }
    ensures try_source { (try_source.now.state ≡ Holding.Asked trying.now
        → TellsAll (Fut2.registers trying.now) (⟦<TryUnfold<T, G, Fut2> as Stream>⟧.registers try_source.now))
        × (Fut2.needs_none → ⟦<TryUnfold<T, G, Fut2> as SteadyStream>⟧.needs_none) }
{}
