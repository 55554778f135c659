//! Adapters that hold something between polls or have several streams: two that are alike, and a calm one, of each type.
//! A poll of `Drain` is never pending, so it may be said to have registered every fact.
ghost use Rattle.std.specs.Prelude.{None, Some, false, true, ◌≡◌, ◌<◌};
ghost use Rattle.futures.specs.Poll.{OnPending};
ghost use Rattle.futures.specs.Task.{IsArmed};
ghost use Rattle.lite_base.specs.Alike.{SameItem};
ghost use Rattle.lite_base.specs.Calling.{AgreeFrom, Calls, MakesAlways};
ghost use Rattle.lite_base.specs.Steady.{TakesNone};
ghost use Rattle.lite_base.specs.Registered.{HoldsWoken, Registered};
ghost use Rattle.lite_merge.specs.declared.stop_after_future.Stopping.TheVariants.{Holding, TakenOut};
ghost use Rattle.lite_reshape.specs.Cloned.{EqualClones, NoCloneRefused};
ghost use Rattle.lite_reshape.specs.Inner.{EachInner};
ghost use Rattle.lite_reshape.specs.Ended.Turn.{First, Second};
ghost use Rattle.properties_met.specs.Registering.{TellsAll, TellsEach};
ghost use Rattle.properties_met.specs.Unrefused.{AmpleWhere};

use lite_base::{
    ArmedStream, CalmFuture, CalmStream, Context, Counted, Future, Poll, SteadyFuture,
    SteadyStream, Stream, poll_armed_next,
};
use lite_merge::{Budgeted, Cycle, Drain, Or, Race, StopAfterFuture, Zip};
use lite_reshape::{Chain, Cloned, Filter, FlatMap, Flatten, Then};
use lite_source::Iter;
use lite_stream::Map;
use rand_core::Rng;

/// Adapters of two streams, and of streams and futures that are made of items, are alike over streams that are alike.
pub fn merges_are_alike<S, U, Fut, F, G>(x: &S, y: &S, v: &U, w: &U, f: &F, g: &G)
where
    S: SteadyStream + Counted<Item: Drop>,
    U: SteadyStream<Item = S::Item> + Drop,
    Fut: SteadyFuture + Drop,
    F: FnMut(S::Item) -> U,
    G: FnMut(S::Item) -> Fut,
    requires first { S.alike x.now y.now }
    requires second { U.alike v.now w.now }
    requires streams { AgreeFrom (SameItem S.same) U.alike (Calls F.FnMut) f.now f.now }
    requires futures { AgreeFrom (SameItem S.same) Fut.alike (Calls G.FnMut) g.now g.now }
    ensures chain { ⟦<Chain<S, U> as SteadyStream>⟧.alike
        (record { first = x.now; second = v.now; part = First })
        (record { first = y.now; second = w.now; part = First }) }
    ensures flat_map { ⟦<FlatMap<S, U, F> as SteadyStream>⟧.alike
        (record { stream = record { stream = x.now; f = f.now }; inner_stream = None })
        (record { stream = record { stream = y.now; f = f.now }; inner_stream = None }) }
    ensures then { ⟦<Then<S, G, Fut> as SteadyStream>⟧.alike
        (record { stream = x.now; future = None; f = g.now }) (record { stream = y.now; future = None; f = g.now }) }
    ensures zip { ⟦<Zip<S, U> as SteadyStream>⟧.alike
        (record { item_slot = None; first = x.now; second = v.now })
        (record { item_slot = None; first = y.now; second = w.now }) }
{}

/// Streams of streams are alike where the outer ones are, and each of the inner ones is alike to those that it is the same as.
pub fn inner_streams_are_alike<S, B>(x: &S, y: &S)
where
    B: SteadyStream + Drop,
    S: SteadyStream + Counted<Item = B>,
    requires outer { S.alike x.now y.now }
    requires inner { EachInner S.ample (λ b. (c : B) → SameItem S.same b c → B.alike b c) x.now None }
    ensures { ⟦<Flatten<S> as SteadyStream>⟧.alike (record { stream = x.now; inner_stream = None })
        (record { stream = y.now; inner_stream = None }) }
{}

/// Clones of what alike streams refer to are alike where clones are equal, as those of bytes are; of a calm stream they
/// are calm.
pub fn clones_have_properties<'a, T, S>(x: &S, y: &S)
where
    T: Clone + 'a,
    S: SteadyStream<Item = &'a T> + CalmStream,
    requires alike { S.alike x.now y.now }
    requires equal { EqualClones T.is_clone }
    requires is_calm { S.is_calm x.now }
    ensures alike { ⟦<Cloned<S> as SteadyStream>⟧.alike (record { stream = x.now; held = None })
        (record { stream = y.now; held = None }) }
    ensures is_calm { ⟦<Cloned<S> as CalmStream>⟧.is_calm (record { stream = x.now; held = None }) }
{}

/// Adapters of two streams, and of streams and futures that are made of items, are calm where all of these are.
pub fn merges_are_calm<S, U, Fut, F, G, R>(x: &S, v: &U, f: &F, g: &G, r: &R, done: &Fut)
where
    S: CalmStream + Counted<Item: Drop> + Clone,
    U: CalmStream<Item = S::Item> + Drop,
    Fut: CalmFuture + Drop,
    F: FnMut(S::Item) -> U,
    G: FnMut(S::Item) -> Fut,
    R: Rng,
    requires first { S.is_calm x.now }
    requires second { U.is_calm v.now }
    requires streams { MakesAlways F.FnMut U.is_calm f.now }
    requires futures { MakesAlways G.FnMut Fut.is_calm g.now }
    requires copies { (copy : S) → S.is_clone x.now copy → S.is_calm copy }
    ensures chain { ⟦<Chain<S, U> as CalmStream>⟧.is_calm (record { first = x.now; second = v.now; part = First }) }
    ensures flat_map { ⟦<FlatMap<S, U, F> as CalmStream>⟧.is_calm
        (record { stream = record { stream = x.now; f = f.now }; inner_stream = None }) }
    ensures then { ⟦<Then<S, G, Fut> as CalmStream>⟧.is_calm (record { stream = x.now; future = None; f = g.now }) }
    ensures zip { ⟦<Zip<S, U> as CalmStream>⟧.is_calm (record { item_slot = None; first = x.now; second = v.now }) }
    ensures or { ⟦<Or<S, U> as CalmStream>⟧.is_calm
        (record {
          stream1 = record { stream = x.now; done = false };
          stream2 =
              record { stream = v.now; done = false };
        }) }
    ensures race { ⟦<Race<S, U, R> as CalmStream>⟧.is_calm
        (record {
          stream1 = record { stream = x.now; done = false };
          stream2 = record { stream = v.now; done = false };
          rng = r.now;
        }) }
    ensures cycle { ⟦<Cycle<S> as CalmStream>⟧.is_calm (record { original = x.now; stream = Some x.now }) }
    ensures stopped { ⟦<StopAfterFuture<S, Fut> as CalmStream>⟧.is_calm (record { stream = x.now; future = Holding done.now }) }
{}

/// What drains a stream is calm, and so is a stream of calm streams where each of them is.
pub fn inner_streams_are_calm<'a, S, B>(x: &S, drained: &Drain<'a, S>)
where
    B: CalmStream + Drop,
    S: CalmStream + Counted<Item = B>,
    requires outer { S.is_calm x.now }
    requires inner { EachInner S.run B.is_calm x.now None }
    ensures drain { ⟦<Drain<'a, S> as CalmStream>⟧.is_calm drained.now }
    ensures flatten { ⟦<Flatten<S> as CalmStream>⟧.is_calm (record { stream = x.now; inner_stream = None }) }
{}

/// Streams with a budget each, as [`with_budget`](lite_merge::make::with_budget) makes them, are alike over streams that are alike,
/// whatever the budgets are.
pub fn budgets_are_alike<S: SteadyStream>(x: &S, y: &S, n: usize, m: usize)
    requires { S.alike x.now y.now }
    ensures { ⟦<Budgeted<S> as SteadyStream>⟧.alike (record { stream = x.now; budget = n; left = n; paused = false })
        (record { stream = y.now; budget = m; left = m; paused = false }) }
{}

/// Adapters that hold a future or a stream between polls: it alone is polled then.
pub fn holding_adapters<S, U, Fut, F, G>(
    flat_map: &FlatMap<S, U, F>,
    then: &Then<S, G, Fut>,
    inner: &U,
    future: &Fut,
)
where
    S: SteadyStream + Counted,
    U: SteadyStream + Counted + Drop,
    Fut: SteadyFuture + Drop,
    F: FnMut(S::Item) -> U,
    G: FnMut(S::Item) -> Fut,
    ensures flat_map { (flat_map.now.inner_stream ≡ Some inner.now
        → TellsAll (U.registers inner.now) (⟦<FlatMap<S, U, F> as Stream>⟧.registers flat_map.now))
        × (flat_map.now.inner_stream ≡ None
        → TellsAll (S.registers flat_map.now.stream.stream) (⟦<FlatMap<S, U, F> as Stream>⟧.registers flat_map.now))
        × (S.needs_none → U.needs_none → ⟦<FlatMap<S, U, F> as SteadyStream>⟧.needs_none) }
    ensures then { (then.now.future ≡ Some future.now
        → TellsAll (Fut.registers future.now) (⟦<Then<S, G, Fut> as Stream>⟧.registers then.now))
        × (then.now.future ≡ None
        → TellsAll (S.registers then.now.stream) (⟦<Then<S, G, Fut> as Stream>⟧.registers then.now))
        × (S.needs_none → Fut.needs_none → ⟦<Then<S, G, Fut> as SteadyStream>⟧.needs_none) }
{}

/// A stream of streams: the inner one alone is polled while it is held.
pub fn flattened<S, B>(flatten: &Flatten<S>, inner: &B)
where
    B: SteadyStream + Counted + Drop,
    S: SteadyStream + Counted<Item = B>,
    ensures { (flatten.now.inner_stream ≡ Some inner.now
        → TellsAll (B.registers inner.now) (⟦<Flatten<S> as Stream>⟧.registers flatten.now))
        × (flatten.now.inner_stream ≡ None
        → TellsAll (S.registers flatten.now.stream) (⟦<Flatten<S> as Stream>⟧.registers flatten.now))
        × (S.needs_none → B.needs_none → ⟦<Flatten<S> as SteadyStream>⟧.needs_none) }
{}

/// Two streams one after the other, and in pairs.
pub fn two_streams<S, U>(chain: &Chain<S, U>, zip: &Zip<S, U>, budgeted: &Budgeted<S>)
where
    S: SteadyStream<Item: Drop>,
    U: SteadyStream<Item = S::Item>,
    ensures chain { S.needs_none → U.needs_none → ⟦<Chain<S, U> as SteadyStream>⟧.needs_none }
    ensures zip { S.needs_none → U.needs_none → ⟦<Zip<S, U> as SteadyStream>⟧.needs_none }
    ensures budgeted { S.needs_none → ⟦<Budgeted<S> as SteadyStream>⟧.needs_none }
{}

/// Two streams of which each poll asks both, if neither has an item: each that has not ended has registered what it registers.
pub fn merged<S, U, G>(or: &Or<S, U>, race: &Race<S, U, G>)
where
    S: Stream,
    U: Stream<Item = S::Item>,
    G: Rng,
    ensures or { (or.now.stream1.done ≡ false
        → TellsAll (S.registers or.now.stream1.stream) (⟦<Or<S, U> as Stream>⟧.registers or.now))
        × (or.now.stream2.done ≡ false
        → TellsAll (U.registers or.now.stream2.stream) (⟦<Or<S, U> as Stream>⟧.registers or.now)) }
    ensures race { (race.now.stream1.done ≡ false
        → TellsAll (S.registers race.now.stream1.stream) (⟦<Race<S, U, G> as Stream>⟧.registers race.now))
        × (race.now.stream2.done ≡ false
        → TellsAll (U.registers race.now.stream2.stream) (⟦<Race<S, U, G> as Stream>⟧.registers race.now)) }
{}

/// Two streams of which one alone is polled: in pairs, the second while an item of the first is held; one after the other, the
/// first until it has ended.
pub fn one_of_two<S, U>(zip: &Zip<S, U>, item: &S::Item, chain: &Chain<S, U>)
where
    S: Stream<Item: Drop>,
    U: Stream<Item = S::Item>,
    ensures zip { (zip.now.item_slot ≡ None
        → TellsAll (S.registers zip.now.first) (⟦<Zip<S, U> as Stream>⟧.registers zip.now))
        × (zip.now.item_slot ≡ Some item.now
        → TellsAll (U.registers zip.now.second) (⟦<Zip<S, U> as Stream>⟧.registers zip.now)) }
    ensures chain { (chain.now.part ≡ First
        → TellsAll (S.registers chain.now.first) (⟦<Chain<S, U> as Stream>⟧.registers chain.now))
        × (chain.now.part ≡ Second
        → TellsAll (U.registers chain.now.second) (⟦<Chain<S, U> as Stream>⟧.registers chain.now)) }
{}

/// A stream beside a future: both are polled while the future is held, and the stream alone once it was taken out.
pub fn stopped<S, Fut>(stop: &StopAfterFuture<S, Fut>, future: &Fut)
where
    S: Stream,
    Fut: Future + Drop,
    ensures held { stop.now.future ≡ Holding future.now
        → TellsAll (S.registers stop.now.stream) (⟦<StopAfterFuture<S, Fut> as Stream>⟧.registers stop.now)
        × TellsAll (Fut.registers future.now) (⟦<StopAfterFuture<S, Fut> as Stream>⟧.registers stop.now) }
    ensures taken_out { stop.now.future ≡ TakenOut
        → TellsAll (S.registers stop.now.stream) (⟦<StopAfterFuture<S, Fut> as Stream>⟧.registers stop.now) }
{}

/// A cycle has registered what the copy does that was polled. A budget has registered a wake at its own pending, which it notes, and
/// at any other what its stream does.
pub fn cycled<S>(cycle: &Cycle<S>, copy: &S, budgeted: &Budgeted<S>)
where
    S: Stream + Clone,
    ensures cycle { cycle.now.stream ≡ Some copy.now
        → TellsAll (S.registers copy.now) (⟦<Cycle<S> as Stream>⟧.registers cycle.now) }
    ensures budgeted { (budgeted.now.paused ≡ true → TellsAll HoldsWoken (⟦<Budgeted<S> as Stream>⟧.registers budgeted.now))
        × (budgeted.now.paused ≡ false
        → TellsAll (S.registers budgeted.now.stream) (⟦<Budgeted<S> as Stream>⟧.registers budgeted.now)) }
{}

/// Polls a nest over a stream with a budget. If nothing of the budget is left, the result is the budget's own pending, which has woken
/// the task. Any other pending is the stream's, and has registered what that registers.
pub fn poll_mapped<S, U, F>(nest: &mut Map<Budgeted<S>, F>, cx: &mut Context<'_>) -> Poll<Option<U>>
where
    S: Stream,
    F: FnMut(S::Item) -> U,
    requires { ⟦<Map<Budgeted<S>, F> as Stream>⟧.can_poll nest.old }
    ensures own { nest.old.stream.left ≡ 0 → (result ≡ Poll.Pending) × Registered result HoldsWoken cx.new }
    ensures source { 0 < nest.old.stream.left → Registered result (S.registers nest.new.stream.stream) cx.new }
{
    nest.poll_next(cx)
}

/// Polls a nest over the items of an iterator with a budget: each pending has woken the task, because it is the budget's.
pub fn poll_mapped_items<I, U, F>(
    nest: &mut Map<Budgeted<Iter<I>>, F>,
    cx: &mut Context<'_>,
) -> Poll<Option<U>>
where
    I: Iterator,
    F: FnMut(I::Item) -> U,
    requires { ⟦<Map<Budgeted<Iter<I>>, F> as Stream>⟧.can_poll nest.old }
    ensures { Registered result HoldsWoken cx.new }
{
    nest.poll_next(cx)
}

/// Polls a nest of five adapters over armed streams. Each of the five is armed because its parts are, so the task may be parked after any
/// pending of the nest.
pub fn poll_armed_nest<S, U, V, W, F, P>(
    nest: &mut Filter<Map<Zip<Chain<S, U>, Budgeted<V>>, F>, P>,
    cx: &mut Context<'_>,
) -> Poll<Option<W>>
where
    S: Counted<Item: Drop> + ArmedStream,
    U: Counted<Item = S::Item> + ArmedStream,
    V: ArmedStream,
    W: Drop,
    F: FnMut((S::Item, V::Item)) -> W,
    P: FnMut(&W) -> bool,
    requires { ⟦<Filter<Map<Zip<Chain<S, U>, Budgeted<V>>, F>, P> as Stream>⟧.can_poll nest.old }
    ensures { OnPending result (IsArmed cx.new) }
{
    poll_armed_next(nest, cx)
}

/// What drains a stream is never pending.
pub fn drained<'a, S: Stream>(drain: &Drain<'a, S>)
    ensures { TellsEach (⟦<Drain<'a, S> as Stream>⟧.registers drain.now) }
{}

/// Clones of items: a run without a refused clone is ample, if each run of the stream is.
pub fn cloned<'a, T, S>(cloned: &Cloned<S>)
where
    T: Clone + 'a,
    S: SteadyStream<Item = &'a T>,
    ensures registers { TellsAll (S.registers cloned.now.stream) (⟦<Cloned<S> as Stream>⟧.registers cloned.now) }
    ensures needs_none { S.needs_none → ((x : T) → T.is_infallible x) → ⟦<Cloned<S> as SteadyStream>⟧.needs_none }
    ensures ample { TakesNone S.run S.ample
        → AmpleWhere NoCloneRefused ⟦<Cloned<S> as Stream>⟧.run ⟦<Cloned<S> as SteadyStream>⟧.ample }
{}
