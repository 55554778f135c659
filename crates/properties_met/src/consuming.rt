//! Futures that consume a stream, and collections: two that are alike where their streams are, and a calm one, of each type.
//! Collections ask for memory: a run in which the collection took in each item is ample, if each run of the stream is.
ghost use Rattle.std.specs.Fn.{CalledAt};
ghost use Rattle.std.specs.Prelude.{◌≡◌, [], Some, None, IsOk};
ghost use Rattle.lite_base.specs.Alike.{SameItem};
ghost use Rattle.lite_base.specs.Calling.{Agree, AgreeFrom, AgreeKeeping, Calls};
ghost use Rattle.lite_base.specs.Steady.{TakesNone};
ghost use Rattle.lite_consume.specs.Fold.{CallsBoth, folds};
ghost use Rattle.lite_consume.specs.Agreeing.{AgreeBeside, AgreeDeciding, AgreeOrKin};
ghost use Rattle.lite_consume.specs.TryFold.{try_fold_steps};
ghost use Rattle.lite_consume.specs.TryForEach.{try_each_fold};
ghost use Rattle.lite_gather.specs.Agreeing.{Unmixed};
ghost use Rattle.lite_gather.specs.TryCollect.{HasMemory};
ghost use Rattle.properties_met.specs.Registering.{TellsAll};
ghost use Rattle.properties_met.specs.Unrefused.{AmpleWhere, GivesOnly};

use lite_base::{CalmFuture, CalmStream, Counted, Future, OkCounted, SteadyFuture, SteadyStream};
use lite_consume::{
    All, Any, Consume, Count, Find, FindMap, Fold, Folder, ForEach, Last, Next, Nth, Position,
    SteadyFolder, TryFold, TryForEach, TryNext,
};
use lite_gather::{CollectFuture, Gather, PartitionFuture, TryCollectFuture, UnzipFuture};

/// Futures that make something of the items of alike streams are alike, by closures that agree with themselves.
pub fn consumers_are_alike<S, U, V, P, O, Q, F, I, T>(
    x: &S,
    y: &S,
    v: &V,
    p: &P,
    o: &O,
    q: &Q,
    f: &F,
    i: &I,
    t: &T,
)
where
    S: SteadyStream + Counted<Item: Drop>,
    V: Drop,
    P: FnMut(S::Item) -> bool,
    O: FnMut(S::Item) -> Option<U>,
    Q: FnMut(&S::Item) -> bool,
    F: FnMut(V, S::Item) -> V,
    I: FnMut(S::Item),
    T: FnMut(S::Item) -> Result<(), U>,
    requires alike { S.alike x.now y.now }
    requires tests { AgreeFrom (SameItem S.same) (λ y z. y ≡ z) (Calls P.FnMut) p.now p.now }
    requires chooses { AgreeKeeping S.same (Calls O.FnMut) o.now o.now }
    requires finds { AgreeFrom (SameItem S.same) (λ y z. y ≡ z) (CalledAt Q.FnMut) q.now q.now }
    requires folds { AgreeOrKin S.same (AgreeBeside (Agree (CallsBoth F.FnMut))) (folds (CallsBoth F.FnMut)) (f.now, Some v.now)
        (f.now, Some v.now) }
    requires calls { AgreeFrom (SameItem S.same) (λ y z. y ≡ z) (Calls I.FnMut) i.now i.now }
    requires tries { AgreeDeciding S.same (Agree (Calls T.FnMut)) (try_each_fold (Calls T.FnMut)) t.now t.now }
    ensures all { ⟦<Consume<S, All<P>> as SteadyFuture>⟧.alike
        (record { stream = x.now; folder = record { predicate = p.now } })
        (record { stream = y.now; folder = record { predicate = p.now } }) }
    ensures any { ⟦<Consume<S, Any<P>> as SteadyFuture>⟧.alike
        (record { stream = x.now; folder = record { predicate = p.now } })
        (record { stream = y.now; folder = record { predicate = p.now } }) }
    ensures find { ⟦<Consume<S, Find<Q>> as SteadyFuture>⟧.alike
        (record { stream = x.now; folder = record { predicate = q.now } })
        (record { stream = y.now; folder = record { predicate = q.now } }) }
    ensures find_map { ⟦<Consume<S, FindMap<O>> as SteadyFuture>⟧.alike
        (record { stream = x.now; folder = record { f = o.now } })
        (record { stream = y.now; folder = record { f = o.now } }) }
    ensures fold { ⟦<Consume<S, Fold<F, V>> as SteadyFuture>⟧.alike
        (record { stream = x.now; folder = record { f = f.now; acc = Some v.now } })
        (record { stream = y.now; folder = record { f = f.now; acc = Some v.now } }) }
    ensures for_each { ⟦<Consume<S, ForEach<I>> as SteadyFuture>⟧.alike
        (record { stream = x.now; folder = record { f = i.now } })
        (record { stream = y.now; folder = record { f = i.now } }) }
    ensures position { ⟦<Consume<S, Position<P>> as SteadyFuture>⟧.alike
        (record { stream = x.now; folder = record { predicate = p.now; index = 0 } })
        (record { stream = y.now; folder = record { predicate = p.now; index = 0 } }) }
    ensures try_for_each { ⟦<Consume<S, TryForEach<T>> as SteadyFuture>⟧.alike
        (record { stream = x.now; folder = record { f = t.now } })
        (record { stream = y.now; folder = record { f = t.now } }) }
{}

/// Futures that count or choose the items of alike streams are alike.
pub fn choosers_are_alike<S>(x: &S, y: &S, n: usize)
where
    S: SteadyStream + Counted<Item: Drop>,
    requires { S.alike x.now y.now }
    ensures count { ⟦<Consume<S, Count> as SteadyFuture>⟧.alike
        (record { stream = x.now; folder = record { count = 0 } })
        (record { stream = y.now; folder = record { count = 0 } }) }
    ensures last { ⟦<Consume<S, Last<S::Item>> as SteadyFuture>⟧.alike
        (record { stream = x.now; folder = record { last = None } })
        (record { stream = y.now; folder = record { last = None } }) }
    ensures next { ⟦<Consume<S, Next> as SteadyFuture>⟧.alike
        (record { stream = x.now; folder = record {} }) (record { stream = y.now; folder = record {} }) }
    ensures nth { ⟦<Consume<S, Nth> as SteadyFuture>⟧.alike
        (record { stream = x.now; folder = record { n = n } }) (record { stream = y.now; folder = record { n = n } }) }
{}

/// Futures that try what alike streams hold are alike.
pub fn tries_are_alike<S, V, F>(x: &S, y: &S, v: &V, f: &F)
where
    V: Drop,
    S: SteadyStream + OkCounted,
    F: FnMut(V, S::Ok) -> Result<V, S::Err>,
    requires alike { S.alike x.now y.now }
    requires tries { AgreeDeciding S.same (AgreeBeside (Agree (CallsBoth F.FnMut))) (try_fold_steps (CallsBoth F.FnMut))
        (f.now, Some v.now) (f.now, Some v.now) }
    ensures try_fold { ⟦<Consume<S, TryFold<F, V>> as SteadyFuture>⟧.alike
        (record { stream = x.now; folder = record { f = f.now; acc = Some v.now } })
        (record { stream = y.now; folder = record { f = f.now; acc = Some v.now } }) }
    ensures try_next { ⟦<Consume<S, TryNext> as SteadyFuture>⟧.alike
        (record { stream = x.now; folder = record {} }) (record { stream = y.now; folder = record {} }) }
{}

/// A future that consumes a calm stream is calm; two that lend their folders are alike where the folders agree.
pub fn folders_have_properties<'a, S, E>(x: &&'a mut S, y: &&'a mut S, a: &&'a mut E, b: &&'a mut E)
where
    S: SteadyStream + CalmStream,
    E: SteadyFolder<S>,
    requires alike { S.alike x.now.now y.now.now }
    requires agree { E.agree a.now.now b.now.now }
    requires calm_stream { S.is_calm x.now.now }
    ensures lent { ⟦<Consume<&'a mut S, &'a mut E> as SteadyFuture>⟧.alike
        (record { stream = x.now; folder = a.now }) (record { stream = y.now; folder = b.now }) }
    ensures alike { ⟦<Consume<S, E> as SteadyFuture>⟧.alike
        (record { stream = x.now.now; folder = a.now.now }) (record { stream = y.now.now; folder = b.now.now }) }
    ensures is_calm { ⟦<Consume<S, E> as CalmFuture>⟧.is_calm (record { stream = x.now.now; folder = a.now.now }) }
{}

/// Collections of the items of alike streams are alike.
pub fn collections_are_alike<S, C, P>(x: &S, y: &S, c: &C, d: &C, p: &P)
where
    S: SteadyStream + Counted,
    C: Gather<S::Item>,
    P: FnMut(&S::Item) -> bool,
    requires alike { S.alike x.now y.now }
    requires first { C.holds c.now [] }
    requires second { C.holds d.now [] }
    requires tests { AgreeFrom (SameItem S.same) (λ y z. y ≡ z) (CalledAt P.FnMut) p.now p.now }
    ensures collect { ⟦<CollectFuture<S, C> as SteadyFuture>⟧.alike
        (record { stream = x.now; folder = record { collection = Some c.now } })
        (record { stream = y.now; folder = record { collection = Some d.now } }) }
    ensures partition { ⟦<PartitionFuture<S, P, C> as SteadyFuture>⟧.alike
        (record { stream = x.now; folder = record { predicate = p.now; res = Some (c.now, d.now) } })
        (record { stream = y.now; folder = record { predicate = p.now; res = Some (d.now, c.now) } }) }
{}

/// Collections of what alike streams hold, and of the parts of their items, are alike.
pub fn parts_are_alike<S, U, A, B, C, D, E>(x: &S, y: &S, v: &U, w: &U, c: &C, d: &D, e: &E)
where
    S: SteadyStream + OkCounted,
    U: SteadyStream + Counted<Item = (A, B)>,
    C: Gather<S::Ok>,
    D: Gather<A>,
    E: Gather<B>,
    requires alike { Unmixed S.same (S.alike x.now y.now) }
    requires pairs { U.alike v.now w.now }
    requires values { C.holds c.now [] }
    requires first { D.holds d.now [] }
    requires second { E.holds e.now [] }
    ensures try_collect { ⟦<TryCollectFuture<S, C> as SteadyFuture>⟧.alike
        (record { stream = x.now; folder = record { items = Some c.now } })
        (record { stream = y.now; folder = record { items = Some c.now } }) }
    ensures unzip { ⟦<UnzipFuture<U, D, E> as SteadyFuture>⟧.alike
        (record { stream = v.now; folder = record { res = Some (d.now, e.now) } })
        (record { stream = w.now; folder = record { res = Some (d.now, e.now) } }) }
{}

/// What consumes a stream, and a stream with a budget, which registers what the stream does that wakes.
pub fn consuming<S, F>(consume: &Consume<S, F>)
where
    S: SteadyStream,
    F: Folder<S> + SteadyFolder<S>,
    ensures { TellsAll (S.registers consume.now.stream) (⟦<Consume<S, F> as Future>⟧.registers consume.now)
        × (S.needs_none → F.needs_none → ⟦<Consume<S, F> as SteadyFuture>⟧.needs_none) }
{}

/// What takes in each item.
pub fn all_items<S, V, F, I>()
where
    S: SteadyStream + Counted<Item: Drop>,
    V: Drop,
    F: FnMut(V, S::Item) -> V,
    I: FnMut(S::Item),
    ensures count { S.needs_none → ⟦<Consume<S, Count> as SteadyFuture>⟧.needs_none }
    ensures fold { S.needs_none → ⟦<Consume<S, Fold<F, V>> as SteadyFuture>⟧.needs_none }
    ensures for_each { S.needs_none → ⟦<Consume<S, ForEach<I>> as SteadyFuture>⟧.needs_none }
    ensures last { S.needs_none → ⟦<Consume<S, Last<S::Item>> as SteadyFuture>⟧.needs_none }
{}

/// What stops at an item.
pub fn one_item<S, U, P, O, Q>()
where
    S: SteadyStream + Counted<Item: Drop>,
    P: FnMut(S::Item) -> bool,
    O: FnMut(S::Item) -> Option<U>,
    Q: FnMut(&S::Item) -> bool,
    ensures next { S.needs_none → ⟦<Consume<S, Next> as SteadyFuture>⟧.needs_none }
    ensures nth { S.needs_none → ⟦<Consume<S, Nth> as SteadyFuture>⟧.needs_none }
    ensures all { S.needs_none → ⟦<Consume<S, All<P>> as SteadyFuture>⟧.needs_none }
    ensures any { S.needs_none → ⟦<Consume<S, Any<P>> as SteadyFuture>⟧.needs_none }
    ensures position { S.needs_none → ⟦<Consume<S, Position<P>> as SteadyFuture>⟧.needs_none }
    ensures find { S.needs_none → ⟦<Consume<S, Find<Q>> as SteadyFuture>⟧.needs_none }
    ensures find_map { S.needs_none → ⟦<Consume<S, FindMap<O>> as SteadyFuture>⟧.needs_none }
{}

/// What stops at an error.
pub fn up_to_an_error<S, U, R, T, E, V, F, G>()
where
    S: SteadyStream + OkCounted,
    U: SteadyStream<Item = Result<T, E>>,
    R: SteadyStream + Counted,
    V: Drop,
    F: FnMut(V, S::Ok) -> Result<V, S::Err>,
    G: FnMut(R::Item) -> Result<(), E>,
    ensures try_next { U.needs_none → ⟦<Consume<U, TryNext> as SteadyFuture>⟧.needs_none }
    ensures try_fold { S.needs_none → ⟦<Consume<S, TryFold<F, V>> as SteadyFuture>⟧.needs_none }
    ensures try_for_each { R.needs_none → ⟦<Consume<R, TryForEach<G>> as SteadyFuture>⟧.needs_none }
{}

/// Collections of items.
pub fn collected<S, C, P>(collect: &CollectFuture<S, C>, partition: &PartitionFuture<S, P, C>)
where
    S: SteadyStream + Counted,
    C: Gather<S::Item>,
    P: FnMut(&S::Item) -> bool,
    ensures collect { TakesNone S.run S.ample → AmpleWhere (GivesOnly IsOk)
        ⟦<CollectFuture<S, C> as Future>⟧.run ⟦<CollectFuture<S, C> as SteadyFuture>⟧.ample }
    ensures partition { TakesNone S.run S.ample → AmpleWhere (GivesOnly IsOk)
        ⟦<PartitionFuture<S, P, C> as Future>⟧.run ⟦<PartitionFuture<S, P, C> as SteadyFuture>⟧.ample }
{}

/// Collections of what items hold, and of their parts.
pub fn parts_collected<S, U, A, B, C, D, E>(
    try_collect: &TryCollectFuture<S, C>,
    unzip: &UnzipFuture<U, D, E>,
)
where
    S: SteadyStream + OkCounted,
    U: SteadyStream + Counted<Item = (A, B)>,
    C: Gather<S::Ok>,
    D: Gather<A>,
    E: Gather<B>,
    ensures try_collect { TakesNone S.run S.ample → AmpleWhere (GivesOnly HasMemory)
        ⟦<TryCollectFuture<S, C> as Future>⟧.run ⟦<TryCollectFuture<S, C> as SteadyFuture>⟧.ample }
    ensures unzip { TakesNone U.run U.ample → AmpleWhere (GivesOnly IsOk)
        ⟦<UnzipFuture<U, D, E> as Future>⟧.run ⟦<UnzipFuture<U, D, E> as SteadyFuture>⟧.ample }
{}
