//! Adapters that hold an item, a future or a stream between polls, or whose first part is over: two that are alike.
ghost use Rattle.std.specs.Prelude.{None, Some};
ghost use Rattle.lite_base.specs.Alike.{SameItem};
ghost use Rattle.lite_base.specs.Calling.{AgreeFrom, Calls};
ghost use Rattle.lite_future.specs.declared.side.Side.TheVariants.{Asked, Gave};
ghost use Rattle.lite_reshape.specs.Cloned.{EqualClones};
ghost use Rattle.lite_reshape.specs.Inner.{EachInner};
ghost use Rattle.lite_reshape.specs.Ended.Turn.{Done, Second};
ghost use Rattle.lite_source.specs.TryUnfold.{try_item_of, try_seed_of};
ghost use Rattle.lite_source.specs.Unfold.{item_of, seed_of};
ghost use Rattle.lite_source.specs.Unfolding.{BothHave, Holding, PartOf};

use lite_base::{Counted, SteadyFuture, SteadyStream};
use lite_future::Zip as Joined;
use lite_merge::Zip;
use lite_reshape::{Chain, Cloned, FlatMap, Flatten, Then};
use lite_source::{TryUnfold, Unfold};

/// Pairs of streams are alike while items that are the same are held, and chains of streams behind the end of the first and of both.
pub fn held_items_are_alike<S, U>(x: &S, y: &S, v: &U, w: &U, i: &S::Item, j: &S::Item)
where
    S: SteadyStream + Counted<Item: Drop>,
    U: SteadyStream<Item = S::Item> + Drop,
    requires first { S.alike x.now y.now }
    requires second { U.alike v.now w.now }
    requires items { SameItem S.same i.now j.now }
    ensures zip { ⟦<Zip<S, U> as SteadyStream>⟧.alike
        (record { item_slot = Some i.now; first = x.now; second = v.now })
        (record { item_slot = Some j.now; first = y.now; second = w.now }) }
    ensures second { ⟦<Chain<S, U> as SteadyStream>⟧.alike
        (record { first = x.now; second = v.now; part = Second })
        (record { first = y.now; second = w.now; part = Second }) }
    ensures over { ⟦<Chain<S, U> as SteadyStream>⟧.alike
        (record { first = x.now; second = v.now; part = Done })
        (record { first = y.now; second = w.now; part = Done }) }
{}

/// Streams of what functions make of items are alike while futures or streams that are alike are held.
pub fn held_parts_are_alike<S, U, Fut, F, G>(
    x: &S,
    y: &S,
    v: &U,
    w: &U,
    h: &Fut,
    k: &Fut,
    f: &F,
    g: &G,
)
where
    S: SteadyStream + Counted<Item: Drop>,
    U: SteadyStream + Drop,
    Fut: SteadyFuture + Drop,
    F: FnMut(S::Item) -> U,
    G: FnMut(S::Item) -> Fut,
    requires stream { S.alike x.now y.now }
    requires inner { U.alike v.now w.now }
    requires future { Fut.alike h.now k.now }
    requires streams { AgreeFrom (SameItem S.same) U.alike (Calls F.FnMut) f.now f.now }
    requires futures { AgreeFrom (SameItem S.same) Fut.alike (Calls G.FnMut) g.now g.now }
    ensures flat_map { ⟦<FlatMap<S, U, F> as SteadyStream>⟧.alike
        (record { stream = record { stream = x.now; f = f.now }; inner_stream = Some v.now })
        (record { stream = record { stream = y.now; f = f.now }; inner_stream = Some w.now }) }
    ensures then { ⟦<Then<S, G, Fut> as SteadyStream>⟧.alike
        (record { stream = x.now; future = Some h.now; f = g.now })
        (record { stream = y.now; future = Some k.now; f = g.now }) }
{}

/// Streams of streams are alike while inner streams that are alike are held.
pub fn held_streams_are_alike<S, B>(x: &S, y: &S, v: &B, w: &B)
where
    B: SteadyStream + Drop,
    S: SteadyStream + Counted<Item = B>,
    requires outer { S.alike x.now y.now }
    requires inner { EachInner S.ample (λ b. (c : B) → SameItem S.same b c → B.alike b c) x.now None }
    requires held { B.alike v.now w.now }
    ensures { ⟦<Flatten<S> as SteadyStream>⟧.alike (record { stream = x.now; inner_stream = Some v.now })
        (record { stream = y.now; inner_stream = Some w.now }) }
{}

/// Clones are alike while references that are the same are held, after clones of them were refused.
pub fn held_clones_are_alike<'a, T, S>(x: &S, y: &S, i: &&'a T, j: &&'a T)
where
    T: Clone + 'a,
    S: SteadyStream<Item = &'a T>,
    requires alike { S.alike x.now y.now }
    requires equal { EqualClones T.is_clone }
    requires items { SameItem S.same i.now j.now }
    ensures { ⟦<Cloned<S> as SteadyStream>⟧.alike (record { stream = x.now; held = Some i.now })
        (record { stream = y.now; held = Some j.now }) }
{}

/// Two futures that are waited for together are alike once one of them has a value, if the values are the same.
pub fn held_values_are_alike<E, V>(
    x: &E,
    y: &E,
    v: &V,
    w: &V,
    a: &E::Output,
    b: &E::Output,
    c: &V::Output,
    d: &V::Output,
)
where
    E: SteadyFuture<Output: Drop> + Drop,
    V: SteadyFuture<Output: Drop> + Drop,
    requires first { E.alike x.now y.now }
    requires second { V.alike v.now w.now }
    requires first_value { SameItem E.same a.now b.now }
    requires second_value { SameItem V.same c.now d.now }
    ensures first { ⟦<Joined<E, V> as SteadyFuture>⟧.alike
        (record { first = Gave a.now; second = Asked v.now }) (record { first = Gave b.now; second = Asked w.now }) }
    ensures second { ⟦<Joined<E, V> as SteadyFuture>⟧.alike
        (record { first = Asked x.now; second = Gave c.now }) (record { first = Asked y.now; second = Gave d.now }) }
{}

/// Sources that unfold are alike while futures that are alike are held.
pub fn held_seeds_are_alike<T, E, U, Fut, Fut2, F, G>(
    x: &Fut,
    y: &Fut,
    v: &Fut2,
    w: &Fut2,
    f: &F,
    g: &G,
)
where
    T: Drop,
    Fut: SteadyFuture<Output = Option<(U, T)>> + Drop,
    Fut2: SteadyFuture<Output = Result<Option<(U, T)>, E>> + Drop,
    F: FnMut(T) -> Fut,
    G: FnMut(T) -> Fut2,
    requires future { Fut.alike x.now y.now }
    requires trying { Fut2.alike v.now w.now }
    requires unfolds { AgreeFrom (SameItem (PartOf Fut.same seed_of)) Fut.alike (Calls F.FnMut) f.now f.now }
    requires both { BothHave (SameItem Fut.same) item_of × BothHave (SameItem Fut.same) seed_of }
    requires tries { AgreeFrom (SameItem (PartOf Fut2.same try_seed_of)) Fut2.alike (Calls G.FnMut) g.now g.now }
    requires try_both { BothHave (SameItem Fut2.same) try_item_of × BothHave (SameItem Fut2.same) try_seed_of }
    ensures unfold { ⟦<Unfold<T, F, Fut> as SteadyStream>⟧.alike
        (record { f = f.now; state = Holding.Asked x.now }) (record { f = f.now; state = Holding.Asked y.now }) }
    ensures try_unfold { ⟦<TryUnfold<T, G, Fut2> as SteadyStream>⟧.alike
        (record { f = g.now; state = Holding.Asked v.now }) (record { f = g.now; state = Holding.Asked w.now }) }
{}
