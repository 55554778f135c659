//! Adapters over streams and readers whose polls are counted: which of them count, and which are firm.
ghost use Rattle.lite_reshape.specs.FlatMap.{EachMade};
ghost use Rattle.lite_reshape.specs.Inner.{EachInner};

use lite_base::{Counted, Future};
use lite_buffered::Chain as ReadChain;
use lite_io_base::CountedRead;
use lite_merge::{Or, Race, Zip};
use lite_reshape::{Chain, FlatMap, Flatten, Then};
use rand_core::Rng;

/// What merges two streams counts if both do, and is firm if both are; `race` counts over firm streams alone.
pub fn merges_count<S, U, G>(or: &Or<S, U>, race: &Race<S, U, G>)
where
    S: Counted,
    U: Counted<Item = S::Item>,
    G: Rng,
    ensures or_counts { S.ranks.counts or.now.stream1.stream → U.ranks.counts or.now.stream2.stream
        → ⟦<Or<S, U> as Counted>⟧.ranks.counts or.now }
    ensures or_firm { S.ranks.firm or.now.stream1.stream → U.ranks.firm or.now.stream2.stream
        → ⟦<Or<S, U> as Counted>⟧.ranks.firm or.now }
    ensures race_counts { S.ranks.firm race.now.stream1.stream → U.ranks.firm race.now.stream2.stream
        → ⟦<Race<S, U, G> as Counted>⟧.ranks.counts race.now }
    ensures race_firm { S.ranks.firm race.now.stream1.stream → U.ranks.firm race.now.stream2.stream
        → ⟦<Race<S, U, G> as Counted>⟧.ranks.firm race.now }
{}

/// Pairs of streams count and are firm by the first alone; chains by both.
pub fn sequences_count<S, U>(zip: &Zip<S, U>, chain: &Chain<S, U>)
where
    S: Counted<Item: Drop>,
    U: Counted<Item = S::Item>,
    ensures zip_counts { S.ranks.counts zip.now.first → ⟦<Zip<S, U> as Counted>⟧.ranks.counts zip.now }
    ensures zip_firm { S.ranks.firm zip.now.first → ⟦<Zip<S, U> as Counted>⟧.ranks.firm zip.now }
    ensures chain_counts { S.ranks.counts chain.now.first → U.ranks.counts chain.now.second
        → ⟦<Chain<S, U> as Counted>⟧.ranks.counts chain.now }
    ensures chain_firm { S.ranks.firm chain.now.first → U.ranks.firm chain.now.second
        → ⟦<Chain<S, U> as Counted>⟧.ranks.firm chain.now }
{}

/// Streams of what functions make of items count and are firm by their source, and those of streams by each of these too.
pub fn made_parts_count<S, U, Fut, F, G>(flat_map: &FlatMap<S, U, F>, then: &Then<S, G, Fut>)
where
    S: Counted,
    U: Counted + Drop,
    Fut: Future + Drop,
    F: FnMut(S::Item) -> U,
    G: FnMut(S::Item) -> Fut,
    ensures flat_map_counts { S.ranks.counts flat_map.now.stream.stream
        → EachMade F.FnMut U.ranks.counts flat_map.now.stream.f flat_map.now.inner_stream
        → ⟦<FlatMap<S, U, F> as Counted>⟧.ranks.counts flat_map.now }
    ensures flat_map_firm { S.ranks.firm flat_map.now.stream.stream
        → EachMade F.FnMut U.ranks.firm flat_map.now.stream.f flat_map.now.inner_stream
        → ⟦<FlatMap<S, U, F> as Counted>⟧.ranks.firm flat_map.now }
    ensures then_counts { S.ranks.counts then.now.stream → ⟦<Then<S, G, Fut> as Counted>⟧.ranks.counts then.now }
    ensures then_firm { S.ranks.firm then.now.stream → ⟦<Then<S, G, Fut> as Counted>⟧.ranks.firm then.now }
{}

/// A stream of streams counts and is firm if the outer stream and each inner one are.
pub fn inner_streams_count<S, B>(flatten: &Flatten<S>)
where
    B: Counted + Drop,
    S: Counted<Item = B>,
    ensures counts { S.ranks.counts flatten.now.stream
        → EachInner S.run B.ranks.counts flatten.now.stream flatten.now.inner_stream
        → ⟦<Flatten<S> as Counted>⟧.ranks.counts flatten.now }
    ensures firm { S.ranks.firm flatten.now.stream
        → EachInner S.run B.ranks.firm flatten.now.stream flatten.now.inner_stream
        → ⟦<Flatten<S> as Counted>⟧.ranks.firm flatten.now }
{}

/// A chain of readers counts and is firm if both are.
pub fn read_chains_count<R, T>(chain: &ReadChain<R, T>)
where
    R: CountedRead,
    T: CountedRead,
    ensures counts { R.ranks.counts chain.now.first → T.ranks.counts chain.now.second
        → ⟦<ReadChain<R, T> as CountedRead>⟧.ranks.counts chain.now }
    ensures firm { R.ranks.firm chain.now.first → T.ranks.firm chain.now.second
        → ⟦<ReadChain<R, T> as CountedRead>⟧.ranks.firm chain.now }
{}
