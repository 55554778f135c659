//! What the others ask of closures, iterators and streams of streams is met: by closures that catch nothing, and by scripts.
ghost use Rattle.std.specs.Prelude.{◌≡◌, []};

use crate::consuming::{collections_are_alike, consumers_are_alike, tries_are_alike};
use crate::future_properties::{futures_are_alike, futures_are_calm};
use crate::merges::{
    clones_have_properties, inner_streams_are_alike, inner_streams_are_calm, merges_are_alike,
    merges_are_calm, poll_armed_nest, poll_mapped, poll_mapped_items,
};
use crate::sources::{calls_are_alike, calls_are_calm};
use crate::streams::{
    filter_is_alike, filter_map_is_alike, map_is_alike, map_while_is_alike, scan_is_alike,
    skip_while_is_alike, take_while_is_alike,
};
use lite_base::{Context, Poll};
use lite_future::make::ready;
use lite_merge::Drain;
use lite_merge::make::{with_budget, zip};
use lite_reshape::make::{chain, filter};
use lite_source::make::{iter, once};
use lite_source::{Once, Script};
use lite_stream::make::map;
use rand_core::Rng;
use std::vec::IntoIter;

/// Closures that catch nothing agree with themselves.
pub fn closures_agree(script: &Script<u8>) {
    let (mix, keep, is_small) = (|x: u8| x ^ 1, |x: u8| Some(x), |x: &u8| *x < 100);
    let latest = |state: &mut u8, x: u8| {
        *state = x;
        Some(x)
    };
    map_is_alike(script, script, &mix);
    map_while_is_alike(script, script, &keep);
    scan_is_alike(script, script, &0u8, &latest);
    take_while_is_alike(script, script, &is_small);
    filter_is_alike(script, script, &is_small);
    filter_map_is_alike(script, script, &keep);
    skip_while_is_alike(script, script, &is_small);
}

/// So do those that consume items.
pub fn folding_closures_agree(script: &Script<u8>) {
    let (is_one, keep, is_small) = (|x: u8| x == 1, |x: u8| Some(x), |x: &u8| *x < 100);
    let (fold, take) = (|sum: u8, x: u8| sum ^ x, |_x: u8| ());
    let fail = |x: u8| -> Result<(), u8> { Err(x) };
    consumers_are_alike(
        script, script, &0u8, &is_one, &keep, &is_small, &fold, &take, &fail,
    );
}

/// So does one that may fail at each item, and a test that parts the items, over collections that are empty.
pub fn parting_closures_agree(script: &Script<u8>, tried: &Script<Result<u8, u16>>, empty: &Vec<u8>)
    requires { empty.now.items ≡ [] }
{
    let (add, is_small) = (
        |sum: u8, x: u8| -> Result<u8, u16> { Ok(sum ^ x) },
        |x: &u8| *x < 100,
    );
    tries_are_alike(tried, tried, &0u8, &add);
    collections_are_alike(script, script, empty, empty, &is_small);
}

/// Closures that make streams and futures of items make the same of the same ones, and calm ones.
pub fn making_closures_agree<R: Rng>(rng: &R) {
    let (x, other) = (once(1u8), once(2u8));
    let (to_stream, to_future) = (|x: u8| once(x), |x: u8| ready(x));
    merges_are_alike(&x, &x, &other, &other, &to_stream, &to_future);
    merges_are_calm(&x, &other, &to_stream, &to_future, rng, &ready(3u8));
}

/// Inner streams are alike to themselves, and calm; clones of a byte are equal.
pub fn inner_streams_agree(drained: &Drain<'_, Once<Once<u8>>>) {
    let (outer, byte) = (once(once(1u8)), 2u8);
    inner_streams_are_alike(&outer, &outer);
    inner_streams_are_calm(&outer, drained);
    let lent = once(&byte);
    clones_have_properties(&lent, &lent);
}

/// A closure that is polled answers the same each time, without a pending; and those that unfold make the same futures.
pub fn polled_closures_agree(bytes: &IntoIter<u8>) {
    let answer = |_cx: &mut Context<'_>| Poll::Ready(Some(1u8));
    let repeat = || 1u8;
    let unfold = |x: u8| ready(Some((x, x)));
    let try_unfold = |x: u8| {
        let pair: Result<Option<(u8, u8)>, u16> = Ok(Some((x, x)));
        ready(pair)
    };
    let future = ready(Some((1u8, 1u8)));
    calls_are_alike(
        &future,
        &future,
        &2u8,
        bytes,
        &answer,
        &repeat,
        &unfold,
        &try_unfold,
    );
    calls_are_calm(&future, &2u8, &answer, &unfold, &try_unfold);
}

/// So does one that is polled as a future is.
pub fn polled_futures_agree<R: Rng>(rng: &R) {
    let answer = |_cx: &mut Context<'_>| Poll::Ready(Some(1u8));
    let (x, other, value) = (ready(Some(1u8)), ready(Some(2u8)), Some(3u8));
    let good: Result<Option<u8>, char> = Ok(value);
    let tried = ready(good);
    futures_are_alike(&x, &x, &other, &other, &value, &answer);
    futures_are_calm(&x, &other, &tried, &tried, rng, &value, &answer);
}

/// A nest over one item, and one over the items of a range, may be polled.
pub fn mapped_budgets_are_polled(cx: &mut Context<'_>) {
    let mut single = map(with_budget(once(1u8), 1), |x: u8| x ^ 1);
    let _ = poll_mapped(&mut single, cx);
    let mut several = map(with_budget(iter(0u8..3), 1), |x: u8| x ^ 1);
    let _ = poll_mapped_items(&mut several, cx);
}

/// A nest of five adapters over items and a range may be polled as an armed one.
pub fn armed_nests_are_polled(cx: &mut Context<'_>) {
    let pairs = zip(chain(once(1u8), iter(0u8..3)), with_budget(iter(0u8..3), 1));
    let mixed = map(pairs, |pair: (u8, u8)| pair.0 ^ pair.1);
    let mut nest = filter(mixed, |x: &u8| *x == 1);
    let _ = poll_armed_nest(&mut nest, cx);
}
