//! Streams and futures over a few numbers, each polled once: at values like these, what a poll asks of them is met.
use futures_lite::stream::Script;
use futures_lite::{Context, Future, Poll, Stream, StreamExt, future, stream};

type Answer<T> = Poll<Option<T>>;

pub(crate) fn cycle(numbers: Script<u8>, cx: &mut Context<'_>) -> Option<Answer<Option<u8>>> {
    let mut laps = numbers.cycle().ok()?;
    match laps.poll_next(cx) {
        Poll::Ready(Some(number)) => Some(Poll::Ready(Some(number.ok()))),
        Poll::Ready(None) => Some(Poll::Ready(None)),
        Poll::Pending => Some(Poll::Pending),
    }
}

pub(crate) fn drain(mut numbers: Script<u8>, cx: &mut Context<'_>) -> Answer<u8> {
    numbers.drain().poll_next(cx)
}

pub(crate) fn stop_after_future(numbers: Script<u8>, cx: &mut Context<'_>) -> Answer<u8> {
    stream::stop_after_future(numbers, future::pending::<()>()).poll_next(cx)
}

pub(crate) fn race(first: Script<u8>, second: Script<u8>, cx: &mut Context<'_>) -> Answer<u8> {
    stream::race_with_seed(first, second, 7).poll_next(cx)
}

pub(crate) fn unfold(cx: &mut Context<'_>) -> Answer<u8> {
    let next = |n: u8| future::ready(if n < 3 { Some((n, n + 1)) } else { None });
    stream::unfold(0, next).poll_next(cx)
}

pub(crate) fn try_unfold(cx: &mut Context<'_>) -> Answer<Result<u8, u8>> {
    let next = |n: u8| future::ready(if n < 3 { Ok(Some((n, n + 1))) } else { Err(n) });
    stream::try_unfold(0, next).poll_next(cx)
}

pub(crate) fn repeat_with(cx: &mut Context<'_>) -> Answer<u8> {
    stream::repeat_with(|| 7u8).poll_next(cx)
}

pub(crate) fn once_future(cx: &mut Context<'_>) -> Answer<u8> {
    stream::once_future(future::ready(7u8)).poll_next(cx)
}

pub(crate) fn inspect(numbers: Script<u8>, cx: &mut Context<'_>) -> Answer<u8> {
    numbers.inspect(|_number: &u8| {}).poll_next(cx)
}

pub(crate) fn filter_map(numbers: Script<u8>, cx: &mut Context<'_>) -> Answer<u8> {
    numbers
        .filter_map(|number: u8| number.checked_sub(1))
        .poll_next(cx)
}

pub(crate) fn race_of_futures(cx: &mut Context<'_>) -> Poll<u8> {
    future::race_with_seed(future::pending(), future::ready(7u8), 7).poll(cx)
}

pub(crate) fn try_zip(cx: &mut Context<'_>) -> Poll<Result<(u8, u8), u8>> {
    future::try_zip(
        future::ready(Ok::<u8, u8>(1)),
        future::ready(Err::<u8, u8>(2)),
    )
    .poll(cx)
}

pub(crate) fn poll_once(cx: &mut Context<'_>) -> Poll<Option<u8>> {
    future::poll_once(future::pending()).poll(cx)
}

pub(crate) fn try_next(
    mut numbers: Script<Result<u8, u8>>,
    cx: &mut Context<'_>,
) -> Poll<Result<Option<u8>, u8>> {
    numbers.try_next().poll(cx)
}

pub(crate) fn nth(mut numbers: Script<u8>, cx: &mut Context<'_>) -> Answer<u8> {
    numbers.nth(1).poll(cx)
}

pub(crate) fn find_map(mut numbers: Script<u8>, cx: &mut Context<'_>) -> Answer<u8> {
    numbers
        .find_map(|number: u8| number.checked_sub(1))
        .poll(cx)
}

pub(crate) fn try_for_each(mut numbers: Script<u8>, cx: &mut Context<'_>) -> Poll<Result<(), u8>> {
    let below_two = |number: u8| { if number < 2 { Ok(()) } else { Err(number) } };
    numbers.try_for_each(below_two).poll(cx)
}
