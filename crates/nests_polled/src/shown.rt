//! What each nest answers over scripts of a few answers.
ghost use Rattle.std.specs.Prelude.{◌≡◌, Some};
ghost use Rattle.futures.specs.declared.task.Poll.TheVariants.{Ready};

use crate::families;
use crate::nest::{self, poll_nest};
use crate::try_count::{TryCount, poll_count};
use futures_lite::{Context, Poll, StreamExt, stream};
use std::alloc::{AllocError, Global};

type Answers<T> = Result<Vec<Poll<Option<T>>>, AllocError>;

fn item<T>(x: T) -> Poll<Option<T>>
    ensures { result ≡ Ready (Some x) }
{
    Poll::Ready(Some(x))
}

pub(crate) fn nest(alloc: Global, cx: &mut Context<'_>) -> Answers<u16> {
    let list = vec![in alloc; item(1u8), Poll::Pending, item(2), item(1)]?;
    let mut nest = stream::script(list)
        .map(|x: u8| x as u16 * 10)
        .filter(|x: &u16| *x > 10);
    let answers = [
        poll_nest(&mut nest, cx),
        poll_nest(&mut nest, cx),
        poll_nest(&mut nest, cx),
    ];
    Ok(Vec::from_array(alloc, answers)?)
}

pub(crate) fn evens(alloc: Global, cx: &mut Context<'_>) -> Answers<u64> {
    let list = vec![in alloc; item(3u8), Poll::Pending, item(2), item(4)]?;
    let mut out = vec![in alloc; item(9u64)]?;
    nest::evens(stream::script(list), cx, 4, &mut out)?;
    Ok(out)
}

pub(crate) fn hundredths(alloc: Global, cx: &mut Context<'_>) -> Answers<u8> {
    let list = vec![in alloc; item(50u8), Poll::Pending, item(99), item(7)]?;
    let mut out = Vec::new(alloc);
    nest::hundredths(stream::script(list), cx, 4, &mut out)?;
    Ok(out)
}

pub(crate) fn count(
    alloc: Global,
    cx: &mut Context<'_>,
) -> Result<Vec<Poll<Result<u64, char>>>, AllocError> {
    let list = vec![in alloc;
        item(Ok(1u8)),
        item(Ok(2)),
        Poll::Pending,
        item(Err('x')),
        item(Ok(3)),
    ]?;
    let mut count = TryCount::new(stream::script(list));
    let answers = [
        poll_count(&mut count, cx),
        poll_count(&mut count, cx),
        poll_count(&mut count, cx),
    ];
    Ok(Vec::from_array(alloc, answers)?)
}

pub(crate) fn joined(alloc: Global, cx: &mut Context<'_>) -> Answers<u8> {
    let first = stream::script(vec![in alloc; item(3u8), Poll::Pending]?);
    let second = stream::script(vec![in alloc; item(4u8), Poll::Ready(None), item(5)]?);
    let mut out = Vec::new(alloc);
    families::joined(first, second, cx, 5, &mut out)?;
    Ok(out)
}

pub(crate) fn flattened(alloc: Global, cx: &mut Context<'_>) -> Answers<u8> {
    let one = stream::script(vec![in alloc; item(1u8), Poll::Pending]?);
    let two = stream::script(vec![in alloc; item(2u8)]?);
    let scripts = stream::script(vec![in alloc; item(one), Poll::Pending, item(two)]?);
    let mut out = Vec::new(alloc);
    families::flattened(scripts, cx, 5, &mut out)?;
    Ok(out)
}

pub(crate) fn digits(alloc: Global, cx: &mut Context<'_>) -> Answers<u8> {
    let script = stream::script(vec![in alloc; item(23u8), Poll::Pending, item(40)]?);
    let mut out = Vec::new(alloc);
    families::digits(script, cx, 4, &mut out)?;
    Ok(out)
}

pub(crate) fn paired(alloc: Global, cx: &mut Context<'_>) -> Answers<(u8, u8)> {
    let first = stream::script(vec![in alloc; item(1u8), Poll::Pending, item(2)]?);
    let second = stream::script(vec![in alloc; Poll::Pending, item(91u8), item(92)]?);
    let mut out = Vec::new(alloc);
    families::paired(first, second, cx, 5, &mut out)?;
    Ok(out)
}

pub(crate) fn merged(alloc: Global, cx: &mut Context<'_>) -> Answers<u8> {
    let first = stream::script(vec![in alloc; item(1u8), Poll::Pending, item(2)]?);
    let second = stream::script(vec![in alloc; item(8u8), item(9)]?);
    let mut out = Vec::new(alloc);
    families::merged(first, second, cx, 5, &mut out)?;
    Ok(out)
}
