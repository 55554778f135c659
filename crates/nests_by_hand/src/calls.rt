//! Functions that take items from any stream by several calls.
ghost use Rattle.std.specs.Prelude.{◌≡◌, ◌<◌, ◌++◌, ◌∷◌, [], IfOk, IsOk, List, MatchOption, OnOk, drop, length, slice_get, take};
ghost use Rattle.futures_lite.specs.Lists.{Lists, RestIs};

use futures_lite::future::BlockOn;
use futures_lite::{Stream, StreamExt};
use std::alloc::{AllocError, AllocGlobal};
use std::random::RandomSource;
use std::sync::Wait;

/// Returns the next two items, if the stream has two. The others stay in the stream. `Err` if memory is refused.
pub fn next_two<R, S>(rt: &R, stream: &mut S) -> Result<Option<(S::Item, S::Item)>, AllocError>
where
    R: Wait + RandomSource + AllocGlobal,
    S: Stream<Item: Drop>,
    requires { S.can_poll stream.old }
    ensures again { S.can_poll stream.new }
    ensures items { (xs : List S.Item) → Lists S.run stream.old xs
        → IfOk result (λ v. MatchOption v (length xs < 2) (λ p. (take 2 xs ≡ p.0 ∷ p.1 ∷ [])
        × RestIs S.run stream.new (drop 1 xs))) }
{
    let mut on = BlockOn::new(rt)?;
    let Some(first) = wait_next(&mut on, rt, stream)? else {
        return Ok(None);
    };
    let Some(second) = wait_next(&mut on, rt, stream)? else {
        return Ok(None);
    };
    Ok(Some((first, second)))
}

/// Appends the items that come before the end of the stream. `Err` if memory is refused.
pub fn append_all<R, S>(rt: &R, stream: &mut S, out: &mut Vec<S::Item>) -> Result<(), AllocError>
where
    R: Wait + RandomSource + AllocGlobal,
    S: Stream<Item: Drop>,
    requires { S.can_poll stream.old }
    ensures again { S.can_poll stream.new }
    ensures items { (xs : List S.Item) → Lists S.run stream.old xs → OnOk result (out.new.items ≡ out.old.items ++ xs) }
{
    let mut on = BlockOn::new(rt)?;
    for _ in rt.forever() {
        match wait_next(&mut on, rt, stream)? {
            Some(item) => out.push(item)?,
            None => return Ok(()),
        }
    }
    unreachable!()
}

/// Waits for the next item. If the items of the stream are known, so is this one, and those that are left.
fn wait_next<R: Wait, S: Stream>(
    on: &mut BlockOn,
    rt: &R,
    stream: &mut S,
) -> Result<Option<S::Item>, AllocError>
    requires { S.can_poll stream.old }
    ensures again { S.can_poll stream.new }
    ensures left { (xs : List S.Item) → Lists S.run stream.old xs
        → IfOk result (λ v. (v ≡ slice_get xs 0) × RestIs S.run stream.new xs) }
    ensures waited { IsOk result }
{
    on.wait_for(rt, &mut stream.next())
}
