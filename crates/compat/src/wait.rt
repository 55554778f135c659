//! Waits for a future or a stream of the toolchain. Their contracts are those of the toolchain's own `block_on` and
//! `collect`.
ghost use Rattle.std.specs.Prelude.{IfOk, IsOk, None};

use crate::compat::Compat;
use lite_base::future::block_on::BlockOn;
use lite_gather::make::collect;
use lite_merge::make::with_budget;
use std::alloc::{AllocError, AllocGlobal};
use std::sync::Wait;

// How many items are taken in a row before the stream is polled anew.
const BUDGET: usize = 128;

/// Blocks this thread until a future of the toolchain is ready, and returns its value.
///
/// The value is one that the future gives. The result is always `Ok`, because `on` has all the memory that a wait needs.
/// The call may wait forever: if the future depends on a task of an executor, that has to run in another thread.
///
/// # Examples
///
/// ```
/// use compat::wait_from_kit;
/// use futures::future::{join, ready};
/// use futures_lite::future::BlockOn;
///
/// let mut on = BlockOn::new(&rt)?;
/// assert_eq!(rt; wait_from_kit(&mut on, &rt, join(ready(1u8), ready(2u8)))?, (1, 2));
/// ```
pub fn wait_from_kit<R, F>(on: &mut BlockOn, rt: &R, future: F) -> Result<F::Output, AllocError>
where
    R: Wait,
    F: futures::Future,
    requires { F.can_poll future }
    ensures gave { IfOk result (F.gives future) }
    ensures waited { IsOk result }
{
    on.block_on(rt, Compat::new(future))
}

/// Blocks this thread until a stream of the toolchain ends, and returns its items in order.
///
/// They are items that the stream yields, up to its end. `AllocError` means that there was no memory for an item. The
/// items before it are dropped then, with the stream. The call may wait forever.
///
/// # Examples
///
/// ```
/// use compat::collect_from_kit;
/// use futures::StreamExt;
/// use futures::stream::iter;
/// use futures_lite::future::BlockOn;
///
/// let mut on = BlockOn::new(&rt)?;
/// let all = collect_from_kit(&mut on, &rt, iter(0u8..3).chain(iter(7u8..9)))?;
/// assert_eq!(rt; all.as_slice(), [0, 1, 2, 7, 8].as_slice());
/// ```
pub fn collect_from_kit<R, S>(
    on: &mut BlockOn,
    rt: &R,
    stream: S,
) -> Result<Vec<S::Item>, AllocError>
where
    R: Wait + AllocGlobal,
    S: futures::Stream<Item: Drop>,
    requires { S.can_poll stream }
    ensures { IfOk result (λ v. S.yields stream v.items None) }
{
    let paced = with_budget(Compat::new(stream), BUDGET);
    let all = collect::<_, Vec<S::Item>>(paced, rt.alloc());
    match on.block_on(rt, all)? {
        Ok(all) => Ok(all),
        Err(_) => Err(AllocError),
    }
}
