ghost use Rattle.std.specs.Prelude.{IfOk};
ghost use Rattle.lite_laws.specs.Both.{OneValue};

use lite_base::SteadyFuture;
use lite_base::future::block_on::BlockOn;
use std::alloc::{AllocError, AllocGlobal};
use std::random::RandomSource;
use std::sync::Wait;

/// Blocks this thread until two futures are ready, one after the other, and returns their values.
///
/// The caller guarantees that the two are alike, as [`SteadyFuture`] defines it, and that both may be polled.
/// Then the values are the same, unless memory was refused.
///
/// The call may wait for ever. `AllocError` means that what the thread sleeps on could not be allocated. Then
/// neither future was polled.
///
/// # Examples
///
/// ```
/// use futures_lite::{future, laws};
///
/// let mut started = future::yield_now();
/// assert_eq!(rt; future::block_on(&rt, future::poll_once(&mut started))?, None);
///
/// let first = future::zip(started, future::ready(7u8));
/// let second = future::zip(future::yield_now(), future::ready(7u8));
/// assert_eq!(rt; laws::block_on_both(&rt, first, second)?, (((), 7), ((), 7)));
/// ```
pub fn block_on_both<R, F>(rt: &R, x: F, y: F) -> Result<(F::Output, F::Output), AllocError>
where
    R: Wait + RandomSource + AllocGlobal,
    F: SteadyFuture<Output: Drop> + Drop,
    requires first { F.can_poll x }
    requires second { F.can_poll y }
    requires alike { F.alike x y }
    ensures { IfOk result (λ values. OneValue F.same F.run F.ample F.needs_none x values.0 y values.1) }
{
    let mut on = BlockOn::new(rt)?;
    let first = on.block_on(rt, x)?;
    let second = on.block_on(rt, y)?;
    Ok((first, second))
}
