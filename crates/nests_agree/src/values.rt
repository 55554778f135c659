//! The value of one nest of futures, at two of them.
ghost use Rattle.std.specs.Prelude.{◌≡◌, IfOk};

use lite_future::YieldNow;
use lite_future::make::{ready, zip};
use lite_laws::block_on_both;
use std::alloc::{AllocError, AllocGlobal};
use std::random::RandomSource;
use std::sync::Wait;

/// Waits for `value` beside each of two futures that may have been pending already or not. The two values are equal.
/// `Err` where there was no memory to sleep on.
pub fn values_agree<R>(
    rt: &R,
    one: YieldNow,
    other: YieldNow,
    value: u8,
) -> Result<(((), u8), ((), u8)), AllocError>
where
    R: Wait + RandomSource + AllocGlobal,
    ensures { IfOk result (λ values. values.0 ≡ values.1) }
{
    block_on_both(rt, zip(one, ready(value)), zip(other, ready(value)))
}
