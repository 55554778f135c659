//! The functions that make the readers.
ghost use Rattle.std.specs.Prelude.{◌≡◌, ◌<◌, false};
ghost use Rattle.lite_buffered.specs.Budgeted.{budget_of, budgeted_inner, left_of};
ghost use Rattle.lite_buffered.specs.Chain.{first_of, has_ended, second_of};
ghost use Rattle.lite_buffered.specs.Repeat.{byte_of};
ghost use Rattle.lite_buffered.specs.Take.{limit_of, take_inner};

use crate::budgeted::Budgeted;
use crate::chain::Chain;
use crate::empty::Empty;
use crate::repeat::Repeat;
use crate::take::Take;

/// Returns a reader that is at end of file.
///
/// # Examples
///
/// ```
/// use futures_lite::{AsyncReadExt, future, io::empty};
/// use std::io;
///
/// fn nothing<R>(rt: &R, out: &mut Vec<u8>) -> Result<io::Result<usize>, AllocError>
/// where
///     R: Wait + RandomSource + AllocGlobal,
///     ensures { IfOk result (λ r. IfOk r (λ n. out.new.items ≡ out.old.items)) }
/// {
///     future::wait_for(rt, &mut empty().read_to_end(out))
/// }
///
/// let mut out = Vec::new(rt.alloc());
/// assert_eq!(rt; nothing(&rt, &mut out)??, 0);
/// assert!(rt; out.is_empty());
/// ```
pub fn empty() -> Empty
    ensures { result ≡ record {} }
{
    Empty::new()
}

/// Returns a reader that gives `byte` for ever.
///
/// # Examples
///
/// ```
/// use futures_lite::{AsyncReadExt, future, io};
///
/// let mut buf = [0; 3];
/// future::block_on(&rt, io::repeat(7).read_exact(&mut buf))??;
/// assert_eq!(rt; buf, [7, 7, 7]);
/// ```
pub fn repeat(byte: u8) -> Repeat
    ensures { byte_of result ≡ byte }
{
    Repeat::new(byte)
}

/// Returns a reader over the first `limit` bytes of `reader`.
pub fn take<R>(reader: R, limit: u64) -> Take<R>
    ensures inner { take_inner result ≡ reader }
    ensures limit { limit_of result ≡ limit }
{
    Take::new(reader, limit)
}

/// Returns a reader over the bytes of `first`, followed by those of `second`.
pub fn chain<R1, R2>(first: R1, second: R2) -> Chain<R1, R2>
    ensures first { first_of result ≡ first }
    ensures second { second_of result ≡ second }
    ensures fresh { has_ended result ≡ false }
{
    Chain::new(first, second)
}

/// Returns a reader that reads `reader` and returns `Pending` after every `budget` bytes, which must be more
/// than 0.
pub fn with_budget<R>(reader: R, budget: usize) -> Budgeted<R>
    requires { 0 < budget }
    ensures inner { budgeted_inner result ≡ reader }
    ensures budget { budget_of result ≡ budget }
    ensures whole { left_of result ≡ budget }
{
    Budgeted::new(reader, budget)
}
