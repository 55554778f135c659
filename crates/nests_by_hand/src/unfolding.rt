//! The list of a stream whose items a closure makes.
ghost use Rattle.std.specs.Prelude.{◌≡◌, ◌∷◌, [], IfOk};

use futures_lite::{StreamExt, future, stream};
use std::alloc::{AllocError, AllocGlobal};
use std::random::RandomSource;
use std::sync::Wait;

/// Returns the numbers below two. `Err` if memory is refused.
pub fn below_two<R>(rt: &R) -> Result<Vec<u32>, AllocError>
where
    R: Wait + RandomSource + AllocGlobal,
    ensures { IfOk result (λ v. v.items ≡ 0 ∷ 1 ∷ []) }
{
    let below_two = stream::unfold(0u32, |n: u32| {
        future::ready(if n < 2 { Some((n, n + 1)) } else { None })
    });
    future::block_on(rt, below_two.take(3).collect::<Vec<u32>>(rt.alloc()))?.map_err(|_| AllocError)
}
