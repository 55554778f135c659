//! What callers know of a retry's value.
ghost use Rattle.std.specs.Prelude.{◌≡◌, IfOk, Ok, map};
ghost use Rattle.std.specs.List.{range_with_len};
ghost use Rattle.futures_lite.specs.Lists.{try_pair};
ghost use Rattle.futures_lite.specs.Streams.{MakesAlways};
ghost use Rattle.example_retry.specs.Outcome.{Outcome, first_ok};
ghost use Rattle.example_retry.specs.Reply.{busy_reply};

use crate::make::retry;
use futures_lite::Future;
use futures_lite::future::{block_on, ready, try_zip};
use std::alloc::{AllocError, AllocGlobal};
use std::random::RandomSource;
use std::sync::Wait;

/// Waits for a retry of any futures. An `Ok` is the value of an attempt. `Err` means that all attempts failed.
///
/// The outer `Err` is an allocation failure: then no attempt was made.
pub fn waited<R, T, E, F, M>(rt: &R, retries: u32, make: M) -> Result<Result<T, E>, AllocError>
where
    R: Wait + RandomSource + AllocGlobal,
    E: Drop,
    F: Future<Output = Result<T, E>> + Drop,
    M: FnMut(u32) -> F + Drop,
    requires callable { M.IsAlwaysCallable make }
    requires makes { MakesAlways M.FnMut F.can_poll make }
    ensures { IfOk result (Outcome M.FnMut F.run make retries) }
{
    block_on(rt, retry(retries, make))
}

/// Asks a server that refuses the first `busy` requests, and returns its reply.
///
/// The outer `Err` is an allocation failure: then no request was made.
pub fn retried<R>(rt: &R, retries: u32, busy: u32) -> Result<Result<u32, u32>, AllocError>
where
    R: Wait + RandomSource + AllocGlobal,
    ensures { IfOk result (λ v. v ≡ first_ok (busy_reply busy 0) (map (busy_reply busy) (range_with_len 1 retries))) }
{
    let reply = retry(
        retries,
        |n: u32| ready(if n < busy { Err(n) } else { Ok(n) }),
    );
    block_on(rt, reply)
}

/// Returns `first` and that server's reply, or the server's last error.
///
/// The outer `Err` is an allocation failure: then no request was made.
pub fn paired<R>(
    rt: &R,
    first: u32,
    retries: u32,
    busy: u32,
) -> Result<Result<(u32, u32), u32>, AllocError>
where
    R: Wait + RandomSource + AllocGlobal,
    ensures { IfOk result
        (λ v. v ≡ try_pair (Ok first) (first_ok (busy_reply busy 0) (map (busy_reply busy) (range_with_len 1 retries)))) }
{
    let reply = retry(
        retries,
        |n: u32| ready(if n < busy { Err(n) } else { Ok(n) }),
    );
    block_on(rt, try_zip(ready(Ok::<u32, u32>(first)), reply))
}
