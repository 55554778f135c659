//! The function that makes a retry.
ghost use Rattle.std.specs.Prelude.{◌≡◌, ℕ, None, Result, map};
ghost use Rattle.std.specs.List.{range_with_len};
ghost use Rattle.std.specs.declared.alloc.AllocError.{AllocError};
ghost use Rattle.futures_lite.specs.Lists.{HasValueAs, ValueHolds};
ghost use Rattle.example_retry.specs.Outcome.{MakesValues, Outcome, first_ok};
ghost use Rattle.example_retry.specs.Retry.{Retries};

use crate::retry::Retry;
use futures_lite::Future;

/// Returns a future that makes an attempt, and another one after each attempt that fails, up to `retries` more.
///
/// `make` is called with the number of the attempt, from 0 on, and returns its future. The value is the `Ok` of the
/// first attempt that succeeds. If none does, it is the `Err` of the last attempt, with the number `retries`.
///
/// The caller guarantees that `make` may always be called, and returns futures that may be polled (`MakesAlways`). The
/// contract says what the attempts returned (`outcome`). If `make` acts as a function, and the values of its futures
/// are known, it says which value comes (`value`).
///
/// # Examples
///
/// ```
/// let third = retry(3, |n: u32| ready(if n < 2 { Err(n) } else { Ok(n) }));
/// assert_eq!(rt; block_on(&rt, third)?, Ok(2));
/// ```
#[tactic(auto, using(crate::specs::OutcomeLaws::waited_outcome, crate::specs::OutcomeLaws::first_ok_value))]
pub fn retry<T, E, F, M>(retries: u32, make: M) -> Retry<F, M>
where
    M: FnMut(u32) -> F,
    F: Future<Output = Result<T, E>>,
    ensures made { result ≡ record { make = make; number = 0; last = retries; attempt = None } }
    ensures outcome { ValueHolds AllocError (Retries M.FnMut F.run) result (Outcome M.FnMut F.run make retries) }
    ensures value { (h : ℕ → Result T E) → MakesValues M.FnMut F.run make h
        → HasValueAs (Retries M.FnMut F.run) result (first_ok (h 0) (map h (range_with_len 1 retries))) }
{
    Retry {
        make,
        number: 0,
        last: retries,
        attempt: None,
    }
}
