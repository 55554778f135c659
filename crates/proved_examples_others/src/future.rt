//! Written by tools/documents: the functions with clauses in the examples of `futures_lite::future`.
ghost use Rattle.std.specs.Prelude.{◌≡◌, Err, IfOk, None, Some};

use futures_lite::{Context, FutureExt, Poll, future};
use rand_core::SeedableRng;
use rand_pcg::Pcg32;
use std::alloc::{AllocError, AllocGlobal};
use std::random::RandomSource;
use std::sync::Wait;

pub fn block_on_sum<R>(rt: &R) -> Result<u8, AllocError>
where
    R: Wait + RandomSource + AllocGlobal,
    ensures { IfOk result (λ v. v ≡ 3) }
{
    future::block_on(rt, future::ready(1 + 2))
}

pub fn future_ext_or_first<R>(rt: &R) -> Result<u8, AllocError>
where
    R: Wait + RandomSource + AllocGlobal,
    ensures { IfOk result (λ v. v ≡ 1) }
{
    future::block_on(rt, future::ready(1).or(future::pending()))
}

pub fn future_ext_or_second<R>(rt: &R) -> Result<u8, AllocError>
where
    R: Wait + RandomSource + AllocGlobal,
    ensures { IfOk result (λ v. v ≡ 2) }
{
    future::block_on(rt, future::pending().or(future::ready(2)))
}

pub fn future_ext_or_preferred<R>(rt: &R) -> Result<u8, AllocError>
where
    R: Wait + RandomSource + AllocGlobal,
    ensures { IfOk result (λ v. v ≡ 1) }
{
    future::block_on(rt, future::ready(1).or(future::ready(2)))
}

pub fn future_ext_race_first<R>(rt: &R) -> Result<u8, AllocError>
where
    R: Wait + RandomSource + AllocGlobal,
    ensures { IfOk result (λ v. v ≡ 1) }
{
    let rng = Pcg32::seed_from_u64(7);
    future::block_on(rt, future::ready(1).race(future::pending(), rng))
}

pub fn future_ext_race_second<R>(rt: &R) -> Result<u8, AllocError>
where
    R: Wait + RandomSource + AllocGlobal,
    ensures { IfOk result (λ v. v ≡ 2) }
{
    let rng = Pcg32::seed_from_u64(7);
    future::block_on(rt, future::pending().race(future::ready(2), rng))
}

pub fn or_first<R>(rt: &R) -> Result<u8, AllocError>
where
    R: Wait + RandomSource + AllocGlobal,
    ensures { IfOk result (λ v. v ≡ 1) }
{
    future::block_on(rt, future::or(future::ready(1), future::pending()))
}

pub fn or_second<R>(rt: &R) -> Result<u8, AllocError>
where
    R: Wait + RandomSource + AllocGlobal,
    ensures { IfOk result (λ v. v ≡ 2) }
{
    future::block_on(rt, future::or(future::pending(), future::ready(2)))
}

pub fn or_preferred<R>(rt: &R) -> Result<u8, AllocError>
where
    R: Wait + RandomSource + AllocGlobal,
    ensures { IfOk result (λ v. v ≡ 1) }
{
    future::block_on(rt, future::or(future::ready(1), future::ready(2)))
}

pub fn poll_fn_seven<R>(rt: &R) -> Result<u8, AllocError>
where
    R: Wait + RandomSource + AllocGlobal,
    ensures { IfOk result (λ v. v ≡ 7) }
{
    future::block_on(
        rt,
        future::poll_fn(|_cx: &mut Context<'_>| Poll::Ready(7u8)),
    )
}

pub fn poll_once_at_once<R>(rt: &R) -> Result<Option<u8>, AllocError>
where
    R: Wait + RandomSource + AllocGlobal,
    ensures { IfOk result (λ v. v ≡ Some 42) }
{
    future::block_on(rt, future::poll_once(future::ready(42)))
}

pub fn poll_once_not_yet<R>(rt: &R) -> Result<Option<u8>, AllocError>
where
    R: Wait + RandomSource + AllocGlobal,
    ensures { IfOk result (λ v. v ≡ None) }
{
    future::block_on(rt, future::poll_once(future::pending()))
}

pub fn race_first<R>(rt: &R) -> Result<u8, AllocError>
where
    R: Wait + RandomSource + AllocGlobal,
    ensures { IfOk result (λ v. v ≡ 1) }
{
    let rng = Pcg32::seed_from_u64(7);
    future::block_on(rt, future::race(future::ready(1), future::pending(), rng))
}

pub fn race_second<R>(rt: &R) -> Result<u8, AllocError>
where
    R: Wait + RandomSource + AllocGlobal,
    ensures { IfOk result (λ v. v ≡ 2) }
{
    let rng = Pcg32::seed_from_u64(7);
    future::block_on(rt, future::race(future::pending(), future::ready(2), rng))
}

pub fn race_with_seed_first<R>(rt: &R) -> Result<u8, AllocError>
where
    R: Wait + RandomSource + AllocGlobal,
    ensures { IfOk result (λ v. v ≡ 1) }
{
    future::block_on(
        rt,
        future::race_with_seed(future::ready(1), future::pending(), 0x42),
    )
}

pub fn race_with_seed_second<R>(rt: &R) -> Result<u8, AllocError>
where
    R: Wait + RandomSource + AllocGlobal,
    ensures { IfOk result (λ v. v ≡ 2) }
{
    future::block_on(
        rt,
        future::race_with_seed(future::pending(), future::ready(2), 0x42),
    )
}

pub fn try_zip_failed<R>(rt: &R) -> Result<Result<(u8, u8), u8>, AllocError>
where
    R: Wait + RandomSource + AllocGlobal,
    ensures { IfOk result (λ v. v ≡ Err 2) }
{
    let first = future::ready(Ok::<u8, u8>(1));
    let second = future::ready(Err::<u8, u8>(2));
    future::block_on(rt, future::try_zip(first, second))
}

pub fn yield_now_first_poll<R>(rt: &R) -> Result<Option<()>, AllocError>
where
    R: Wait + RandomSource + AllocGlobal,
    ensures { IfOk result (λ v. v ≡ None) }
{
    future::block_on(rt, future::poll_once(future::yield_now()))
}

pub fn zip_both<R>(rt: &R) -> Result<(u8, u8), AllocError>
where
    R: Wait + RandomSource + AllocGlobal,
    ensures { IfOk result (λ v. v ≡ (1, 2)) }
{
    future::block_on(rt, future::zip(future::ready(1), future::ready(2)))
}
