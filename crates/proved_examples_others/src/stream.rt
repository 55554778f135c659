//! Written by tools/documents: the functions with clauses in the examples of `futures_lite::stream`.
ghost use Rattle.std.specs.Prelude.{◌≡◌, ◌-◌, ◌∷◌, [], IfOk, None, Ok, Some, replicate};
ghost use Rattle.std.specs.List.{range_with_len};

use futures_lite::{Stream, StreamExt, future, stream};
use rand_core::SeedableRng;
use rand_pcg::Pcg32;
use std::alloc::{AllocError, AllocGlobal};
use std::collections::BTreeSet;
use std::random::RandomSource;
use std::sync::Wait;

pub fn drain_get_mut_replaced<S: Stream + Drop>(s: S, other: S) -> S
    ensures { result ≡ other }
{
    let mut s = s;
    *s.drain().get_mut() = other;
    s
}

pub fn drain_get_ref_hint<S: Stream>(s: &mut S) -> (usize, Option<usize>)
    ensures { S.hints s.old result }
{
    s.drain().get_ref().size_hint()
}

pub fn drain_into_inner_replaced<S: Stream + Drop>(s: S, other: S) -> S
    ensures { result ≡ other }
{
    let mut s = s;
    *s.drain().into_inner() = other;
    s
}

pub fn empty_nothing<R>(rt: &R) -> Result<Option<u8>, AllocError>
where
    R: Wait + RandomSource + AllocGlobal,
    ensures { IfOk result (λ v. v ≡ None) }
{
    let mut empty = stream::empty::<u8>();
    future::block_on(rt, empty.next())
}

pub fn iter_array_letters<R>(rt: &R, first: char, second: char) -> Result<Vec<char>, AllocError>
where
    R: Wait + RandomSource + AllocGlobal,
    ensures { IfOk result (λ v. v.items ≡ first ∷ second ∷ []) }
{
    future::block_on(
        rt,
        stream::iter_array([first, second]).collect::<Vec<char>>(rt.alloc()),
    )?
    .map_err(|_| AllocError)
}

pub fn iter_range_numbers<R>(rt: &R, start: usize, end: usize) -> Result<Vec<usize>, AllocError>
where
    R: Wait + RandomSource + AllocGlobal,
    ensures { IfOk result (λ v. v.items ≡ range_with_len start (end - start)) }
{
    future::block_on(
        rt,
        stream::iter_range(start..end).collect::<Vec<usize>>(rt.alloc()),
    )?
    .map_err(|_| AllocError)
}

pub fn iter_slice_copied<R>(rt: &R, prices: &[u32]) -> Result<Vec<u32>, AllocError>
where
    R: Wait + RandomSource + AllocGlobal,
    ensures { IfOk result (λ v. v.items ≡ prices.now) }
{
    future::block_on(
        rt,
        stream::iter_slice(prices).collect::<Vec<u32>>(rt.alloc()),
    )?
    .map_err(|_| AllocError)
}

pub fn iter_vec_numbers<R>(rt: &R) -> Result<Vec<u8>, AllocError>
where
    R: Wait + RandomSource + AllocGlobal,
    ensures { IfOk result (λ v. v.items ≡ 1 ∷ 2 ∷ []) }
{
    let numbers = stream::iter_vec(vec![in rt.alloc(); 1u8, 2]?);
    future::block_on(rt, numbers.collect::<Vec<u8>>(rt.alloc()))?.map_err(|_| AllocError)
}

pub fn once_only<R>(rt: &R) -> Result<(Option<u8>, Option<u8>), AllocError>
where
    R: Wait + RandomSource + AllocGlobal,
    ensures { IfOk result (λ v. v ≡ (Some 7, None)) }
{
    let mut seven = stream::once(7);
    let first = future::wait_for(rt, &mut seven.next())?;
    Ok((first, future::wait_for(rt, &mut seven.next())?))
}

pub fn once_future_value<R>(rt: &R) -> Result<Vec<u8>, AllocError>
where
    R: Wait + RandomSource + AllocGlobal,
    ensures { IfOk result (λ v. v.items ≡ 7 ∷ []) }
{
    let seven = stream::once_future(future::ready(7));
    future::block_on(rt, seven.collect::<Vec<u8>>(rt.alloc()))?.map_err(|_| AllocError)
}

pub fn or_first<R>(rt: &R) -> Result<Option<u8>, AllocError>
where
    R: Wait + RandomSource + AllocGlobal,
    ensures { IfOk result (λ v. v ≡ Some 1) }
{
    let mut merged = stream::or(stream::once(1u8), stream::pending());
    future::block_on(rt, merged.next())
}

pub fn or_second<R>(rt: &R) -> Result<Option<u8>, AllocError>
where
    R: Wait + RandomSource + AllocGlobal,
    ensures { IfOk result (λ v. v ≡ Some 2) }
{
    let mut merged = stream::or(stream::pending(), stream::once(2u8));
    future::block_on(rt, merged.next())
}

pub fn or_preferred<R>(rt: &R) -> Result<Option<u8>, AllocError>
where
    R: Wait + RandomSource + AllocGlobal,
    ensures { IfOk result (λ v. v ≡ Some 1) }
{
    let mut merged = stream::or(stream::once(1u8), stream::once(2));
    future::block_on(rt, merged.next())
}

pub fn pending_at_first<R>(rt: &R) -> Result<Option<Option<u8>>, AllocError>
where
    R: Wait + RandomSource + AllocGlobal,
    ensures { IfOk result (λ v. v ≡ None) }
{
    let mut never = stream::pending::<u8>();
    future::block_on(rt, future::poll_once(never.next()))
}

pub fn pending_waits<R>(rt: &R) -> Result<Option<u8>, AllocError>
where
    R: Wait + RandomSource + AllocGlobal,
    ensures { IfOk result (λ _. ⊥) }
{
    let mut never = stream::pending::<u8>();
    future::block_on(rt, never.next())
}

pub fn race_first<R>(rt: &R) -> Result<Option<u8>, AllocError>
where
    R: Wait + RandomSource + AllocGlobal,
    ensures { IfOk result (λ v. v ≡ Some 1) }
{
    let mut merged = stream::race(
        stream::once(1u8),
        stream::pending(),
        Pcg32::seed_from_u64(1),
    );
    future::block_on(rt, merged.next())
}

pub fn race_second<R>(rt: &R) -> Result<Option<u8>, AllocError>
where
    R: Wait + RandomSource + AllocGlobal,
    ensures { IfOk result (λ v. v ≡ Some 2) }
{
    let mut merged = stream::race(
        stream::pending(),
        stream::once(2u8),
        Pcg32::seed_from_u64(1),
    );
    future::block_on(rt, merged.next())
}

pub fn race_with_seed_first<R>(rt: &R) -> Result<Option<u8>, AllocError>
where
    R: Wait + RandomSource + AllocGlobal,
    ensures { IfOk result (λ v. v ≡ Some 1) }
{
    let mut merged = stream::race_with_seed(stream::once(1u8), stream::pending(), 123);
    future::block_on(rt, merged.next())
}

pub fn race_with_seed_second<R>(rt: &R) -> Result<Option<u8>, AllocError>
where
    R: Wait + RandomSource + AllocGlobal,
    ensures { IfOk result (λ v. v ≡ Some 2) }
{
    let mut merged = stream::race_with_seed(stream::pending(), stream::once(2u8), 123);
    future::block_on(rt, merged.next())
}

pub fn repeat_repeated<R>(
    rt: &R,
    item: u8,
    n: usize,
) -> Result<Vec<Result<u8, AllocError>>, AllocError>
where
    R: Wait + RandomSource + AllocGlobal,
    ensures { IfOk result (λ v. v.items ≡ replicate n (Ok item)) }
{
    let items = stream::repeat(item).take(n);
    future::block_on(rt, items.collect::<Vec<_>>(rt.alloc()))?.map_err(|_| AllocError)
}

pub fn repeat_with_sevens<R>(rt: &R, n: usize) -> Result<Vec<u8>, AllocError>
where
    R: Wait + RandomSource + AllocGlobal,
    ensures { IfOk result (λ v. v.items ≡ replicate n 7) }
{
    let sevens = stream::repeat_with(|| 7u8).take(n);
    future::block_on(rt, sevens.collect::<Vec<u8>>(rt.alloc()))?.map_err(|_| AllocError)
}
