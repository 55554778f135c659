//! Written by tools/documents: the functions with clauses in the examples of the methods of `StreamExt` that return a stream.
ghost use Rattle.std.specs.Prelude.{◌≡◌, ◌==◌, ◌%◌, ◌/◌, ◌*◌, ◌+◌, ◌++◌, ◌^◌, ◌∷◌, [], if◌then◌else◌, IfOk, None, Ok, Some, drop, flat_map, map, nat_lt, take};
ghost use Rattle.std.specs.List.{filter, filter_map, prefix_len, slice_get, zip};
ghost use Rattle.futures_lite.specs.Lists.{map_while, scan};

use futures_lite::{StreamExt, future, stream};
use rand_core::SeedableRng;
use rand_pcg::Pcg32;
use std::alloc::{AllocError, AllocGlobal};
use std::collections::BTreeSet;
use std::random::RandomSource;
use std::sync::Wait;

pub fn stream_ext_chain_joined<R>(
    rt: &R,
    first: Vec<u8>,
    second: Vec<u8>,
) -> Result<Vec<u8>, AllocError>
where
    R: Wait + RandomSource + AllocGlobal,
    ensures { IfOk result (λ v. v.items ≡ first.items ++ second.items) }
{
    let both = stream::iter_vec(first).chain(stream::iter_vec(second));
    future::block_on(rt, both.collect::<Vec<u8>>(rt.alloc()))?.map_err(|_| AllocError)
}

pub fn stream_ext_cloned_copy_of<R>(
    rt: &R,
    number: &u32,
) -> Result<Option<Result<u32, AllocError>>, AllocError>
where
    R: Wait + RandomSource + AllocGlobal,
    ensures { IfOk result (λ v. v ≡ slice_get (map (λ x. Ok x.now) (number.entry ∷ [])) 0) }
{
    let mut clones = stream::once(number).cloned();
    future::block_on(rt, clones.next())
}

pub fn stream_ext_copied_copies<R>(rt: &R) -> Result<Vec<u8>, AllocError>
where
    R: Wait + RandomSource + AllocGlobal,
    ensures { IfOk result (λ v. v.items ≡ 1 ∷ 2 ∷ []) }
{
    let numbers = [1u8, 2];
    let copies = stream::iter_array([&numbers[0], &numbers[1]]).copied();
    future::block_on(rt, copies.collect::<Vec<u8>>(rt.alloc()))?.map_err(|_| AllocError)
}

pub fn stream_ext_enumerate_numbered<R>(
    rt: &R,
    first: char,
    second: char,
) -> Result<Vec<(usize, char)>, AllocError>
where
    R: Wait + RandomSource + AllocGlobal,
    ensures { IfOk result (λ v. v.items ≡ (0, first) ∷ (1, second) ∷ []) }
{
    let numbered = stream::iter_array([first, second]).enumerate();
    future::block_on(rt, numbered.collect::<Vec<(usize, char)>>(rt.alloc()))?.map_err(
        |_| AllocError,
    )
}

pub fn stream_ext_filter_evens<R>(rt: &R, numbers: Vec<u32>) -> Result<Vec<u32>, AllocError>
where
    R: Wait + RandomSource + AllocGlobal,
    ensures { IfOk result (λ v. v.items ≡ filter (λ x. x % 2 == 0) numbers.items) }
{
    let evens = stream::iter_vec(numbers).filter(|x: &u32| *x % 2 == 0);
    future::block_on(rt, evens.collect::<Vec<u32>>(rt.alloc()))?.map_err(|_| AllocError)
}

pub fn stream_ext_filter_map_halves<R>(rt: &R, numbers: Vec<u32>) -> Result<Vec<u32>, AllocError>
where
    R: Wait + RandomSource + AllocGlobal,
    ensures { IfOk result (λ v. v.items ≡ filter_map (λ x. if x % 2 == 0 then Some (x / 2) else None) numbers.items) }
{
    let halves = stream::iter_vec(numbers).filter_map(|x: u32| if x % 2 == 0 {
        Some(x / 2)
    } else {
        None
    });
    future::block_on(rt, halves.collect::<Vec<u32>>(rt.alloc()))?.map_err(|_| AllocError)
}

pub fn stream_ext_flat_map_twice<R>(rt: &R, numbers: Vec<u32>) -> Result<Vec<u32>, AllocError>
where
    R: Wait + RandomSource + AllocGlobal,
    ensures { IfOk result (λ v. v.items ≡ flat_map (λ x. x ∷ x ∷ []) numbers.items) }
{
    let twice = stream::iter_vec(numbers).flat_map(|x: u32| stream::iter_array([x, x]));
    future::block_on(rt, twice.collect::<Vec<u32>>(rt.alloc()))?.map_err(|_| AllocError)
}

pub fn stream_ext_fuse_first<R>(rt: &R) -> Result<Option<u8>, AllocError>
where
    R: Wait + RandomSource + AllocGlobal,
    ensures { IfOk result (λ v. v ≡ Some 1) }
{
    let mut fused = stream::once(1u8).fuse();
    future::block_on(rt, fused.next())
}

pub fn stream_ext_inspect_unchanged<R>(rt: &R) -> Result<Vec<u8>, AllocError>
where
    R: Wait + RandomSource + AllocGlobal,
    ensures { IfOk result (λ v. v.items ≡ 5 ∷ 6 ∷ []) }
{
    let shown = stream::iter_array([5, 6]).inspect(|_x: &u8| ());
    future::block_on(rt, shown.collect::<Vec<u8>>(rt.alloc()))?.map_err(|_| AllocError)
}

pub fn stream_ext_map_doubled<R>(rt: &R, numbers: Vec<u32>) -> Result<Vec<u64>, AllocError>
where
    R: Wait + RandomSource + AllocGlobal,
    ensures { IfOk result (λ v. v.items ≡ map (λ x. x * 2) numbers.items) }
{
    let doubled = stream::iter_vec(numbers).map(|x: u32| x as u64 * 2);
    future::block_on(rt, doubled.collect::<Vec<u64>>(rt.alloc()))?.map_err(|_| AllocError)
}

pub fn stream_ext_map_while_halves<R>(rt: &R, numbers: Vec<u32>) -> Result<Vec<u32>, AllocError>
where
    R: Wait + RandomSource + AllocGlobal,
    ensures { IfOk result (λ v. v.items ≡ map_while (λ x. if x % 2 == 0 then Some (x / 2) else None) numbers.items) }
{
    let halves = stream::iter_vec(numbers).map_while(|x: u32| if x % 2 == 0 {
        Some(x / 2)
    } else {
        None
    });
    future::block_on(rt, halves.collect::<Vec<u32>>(rt.alloc()))?.map_err(|_| AllocError)
}

pub fn stream_ext_or_first<R>(rt: &R) -> Result<Option<u8>, AllocError>
where
    R: Wait + RandomSource + AllocGlobal,
    ensures { IfOk result (λ v. v ≡ Some 1) }
{
    let mut merged = stream::once(1u8).or(stream::pending());
    future::block_on(rt, merged.next())
}

pub fn stream_ext_or_second<R>(rt: &R) -> Result<Option<u8>, AllocError>
where
    R: Wait + RandomSource + AllocGlobal,
    ensures { IfOk result (λ v. v ≡ Some 2) }
{
    let mut merged = stream::pending().or(stream::once(2u8));
    future::block_on(rt, merged.next())
}

pub fn stream_ext_or_preferred<R>(rt: &R) -> Result<Option<u8>, AllocError>
where
    R: Wait + RandomSource + AllocGlobal,
    ensures { IfOk result (λ v. v ≡ Some 1) }
{
    let mut merged = stream::once(1u8).or(stream::once(2));
    future::block_on(rt, merged.next())
}

pub fn stream_ext_race_first<R>(rt: &R) -> Result<Option<u8>, AllocError>
where
    R: Wait + RandomSource + AllocGlobal,
    ensures { IfOk result (λ v. v ≡ Some 1) }
{
    let mut merged = stream::once(1u8).race(stream::pending(), Pcg32::seed_from_u64(1));
    future::block_on(rt, merged.next())
}

pub fn stream_ext_race_second<R>(rt: &R) -> Result<Option<u8>, AllocError>
where
    R: Wait + RandomSource + AllocGlobal,
    ensures { IfOk result (λ v. v ≡ Some 2) }
{
    let mut merged = stream::pending().race(stream::once(2u8), Pcg32::seed_from_u64(1));
    future::block_on(rt, merged.next())
}

pub fn stream_ext_scan_sums<R>(rt: &R, numbers: Vec<u32>) -> Result<Vec<u32>, AllocError>
where
    R: Wait + RandomSource + AllocGlobal,
    ensures { IfOk result (λ v. v.items ≡ scan (λ s x. ((s + x) % 2 ^ 32, Some ((s + x) % 2 ^ 32))) 0 numbers.items) }
{
    let sums = stream::iter_vec(numbers).scan(0u32, |sum: &mut u32, x: u32| {
        *sum = sum.wrapping_add(x);
        Some(*sum)
    });
    future::block_on(rt, sums.collect::<Vec<u32>>(rt.alloc()))?.map_err(|_| AllocError)
}

pub fn stream_ext_skip_rest<R>(rt: &R) -> Result<Vec<u8>, AllocError>
where
    R: Wait + RandomSource + AllocGlobal,
    ensures { IfOk result (λ v. v.items ≡ 2 ∷ 3 ∷ []) }
{
    let rest = stream::iter_array([1, 2, 3]).skip(1);
    future::block_on(rt, rest.collect::<Vec<u8>>(rt.alloc()))?.map_err(|_| AllocError)
}

pub fn stream_ext_skip_while_rest<R>(rt: &R, numbers: Vec<u32>) -> Result<Vec<u32>, AllocError>
where
    R: Wait + RandomSource + AllocGlobal,
    ensures { IfOk result (λ v. v.items ≡ drop (prefix_len (λ x. nat_lt x 3) numbers.items) numbers.items) }
{
    let rest = stream::iter_vec(numbers).skip_while(|x: &u32| *x < 3);
    future::block_on(rt, rest.collect::<Vec<u32>>(rt.alloc()))?.map_err(|_| AllocError)
}

pub fn stream_ext_step_by_seconds<R>(rt: &R) -> Result<Vec<u8>, AllocError>
where
    R: Wait + RandomSource + AllocGlobal,
    ensures { IfOk result (λ v. v.items ≡ 0 ∷ 2 ∷ 4 ∷ []) }
{
    let seconds = stream::iter_array([0, 1, 2, 3, 4]).step_by(2);
    future::block_on(rt, seconds.collect::<Vec<u8>>(rt.alloc()))?.map_err(|_| AllocError)
}

pub fn stream_ext_take_firsts<R>(rt: &R) -> Result<Vec<u8>, AllocError>
where
    R: Wait + RandomSource + AllocGlobal,
    ensures { IfOk result (λ v. v.items ≡ 1 ∷ 2 ∷ []) }
{
    let firsts = stream::iter_array([1, 2, 3, 4]).take(2);
    future::block_on(rt, firsts.collect::<Vec<u8>>(rt.alloc()))?.map_err(|_| AllocError)
}

pub fn stream_ext_take_while_small<R>(rt: &R, numbers: Vec<u32>) -> Result<Vec<u32>, AllocError>
where
    R: Wait + RandomSource + AllocGlobal,
    ensures { IfOk result (λ v. v.items ≡ take (prefix_len (λ x. nat_lt x 5) numbers.items) numbers.items) }
{
    let small = stream::iter_vec(numbers).take_while(|x: &u32| *x < 5);
    future::block_on(rt, small.collect::<Vec<u32>>(rt.alloc()))?.map_err(|_| AllocError)
}

pub fn stream_ext_then_doubled<R>(rt: &R, numbers: Vec<u32>) -> Result<Vec<u64>, AllocError>
where
    R: Wait + RandomSource + AllocGlobal,
    ensures { IfOk result (λ v. v.items ≡ map (λ x. x * 2) numbers.items) }
{
    let doubled = stream::iter_vec(numbers).then(|x: u32| future::ready(x as u64 * 2));
    future::block_on(rt, doubled.collect::<Vec<u64>>(rt.alloc()))?.map_err(|_| AllocError)
}

pub fn stream_ext_with_budget_unchanged<R>(rt: &R) -> Result<Vec<u8>, AllocError>
where
    R: Wait + RandomSource + AllocGlobal,
    ensures { IfOk result (λ v. v.items ≡ 1 ∷ 2 ∷ 3 ∷ []) }
{
    let paced = stream::iter_array([1, 2, 3]).with_budget(2);
    future::block_on(rt, paced.collect::<Vec<u8>>(rt.alloc()))?.map_err(|_| AllocError)
}

pub fn stream_ext_zip_pairs<R>(
    rt: &R,
    first: Vec<u32>,
    second: Vec<u8>,
) -> Result<Vec<(u32, u8)>, AllocError>
where
    R: Wait + RandomSource + AllocGlobal,
    ensures { IfOk result (λ v. v.items ≡ zip first.items second.items) }
{
    let pairs = stream::iter_vec(first).zip(stream::iter_vec(second));
    future::block_on(rt, pairs.collect::<Vec<(u32, u8)>>(rt.alloc()))?.map_err(|_| AllocError)
}
