//! Written by tools/documents: the functions with clauses in the examples of the methods of `StreamExt` that consume a stream.
ghost use Rattle.std.specs.Prelude.{◌≡◌, ◌==◌, ◌%◌, ◌/◌, ◌+◌, ◌^◌, ◌∷◌, [], if◌then◌else◌, Err, IfOk, None, Ok, Some, length, map, nat_lt, not};
ghost use Rattle.std.specs.List.{filter, filter_map, find, fold, list_all, list_any, position, slice_get};
ghost use Rattle.futures_lite.specs.Uses.{first_error, try_fold};

use futures_lite::{StreamExt, future, stream};
use std::alloc::{AllocError, AllocGlobal};
use std::random::RandomSource;
use std::sync::Wait;

pub fn stream_ext_all_all_even<R>(rt: &R, numbers: Vec<u32>) -> Result<bool, AllocError>
where
    R: Wait + RandomSource + AllocGlobal,
    ensures { IfOk result (λ v. v ≡ list_all (λ x. x % 2 == 0) numbers.items) }
{
    let mut numbers = stream::iter_vec(numbers);
    future::block_on(rt, numbers.all(|x: u32| x % 2 == 0))
}

pub fn stream_ext_any_any_even<R>(rt: &R, numbers: Vec<u32>) -> Result<bool, AllocError>
where
    R: Wait + RandomSource + AllocGlobal,
    ensures { IfOk result (λ v. v ≡ list_any (λ x. x % 2 == 0) numbers.items) }
{
    let mut numbers = stream::iter_vec(numbers);
    future::block_on(rt, numbers.any(|x: u32| x % 2 == 0))
}

pub fn stream_ext_collect_collected<R>(rt: &R) -> Result<Vec<u8>, AllocError>
where
    R: Wait + RandomSource + AllocGlobal,
    ensures { IfOk result (λ v. v.items ≡ 1 ∷ 2 ∷ 3 ∷ []) }
{
    future::block_on(
        rt,
        stream::iter_array([1, 2, 3]).collect::<Vec<u8>>(rt.alloc()),
    )?
    .map_err(|_| AllocError)
}

pub fn stream_ext_count_evens<R>(rt: &R, numbers: Vec<u32>) -> Result<usize, AllocError>
where
    R: Wait + RandomSource + AllocGlobal,
    ensures { IfOk result (λ v. v ≡ length (filter (λ x. x % 2 == 0) numbers.items)) }
{
    let evens = stream::iter_vec(numbers).filter(|x: &u32| *x % 2 == 0);
    future::block_on(rt, evens.count())
}

pub fn stream_ext_find_even<R>(rt: &R, numbers: Vec<u32>) -> Result<Option<u32>, AllocError>
where
    R: Wait + RandomSource + AllocGlobal,
    ensures { IfOk result (λ v. v ≡ find (λ x. x % 2 == 0) numbers.items) }
{
    let mut numbers = stream::iter_vec(numbers);
    future::block_on(rt, numbers.find(|x: &u32| *x % 2 == 0))
}

pub fn stream_ext_find_map_half<R>(rt: &R, numbers: Vec<u32>) -> Result<Option<u32>, AllocError>
where
    R: Wait + RandomSource + AllocGlobal,
    ensures { IfOk result (λ v. v ≡ slice_get (filter_map (λ x. if x % 2 == 0 then Some (x / 2) else None) numbers.items) 0) }
{
    let mut numbers = stream::iter_vec(numbers);
    future::block_on(
        rt,
        numbers.find_map(|x: u32| if x % 2 == 0 { Some(x / 2) } else { None }),
    )
}

pub fn stream_ext_fold_sum<R>(rt: &R, numbers: Vec<u32>) -> Result<u32, AllocError>
where
    R: Wait + RandomSource + AllocGlobal,
    ensures { IfOk result (λ v. v ≡ fold (λ a x. (a + x) % 2 ^ 32) 0 numbers.items) }
{
    let sum = stream::iter_vec(numbers).fold(0u32, |a: u32, x: u32| a.wrapping_add(x));
    future::block_on(rt, sum)
}

pub fn stream_ext_last_last<R>(rt: &R) -> Result<Option<u8>, AllocError>
where
    R: Wait + RandomSource + AllocGlobal,
    ensures { IfOk result (λ v. v ≡ Some 4) }
{
    future::block_on(rt, stream::iter_array([1u8, 2, 3, 4]).last())
}

pub fn stream_ext_last_none<R>(rt: &R) -> Result<Option<u8>, AllocError>
where
    R: Wait + RandomSource + AllocGlobal,
    ensures { IfOk result (λ v. v ≡ None) }
{
    future::block_on(rt, stream::empty::<u8>().last())
}

pub fn stream_ext_next_first_two<R>(rt: &R) -> Result<(Option<u8>, Option<u8>), AllocError>
where
    R: Wait + RandomSource + AllocGlobal,
    ensures { IfOk result (λ v. v ≡ (Some 7, Some 8)) }
{
    let mut numbers = stream::iter_array([7, 8]);
    let first = future::wait_for(rt, &mut numbers.next())?;
    Ok((first, future::wait_for(rt, &mut numbers.next())?))
}

pub fn stream_ext_next_third<R>(rt: &R) -> Result<Option<u8>, AllocError>
where
    R: Wait + RandomSource + AllocGlobal,
    ensures { IfOk result (λ v. v ≡ None) }
{
    let mut numbers = stream::iter_array([7, 8]);
    future::wait_for(rt, &mut numbers.next())?;
    future::wait_for(rt, &mut numbers.next())?;
    future::wait_for(rt, &mut numbers.next())
}

pub fn stream_ext_nth_second<R>(rt: &R) -> Result<Option<u8>, AllocError>
where
    R: Wait + RandomSource + AllocGlobal,
    ensures { IfOk result (λ v. v ≡ Some 5) }
{
    let mut numbers = stream::iter_array([0, 1, 2, 3, 4, 5, 6, 7]);
    future::wait_for(rt, &mut numbers.nth(2))?;
    future::wait_for(rt, &mut numbers.nth(2))
}

pub fn stream_ext_nth_third<R>(rt: &R) -> Result<Option<u8>, AllocError>
where
    R: Wait + RandomSource + AllocGlobal,
    ensures { IfOk result (λ v. v ≡ None) }
{
    let mut numbers = stream::iter_array([0, 1, 2, 3, 4, 5, 6, 7]);
    future::wait_for(rt, &mut numbers.nth(2))?;
    future::wait_for(rt, &mut numbers.nth(2))?;
    future::wait_for(rt, &mut numbers.nth(2))
}

pub fn stream_ext_nth_first<R>(rt: &R) -> Result<Option<u8>, AllocError>
where
    R: Wait + RandomSource + AllocGlobal,
    ensures { IfOk result (λ v. v ≡ Some 2) }
{
    let mut numbers = stream::iter_array([0, 1, 2, 3, 4, 5, 6, 7]);
    future::block_on(rt, numbers.nth(2))
}

pub fn stream_ext_partition_parted<R>(
    rt: &R,
    numbers: Vec<u32>,
) -> Result<(Vec<u32>, Vec<u32>), AllocError>
where
    R: Wait + RandomSource + AllocGlobal,
    ensures evens { IfOk result (λ v. v.0.items ≡ filter (λ x. x % 2 == 0) numbers.items) }
    ensures odds { IfOk result (λ v. v.1.items ≡ filter (λ x. not (x % 2 == 0)) numbers.items) }
{
    let parted = stream::iter_vec(numbers).partition::<Vec<u32>, _>(
        rt.alloc(),
        |x: &u32| *x % 2 == 0,
    );
    future::block_on(rt, parted)?.map_err(|_| AllocError)
}

pub fn stream_ext_position_place_of_seven<R>(
    rt: &R,
    numbers: Vec<u32>,
) -> Result<Option<usize>, AllocError>
where
    R: Wait + RandomSource + AllocGlobal,
    ensures { IfOk result (λ v. v ≡ position (λ x. x == 7) numbers.items) }
{
    let mut numbers = stream::iter_vec(numbers);
    future::block_on(rt, numbers.position(|x: u32| x == 7))
}

pub fn stream_ext_try_collect_collected<R>(rt: &R) -> Result<Vec<u8>, AllocError>
where
    R: Wait + RandomSource + AllocGlobal,
    ensures { IfOk result (λ v. v.items ≡ 1 ∷ 2 ∷ []) }
{
    let results = stream::iter_array([Ok::<u8, u8>(1), Ok(2)]);
    future::block_on(rt, results.try_collect::<u8, u8, Vec<u8>>(rt.alloc()))?.map_err(
        |_| AllocError,
    )
}

pub fn stream_ext_try_fold_sum<R>(
    rt: &R,
    results: Vec<Result<u32, u32>>,
) -> Result<Result<u32, u32>, AllocError>
where
    R: Wait + RandomSource + AllocGlobal,
    ensures { IfOk result (λ v. v ≡ try_fold (λ a x. Ok ((a + x) % 2 ^ 32)) 0 results.items) }
{
    let mut results = stream::iter_vec(results);
    let sum = results.try_fold(0u32, |a: u32, x: u32| Ok(a.wrapping_add(x)));
    future::block_on(rt, sum)
}

pub fn stream_ext_try_for_each_checked<R>(
    rt: &R,
    numbers: Vec<u32>,
) -> Result<Result<(), u32>, AllocError>
where
    R: Wait + RandomSource + AllocGlobal,
    ensures { IfOk result (λ v. v ≡ first_error {T = Unit {0}} (map (λ x. if nat_lt x 3 then Ok tt else Err x) numbers.items)) }
{
    let mut numbers = stream::iter_vec(numbers);
    let checked = numbers.try_for_each(|x: u32| if x < 3 { Ok(()) } else { Err(x) });
    future::block_on(rt, checked)
}

pub fn stream_ext_try_next_first<R>(rt: &R) -> Result<Result<Option<u8>, u8>, AllocError>
where
    R: Wait + RandomSource + AllocGlobal,
    ensures { IfOk result (λ v. v ≡ Ok (Some 1)) }
{
    let mut results = stream::iter_array([Ok(1), Err(9)]);
    future::block_on(rt, results.try_next())
}

pub fn stream_ext_unzip_parted<R>(rt: &R) -> Result<(Vec<u8>, Vec<u8>), AllocError>
where
    R: Wait + RandomSource + AllocGlobal,
    ensures lefts { IfOk result (λ v. v.0.items ≡ 1 ∷ 2 ∷ []) }
    ensures rights { IfOk result (λ v. v.1.items ≡ 7 ∷ 8 ∷ []) }
{
    let pairs = stream::iter_array([(1u8, 7u8), (2, 8)]);
    let parting = pairs.unzip::<u8, u8, Vec<u8>, Vec<u8>>(rt.alloc());
    future::block_on(rt, parting)?.map_err(|_| AllocError)
}
