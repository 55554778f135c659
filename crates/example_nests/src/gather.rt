//! Nests whose items are collected. Where memory is refused the error says so.
ghost use Rattle.std.specs.Prelude.{◌≡◌, ◌==◌, ◌%◌, ◌*◌, ◌^◌, ◌+◌, ◌++◌, ◌∷◌, [], Err, IfOk, Ok, Some, flat_map};
ghost use Rattle.std.specs.Prelude.{if◌then◌else◌, map, nat_lt, not};
ghost use Rattle.std.specs.List.{enumerate_from, filter, zip};
ghost use Rattle.futures_lite.specs.Lists.{Lists, OfItems, scan};

use futures_lite::StreamExt;
use futures_lite::future::block_on;
use futures_lite::stream::{Counted, TryCollectError, iter_array, iter_vec as iter};
use std::alloc::{AllocError, AllocGlobal};
use std::random::RandomSource;
use std::sync::Wait;

/// The items of any stream.
pub fn collected<R, S>(rt: &R, stream: S) -> Result<Vec<S::Item>, AllocError>
where
    R: Wait + RandomSource + AllocGlobal,
    S: Counted<Item: Drop> + Drop,
    requires polls { S.can_poll stream }
    requires counts { S.ranks.counts stream }
    ensures { OfItems S.run stream (λ xs. IfOk result (λ v. v.items ≡ xs)) }
{
    block_on(rt, stream.collect::<Vec<S::Item>>(rt.alloc()))?.map_err(|_| AllocError)
}

/// The doubled even items.
pub fn evens_doubled<R>(rt: &R, items: Vec<u32>) -> Result<Vec<u64>, AllocError>
where
    R: Wait + RandomSource + AllocGlobal,
    ensures { IfOk result (λ v. v.items ≡ map (λ x. x * 2) (filter (λ x. x % 2 == 0) items.items)) }
{
    let evens = iter(items).filter(|x| *x % 2 == 0);
    let doubled = evens.map(|x: u32| x as u64 * 2);
    collected(rt, doubled)
}

/// One vector's items after the other's.
pub fn joined<R>(rt: &R, first: Vec<u8>, second: Vec<u8>) -> Result<Vec<u8>, AllocError>
where
    R: Wait + RandomSource + AllocGlobal,
    ensures { IfOk result (λ v. v.items ≡ first.items ++ second.items) }
{
    let both = iter(first).chain(iter(second));
    collected(rt, both)
}

/// Pairs of two vectors' items.
pub fn pairs<R>(rt: &R, first: Vec<u8>, second: Vec<u32>) -> Result<Vec<(u8, u32)>, AllocError>
where
    R: Wait + RandomSource + AllocGlobal,
    ensures { IfOk result (λ v. v.items ≡ zip first.items second.items) }
{
    let both = iter(first).zip(iter(second));
    collected(rt, both)
}

/// Each item beside its number.
pub fn numbered<R>(rt: &R, items: Vec<u32>) -> Result<Vec<(usize, u32)>, AllocError>
where
    R: Wait + RandomSource + AllocGlobal,
    ensures { IfOk result (λ v. v.items ≡ enumerate_from 0 items.items) }
{
    let counted = iter(items).enumerate();
    collected(rt, counted)
}

/// The even items, and the others.
pub fn parted<R>(rt: &R, items: Vec<u32>) -> Result<(Vec<u32>, Vec<u32>), AllocError>
where
    R: Wait + RandomSource + AllocGlobal,
    ensures evens { IfOk result (λ v. v.0.items ≡ filter (λ x. x % 2 == 0) items.items) }
    ensures others { IfOk result (λ v. v.1.items ≡ filter (λ x. not (x % 2 == 0)) items.items) }
{
    let both = iter(items).partition::<Vec<u32>, _>(rt.alloc(), |x| *x % 2 == 0);
    block_on(rt, both)?.map_err(|_| AllocError)
}

/// What stands in the place of digits that are all right.
pub enum NotDigits {
    /// This item is none.
    Item(u32),
    /// Memory was refused.
    Memory,
}

/// The items, if each is a digit, and else the first that is none.
pub fn digits<R>(rt: &R, items: Vec<u32>) -> Result<Vec<u32>, NotDigits>
where
    R: Wait + RandomSource + AllocGlobal,
    ensures { IfOk result (λ v. map Ok v.items ≡ map (λ x. if nat_lt x 10 then Ok x else Err x) items.items) }
{
    let checked = iter(items).map(|x: u32| if x < 10 { Ok(x) } else { Err(x) });
    match block_on(rt, checked.try_collect::<u32, u32, Vec<u32>>(rt.alloc())) {
        Ok(Ok(v)) => Ok(v),
        Ok(Err(TryCollectError::Source(x))) => Err(NotDigits::Item(x)),
        Ok(Err(TryCollectError::Memory(_))) | Err(_) => Err(NotDigits::Memory),
    }
}

/// The sums of the first items, which wrap at 64 bits.
pub fn sums<R>(rt: &R, items: Vec<u32>) -> Result<Vec<u64>, AllocError>
where
    R: Wait + RandomSource + AllocGlobal,
    ensures { IfOk result (λ v. v.items ≡ scan (λ s x. ((s + x) % 2 ^ 64, Some ((s + x) % 2 ^ 64))) 0 items.items) }
{
    let sums = iter(items).scan(0u64, |s: &mut u64, x: u32| {
        *s = s.wrapping_add(x as u64);
        Some(*s)
    });
    collected(rt, sums)
}

/// Each item, and the number after it.
pub fn flattened<R>(rt: &R, items: Vec<u32>) -> Result<Vec<u64>, AllocError>
where
    R: Wait + RandomSource + AllocGlobal,
    ensures { IfOk result (λ v. v.items ≡ flat_map (λ x. x ∷ (x + 1) ∷ []) items.items) }
{
    let each = iter(items).flat_map(|x: u32| iter_array([x as u64, x as u64 + 1]));
    block_on(rt, each.collect::<Vec<u64>>(rt.alloc()))?.map_err(|_| AllocError)
}

/// The doubled items of any stream whose items are known.
pub fn all_doubled<R, S>(rt: &R, numbers: S) -> Result<Vec<u64>, AllocError>
where
    R: Wait + RandomSource + AllocGlobal,
    S: Counted<Item = u32> + Drop,
    requires polls { S.can_poll numbers }
    requires counts { S.ranks.counts numbers }
    ensures { (xs : _) → Lists S.run numbers xs → IfOk result (λ v. v.items ≡ map (λ x. x * 2) xs) }
{
    let doubled = numbers.map(|x: u32| x as u64 * 2);
    collected(rt, doubled)
}
