//! Collections of what two sources give, over any two streams that are alike, whose polls ask for no memory. Where nothing
//! was refused, items that are the same for the stream were collected: equal ones, if its type says nothing else. `Err` where
//! there was no memory to sleep on.
ghost use Rattle.std.specs.Prelude.{◌≡◌, ◌%◌, ℕ, IfOk, IsOk};
ghost use Rattle.lite_base.specs.Alike.{SameErr, SameItem, SameList, SameOk};
ghost use Rattle.lite_gather.specs.Agreeing.{HoldsSameParts, SameCollected, TrySameCollected, Unmixed};
ghost use Rattle.lite_gather.specs.TryCollect.{HasMemory};

use lite_base::{Counted, OkCounted, SteadyStream};
use lite_gather::make::{collect, partition, try_collect, unzip};
use lite_gather::{Refused, TryCollectError, UnzipRefused};
use lite_laws::block_on_both;
use std::alloc::{AllocError, AllocGlobal};
use std::random::RandomSource;
use std::sync::Wait;

/// The items of a stream.
pub type Collected = Result<Vec<u8>, Refused<Vec<u8>, u8>>;

/// What the items of a stream hold, or its first error.
pub type TryCollected = Result<Vec<u8>, TryCollectError<Vec<u8>, u8, char>>;

/// The even items of a stream, and the others.
pub type Sorted = Result<(Vec<u8>, Vec<u8>), Refused<(Vec<u8>, Vec<u8>), u8>>;

/// The first parts of the items of a stream, and the second.
pub type Parts = Result<(Vec<u8>, Vec<char>), UnzipRefused<Vec<u8>, Vec<char>, u8, char>>;

/// Collects the items of each.
pub fn collects_agree<R, S>(rt: &R, one: S, other: S) -> Result<(Collected, Collected), AllocError>
where
    R: Wait + RandomSource + AllocGlobal,
    S: SteadyStream<Item = u8> + Counted + Drop,
    requires can_poll { S.can_poll one × S.can_poll other }
    requires counts { S.ranks.counts one × S.ranks.counts other }
    requires alike { S.alike one other }
    requires found { S.needs_none }
    ensures { IfOk result
        (λ values. IsOk values.0 → IsOk values.1
        → SameCollected (λ v w. SameList S.same v.items w.items) values.0 values.1) }
{
    block_on_both(rt, collect(one, rt.alloc()), collect(other, rt.alloc()))
}

/// Collects what the items of each hold, up to the first error.
pub fn tries_agree<R, S>(
    rt: &R,
    one: S,
    other: S,
) -> Result<(TryCollected, TryCollected), AllocError>
where
    R: Wait + RandomSource + AllocGlobal,
    S: SteadyStream + OkCounted<Ok = u8, Err = char> + Drop,
    requires can_poll { S.can_poll one × S.can_poll other }
    requires counts { S.ok_ranks.counts one × S.ok_ranks.counts other }
    requires alike { Unmixed S.same (S.alike one other) }
    requires found { S.needs_none }
    ensures { IfOk result (λ values. HasMemory values.0 → HasMemory values.1
        → TrySameCollected (λ v w. SameList (SameOk S.same) v.items w.items)
        (SameItem (SameErr S.same)) values.0 values.1) }
{
    let tried = try_collect(one, rt.alloc());
    block_on_both(rt, tried, try_collect(other, rt.alloc()))
}

/// Collects the even items of each, and the others, where of two items that are the same both are even, or none is.
pub fn partitions_agree<R, S>(rt: &R, one: S, other: S) -> Result<(Sorted, Sorted), AllocError>
where
    R: Wait + RandomSource + AllocGlobal,
    S: SteadyStream<Item = u8> + Counted + Drop,
    requires can_poll { S.can_poll one × S.can_poll other }
    requires counts { S.ranks.counts one × S.ranks.counts other }
    requires alike { S.alike one other }
    requires parity { (x w : ℕ) → SameItem S.same x w → x % 2 ≡ w % 2 }
    requires found { S.needs_none }
    ensures { IfOk result (λ values. IsOk values.0 → IsOk values.1
        → SameCollected
        (λ v w. SameList S.same v.0.items w.0.items × SameList S.same v.1.items w.1.items) values.0 values.1) }
{
    let is_even = |x: &u8| *x % 2 == 0;
    let sorted = partition(one, rt.alloc(), is_even);
    block_on_both(rt, sorted, partition(other, rt.alloc(), is_even))
}

/// Collects the first parts of the items of each, and the second.
pub fn unzips_agree<R, S>(rt: &R, one: S, other: S) -> Result<(Parts, Parts), AllocError>
where
    R: Wait + RandomSource + AllocGlobal,
    S: SteadyStream<Item = (u8, char)> + Counted + Drop,
    requires can_poll { S.can_poll one × S.can_poll other }
    requires counts { S.ranks.counts one × S.ranks.counts other }
    requires alike { S.alike one other }
    requires found { S.needs_none }
    ensures { IfOk result (λ values. IsOk values.0 → IsOk values.1
        → SameCollected (HoldsSameParts S.same (λ v l. v.items ≡ l) (λ v l. v.items ≡ l)) values.0 values.1) }
{
    block_on_both(rt, unzip(one, rt.alloc()), unzip(other, rt.alloc()))
}
