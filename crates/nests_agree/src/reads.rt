//! What two readers that are alike give, through a buffer, before some bytes, up to a number of bytes.
ghost use Rattle.std.specs.Prelude.{◌≡◌, ◌++◌, ℕ, List, IfOk};
ghost use Rattle.lite_theorems.specs.BothReaders.{HasReadMemory};
ghost use Rattle.lite_io_base.specs.Steady.{SameByKind};

use lite_buffered::BufReader;
use lite_buffered::make::{chain, take};
use lite_io_base::{CountedRead, SteadyRead};
use lite_theorems::read_both;
use std::alloc::{AllocError, AllocGlobal};
use std::io;
use std::random::RandomSource;
use std::sync::Wait;

/// Reads what each gives, and then `last`, up to `most` bytes, the one through a buffer of 3 bytes and the other through one
/// of 8192. The readers are alike and take no memory. Where there was memory for all bytes, the values are the same, errors by
/// their kinds, and so are the bytes that were appended. `Err` where there was no memory for a buffer, or to sleep on.
pub fn reads_agree<R, T>(
    rt: &R,
    one: T,
    other: T,
    last: &[u8],
    most: u64,
    out: &mut Vec<u8>,
    out_more: &mut Vec<u8>,
) -> Result<(io::Result<usize>, io::Result<usize>), AllocError>
where
    R: Wait + RandomSource + AllocGlobal,
    T: SteadyRead + CountedRead + Drop,
    requires counts { T.ranks.counts one × T.ranks.counts other }
    requires alike { T.alike one other }
    requires found { T.needs_none }
    ensures { (xs ys : List ℕ) × (out.new.items ≡ out.old.items ++ xs) × (out_more.new.items ≡ out_more.old.items ++ ys)
        × IfOk result
        (λ values. HasReadMemory values.0 → HasReadMemory values.1 → SameByKind values.0 values.1 × (xs ≡ ys)) }
{
    let Ok(x) = BufReader::with_capacity(rt.alloc(), 3, one) else {
        return Err(AllocError);
    };
    let Ok(y) = BufReader::new(rt.alloc(), other) else {
        return Err(AllocError);
    };
    fronts_agree(rt, x, y, last, most, out, out_more)
}

/// As [`reads_agree`], of readers as they are.
fn fronts_agree<R, T>(
    rt: &R,
    one: T,
    other: T,
    last: &[u8],
    most: u64,
    out: &mut Vec<u8>,
    out_more: &mut Vec<u8>,
) -> Result<(io::Result<usize>, io::Result<usize>), AllocError>
where
    R: Wait + RandomSource + AllocGlobal,
    T: SteadyRead + CountedRead + Drop,
    requires counts { T.ranks.counts one × T.ranks.counts other }
    requires alike { T.alike one other }
    requires found { T.needs_none }
    ensures { (xs ys : List ℕ) × (out.new.items ≡ out.old.items ++ xs) × (out_more.new.items ≡ out_more.old.items ++ ys)
        × IfOk result
        (λ values. HasReadMemory values.0 → HasReadMemory values.1 → SameByKind values.0 values.1 × (xs ≡ ys)) }
{
    let mut x = take(chain(one, last), most);
    let mut y = take(chain(other, last), most);
    read_both(rt, &mut x, &mut y, out, out_more)
}
