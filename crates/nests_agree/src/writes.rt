//! What two writers that are alike leave below, through a buffer; and copies to them.
ghost use Rattle.std.specs.Prelude.{◌≡◌, IfOk, IsOk};
ghost use Rattle.lite_buffered.specs.BufWriter.{unwritten, writer_inner};
ghost use Rattle.lite_io_base.specs.Steady.{SameByKind};

use lite_buffered::BufWriter;
use lite_buffered::make::chain;
use lite_io_base::{AsyncWrite, CountedRead, SteadyRead, SteadyWrite};
use lite_laws::block_on_both;
use lite_theorems::write_both;
use lite_write::make::copy;
use std::alloc::{AllocError, AllocGlobal};
use std::io;
use std::random::RandomSource;
use std::sync::Wait;

/// Writes `bytes` to each of two buffered writers, of buffers of any size that hold the same, over writers that are alike.
/// Where no write failed, the same bytes are then below both. `Err` where there was no memory to sleep on.
pub fn writes_agree<R, T>(
    rt: &R,
    x: &mut BufWriter<T>,
    y: &mut BufWriter<T>,
    bytes: &[u8],
) -> Result<(io::Result<()>, io::Result<()>), AllocError>
where
    R: Wait + RandomSource + AllocGlobal,
    T: SteadyWrite,
    requires held { unwritten x.old ≡ unwritten y.old }
    requires alike { T.alike (writer_inner x.old) (writer_inner y.old) }
    ensures { IfOk result
        (λ values. IsOk values.0 → IsOk values.1 → T.below (writer_inner x.new) ≡ T.below (writer_inner y.new)) }
{
    write_both(rt, x, y, bytes)
}

/// Copies what each of two readers gives, and then `last`, to a writer of its own, through a buffer of 3 bytes. The readers are
/// alike and take no memory. Where no write failed, the same number of bytes was copied. `Err` where there was no memory for
/// a buffer, or to sleep on.
pub fn copies_agree<R, T, W>(
    rt: &R,
    one: T,
    other: T,
    last: &[u8],
    writer: W,
    writer_more: W,
) -> Result<(io::Result<u64>, io::Result<u64>), AllocError>
where
    R: Wait + RandomSource + AllocGlobal,
    T: SteadyRead + CountedRead + Drop,
    W: AsyncWrite + Drop,
    requires counts { T.ranks.counts one × T.ranks.counts other }
    requires alike { T.alike one other }
    requires found { T.needs_none }
    ensures { IfOk result (λ values. IsOk values.0 → IsOk values.1 → SameByKind values.0 values.1) }
{
    let Ok(into) = BufWriter::with_capacity(rt.alloc(), 3, writer) else {
        return Err(AllocError);
    };
    let Ok(into_more) = BufWriter::with_capacity(rt.alloc(), 3, writer_more) else {
        return Err(AllocError);
    };
    chained_agree(rt, one, other, last, into, into_more)
}

/// As [`copies_agree`], to writers as they are.
fn chained_agree<R, T, W>(
    rt: &R,
    one: T,
    other: T,
    last: &[u8],
    writer: W,
    writer_more: W,
) -> Result<(io::Result<u64>, io::Result<u64>), AllocError>
where
    R: Wait + RandomSource + AllocGlobal,
    T: SteadyRead + CountedRead + Drop,
    W: AsyncWrite + Drop,
    requires counts { T.ranks.counts one × T.ranks.counts other }
    requires alike { T.alike one other }
    requires found { T.needs_none }
    ensures { IfOk result (λ values. IsOk values.0 → IsOk values.1 → SameByKind values.0 values.1) }
{
    let Ok(x) = copy(rt.alloc(), chain(one, last), writer) else {
        return Err(AllocError);
    };
    let Ok(y) = copy(rt.alloc(), chain(other, last), writer_more) else {
        return Err(AllocError);
    };
    block_on_both(rt, x, y)
}
