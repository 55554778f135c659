ghost use Rattle.std.specs.Prelude.{◌≡◌, [], List, IfOk};
ghost use Rattle.lite_theorems.specs.Uses.{WriteMark, bytes_taken, FlushedUp, HandedUp, TakesFront};
ghost use Rattle.lite_theorems.specs.BothWriters.{BothWritten, WrittenUp};

use crate::waits::{wait_flush, wait_write_all};
use lite_base::future::block_on::BlockOn;
use lite_io_base::{AsyncWrite, SteadyWrite};
use std::alloc::{AllocError, AllocGlobal};
use std::io;
use std::random::RandomSource;
use std::sync::Wait;

/// Blocks this thread until two writers, one after the other, wrote all of `bytes` and were flushed, or
/// failed.
///
/// The caller guarantees that the two are alike, as [`SteadyWrite`] defines it. If both values are `Ok`, the
/// same bytes are below the two, and the writers are alike again. When each was pending, and how the bytes
/// were cut on the way, does not matter.
///
/// A value is that of [`write_all`](lite_write::make::write_all), and if that is `Ok`, the one of the flush.
/// If it is an error, the writer accepted a front of the bytes, and nothing is known of what is below. The
/// call may wait for ever. `AllocError` means that what the thread sleeps on could not be allocated. Then
/// each writer accepted a front of the bytes, or none.
///
/// # Examples
///
/// ```
/// use futures_lite::{io, laws};
///
/// let Ok(mut small) = io::BufWriter::with_capacity(rt.alloc(), 2, Vec::new(rt.alloc())) else {
///     return Err(Fail::from("no memory"));
/// };
/// let Ok(mut large) = io::BufWriter::new(rt.alloc(), Vec::new(rt.alloc())) else {
///     return Err(Fail::from("no memory"));
/// };
/// let values = laws::write_both(&rt, &mut small, &mut large, b"abcde")?;
/// assert!(rt; values.0.is_ok() && values.1.is_ok());
/// assert_eq!(rt; small.into_inner().as_slice(), b"abcde".as_slice());
/// assert_eq!(rt; large.into_inner().as_slice(), b"abcde".as_slice());
/// ```
pub fn write_both<R, T>(
    rt: &R,
    x: &mut T,
    y: &mut T,
    bytes: &[u8],
) -> Result<(io::Result<()>, io::Result<()>), AllocError>
where
    R: Wait + RandomSource + AllocGlobal,
    T: SteadyWrite,
    requires alike { T.alike x.old y.old }
    ensures { (took more : List WriteMark) × TakesFront T.writes x.old bytes.now took x.new
        × TakesFront T.writes y.old bytes.now more y.new
        × IfOk result (λ values. BothWritten T.alike T.below bytes.now took values.0 x.new more values.1 y.new) }
{
    let mut on = BlockOn::new(rt)?;
    let first = write_up(&mut on, rt, x, bytes)?;
    let second = write_up(&mut on, rt, y, bytes)?;
    Ok((first, second))
}

// Waits until the writer took all of the bytes and was flushed, or failed.
fn write_up<R: Wait, T: AsyncWrite>(
    on: &mut BlockOn,
    rt: &R,
    writer: &mut T,
    bytes: &[u8],
) -> Result<io::Result<()>, AllocError>
    ensures { (took : List WriteMark) × TakesFront T.writes writer.old bytes.now took writer.new
        × IfOk result (λ v. WrittenUp bytes.now took v) }
{
    match wait_write_all(on, rt, writer, bytes)? {
        Ok(()) => wait_flush(on, rt, writer),
        Err(e) => Ok(Err(e)),
    }
}
