//! What a copy to a buffered writer writes, also from a chain of readers, by the contracts of the traits
//! alone.
ghost use Rattle.std.specs.Prelude.{◌≡◌, IfOk, false};
ghost use Rattle.lite_theorems.specs.Uses.{AtEachOk, Lent, Buffers, CopyRuns, NothingCopied, source_of, ChainsReaders, first_of, has_ended, second_of};
ghost use Rattle.lite_theorems.specs.Chained.{CopiesBoth, CopiesWhole};

use lite_buffered::make::chain;
use lite_buffered::{BufWriter, Chain};
use lite_io_base::{AsyncWrite, CountedRead};
use lite_write::CopyFuture;
use lite_write::make::copy;
use std::alloc::Global;

/// Returns a future that copies `reader` up to its first end of file to `writer`.
///
/// It is the future that [`copy`] returns; its contract says more. If it resolves to `Ok`, the inner writer
/// got what `writer` held before, and then exactly the bytes of the reader, in order. It was flushed, and
/// `writer` holds nothing any more. How many polls that took, and when the two were pending, does not matter.
/// The value is the number of copied bytes, modulo 2^64.
///
/// The future may be polled if `ranks.counts` holds for the reader. If `reader` is a chain, in whatever
/// state, the bytes are what was left of each of its readers (the lemma `tells_both`). `Err` means that the
/// buffer could not be allocated, and returns both arguments.
///
/// # Examples
///
/// ```
/// use futures_lite::{future, io, laws};
///
/// let Ok(mut writer) = io::BufWriter::new(rt.alloc(), Vec::new(rt.alloc())) else {
///     return Err(Fail::from("no memory"));
/// };
/// let Ok(copying) = laws::copy_buffered(rt.alloc(), b"abc".as_slice(), &mut writer) else {
///     return Err(Fail::from("no memory"));
/// };
/// assert_eq!(rt; future::block_on(&rt, copying)??, 3);
/// assert_eq!(rt; writer.into_inner().as_slice(), b"abc".as_slice());
/// ```
pub fn copy_buffered<'a, R, W>(
    alloc: Global,
    reader: R,
    writer: &'a mut BufWriter<W>,
) -> Result<CopyFuture<R, &'a mut BufWriter<W>>, (R, &'a mut BufWriter<W>)>
where
    R: CountedRead + Drop,
    W: AsyncWrite,
    ensures reader { IfOk result (λ f. source_of f ≡ reader) }
    ensures writer { IfOk result (λ f. f.writer ≡ writer.entry) }
    ensures begins { IfOk result (λ f. NothingCopied f) }
    ensures whole { IfOk result
        (λ f. AtEachOk (CopyRuns R.reads (Lent (Buffers W.writes))) f
        (CopiesWhole R.reads W.writes reader writer.old)) }
{
    copy(alloc, reader, writer)
}

/// Returns a future that copies `first`, and then `second`, each up to its first end of file, to `writer`.
///
/// It is the future that [`copy`] returns for `chain`; its contract says more. If it resolves to `Ok`, the
/// inner writer got what `writer` held before, and then exactly the bytes of the two readers, in order. It
/// was flushed, and `writer` holds nothing any more. How many polls that took, and when the three were
/// pending, does not matter. The value is the number of copied bytes, modulo 2^64.
///
/// The future may be polled if `ranks.counts` holds for both readers. `Err` means that the buffer could not
/// be allocated, and returns the chain and the writer.
///
/// # Examples
///
/// ```
/// use futures_lite::{future, io, laws};
///
/// let Ok(mut writer) = io::BufWriter::new(rt.alloc(), Vec::new(rt.alloc())) else {
///     return Err(Fail::from("no memory"));
/// };
/// let Ok(copying) = laws::copy_chain(rt.alloc(), b"ab".as_slice(), b"cd".as_slice(), &mut writer) else {
///     return Err(Fail::from("no memory"));
/// };
/// assert_eq!(rt; future::block_on(&rt, copying)??, 4);
/// assert_eq!(rt; writer.into_inner().as_slice(), b"abcd".as_slice());
/// ```
pub fn copy_chain<'a, R1, R2, W>(
    alloc: Global,
    first: R1,
    second: R2,
    writer: &'a mut BufWriter<W>,
) -> Result<CopyFuture<Chain<R1, R2>, &'a mut BufWriter<W>>, (Chain<R1, R2>, &'a mut BufWriter<W>)>
where
    R1: CountedRead + Drop,
    R2: CountedRead + Drop,
    W: AsyncWrite,
    ensures first { IfOk result (λ f. first_of (source_of f) ≡ first) }
    ensures second { IfOk result (λ f. second_of (source_of f) ≡ second) }
    ensures fresh { IfOk result (λ f. has_ended (source_of f) ≡ false) }
    ensures writer { IfOk result (λ f. f.writer ≡ writer.entry) }
    ensures begins { IfOk result (λ f. NothingCopied f) }
    ensures whole { IfOk result (λ f. AtEachOk (CopyRuns (ChainsReaders R1.reads R2.reads) (Lent (Buffers W.writes))) f
        (CopiesBoth R1.reads R2.reads W.writes first second writer.old)) }
{
    copy_buffered(alloc, chain(first, second), writer)
}
