ghost use Rattle.std.specs.Prelude.{◌≡◌, ◌<◌, [], IfErr, IfOk};
ghost use Rattle.lite_theorems.specs.Uses.{bytes_ahead, reader_capacity, take_inner};
ghost use Rattle.lite_buffered.specs.BufReader.{reader_inner};
ghost use Rattle.lite_theorems.specs.Lines.{AtEachValue, CollectsLines};

use lite_base::Future;
use lite_buffered::make::take;
use lite_buffered::{BufReader, Take};
use lite_gather::make::try_collect;
use lite_gather::{Gather, TryCollectFuture};
use lite_io_base::CountedRead;
use lite_read::Lines;
use lite_read::make::lines;
use std::alloc::Global;

/// A future that collects the lines of the front of a reader, which is read through a buffer.
///
/// Returned by [`collect_lines`] and [`collect_buffered_lines`](crate::collect_buffered_lines).
pub type CollectLinesFuture<R, C> = TryCollectFuture<Lines<Take<BufReader<R>>>, C>;

/// Returns a future that collects the lines of the first `limit` bytes of `reader`.
///
/// It is the future of `try_collect` of `lines` of `take` of a `BufReader`; its contract says more. The
/// collection allocates from `memory`, and the reader is read through a buffer of 8192 bytes. The collection
/// then has the text of each line of those bytes, in order. The last line counts even if no newline ends it.
/// How the bytes are cut, and when the reader is pending, does not matter.
///
/// `Err(Source(error))` means that the lines before it are texts, and the next is not. The error is the
/// reader's, or of the kind `InvalidData` (the line is not UTF-8), or `OutOfMemory` (memory for the line was
/// refused). `Err(Memory(refused))` has the collection of the lines before, and the line that it refused.
///
/// The future may be polled if `ranks.counts` and `ranks.firm` hold for the reader. If the call itself
/// returns `Err`, the buffer could not be allocated, and that is the reader.
///
/// # Examples
///
/// ```
/// use futures_lite::{future, laws};
///
/// let text = b"one\ntwo\nthree".as_slice();
/// let Ok(collecting) = laws::collect_lines::<_, Vec<String>>(rt.alloc(), text, 9, rt.alloc()) else {
///     return Err(Fail::from("no memory"));
/// };
/// let lines = future::block_on(&rt, collecting)??;
/// assert_eq!(rt; lines.len(), 3);
/// assert_eq!(rt; lines[1].as_str(), "two");
/// assert_eq!(rt; lines[2].as_str(), "t");
/// ```
pub fn collect_lines<R, C>(
    alloc: Global,
    reader: R,
    limit: u64,
    memory: C::Alloc,
) -> Result<CollectLinesFuture<R, C>, R>
where
    R: CountedRead + Drop,
    C: Gather<String, Alloc: Drop>,
    ensures lines { IfOk result
        (λ f. AtEachValue ⟦<CollectLinesFuture<R, C> as Future>⟧.run f
        (CollectsLines R.reads C.holds [] reader limit)) }
    ensures pollable { IfOk result
        (λ f. R.ranks.counts reader → R.ranks.firm reader → ⟦<CollectLinesFuture<R, C> as Future>⟧.can_poll f) }
    ensures capacity { IfOk result (λ f. reader_capacity (take_inner f.stream.reader) ≡ 8192) }
    ensures handed_back { IfErr result (λ r. r ≡ reader) }
{
    let buffered = BufReader::new(alloc, reader)?;
    Ok(collect_buffered_lines(alloc, buffered, limit, memory))
}

/// Returns a future that collects the lines of the first `limit` bytes of a buffered reader.
///
/// The bytes are those that `reader` has buffered, and then those of its inner reader. The collection
/// allocates from `memory`, and each line from `alloc`. The future is that of `try_collect` of `lines` of
/// `take` of `reader`. Its value is that of [`collect_lines`].
///
/// Nothing is known for a buffered reader of capacity 0, because each of its fills looks like an end of file.
/// The future may be polled if `ranks.counts` and `ranks.firm` hold for the inner reader.
///
/// # Examples
///
/// ```
/// use futures_lite::{AsyncReadExt, future, io, laws};
///
/// let Ok(mut reader) = io::BufReader::new(rt.alloc(), b"-one\ntwo\nthree".as_slice()) else {
///     return Err(Fail::from("no memory"));
/// };
/// let mut first = [0u8; 1];
/// future::block_on(&rt, reader.read_exact(&mut first))??;
///
/// let collecting = laws::collect_buffered_lines::<_, Vec<String>>(rt.alloc(), reader, 6, rt.alloc());
/// let lines = future::block_on(&rt, collecting)??;
/// assert_eq!(rt; lines.len(), 2);
/// assert_eq!(rt; lines[0].as_str(), "one");
/// assert_eq!(rt; lines[1].as_str(), "tw");
/// ```
pub fn collect_buffered_lines<R, C>(
    alloc: Global,
    reader: BufReader<R>,
    limit: u64,
    memory: C::Alloc,
) -> CollectLinesFuture<R, C>
where
    R: CountedRead + Drop,
    C: Gather<String, Alloc: Drop>,
    ensures lines { 0 < reader_capacity reader
        → AtEachValue ⟦<CollectLinesFuture<R, C> as Future>⟧.run result
        (CollectsLines R.reads C.holds (bytes_ahead reader) (reader_inner reader) limit) }
    ensures pollable { R.ranks.counts (reader_inner reader) → R.ranks.firm (reader_inner reader)
        → ⟦<CollectLinesFuture<R, C> as Future>⟧.can_poll result }
    ensures reader { take_inner result.stream.reader ≡ reader }
{
    try_collect(lines(take(reader, limit), alloc), memory)
}
