//! Fresh buffered readers over bytes: what they answer to reads and seeks, and that their rank counts on after a seek.
ghost use Rattle.std.specs.Prelude.{◌<◌, IfOk};
ghost use Rattle.lite_bridge.specs.Logical.{AnswersAsCursor};
ghost use Rattle.lite_buffered.specs.BufReader.{ahead_ranks, SeeksThrough};
ghost use Rattle.lite_io_base.specs.Runs.{SeekKeeps};

use futures_lite::AsyncSeek;
use futures_lite::io::{BufReader, BytesLike, CountedRead, Cursor};
use futures_lite::laws::{answers_as_cursor, counts_after_seek};
use std::alloc::{AllocError, Global};

/// A buffered reader over a slice, which answers as the bare cursor does.
pub fn over_slice<'a>(
    alloc: Global,
    bytes: &'a [u8],
) -> Result<BufReader<Cursor<&'a [u8]>>, AllocError>
    ensures { IfOk result (λ r. AnswersAsCursor ⟦<&'a [u8] as BytesLike>⟧.bytes r) }
{
    let _len = bytes.len();
    match BufReader::new(alloc, Cursor::new(bytes)) {
        Ok(reader) => {
            answers_as_cursor(&reader);
            Ok(reader)
        }
        Err(_) => Err(AllocError),
    }
}

/// A buffered reader of this capacity over a vector, which answers as the bare cursor does, and whose rank counts on, as
/// firm as before, after a seek.
pub fn over_vec(
    alloc: Global,
    capacity: usize,
    bytes: Vec<u8>,
) -> Result<BufReader<Cursor<Vec<u8>>>, AllocError>
    requires { 0 < capacity }
    ensures bare { IfOk result (λ r. AnswersAsCursor ⟦<Vec<u8> as BytesLike>⟧.bytes r) }
    ensures counts { SeekKeeps (SeeksThrough ⟦<Cursor<Vec<u8>> as AsyncSeek>⟧.seeks)
        (ahead_ranks ⟦<Cursor<Vec<u8>> as CountedRead>⟧.ranks).counts }
    ensures firm { SeekKeeps (SeeksThrough ⟦<Cursor<Vec<u8>> as AsyncSeek>⟧.seeks)
        (ahead_ranks ⟦<Cursor<Vec<u8>> as CountedRead>⟧.ranks).firm }
{
    let _len = bytes.len();
    match BufReader::with_capacity(alloc, capacity, Cursor::new(bytes)) {
        Ok(reader) => {
            answers_as_cursor(&reader);
            counts_after_seek(&reader);
            Ok(reader)
        }
        Err(_) => Err(AllocError),
    }
}
