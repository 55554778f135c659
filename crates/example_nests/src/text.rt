//! What is read of bytes that are known.
ghost use Rattle.std.specs.Prelude.{◌≡◌, ◌++◌, IfOk, length, map, string_bytes, take};
ghost use Rattle.futures_lite.specs.Lines.{byte_lines};
ghost use Rattle.futures_lite.specs.Readers.{Knows};

use futures_lite::future::{block_on, wait_for};
use futures_lite::io::{BufReader, CountedRead, Cursor};
use futures_lite::{AsyncBufRead, AsyncBufReadExt, AsyncReadExt, AsyncWriteExt, StreamExt};
use std::alloc::{AllocError, AllocGlobal};
use std::io;
use std::random::RandomSource;
use std::sync::Wait;

/// The lines of a text.
pub fn lines<R>(rt: &R, text: &[u8]) -> Result<Vec<String>, AllocError>
where
    R: Wait + RandomSource + AllocGlobal,
    ensures { IfOk result (λ v. map string_bytes v.items ≡ byte_lines text.now) }
{
    lines_of(rt, text)
}

/// The lines of any reader whose bytes are known.
pub fn lines_of<R, T>(rt: &R, reader: T) -> Result<Vec<String>, AllocError>
where
    R: Wait + RandomSource + AllocGlobal,
    T: AsyncBufRead + CountedRead + Drop,
    requires counts { T.ranks.counts reader × T.ranks.firm reader }
    requires known { Knows T.reads T.known reader }
    ensures { IfOk result (λ v. map string_bytes v.items ≡ byte_lines (T.known.left reader)) }
{
    let lines = reader.lines(rt.alloc());
    let all = lines.try_collect::<String, io::Error, Vec<String>>(rt.alloc());
    block_on(rt, all)?.map_err(|_| AllocError)
}

/// The lines of the first bytes of two texts, one after the other, through a buffer.
pub fn front_lines<R>(
    rt: &R,
    first: &[u8],
    second: Vec<u8>,
    most: u64,
) -> Result<Vec<String>, AllocError>
where
    R: Wait + RandomSource + AllocGlobal,
    ensures { IfOk result (λ v. map string_bytes v.items ≡ byte_lines (take most (first.now ++ second.items))) }
{
    let Ok(reader) = BufReader::new(rt.alloc(), first.chain(Cursor::new(second))) else {
        return Err(AllocError);
    };
    lines_of(rt, reader.take(most))
}

/// All of a text, to the end of a vector.
pub fn all<R>(rt: &R, text: &[u8], out: &mut Vec<u8>) -> Result<io::Result<usize>, AllocError>
where
    R: Wait + RandomSource + AllocGlobal,
    ensures { IfOk result (λ r. IfOk r (λ n. (out.new.items ≡ out.old.items ++ text.now) × (n ≡ length text.now))) }
{
    let mut reader = text;
    wait_for(rt, &mut reader.read_to_end(out))
}

/// A text, written to a cursor.
pub fn packed<R>(rt: &R, text: &[u8]) -> Result<io::Result<Vec<u8>>, AllocError>
where
    R: Wait + RandomSource + AllocGlobal,
    ensures { IfOk result (λ r. IfOk r (λ v. v.items ≡ text.now)) }
{
    let mut out = Cursor::new(Vec::new(rt.alloc()));
    match wait_for(rt, &mut out.write_all(text))? {
        Ok(()) => Ok(Ok(out.into_inner())),
        Err(e) => Ok(Err(e)),
    }
}
