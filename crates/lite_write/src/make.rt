//! The functions that make the futures, and the writer that drops its bytes.
ghost use Rattle.std.specs.Prelude.{◌≡◌, IfErr, IfOk};
ghost use Rattle.lite_write.specs.Uses.{reader_capacity};
ghost use Rattle.lite_write.specs.Copy.{NothingCopied, source_of};

use crate::close::CloseFuture;
use crate::copy::{CopyFuture, Phase};
use crate::flush::FlushFuture;
use crate::sink::Sink;
use crate::write::WriteFuture;
use crate::write_all::WriteAllFuture;
use crate::write_vectored::WriteVectoredFuture;
use lite_buffered::BufReader;
use std::alloc::Global;
use std::io::IoSlice;

/// Returns a future that closes `writer`.
pub fn close<W>(writer: &mut W) -> CloseFuture<'_, W>
    ensures { result ≡ record { writer = writer.entry } }
{
    CloseFuture { writer }
}

/// Returns a future that flushes `writer` once.
pub fn flush<W>(writer: &mut W) -> FlushFuture<'_, W>
    ensures { result ≡ record { writer = writer.entry } }
{
    FlushFuture { writer }
}

/// Returns a writer that takes all bytes and drops them.
///
/// # Examples
///
/// ```
/// use futures_lite::{AsyncWriteExt, future, io};
///
/// let mut sink = io::sink();
/// assert_eq!(rt; future::block_on(&rt, sink.write(b"hello"))??, 5);
/// ```
pub fn sink() -> Sink {
    Sink {}
}

/// Returns a future that writes `buf` once.
pub fn write<'a, W>(writer: &'a mut W, buf: &'a [u8]) -> WriteFuture<'a, W>
    ensures { result ≡ record { writer = writer.entry; buf = buf.entry } }
{
    WriteFuture { writer, buf }
}

/// Returns a future that writes until all of `buf` is taken.
pub fn write_all<'a, W>(writer: &'a mut W, buf: &'a [u8]) -> WriteAllFuture<'a, W>
    ensures { result ≡ record { writer = writer.entry; buf = buf.entry } }
{
    WriteAllFuture { writer, buf }
}

/// Returns a future that writes the bytes of `bufs` once.
pub fn write_vectored<'a, W>(
    writer: &'a mut W,
    bufs: &'a [IoSlice<'a>],
) -> WriteVectoredFuture<'a, W>
    ensures { result ≡ record { writer = writer.entry; bufs = bufs.entry } }
{
    WriteVectoredFuture { writer, bufs }
}

/// Returns a future that copies everything from `reader` to `writer`, or `Err` if its buffer cannot be
/// allocated.
pub fn copy<R: Drop, W: Drop>(
    alloc: Global,
    reader: R,
    writer: W,
) -> Result<CopyFuture<R, W>, (R, W)>
    ensures reader { IfOk result (λ f. source_of f ≡ reader) }
    ensures writer { IfOk result (λ f. f.writer ≡ writer) }
    ensures begins { IfOk result (λ f. NothingCopied f) }
    ensures capacity { IfOk result (λ f. reader_capacity f.reader ≡ 8192) }
    ensures handed_back { IfErr result (λ both. both ≡ (reader, writer)) }
{
    match BufReader::new(alloc, reader) {
        Ok(reader) => Ok(CopyFuture {
            reader,
            writer,
            amount: 0,
            phase: Phase::Copying,
        }),
        Err(reader) => Err((reader, writer)),
    }
}
