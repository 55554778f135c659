//! The functions that make the futures and streams.
ghost use Rattle.std.specs.Prelude.{◌≡◌, length, Some, [], false};
ghost use Rattle.lite_read.specs.ReadLine.{LineHolds};
ghost use Rattle.lite_read.specs.ReadToString.{StringHolds as AllHolds, text_front};

use crate::bytes::Bytes;
use crate::fill_buf::FillBuf;
use crate::lines::Lines;
use crate::read::ReadFuture;
use crate::read_exact::ReadExactFuture;
use crate::read_line::ReadLineFuture;
use crate::read_to_end::ReadToEndFuture;
use crate::read_to_string::ReadToStringFuture;
use crate::read_until::ReadUntilFuture;
use crate::read_vectored::ReadVectoredFuture;
use crate::seek::SeekFuture;
use crate::split::Split;
use crate::text::LineBytes;
use std::alloc::{Allocator, Global};
use std::io::{IoSliceMut, SeekFrom};

/// Returns a stream of the bytes of `reader`.
pub fn bytes<R>(reader: R) -> Bytes<R>
    ensures { result ≡ record { inner = reader; interrupted = false } }
{
    Bytes {
        inner: reader,
        interrupted: false,
    }
}

/// Returns a future that returns a slice of the next bytes of `reader`.
pub fn fill_buf<R>(reader: &mut R) -> FillBuf<'_, R>
    ensures { result ≡ record { reader = Some reader.entry } }
{
    FillBuf {
        reader: Some(reader),
    }
}

/// Returns a future that reads once into `buf`.
pub fn read<'a, R>(reader: &'a mut R, buf: &'a mut [u8]) -> ReadFuture<'a, R>
    ensures { result ≡ record { reader = reader.entry; buf = buf.entry } }
{
    ReadFuture { reader, buf }
}

/// Returns a future that reads until `buf` is full.
pub fn read_exact<'a, R>(reader: &'a mut R, buf: &'a mut [u8]) -> ReadExactFuture<'a, R>
    ensures { result ≡ record { reader = reader.entry; buf = buf.entry; filled = 0 } }
{
    ReadExactFuture {
        reader,
        buf,
        filled: 0,
    }
}

/// Returns a future that appends everything up to end of file to `buf`.
pub fn read_to_end<'a, R, A: Allocator>(
    reader: &'a mut R,
    buf: &'a mut Vec<u8, A>,
) -> ReadToEndFuture<'a, R, A>
    ensures { let start = length buf.old.items in
        result ≡ record { reader = reader.entry; buf = buf.entry; start = start; filled = start; room = 0 } }
{
    let start = buf.len();
    ReadToEndFuture {
        reader,
        buf,
        start,
        filled: start,
        room: 0,
    }
}

/// Returns a future that reads once into `bufs`.
pub fn read_vectored<'a, 'b, R>(
    reader: &'a mut R,
    bufs: &'a mut [IoSliceMut<'b>],
) -> ReadVectoredFuture<'a, 'b, R>
    ensures { result ≡ record { reader = reader.entry; bufs = Some bufs.entry } }
{
    ReadVectoredFuture {
        reader,
        bufs: Some(bufs),
    }
}

/// Returns a future that seeks once to `pos`.
pub fn seek<S>(seeker: &mut S, pos: SeekFrom) -> SeekFuture<'_, S>
    ensures { result ≡ record { seeker = seeker.entry; pos = pos } }
{
    SeekFuture { seeker, pos }
}

/// Returns a stream of the pieces of `reader` between bytes equal to `byte`, allocated from `alloc`.
pub fn split<R>(reader: R, alloc: Global, byte: u8) -> Split<R>
    ensures reader { result.reader ≡ reader }
    ensures byte { result.byte ≡ byte }
    ensures empty { result.held.items ≡ [] }
{
    Split {
        reader,
        byte,
        held: Vec::new(alloc),
        alloc,
    }
}

/// Returns a stream of the lines of `reader`, allocated from `alloc`.
pub fn lines<R>(reader: R, alloc: Global) -> Lines<R>
    ensures reader { result.reader ≡ reader }
    ensures empty { result.held.bytes.items ≡ [] }
{
    Lines {
        reader,
        held: LineBytes::new(alloc),
        alloc,
    }
}

/// Returns a future that appends the bytes up to and including the first `byte` to `buf`.
pub fn read_until<'a, R>(
    reader: &'a mut R,
    byte: u8,
    buf: &'a mut Vec<u8>,
) -> ReadUntilFuture<'a, R>
    ensures { result ≡ record { reader = reader.entry; byte = byte; buf = buf.entry; start = length buf.old.items } }
{
    let start = buf.len();
    ReadUntilFuture {
        reader,
        byte,
        buf,
        start,
    }
}

/// Returns a future that appends one line to `text`. It allocates from the allocator of `text`.
pub fn read_line<'a, R, A: Allocator + Copy>(
    reader: &'a mut R,
    text: &'a mut String<A>,
) -> ReadLineFuture<'a, R, A>
    ensures reader { result.reader ≡ reader.entry }
    ensures text { result.text ≡ text.entry }
    ensures empty { result.bytes.items ≡ [] }
    ensures held { LineHolds result }
{
    let bytes = Vec::new(*text.allocator());
    ReadLineFuture {
        reader,
        text,
        bytes,
        ascii: true,
    }
}

/// Returns a future that appends everything up to end of file to `text`. It allocates from the allocator of
/// `text`.
pub fn read_to_string<'a, R, A: Allocator + Copy>(
    reader: &'a mut R,
    text: &'a mut String<A>,
) -> ReadToStringFuture<'a, R, A>
    ensures reader { result.reader ≡ reader.entry }
    ensures text { result.text ≡ text.entry }
    ensures empty { text_front result ≡ [] }
    ensures held { AllHolds result }
{
    let bytes = Vec::new(*text.allocator());
    ReadToStringFuture {
        reader,
        text,
        bytes,
        filled: 0,
        room: 0,
    }
}
