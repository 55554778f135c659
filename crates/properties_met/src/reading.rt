//! Futures of reads, and streams that cut what a reader tells: two that are alike, and a calm one, of each type.
ghost use Rattle.std.specs.Prelude.{◌≡◌, [], Some, false, true, length};
ghost use Rattle.lite_base.specs.Steady.{TakesNone};
ghost use Rattle.lite_read.specs.NoneRefused.{NoneRefused};
ghost use Rattle.lite_write.specs.Copy.{NothingCopied, source_of};
ghost use Rattle.properties_met.specs.Registering.{TellsAll};
ghost use Rattle.properties_met.specs.Unrefused.{AmpleWhere, NoValueRefused};

use lite_base::{CalmFuture, CalmStream, Future, SteadyFuture, SteadyStream, Stream};
use lite_io_base::{AsyncBufRead, AsyncWrite, CalmRead, CalmWrite, CountedRead, SteadyRead};
use lite_read::{
    Bytes, FillBuf, Lines, ReadExactFuture, ReadFuture, ReadLineFuture, ReadToEndFuture,
    ReadToStringFuture, ReadUntilFuture, ReadVectoredFuture, Split,
};
use lite_write::CopyFuture;
use std::alloc::Allocator;
use std::io::IoSliceMut;

/// Futures of reads are alike over readers that are alike, where they append to the same.
pub fn reads_are_alike<'a, R>(
    x: &&'a mut R,
    y: &&'a mut R,
    buf: &&'a mut [u8],
    bytes: &&'a mut Vec<u8>,
    byte: u8,
)
where
    R: SteadyRead + CountedRead + AsyncBufRead,
    requires { R.alike x.now.now y.now.now }
    ensures bytes { ⟦<Bytes<R> as SteadyStream>⟧.alike (record { inner = x.now.now; interrupted = false })
        (record { inner = y.now.now; interrupted = false }) }
    ensures read_exact { ⟦<ReadExactFuture<'a, R> as SteadyFuture>⟧.alike
        (record { reader = x.now; buf = buf.now; filled = 0 }) (record { reader = y.now; buf = buf.now; filled = 0 }) }
    ensures read_to_end { let start = length bytes.now.now.items in ⟦<ReadToEndFuture<'a, R> as SteadyFuture>⟧.alike
        (record { reader = x.now; buf = bytes.now; start = start; filled = start; room = 0 })
        (record { reader = y.now; buf = bytes.now; start = start; filled = start; room = 0 }) }
    ensures read_until { let start = length bytes.now.now.items in ⟦<ReadUntilFuture<'a, R> as SteadyFuture>⟧.alike
        (record { reader = x.now; byte = byte; buf = bytes.now; start = start })
        (record { reader = y.now; byte = byte; buf = bytes.now; start = start }) }
{}

/// Texts that are read of readers that are alike are alike, where they append to the same.
pub fn texts_are_alike<'a, R>(x: &&'a mut R, y: &&'a mut R, text: &&'a mut String, bytes: &Vec<u8>)
where
    R: SteadyRead + CountedRead + AsyncBufRead,
    requires { R.alike x.now.now y.now.now }
    ensures read_line { ⟦<ReadLineFuture<'a, R> as SteadyFuture>⟧.alike
        (record { reader = x.now; text = text.now; bytes = bytes.now; ascii = true })
        (record { reader = y.now; text = text.now; bytes = bytes.now; ascii = false }) }
    ensures read_to_string { ⟦<ReadToStringFuture<'a, R> as SteadyFuture>⟧.alike
        (record { reader = x.now; text = text.now; bytes = bytes.now; filled = 0; room = 0 })
        (record { reader = y.now; text = text.now; bytes = bytes.now; filled = 0; room = 0 }) }
{}

/// Futures of reads are calm over calm readers.
pub fn reads_are_calm<'a, 'b, R>(
    x: &&'a mut R,
    buf: &&'a mut [u8],
    bufs: &&'a mut [IoSliceMut<'b>],
    bytes: &&'a mut Vec<u8>,
    text: &&'a mut String,
    read: &Vec<u8>,
)
where
    R: CalmRead + CountedRead + AsyncBufRead,
    requires { R.is_calm x.now.now }
    ensures fill_buf { ⟦<FillBuf<'a, R> as CalmFuture>⟧.is_calm (record { reader = Some x.now }) }
    ensures read { ⟦<ReadFuture<'a, R> as CalmFuture>⟧.is_calm (record { reader = x.now; buf = buf.now }) }
    ensures read_exact { ⟦<ReadExactFuture<'a, R> as CalmFuture>⟧.is_calm (record { reader = x.now; buf = buf.now; filled = 0 }) }
    ensures read_vectored { ⟦<ReadVectoredFuture<'a, 'b, R> as CalmFuture>⟧.is_calm (record { reader = x.now; bufs = Some bufs.now }) }
    ensures read_to_end { ⟦<ReadToEndFuture<'a, R> as CalmFuture>⟧.is_calm
        (record { reader = x.now; buf = bytes.now; start = 0; filled = 0; room = 0 }) }
    ensures read_until { ⟦<ReadUntilFuture<'a, R> as CalmFuture>⟧.is_calm
        (record { reader = x.now; byte = 10; buf = bytes.now; start = 0 }) }
    ensures read_line { ⟦<ReadLineFuture<'a, R> as CalmFuture>⟧.is_calm
        (record { reader = x.now; text = text.now; bytes = read.now; ascii = true }) }
    ensures read_to_string { ⟦<ReadToStringFuture<'a, R> as CalmFuture>⟧.is_calm
        (record { reader = x.now; text = text.now; bytes = read.now; filled = 0; room = 0 }) }
{}

/// Streams that cut what alike readers tell, as `lines` and `split` make them, are alike, and over calm ones calm.
pub fn pieces_have_properties<R>(x: &Lines<R>, y: &Lines<R>, v: &Split<R>, w: &Split<R>)
where
    R: SteadyRead + CalmRead + CountedRead + AsyncBufRead,
    requires lines { R.alike x.now.reader y.now.reader }
    requires no_line { (x.now.held.bytes.items ≡ []) × (y.now.held.bytes.items ≡ []) }
    requires pieces { R.alike v.now.reader w.now.reader }
    requires no_piece { (v.now.held.items ≡ []) × (w.now.held.items ≡ []) }
    requires byte { v.now.byte ≡ w.now.byte }
    requires calm_lines { R.is_calm x.now.reader }
    requires calm_pieces { R.is_calm v.now.reader }
    ensures lines { ⟦<Lines<R> as SteadyStream>⟧.alike x.now y.now }
    ensures split { ⟦<Split<R> as SteadyStream>⟧.alike v.now w.now }
    ensures lines_calm { ⟦<Lines<R> as CalmStream>⟧.is_calm x.now }
    ensures split_calm { ⟦<Split<R> as CalmStream>⟧.is_calm v.now }
{}

/// Copies of alike readers that have not begun are alike, whatever their writers are. One of a calm reader to a calm writer
/// is calm.
pub fn copies_have_properties<R, W>(x: &CopyFuture<R, W>, y: &CopyFuture<R, W>)
where
    R: SteadyRead + CalmRead + CountedRead,
    W: AsyncWrite + CalmWrite,
    requires alike { R.alike (source_of x.now) (source_of y.now) }
    requires begins { NothingCopied x.now × NothingCopied y.now }
    requires calm_reader { R.is_calm (source_of x.now) }
    requires calm_writer { W.is_calm x.now.writer }
    ensures alike { ⟦<CopyFuture<R, W> as SteadyFuture>⟧.alike x.now y.now }
    ensures is_calm { ⟦<CopyFuture<R, W> as CalmFuture>⟧.is_calm x.now }
{}

/// One read, and reads into a slice.
pub fn read_into<'a, 'b, R>(
    fill_buf: &FillBuf<'a, R>,
    reader: &&'a mut R,
    read: &ReadFuture<'a, R>,
    read_vectored: &ReadVectoredFuture<'a, 'b, R>,
    read_exact: &ReadExactFuture<'a, R>,
)
where
    R: AsyncBufRead + SteadyRead,
    ensures fill_buf { fill_buf.now.reader ≡ Some reader.now
        → TellsAll (R.registers reader.now.now) (⟦<FillBuf<'a, R> as Future>⟧.registers fill_buf.now) }
    ensures read { TellsAll (R.registers read.now.reader.now) (⟦<ReadFuture<'a, R> as Future>⟧.registers read.now) }
    ensures read_vectored { TellsAll (R.registers read_vectored.now.reader.now)
        (⟦<ReadVectoredFuture<'a, 'b, R> as Future>⟧.registers read_vectored.now) }
    ensures read_exact { TellsAll (R.registers read_exact.now.reader.now)
        (⟦<ReadExactFuture<'a, R> as Future>⟧.registers read_exact.now)
        × (R.needs_none → ⟦<ReadExactFuture<'a, R> as SteadyFuture>⟧.needs_none) }
{}

/// Reads that append to a vector or a string: a run without a value of `OutOfMemory` is ample, if each run of the reader is.
pub fn read_behind<'a, R, A>(
    read_to_end: &ReadToEndFuture<'a, R, A>,
    read_until: &ReadUntilFuture<'a, R>,
    read_line: &ReadLineFuture<'a, R, A>,
    read_to_string: &ReadToStringFuture<'a, R, A>,
)
where
    R: AsyncBufRead + CountedRead + SteadyRead,
    A: Allocator + Copy,
    ensures read_to_end { TellsAll (R.registers read_to_end.now.reader.now)
        (⟦<ReadToEndFuture<'a, R, A> as Future>⟧.registers read_to_end.now) }
    ensures read_until { TellsAll (R.registers read_until.now.reader.now)
        (⟦<ReadUntilFuture<'a, R> as Future>⟧.registers read_until.now) }
    ensures read_line { TellsAll (R.registers read_line.now.reader.now)
        (⟦<ReadLineFuture<'a, R, A> as Future>⟧.registers read_line.now) }
    ensures read_to_string { TellsAll (R.registers read_to_string.now.reader.now)
        (⟦<ReadToStringFuture<'a, R, A> as Future>⟧.registers read_to_string.now) }
    ensures ample_to_end { TakesNone R.reads R.ample → AmpleWhere NoValueRefused
        ⟦<ReadToEndFuture<'a, R, A> as Future>⟧.run ⟦<ReadToEndFuture<'a, R, A> as SteadyFuture>⟧.ample }
    ensures ample_until { TakesNone R.reads R.ample → AmpleWhere NoValueRefused
        ⟦<ReadUntilFuture<'a, R> as Future>⟧.run ⟦<ReadUntilFuture<'a, R> as SteadyFuture>⟧.ample }
    ensures ample_line { TakesNone R.reads R.ample → AmpleWhere NoValueRefused
        ⟦<ReadLineFuture<'a, R, A> as Future>⟧.run ⟦<ReadLineFuture<'a, R, A> as SteadyFuture>⟧.ample }
    ensures ample_string { TakesNone R.reads R.ample → AmpleWhere NoValueRefused
        ⟦<ReadToStringFuture<'a, R, A> as Future>⟧.run ⟦<ReadToStringFuture<'a, R, A> as SteadyFuture>⟧.ample }
{}

/// The lines of a reader, and its pieces: a run without an answer of `OutOfMemory` is ample, if each run of the reader is.
pub fn cut<R>(lines: &Lines<R>, split: &Split<R>)
where
    R: AsyncBufRead + CountedRead + SteadyRead,
    ensures lines { TellsAll (R.registers lines.now.reader) (⟦<Lines<R> as Stream>⟧.registers lines.now) }
    ensures split { TellsAll (R.registers split.now.reader) (⟦<Split<R> as Stream>⟧.registers split.now) }
    ensures ample_lines { TakesNone R.reads R.ample
        → AmpleWhere NoneRefused ⟦<Lines<R> as Stream>⟧.run ⟦<Lines<R> as SteadyStream>⟧.ample }
    ensures ample_split { TakesNone R.reads R.ample
        → AmpleWhere NoneRefused ⟦<Split<R> as Stream>⟧.run ⟦<Split<R> as SteadyStream>⟧.ample }
{}
