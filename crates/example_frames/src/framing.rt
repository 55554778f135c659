//! Frames that are written and read.
ghost use Rattle.std.specs.Prelude.{◌≡◌, ◌<◌, ◌++◌, IfOk, List, Ok, length, map, ℕ};
ghost use Rattle.example_frames.specs.Framing.{ReadsBack};
ghost use Rattle.bytes.specs.Filled.{Filled};
ghost use Rattle.futures_lite.specs.Marks.{ReadMark};
ghost use Rattle.futures_lite.specs.Readers.{Knows, ToldStripped};
ghost use Rattle.futures_lite.specs.Writers.{Stores};
ghost use Rattle.tokio_util.specs.Codec.Whole.{ReadsAll};
ghost use Rattle.framed.specs.Frames.{reading};
ghost use Rattle.framed.specs.DelimitedBack.{Encoded};
ghost use Rattle.framed.specs.LengthDelimited.{RefusesPayload, gives_delimited};
ghost use Rattle.framed.specs.Sending.{SendsOne};
ghost use Rattle.framed.specs.Whole.{Collects};
ghost use Rattle.framed.specs.declared.FrameError.TheVariants.{Io};

use bytes::BytesMut;
use framed::{
    CollectError, FrameError, FramedRead, LengthDelimited, collect_frames, wait_send, wait_send_all,
};
use futures_lite::future::BlockOn;
use futures_lite::io::{AsyncBufRead, AsyncWrite, BufReader, CountedRead};
use std::alloc::{AllocError, AllocGlobal};
use std::sync::Wait;

/// Writes the frame of a text: its length in four bytes, and then the text.
///
/// # Errors
///
/// The text is above the limit, or memory was refused: then nothing was written. Or it is the writer's error, behind a
/// front of the frame.
pub fn write_frame<R, O>(
    on: &mut BlockOn,
    rt: &R,
    writer: &mut O,
    codec: &mut LengthDelimited,
    text: &str,
) -> Result<(), FrameError>
where
    R: Wait + AllocGlobal,
    O: AsyncWrite,
    ensures { (out : List ℕ) × SendsOne (Encoded (λ t. t.now)) (λ c t. RefusesPayload c (length t.now)) O.writes
        (λ cause e. e ≡ Io cause) writer.old codec.old text.entry 0 result writer.new codec.new out }
{
    let mut out = BytesMut::new(rt.alloc());
    wait_send(on, rt, writer, codec, text, &mut out)
}

/// Appends all frames of a reader to `out`. They are those that its bytes have, up to the end of file.
///
/// # Errors
///
/// The frames before an error are in `out`. Behind them the decoder refused the bytes, the reader failed, or memory was
/// refused: to the reader's frames, or to the vector, and then the error has the frame that found no room.
pub fn read_all<R, T>(
    on: &mut BlockOn,
    rt: &R,
    frames: &mut FramedRead<T, LengthDelimited>,
    out: &mut Vec<BytesMut>,
) -> Result<(), CollectError<BytesMut, FrameError>>
where
    R: Wait + AllocGlobal,
    T: AsyncBufRead + CountedRead,
    requires counts { T.ranks.counts frames.old.reader }
    requires reading { frames.old.phase ≡ reading }
    ensures { (l : List ReadMark) × (read : List Filled) × ToldStripped T.reads frames.old.reader l frames.new.reader
        × (out.new.items ≡ out.old.items ++ read)
        × Collects gives_delimited (λ cause e. e ≡ Io cause) frames.old.decoder frames.old.held l read result }
{
    collect_frames(&mut on.waits(), rt, frames, out)
}

/// Writes the frames of the texts to memory, and reads them back through a buffer of `room` bytes, which is above 0.
///
/// The frames that it returns are the texts, in order, wherever the buffer cuts them.
pub fn send_and_read<R>(
    on: &mut BlockOn,
    rt: &R,
    codec: LengthDelimited,
    texts: Vec<&str>,
    room: usize,
) -> Result<Vec<BytesMut>, FrameError>
where
    R: Wait + AllocGlobal,
    requires { 0 < room }
    ensures { IfOk result (λ frames. map (λ f. f.items) frames.items ≡ map (λ t. t.now) texts.entry.items) }
{
    let mut sent = Vec::new(rt.alloc());
    send_texts(on, rt, &mut sent, codec, texts)?;
    match BufReader::with_capacity(rt.alloc(), room, sent.as_slice()) {
        Ok(reader) => read_known(on, rt, reader, codec),
        Err(_) => Err(FrameError::from(AllocError)),
    }
}

// Writes the frames of the texts to a writer whose bytes are known.
fn send_texts<R, O>(
    on: &mut BlockOn,
    rt: &R,
    writer: &mut O,
    codec: LengthDelimited,
    texts: Vec<&str>,
) -> Result<(), FrameError>
where
    R: Wait + AllocGlobal,
    O: AsyncWrite,
    requires { Stores O.writes O.stored writer.old }
    ensures { IfOk result (λ _. (xs : List ℕ) × (O.stored.kept writer.new ≡ O.stored.kept writer.old ++ xs)
        × ReadsBack codec texts.entry.items xs) }
{
    let mut encoder = codec;
    let mut out = BytesMut::new(rt.alloc());
    wait_send_all(on, rt, writer, &mut encoder, texts, &mut out)
}

// Reads all frames of a reader whose bytes are known.
fn read_known<R, T>(
    on: &mut BlockOn,
    rt: &R,
    reader: T,
    codec: LengthDelimited,
) -> Result<Vec<BytesMut>, FrameError>
where
    R: Wait + AllocGlobal,
    T: AsyncBufRead + CountedRead + Drop,
    requires counts { T.ranks.counts reader }
    requires knows { Knows T.reads T.known reader }
    ensures { IfOk result (λ all. ReadsAll gives_delimited codec (T.known.left reader) (map Ok all.items)) }
{
    let mut frames = FramedRead::new(rt.alloc(), reader, codec);
    let mut all = Vec::new(rt.alloc());
    match read_all(on, rt, &mut frames, &mut all) {
        Ok(()) => Ok(all),
        Err(CollectError::Input(e)) => Err(e),
        Err(CollectError::Memory(_)) => Err(FrameError::from(AllocError)),
    }
}
