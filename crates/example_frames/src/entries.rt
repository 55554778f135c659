//! Entries of an archive: the name in a line, and then the body with its length before it.
ghost use Rattle.std.specs.Prelude.{◌≡◌, []};
ghost use Rattle.framed.specs.Frames.{reading};
ghost use Rattle.example_frames.specs.Entries.{BeginsWith, ReadsBody, ReadsEntries, ReadsEntry};

use bytes::BytesMut;
use framed::{FrameError, FramedRead, LengthDelimited, PromptDecoder, wait_frame};
use futures_lite::future::BlockOn;
use futures_lite::io::{AsyncBufRead, CountedRead};
use std::alloc::AllocGlobal;
use std::sync::Wait;
use thiserror::Error;
use tokio_util::codec::{LinesCodec, LinesCodecError};

/// A name has at most so many bytes.
pub const NAME_LIMIT: usize = 255;

/// A body has at most so many bytes.
pub const BODY_LIMIT: u32 = 1 << 16;

/// An entry.
#[derive(Debug, Drop)]
pub struct Entry {
    /// The name, which stands in a line of its own.
    pub name: String,
    /// The body, which has its length before it.
    pub body: BytesMut,
}

/// Why an entry was not read.
#[derive(Debug, Drop, Error)]
pub enum EntryError {
    /// The name is too long, or is not UTF-8; or the reader failed; or memory was refused.
    #[error("a name was not read: {0}")]
    Name(LinesCodecError),
    /// The body is too long, or the input ended within it; or the reader failed; or memory was refused.
    #[error("a body was not read: {0}")]
    Body(FrameError),
    /// The input ended behind the name, or within it.
    #[error("the input ended within an entry")]
    CutOff,
    /// Memory was refused for the list of entries.
    #[error("out of memory")]
    Memory,
}

/// What a reader begins with, as a decoder finds it.
#[derive(Debug, Drop)]
pub enum First<X> {
    /// A frame. No byte behind it was taken.
    Frame(X),
    /// The input ended, and there is no frame.
    Ended,
    /// The input ended within a frame, such as a line without its newline.
    Broken,
}

/// Reads the first frame of `reader` by `decoder`, and hands the reader back.
///
/// Another decoder can go on there, behind the frame. Behind an error nothing says where the next frame begins.
pub fn read_first<R, T, D>(
    on: &mut BlockOn,
    rt: &R,
    reader: T,
    decoder: D,
) -> (Result<First<D::Item>, D::Error>, T)
where
    R: Wait + AllocGlobal,
    T: AsyncBufRead + CountedRead,
    D: PromptDecoder + Drop,
    requires { T.ranks.counts reader }
    ensures read { BeginsWith D.gives D.Error.from_gives T.reads reader decoder result.0 result.1 }
    ensures again { T.ranks.counts result.1 }
{
    let mut frames = FramedRead::new(rt.alloc(), reader, decoder);
    let first = wait_first(on, rt, &mut frames);
    (first, frames.into_parts().reader)
}

// Waits for the first frame.
fn wait_first<R, T, D>(
    on: &mut BlockOn,
    rt: &R,
    frames: &mut FramedRead<T, D>,
) -> Result<First<D::Item>, D::Error>
where
    R: Wait,
    T: AsyncBufRead + CountedRead,
    D: PromptDecoder,
    requires counts { T.ranks.counts frames.old.reader }
    requires held { frames.old.held ≡ [] }
    requires phase { frames.old.phase ≡ reading }
    ensures read { BeginsWith D.gives D.Error.from_gives T.reads frames.old.reader frames.old.decoder result frames.new.reader }
    ensures again { T.ranks.counts frames.new.reader }
{
    match wait_frame(on, rt, frames) {
        None => Ok(First::Ended),
        Some(Ok(frame)) => {
            if frames.is_reading() {
                Ok(First::Frame(frame))
            } else {
                Ok(First::Broken)
            }
        }
        Some(Err(e)) => Err(e),
    }
}

/// Reads an entry: its name by lines, and its body by its length. `None`: the input ended before an entry.
///
/// The reader is handed back. If there is an entry, no byte behind it was taken. Behind an error the reader stands
/// within an entry.
pub fn read_entry<R, T>(
    on: &mut BlockOn,
    rt: &R,
    reader: T,
) -> (Result<Option<Entry>, EntryError>, T)
where
    R: Wait + AllocGlobal,
    T: AsyncBufRead + CountedRead,
    requires { T.ranks.counts reader }
    ensures read { ReadsEntry T.reads reader result.0 result.1 }
    ensures again { T.ranks.counts result.1 }
{
    let lines = LinesCodec::new_with_max_length(NAME_LIMIT);
    let (first, reader) = read_first(on, rt, reader, lines);
    match first {
        Ok(First::Frame(name)) => read_body(on, rt, reader, name),
        Ok(First::Ended) => (Ok(None), reader),
        Ok(First::Broken) => (Err(EntryError::CutOff), reader),
        Err(e) => (Err(EntryError::Name(e)), reader),
    }
}

// Reads the body of the entry with this name.
fn read_body<R, T>(
    on: &mut BlockOn,
    rt: &R,
    reader: T,
    name: String,
) -> (Result<Option<Entry>, EntryError>, T)
where
    R: Wait + AllocGlobal,
    T: AsyncBufRead + CountedRead,
    requires { T.ranks.counts reader }
    ensures read { ReadsBody T.reads name reader result.0 result.1 }
    ensures again { T.ranks.counts result.1 }
{
    let (first, reader) = read_first(on, rt, reader, LengthDelimited { max: BODY_LIMIT });
    let entry = match first {
        Ok(First::Frame(body)) => Ok(Some(Entry { name, body })),
        Ok(First::Ended) => Err(EntryError::CutOff),
        Ok(First::Broken) => Err(EntryError::CutOff),
        Err(e) => Err(EntryError::Body(e)),
    };
    (entry, reader)
}

/// Reads all entries up to the end of the input, and hands the reader back.
///
/// The entries before an error are dropped.
pub fn read_entries<R, T>(
    on: &mut BlockOn,
    rt: &R,
    reader: T,
) -> (Result<Vec<Entry>, EntryError>, T)
where
    R: Wait + AllocGlobal,
    T: AsyncBufRead + CountedRead,
    requires { T.ranks.counts reader }
    ensures read { ReadsEntries T.reads reader result.0 result.1 }
    ensures again { T.ranks.counts result.1 }
{
    let mut entries = Vec::new(rt.alloc());
    let mut source = reader;
    for _ in rt.forever() {
        let (entry, rest) = read_entry(on, rt, source);
        source = rest;
        match entry {
            Ok(Some(entry)) => {
                if entries.push(entry).is_err() {
                    return (Err(EntryError::Memory), source);
                }
            }
            Ok(None) => return (Ok(entries), source),
            Err(e) => return (Err(e), source),
        }
    }
    unreachable!()
}
