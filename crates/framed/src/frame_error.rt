//! Why frames and lines are not decoded or not encoded.
ghost use Rattle.std.specs.Prelude.{◌≡◌};
ghost use Rattle.framed.specs.FrameErrors.{SaysOutOfMemory};
ghost use Rattle.framed.specs.declared.frame_error.FrameError.TheVariants.{Io};

use std::alloc::AllocError;
use std::io;
use thiserror::Error;

/// Why a frame or a line was not decoded or not encoded.
///
/// # Examples
///
/// ```
/// use bytes::BytesMut;
/// use framed::{FrameError, LengthDelimited};
/// use tokio_util::codec::Decoder;
///
/// let mut bytes = BytesMut::copy_from_slice(rt.alloc(), b"\0\0\0\x03")?;
/// match (LengthDelimited { max: 2 }).decode(&mut bytes) {
///     Err(FrameError::TooLong(length)) => assert_eq!(rt; length, 3),
///     _ => return Err(Fail::from("three bytes are too many")),
/// }
/// ```
#[derive(Debug, Drop, Error)]
pub enum FrameError {
    /// The frame has so many bytes, or the line at least so many, which is above the limit. The decoder took
    /// nothing of it, or the encoder wrote nothing.
    #[error("too long: {0} bytes or more")]
    TooLong(usize),
    /// The input ended within a frame or a line. The decoder took nothing of it.
    #[error("the input ended within a frame or a line")]
    CutOff,
    /// The bytes begin no frame: their head is not a frame's, or other bytes than the tail stand behind the body. They
    /// were not taken.
    #[error("the bytes begin no frame")]
    Malformed,
    /// A line to be written has its first newline behind so many bytes, so it would be read as two. Nothing was written.
    #[error("the line has a newline behind {0} bytes")]
    HasNewline(usize),
    /// A line to be written ends in `\r`, so it would be read without it. Nothing was written.
    #[error("the line ends in a carriage return")]
    EndsInReturn,
    /// The reader's or the writer's error; or memory was refused, with the kind `OutOfMemory`.
    #[error(transparent)]
    Io(io::Error),
}

impl From<io::Error> for FrameError {
    ghost from_gives = { λ e r. r ≡ Io e };

    fn from(e: io::Error) -> FrameError {
        FrameError::Io(e)
    }
}

impl From<AllocError> for FrameError {
    ghost from_gives = { λ e r. SaysOutOfMemory r };

    fn from(e: AllocError) -> FrameError {
        FrameError::Io(io::Error::from(e))
    }
}
