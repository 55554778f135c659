//! Why bytes are no frame.
ghost use Rattle.std.specs.Prelude.{◌≡◌};
ghost use Rattle.framed.specs.FrameErrors.{as_frame_error};

use crate::frame_error::FrameError;
use thiserror::Error;

/// Why bytes are no frame. It is the error of the crate's own [`Cutter`](crate::Cutter)s, and has 16 bytes.
///
/// # Examples
///
/// ```
/// use framed::{Cut, CutError, Cutter, LengthDelimited};
///
/// let codec = LengthDelimited { max: 2 };
/// assert_eq!(rt; codec.cut(b"\0\0\0\x03", 0), Cut::Refused(CutError::TooLong(3)));
/// ```
#[derive(Debug, Clone, Copy, PartialEq, Eq, Error)]
pub enum CutError {
    /// The frame has so many bytes, or the line at least so many, which is above the limit.
    #[error("too long: {0} bytes or more")]
    TooLong(usize),
    /// The bytes begin no frame: their head is not a frame's, or other bytes than the tail stand behind the body.
    #[error("the bytes begin no frame")]
    Malformed,
    /// The input ended within a frame or a line.
    #[error("the input ended within a frame or a line")]
    CutOff,
}

impl From<CutError> for FrameError {
    ghost from_gives = { λ e r. r ≡ as_frame_error e };

    fn from(e: CutError) -> FrameError {
        match e {
            CutError::TooLong(length) => FrameError::TooLong(length),
            CutError::Malformed => FrameError::Malformed,
            CutError::CutOff => FrameError::CutOff,
        }
    }
}
