//! Why no more frames are lent.
use std::fmt;
use std::io::ErrorKind;

/// Why [`Frames`](crate::Frames) lends no more frames. `E` is the error of its cutter.
///
/// It is small, because each call returns it. The reader's error itself is handed out by
/// [`take_error`](crate::Frames::take_error).
///
/// # Examples
///
/// ```
/// use framed::{CutError, Frames, FramesError, LengthDelimited};
///
/// let mut frames = Frames::new(rt.alloc(), b"\0\0\0\x03abc".as_slice(), LengthDelimited { max: 2 });
/// match frames.advance_in_hand() {
///     Poll::Ready(Some(Err(e))) => assert_eq!(rt; e, FramesError::NoFrame(CutError::TooLong(3))),
///     _ => return Err(Fail::from("three bytes are too many")),
/// }
/// ```
#[derive(Debug, Clone, Copy, PartialEq, Eq)]
pub enum FramesError<E> {
    /// The bytes begin no frame, or the input ended within one. The bytes of it were not lost:
    /// [`into_parts`](crate::Frames::into_parts) hands back those that were taken from the reader.
    NoFrame(E),
    /// Memory was refused for the bytes of a frame that came in parts. They were not taken from the reader.
    OutOfMemory,
    /// The reader returned an error of this kind.
    Reader(ErrorKind),
}

impl<E: fmt::Display> fmt::Display for FramesError<E> {
    fn fmt<W: fmt::Write>(&self, f: &mut fmt::Formatter<W>) -> fmt::Result {
        match self {
            FramesError::NoFrame(e) => e.fmt(f),
            FramesError::OutOfMemory => f.write_str("out of memory"),
            FramesError::Reader(kind) => kind.fmt(f),
        }
    }
}
