//! Why a server of lent frames failed.
use framed::FramesError;
use std::fmt;
use std::io::ErrorKind;

/// Why [`Serving`](crate::Serving) ended before its input and its responder did. `E` is the error of the cutter.
///
/// # Examples
///
/// ```
/// use serving::ServingError;
/// use std::io::ErrorKind;
///
/// let failed: ServingError<()> = ServingError::Output(ErrorKind::BrokenPipe);
/// assert_eq!(rt; failed, ServingError::Output(ErrorKind::BrokenPipe));
/// ```
#[derive(Debug, Clone, Copy, PartialEq, Eq)]
pub enum ServingError<E> {
    /// The input failed with this error. The responder's last words to it, and all replies before them, were written and
    /// flushed.
    Input(FramesError<E>),
    /// A write or a flush failed with an error of this kind, which
    /// [`take_output_error`](crate::Serving::take_output_error) returns. No request was performed behind it.
    Output(ErrorKind),
    /// Memory was refused to the responder. The replies before were written and flushed. Nothing of the replies to
    /// that request was written.
    OutOfMemory,
}

impl<E: fmt::Display> fmt::Display for ServingError<E> {
    fn fmt<W: fmt::Write>(&self, f: &mut fmt::Formatter<W>) -> fmt::Result {
        match self {
            ServingError::Input(e) => {
                f.write_str("cannot read: ")?;
                e.fmt(f)
            }
            ServingError::Output(kind) => {
                f.write_str("cannot write: ")?;
                kind.fmt(f)
            }
            ServingError::OutOfMemory => f.write_str("out of memory"),
        }
    }
}
