//! Why a server stops before its input ends.
use std::fmt::Display;
use std::io;
use thiserror::Error;

/// Why [`serve`](crate::serve) stopped before the end of its input.
///
/// # Examples
///
/// ```
/// use framed::ServeError;
/// use std::io::ErrorKind;
///
/// let stopped: ServeError<(), ()> = ServeError::Output(ErrorKind::BrokenPipe.into());
/// assert!(rt; matches!(stopped, ServeError::Output(e) if e.kind() == ErrorKind::BrokenPipe));
/// ```
#[derive(Debug, Drop, Error)]
#[error_bound(D: Display, E: Display)]
pub enum ServeError<D, E> {
    /// The stream of requests returned this error. The service's last words to it were written and flushed.
    #[error("cannot read: {0}")]
    Input(D),
    /// A write or a flush failed with this error. No request was performed behind it. The writer took a front of
    /// the replies' frames. If it was the flush behind another error, that one is lost.
    #[error("cannot write: {0}")]
    Output(io::Error),
    /// The encoder refused a reply with this error. Nothing of the replies to its request was written. The
    /// replies before them were flushed.
    #[error("a reply was refused: {0}")]
    Encode(E),
    /// Memory was refused to the service. Nothing of the replies to its request was written. The replies before
    /// them were flushed.
    #[error("out of memory")]
    Memory,
}
