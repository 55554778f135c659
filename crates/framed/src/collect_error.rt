//! Why not all frames were collected.
use std::fmt::Display;
use thiserror::Error;

/// Why [`collect_frames`](crate::collect_frames) stopped before the end of the input. The frames before it are in the
/// vector.
///
/// # Examples
///
/// ```
/// use framed::CollectError;
///
/// let stopped: CollectError<u8, &str> = CollectError::Memory(7);
/// assert!(rt; matches!(stopped, CollectError::Memory(7)));
/// assert_eq!(rt; format!(in rt.alloc(); "{stopped}")?.as_str(), "out of memory");
/// ```
#[derive(Debug, Drop, Error)]
#[error_bound(E: Display)]
pub enum CollectError<X, E> {
    /// The stream returned this error. It is final then.
    #[error("cannot read: {0}")]
    Input(E),
    /// Memory for the vector was refused. This frame came behind those in the vector, which has no room for it. The
    /// stream can be polled again.
    #[error("out of memory")]
    Memory(X),
}
