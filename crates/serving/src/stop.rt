//! Why no more requests are taken.
ghost use Rattle.std.specs.Prelude.{◌≡◌};
ghost use Rattle.serving.specs.Serving.{value_of};

use crate::serving_error::ServingError;
use framed::FramesError;

/// Why a server takes no more requests. What waits is still written and flushed.
#[derive(Drop)]
pub(crate) enum Stop<E> {
    // The input ended.
    Ended,
    // The responder ended the session.
    Answered,
    // The input failed, and the responder gave its last words.
    Refused(FramesError<E>),
    // Memory was refused to the responder.
    Lacked,
}

impl<E> Stop<E> {
    // The value of a server that stopped so.
    pub(crate) fn value(self) -> Result<(), ServingError<E>>
        ensures { result ≡ value_of self }
    {
        match self {
            Stop::Ended | Stop::Answered => Ok(()),
            Stop::Refused(e) => Err(ServingError::Input(e)),
            Stop::Lacked => Err(ServingError::OutOfMemory),
        }
    }
}
