//! Why a request was not decoded, or a reply not encoded.
ghost use Rattle.std.specs.Prelude.{◌≡◌};
ghost use Rattle.example_redis.specs.declared.error.ReplyError.TheVariants.{Io as Failed, Memory as Full};
ghost use Rattle.example_redis.specs.declared.error.RequestError.TheVariants.{Io, Memory};

use std::alloc::{AllocError, AllocFailed};
use std::io;
use thiserror::Error;

/// Why a request was not decoded. The bytes of the request are kept, so a further call returns the same error.
#[derive(Debug, Drop, Error)]
pub enum RequestError {
    /// No request begins with these bytes.
    #[error("the request is malformed")]
    Malformed,
    /// An array has more words than the limit allows.
    #[error("the request has too many words")]
    TooManyWords,
    /// A word has more bytes than the limit allows.
    #[error("the word is too long")]
    LongWord,
    /// The words of a request have more bytes than the limit allows.
    #[error("the request is too long")]
    LongRequest,
    /// A line has more bytes than the limit allows.
    #[error("the line is too long")]
    LongLine,
    /// The input ended within a request.
    #[error("the input ended within a request")]
    Cut,
    /// The reader returned this error. The decoder alone never returns it.
    #[error(transparent)]
    Io(io::Error),
    /// Memory was refused. A further call goes on with the same bytes.
    #[error("out of memory")]
    Memory,
}

impl From<AllocError> for RequestError {
    ghost from_gives = { λ _ error. error ≡ Memory };

    fn from(_: AllocError) -> RequestError {
        RequestError::Memory
    }
}

// So that `words.push(word)?` converts. The value is dropped.
impl<T: Drop> From<AllocFailed<T>> for RequestError {
    ghost from_gives = { λ _ error. error ≡ Memory };

    fn from(_: AllocFailed<T>) -> RequestError {
        RequestError::Memory
    }
}

impl From<io::Error> for RequestError {
    ghost from_gives = { λ given error. error ≡ Io given };

    fn from(error: io::Error) -> RequestError {
        RequestError::Io(error)
    }
}

/// Why a reply was not encoded. Nothing of it was written.
#[derive(Debug, Drop, Error)]
pub enum ReplyError {
    /// Arrays are nested deeper than the encoder allows.
    #[error("its arrays are nested too deep")]
    Nested,
    /// A simple string or an error has a carriage return or a line feed.
    #[error("its line has a line break")]
    LineBreak,
    /// The writer returned this error. The encoder alone never returns it.
    #[error(transparent)]
    Io(io::Error),
    /// Memory was refused.
    #[error("out of memory")]
    Memory,
}

impl From<AllocError> for ReplyError {
    ghost from_gives = { λ _ error. error ≡ Full };

    fn from(_: AllocError) -> ReplyError {
        ReplyError::Memory
    }
}

impl From<io::Error> for ReplyError {
    ghost from_gives = { λ given error. error ≡ Failed given };

    fn from(error: io::Error) -> ReplyError {
        ReplyError::Io(error)
    }
}
