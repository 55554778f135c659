//! Why a server ends before its connection is done.
use std::io;

/// Why a server ended before its connection was done. Nothing was done behind the error.
#[derive(Debug, Drop)]
pub enum HttpError {
    /// The reader returned this error. The responses to all requests before it were written and flushed.
    Input(io::Error),
    /// The writer returned this error. It took a prefix of what there was to write.
    Output(io::Error),
    /// Memory was refused, for received bytes, for a request or for a response. What was written is a prefix of the
    /// responses, and was flushed.
    Memory,
}
