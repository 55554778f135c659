//! All traits, with their extension traits.

pub use crate::future::FutureExt;
pub use crate::io::{
    AsyncBufRead, AsyncBufReadExt, AsyncRead, AsyncReadExt, AsyncSeek, AsyncSeekExt, AsyncWrite,
    AsyncWriteExt,
};
pub use crate::stream::StreamExt;
pub use lite_base::{Future, Stream};
