//! Combinators for futures, streams and byte I/O: the library as its users see it.
//!
//! The modules `future`, `stream` and `io` have the futures, streams, readers and writers, under the names of
//! futures-lite. `laws` has functions that record runs, and laws. The traits are exported here too, and
//! `prelude` exports them all.
#![tactic(auto)]

pub mod future;
pub mod io;
pub mod laws;
pub mod prelude;
pub mod stream;

pub use future::FutureExt;
pub use futures::task::{Doorbell, Solo};
pub use io::{
    AsyncBufRead, AsyncBufReadExt, AsyncRead, AsyncReadExt, AsyncSeek, AsyncSeekExt, AsyncWrite,
    AsyncWriteExt,
};
pub use lite_base::{Context, Future, Poll, PollSteps, Stream, drive, ready};
pub use stream::StreamExt;
