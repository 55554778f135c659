//! Bridges between this library and the toolchain's crates `futures` and `tokio`, both ways.
//!
//! A future, stream, reader or writer of either side is wrapped by `compat`, as by the crate `async-compat` and by
//! `tokio_util::compat`. What is wrapped has the traits of the other side, so that the toolchain's executors, channels,
//! timers and sockets can be used with this library's combinators. Nothing here needs a handle.
//!
//! Chapter 23 (`docs/guide/23-runtimes.md`) shows programs.
#![tactic(auto)]

mod compat;
mod from_kit;
mod laws;
mod to_kit;
mod wait;

pub use compat::{Compat, CompatExt};
pub use laws::{
    future_comes_back, gives_same, needs_both, reader_comes_back, reads_same, stream_comes_back,
    stream_from_kit, writer_comes_back, writes_same, yields_same,
};
pub use wait::{collect_from_kit, wait_from_kit};
