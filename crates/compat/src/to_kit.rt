//! What this library has, with the traits of the toolchain.

mod future;
mod reader;
mod stream;
mod writer;
