//! What the toolchain has, with the traits of this library.

mod future;
mod reader;
mod stream;
mod writer;
