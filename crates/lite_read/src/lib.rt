//! Futures of reading and seeking, and streams of the bytes, pieces and lines of a reader.
#![tactic(auto)]

mod append;
mod bytes;
mod fill_buf;
pub mod find;
mod held;
mod lines;
pub mod make;
mod read;
mod read_exact;
mod read_line;
mod read_to_end;
mod read_to_string;
mod read_until;
mod read_vectored;
mod room;
mod scan;
mod seek;
mod split;
mod text;

pub use bytes::Bytes;
pub use fill_buf::FillBuf;
pub use lines::Lines;
pub use read::ReadFuture;
pub use read_exact::ReadExactFuture;
pub use read_line::ReadLineFuture;
pub use read_to_end::ReadToEndFuture;
pub use read_to_string::ReadToStringFuture;
pub use read_until::ReadUntilFuture;
pub use read_vectored::ReadVectoredFuture;
pub use scan::{LineScan, scan_line};
pub use seek::SeekFuture;
pub use split::Split;
