//! Futures of writing, flushing, closing and copying, and a writer that drops its bytes.
#![tactic(auto)]

mod close;
mod copy;
mod flush;
pub mod make;
mod sink;
mod write;
mod write_all;
mod write_vectored;

pub use close::CloseFuture;
pub use copy::CopyFuture;
pub use flush::FlushFuture;
pub use sink::Sink;
pub use write::WriteFuture;
pub use write_all::WriteAllFuture;
pub use write_vectored::WriteVectoredFuture;
