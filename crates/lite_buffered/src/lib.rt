//! Buffered readers and writers, and readers over other readers.
#![tactic(auto)]

mod budgeted;
mod buf_reader;
mod buf_writer;
mod chain;
mod empty;
mod in_order;
pub mod make;
mod repeat;
mod seek_counts;
mod take;

pub use budgeted::Budgeted;
pub use buf_reader::BufReader;
pub use buf_writer::BufWriter;
pub use chain::Chain;
pub use empty::Empty;
pub use in_order::keeps_order;
pub use repeat::Repeat;
pub use seek_counts::counts_after_seek;
pub use take::Take;
