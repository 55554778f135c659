//! Theorems on nests of combinators. Each is the contract of a function that builds the nest, or that does
//! nothing.
//!
//! `specs/` also has the laws of futures, streams, readers and writers of a user's own whose calls go by
//! steps, a line each.
#![tactic(auto)]

mod both_readers;
mod both_writers;
mod chained;
mod lines;
mod or;
mod race;
mod waits;

pub use both_readers::read_both;
pub use both_writers::write_both;
pub use chained::{copy_buffered, copy_chain};
pub use lines::{CollectLinesFuture, collect_buffered_lines, collect_lines};
pub use or::collect_or;
pub use race::collect_race;
pub use waits::{
    wait_flush, wait_read, wait_read_exact, wait_read_until, wait_read_until_limited,
    wait_write_all,
};
