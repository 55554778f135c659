//! What programs share: how they end, and how they tell how much they have read.
#![tactic(auto)]

mod command;
mod ending;
mod watched;

pub use command::{Command, without_words};
pub use ending::{BROKEN_PIPE, ProgramError, end, help, misused};
pub use watched::Watched;
