//! Theorems at types of a caller's own, or at concrete ones: what is collected of two merged scripts and of any collection,
//! the runs that journals are, and what buffered readers over bytes answer.
#![tactic(auto)]

mod few;
mod gather;
mod journals;
mod scripts;
mod seeking;

pub use few::{Few, Room, Tall};
pub use gather::gather_all;
pub use journals::{Plain, entries_of_cursor, entries_of_marks};
pub use scripts::{or_collected, race_collected};
pub use seeking::{over_slice, over_vec};
