//! Adapters of one stream that return one result for each result of it, or cut it off.
#![tactic(auto)]

mod copied;
mod enumerate;
mod fuse;
mod inspect;
pub mod make;
mod map;
mod map_while;
mod scan;
mod take;
mod take_while;

pub use copied::Copied;
pub use enumerate::Enumerate;
pub use fuse::Fuse;
pub use inspect::Inspect;
pub use map::Map;
pub use map_while::MapWhile;
pub use scan::Scan;
pub use take::Take;
pub use take_while::TakeWhile;
