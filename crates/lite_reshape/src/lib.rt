//! Adapters that return more or fewer results than their source.
//!
//! Some leave items out; others keep something between polls, or have a second stream.
#![tactic(auto)]

mod chain;
mod cloned;
mod ended;
mod filter;
mod filter_map;
mod flat_map;
mod flatten;
mod inner;
pub mod make;
mod skip;
mod skip_while;
mod step_by;
mod then;

pub use chain::Chain;
pub use cloned::Cloned;
pub use filter::Filter;
pub use filter_map::FilterMap;
pub use flat_map::FlatMap;
pub use flatten::Flatten;
pub use skip::Skip;
pub use skip_while::SkipWhile;
pub use step_by::StepBy;
pub use then::Then;
