//! Adapters that merge two streams, or a stream and a future; that repeat a stream; or that change when it is
//! pending.
#![tactic(auto)]

mod budgeted;
mod cycle;
mod drain;
pub mod make;
mod or;
mod picks;
mod race;
mod stop_after_future;
mod zip;

pub use budgeted::Budgeted;
pub use cycle::Cycle;
pub use drain::Drain;
pub use or::Or;
pub use race::Race;
pub use stop_after_future::StopAfterFuture;
pub use zip::Zip;
