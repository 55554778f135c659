//! What the other crates build on: the traits of futures and streams, ranks, `block_on`, and `drive`, the loop
//! of all polls.
#![tactic(auto)]

mod armed;
mod calm;
mod counted;
pub mod future;
mod lent;
mod ok_counted;
mod poll_steps;
mod steady;
mod stream;

pub use armed::{ArmedStream, poll_armed_next};
pub use calm::CalmStream;
pub use counted::Counted;
pub use future::{ArmedFuture, CalmFuture, Future, SteadyFuture};
pub use futures::ready;
pub use futures::task::{Context, Poll};
pub use ok_counted::OkCounted;
pub use poll_steps::{PollSteps, drive};
pub use steady::SteadyStream;
pub use stream::Stream;
