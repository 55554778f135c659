//! A server of lent frames, as a future.
//!
//! [`Serving`] takes each frame of a reader as a request, lets a [`Responder`] push the replies into a buffer, and writes
//! them. It is polled, so that many sessions run in one thread, and a session can be raced against a stop signal or a
//! timer.
#![tactic(auto)]

mod responder;
mod serving;
mod serving_error;
mod stop;
mod waiting;

pub use responder::Responder;
pub use serving::{Serving, ServingParts};
pub use serving_error::ServingError;
pub use waiting::wait_serving;
