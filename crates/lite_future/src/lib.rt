//! The futures: functions that make them, and combinators of two.
#![tactic(auto)]

mod either;
mod fuse;
pub mod make;
mod or;
mod pending;
mod picks;
mod poll_fn;
mod poll_limited;
mod poll_once;
mod race;
mod ready;
mod side;
mod try_zip;
mod yield_now;
mod zip;

pub use either::Either;
pub use fuse::Fuse;
pub use or::Or;
pub use pending::Pending;
pub use poll_fn::PollFn;
pub use poll_limited::{Exhausted, PollLimited};
pub use poll_once::PollOnce;
pub use race::Race;
pub use ready::Ready;
pub use try_zip::TryZip;
pub use yield_now::YieldNow;
pub use zip::Zip;
