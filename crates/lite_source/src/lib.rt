//! Sources: streams that read from no other stream.
#![tactic(auto)]

mod empty;
mod iter;
pub mod make;
mod once;
mod once_future;
mod pending;
mod poll_fn;
mod repeat;
mod repeat_with;
mod script;
mod try_unfold;
mod unfold;
mod unfolding;

pub use empty::Empty;
pub use iter::Iter;
pub use once::Once;
pub use once_future::OnceFuture;
pub use pending::Pending;
pub use poll_fn::PollFn;
pub use repeat::Repeat;
pub use repeat_with::RepeatWith;
pub use script::Script;
pub use try_unfold::TryUnfold;
pub use unfold::Unfold;
