//! Futures that consume a stream, and blocking calls over a stream. A `Folder` says what such a future makes
//! of the items, and `Consume` is the future that polls the stream.
#![tactic(auto)]

mod all;
mod any;
mod block_on;
mod blocking;
mod consume;
mod count;
mod find;
mod find_map;
mod fold;
mod folder;
mod for_each;
mod last;
mod lent;
pub mod make;
mod next;
mod nth;
mod position;
mod try_fold;
mod try_for_each;
mod try_next;

pub use all::{All, AllFuture};
pub use any::{Any, AnyFuture};
pub use block_on::BlockOn;
pub use blocking::{Blocking, ByRuntime, ByWaiter};
pub use consume::Consume;
pub use count::{Count, CountFuture};
pub use find::{Find, FindFuture};
pub use find_map::{FindMap, FindMapFuture};
pub use fold::{Fold, FoldFuture};
pub use folder::{Folder, SteadyFolder};
pub use for_each::{ForEach, ForEachFuture};
pub use last::{Last, LastFuture};
pub use next::{Next, NextFuture};
pub use nth::{Nth, NthFuture};
pub use position::{Position, PositionFuture};
pub use try_fold::{TryFold, TryFoldFuture};
pub use try_for_each::{TryForEach, TryForEachFuture};
pub use try_next::{TryNext, TryNextFuture};
