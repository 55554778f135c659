//! Collections that take the items of a stream, and the futures that return them.
#![tactic(auto)]

mod btree_map;
mod btree_set;
mod collect;
mod gather;
pub mod make;
mod partition;
mod refused;
mod string;
mod try_collect;
mod unzip;
mod vec;
mod vec_deque;

pub use collect::{Collect, CollectFuture};
pub use gather::Gather;
pub use partition::{Partition, PartitionFuture};
pub use refused::{Refused, TryCollectError, UnzipRefused};
pub use try_collect::{TryCollect, TryCollectFuture};
pub use unzip::{Unzip, UnzipFuture};
