//! Public functions whose contracts say that pendings change no answer and no collection: two runs of one nest agree, and none
//! comes out where none went in; of two streams that are alike, equal items are collected. So over the lines of
//! readers, which are compared by what they say, and over iterators of equal items. Readers that are alike give the same bytes,
//! and writers that are alike leave the same below.
#![tactic(auto)]

pub mod agree;
pub mod both;
pub mod clones;
pub mod collected;
pub mod collections;
pub mod iterators;
mod lengths;
pub mod lines;
pub mod nests;
pub mod paced;
pub mod reads;
pub mod values;
pub mod writes;
