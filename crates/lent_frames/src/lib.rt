//! Frames that are lent from the bytes of a reader.
//!
//! A [`Cutter`] finds the first frame in bytes and keeps nothing. [`Frames`] reads, and lends each frame that its cutter
//! finds as a slice, without a copy where the reader shows it whole. The crate `framed` has two cutters,
//! `LengthDelimited` and `LineDelimited`, and hands out all names of this crate.
#![tactic(auto)]

mod cut;
mod cutter;
mod frames;
mod frames_error;

pub use cut::{Cut, Span};
pub use cutter::Cutter;
pub use frames::{Frames, FramesParts};
pub use frames_error::FramesError;
