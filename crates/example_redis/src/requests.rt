//! Requests, and what a decoder of them holds.
ghost use Rattle.std.specs.Prelude.{◌≡◌, ◌≢◌, ◌+◌, ◌≤◌, ◌<◌, ◌^◌, All, length, slice_index};

use crate::limits::Limits;
use std::alloc::Global;

mod decoding;
mod lines;
mod prompt;

/// A request: its words, of which the first one names a command. A request without words asks for nothing.
#[derive(Debug, Drop)]
pub struct Request {
    pub words: Vec<Vec<u8>>,
}

/// A decoder of requests.
///
/// A request is an array of bulk strings, or a line of words with blanks between them. There are no quotes in a line. The
/// decoder keeps what it took of an open request, so that a request in many pieces costs no more than in one.
#[derive(Debug, Drop)]
pub struct Requests {
    alloc: Global,
    limits: Limits,
    // The words of the open request that were taken.
    words: Vec<Vec<u8>>,
    // How many more words it has. Without any no request is open.
    missing: usize,
    // How many bytes they may have.
    room: usize,
    // The bytes of an open line that were taken.
    line: Vec<u8>,
    ghost few: { (length words.items + missing ≤ limits.words) × (length words.items + missing < 2 ^ 32) },
    ghost short: { All (λ w. (length w.items ≤ limits.word) × (length w.items < 2 ^ 32)) words.items },
    ghost alone: { 0 < missing → length line.items ≡ 0 },
    ghost one_line: { All (λ b. b ≢ 10) line.items },
    ghost no_array: { slice_index line.items 0 ≢ 42 },
    ghost line_fits: { length line.items ≤ limits.line },
}
