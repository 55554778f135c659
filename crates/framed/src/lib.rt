//! Frames on the bytes of a reader and a writer, by `tokio_util`'s `Decoder` and `Encoder`.
//!
//! Chapter 19 (`docs/guide/19-frames.md`) reads and writes frames, and chapter 21 (`docs/guide/21-codec.md`) writes
//! a codec from nothing, with its tests.
//!
//! Both traits are of the toolchain's crate `tokio_util` (`src/codec/decoder.rt` and `encoder.rt` there). A
//! `Decoder` has the calls `decode` and `decode_eof`. Its ghost member `gives` says what may come next, and
//! `stable`, `partial_has_no_frame` and `end_is_partial` are its laws. An `Encoder` has the call `encode`. Its ghost
//! member `encodes` says which bytes are the frame of an item, and `refuses` which errors it may return.
#![tactic(auto)]

mod bytes_codec;
mod collect;
mod collect_error;
mod cut_error;
mod delimiter;
mod fill;
mod frame_error;
mod framed_read;
mod head;
mod held_frame;
mod hexadecimal;
mod length_delimited;
mod line_delimited;
mod lines_codec;
mod make;
mod next_frame;
mod prompt_decoder;
mod round_trip;
mod send_future;
mod serve_error;
mod server;
mod service;
mod steady_decoder;
mod waiting;

pub use collect::collect_frames;
pub use collect_error::CollectError;
pub use cut_error::CutError;
pub use delimiter::{Delimiter, find_delimiter, find_delimiter_behind};
pub use frame_error::FrameError;
pub use framed_read::{FramedParts, FramedRead};
pub use head::{cut_body, read_decimal, strip_return, take_body};
pub use held_frame::HeldFrame;
pub use hexadecimal::{Hexadecimal, read_hexadecimal};
pub use length_delimited::LengthDelimited;
pub use lent_frames::{Cut, Cutter, Frames, FramesError, FramesParts, Span};
pub use line_delimited::LineDelimited;
pub use make::{encode_all, send, send_all};
pub use next_frame::wait_frame;
pub use prompt_decoder::PromptDecoder;
pub use round_trip::RoundTrip;
pub use send_future::SendFuture;
pub use serve_error::ServeError;
pub use server::serve;
pub use service::{Answer, Service};
pub use steady_decoder::SteadyDecoder;
pub use waiting::{wait_send, wait_send_all};
