//! Lines that end with a newline.
ghost use Rattle.std.specs.Prelude.{◌≡◌, ◌≤◌, ◌<◌, ◌↔◌, IfNone, IfOk, IfSome, IsTrue, length, take};
ghost use Rattle.bytes.specs.Filled.{Filled};
ghost use Rattle.framed.specs.Uses.{without_return};
ghost use Rattle.tokio_util.specs.Codec.Next.{Decodes};
ghost use Rattle.framed.specs.FrameErrors.{SaysOutOfMemory};
ghost use Rattle.framed.specs.LineBack.{line_back, one_line_cut};
ghost use Rattle.framed.specs.LineDelimited.{IsLongLine, IsLongLineCut, LineOf, RefusesText, gives_line_delimited, with_newline, no_line_empty};
ghost use Rattle.framed.specs.Pieces.{pieces_end, pieces_partial, pieces_prompt, pieces_stable};
ghost use Rattle.framed.specs.SteadyPieces.{SameFrame, lines_delimited_once};
ghost use Rattle.lite_base.specs.Alike.{Sameness};
ghost use Rattle.framed.specs.declared.cut_error.CutError.TheVariants as small;
ghost use Rattle.framed.specs.declared.frame_error.FrameError.TheVariants.{CutOff};

use crate::cut_error::CutError;
use crate::delimiter::{Delimiter, find_delimiter, find_delimiter_behind, first_at};
use crate::frame_error::FrameError;
use crate::prompt_decoder::PromptDecoder;
use crate::round_trip::RoundTrip;
use crate::steady_decoder::SteadyDecoder;
use bytes::BytesMut;
use lent_frames::{Cut, Cutter, Span};
use std::convert::AsSlice;
use tokio_util::codec::{Decoder, Encoder};

/// A codec for lines of bytes, each of which ends with a newline, `\n`.
///
/// It removes the newline, and one `\r` right before it. Unlike `LinesCodec` it gives no line whose newline is missing
/// when the input ends: that is the error `CutOff`. So a request that a disconnect cut short is never given.
///
/// At most `max` bytes may be before a newline, and a `\r` counts. As soon as one byte more is there and no newline, the
/// line is refused with `TooLong(max + 1)`. Nothing is taken at an error.
///
/// The decoder keeps no state. It searches an open line again when more bytes come: at most `max + 1` bytes, by one
/// `memchr`. If a peer sends a line byte by byte, that is `max * max / 2` bytes for a line. As a [`Cutter`], which
/// [`Frames`](crate::Frames) takes, it goes on behind the bytes that it has seen.
///
/// It encodes whatever has the bytes of a slice. It refuses what would not be decoded as the same line: with a newline in
/// it, with a `\r` at its end, or above the limit.
///
/// # Examples
///
/// ```
/// use bytes::BytesMut;
/// use framed::{FrameError, LineDelimited};
/// use tokio_util::codec::{Decoder, Encoder};
///
/// let mut codec = LineDelimited { max: 100 };
/// let mut bytes = BytesMut::copy_from_slice(rt.alloc(), b"one\r\ntw")?;
/// match codec.decode(&mut bytes) {
///     Ok(Some(line)) => assert_eq!(rt; line.as_slice(), b"one".as_slice()),
///     _ => return Err(Fail::from("there is a line")),
/// }
/// assert!(rt; matches!(codec.decode(&mut bytes), Ok(None)));
/// assert!(rt; matches!(codec.decode_eof(&mut bytes), Err(FrameError::CutOff)));
/// assert!(rt; matches!(codec.encode("a\nb", &mut bytes), Err(FrameError::HasNewline(1))));
/// ```
#[derive(Debug, Clone, Copy, PartialEq, Eq)]
pub struct LineDelimited {
    /// How many bytes may be before a newline at most. A `\r` before the newline counts.
    pub max: usize,
}

impl Decoder for LineDelimited {
    type Item = BytesMut;

    type Error = FrameError;

    ghost gives = { gives_line_delimited };

    ghost stable = { pieces_stable (λ c v. LineOf c v.items) IsLongLine SaysOutOfMemory (λ e. e ≡ CutOff) };

    ghost partial_has_no_frame = { pieces_partial (λ c v. LineOf c v.items) IsLongLine SaysOutOfMemory (λ e. e ≡ CutOff) };

    ghost end_is_partial = { pieces_end (λ c v. LineOf c v.items) IsLongLine SaysOutOfMemory (λ e. e ≡ CutOff) };

    #[inline(always)]
    fn decode(&mut self, src: &mut BytesMut) -> Result<Option<BytesMut>, FrameError>
        ensures next { Decodes gives_line_delimited self.old src.old.items result self.new src.new.items }
        ensures kept { IfOk result (λ r. IfNone r ((src.new.items ≡ src.old.items) × (self.new ≡ self.old))) }
    {
        let end = match find_delimiter(src.as_slice(), b'\n', self.max) {
            Delimiter::At(end) => end,
            Delimiter::Missing => return Ok(None),
            Delimiter::TooFar => return Err(FrameError::TooLong(self.max + 1)),
        };
        let mut line = src.split_to(end + 1)?;
        line.truncate(end);
        line.truncate(line_length(line.as_slice()));
        Ok(Some(line))
    }

    fn decode_eof(&mut self, src: &mut BytesMut) -> Result<Option<BytesMut>, FrameError> {
        match self.decode(src)? {
            Some(line) => Ok(Some(line)),
            None if src.is_empty() => Ok(None),
            None => Err(FrameError::CutOff),
        }
    }
}

impl<T: AsSlice<u8> + Drop> Encoder<T> for LineDelimited {
    type Error = FrameError;

    ghost encodes = { λ s item frame t. LineOf s (T.items item) frame × (frame ≡ with_newline (T.items item)) × (t ≡ s) };

    ghost refuses = { λ s item. RefusesText s (T.items item) };

    #[inline(always)]
    fn encode(&mut self, item: T, dst: &mut BytesMut) -> Result<(), FrameError> {
        let line = item.as_slice();
        if line.len() > self.max {
            return Err(FrameError::TooLong(line.len()));
        }
        if let Some(at) = first_at(line, b'\n') {
            return Err(FrameError::HasNewline(at));
        }
        if line_length(line) < line.len() {
            return Err(FrameError::EndsInReturn);
        }
        dst.reserve(line.len() + 1)?;
        dst.extend_reserved(line);
        dst.extend_reserved(b"\n");
        Ok(())
    }
}

impl PromptDecoder for LineDelimited {
    ghost prompt = { pieces_prompt (λ c v. LineOf c v.items) IsLongLine SaysOutOfMemory (λ e. e ≡ CutOff)
        (λ c v. no_line_empty c v.items) };
}

impl SteadyDecoder for LineDelimited {
    ghost lacks = { SaysOutOfMemory };

    ghost same = { Sameness.by SameFrame };

    ghost one_outcome = { lines_delimited_once };
}

impl Cutter for LineDelimited {
    type Error = CutError;

    ghost piece = { LineOf };

    ghost refuses = { IsLongLineCut };

    ghost cut_off = { λ _ _ e. e ≡ small.CutOff };

    #[inline(always)]
    fn cut(&self, bytes: &[u8], seen: usize) -> Cut<CutError> {
        match find_delimiter_behind(bytes, b'\n', self.max, seen) {
            Delimiter::At(at) => Cut::Whole(Span {
                from: 0,
                to: line_length(&bytes[..at]),
                size: at + 1,
            }),
            Delimiter::Missing => Cut::More(bytes.len() + 1),
            Delimiter::TooFar => Cut::Refused(CutError::TooLong(self.max + 1)),
        }
    }

    fn at_end(&self, bytes: &[u8]) -> CutError {
        CutError::CutOff
    }

    ghost one = { one_line_cut };

    ghost some = { no_line_empty };
}

impl<T: AsSlice<u8> + Drop> RoundTrip<T> for LineDelimited {
    type Decoder = LineDelimited;

    ghost readable = { λ c _ d. c.max ≤ d.max };

    ghost means = { λ item line. line.items ≡ T.items item };

    ghost back = { line_back T.items };
}

// Returns how many bytes a text has without the `\r` that may end it.
#[inline(always)]
fn line_length(text: &[u8]) -> usize
    ensures line { take result text.now ≡ without_return text.now }
    ensures within { result ≤ length text.now }
{
    match text.last() {
        Some(b'\r') => text.len() - 1,
        _ => text.len(),
    }
}
