//! Frames with the number of their bytes before them.
ghost use Rattle.std.specs.Prelude.{◌≡◌, ◌≤◌, ◌<◌, ◌^◌, IfNone, IfOk, length, take};
ghost use Rattle.bytes.specs.Filled.{Filled};
ghost use Rattle.tokio_util.specs.Codec.Next.{Decodes};
ghost use Rattle.framed.specs.FrameErrors.{SaysOutOfMemory};
ghost use Rattle.framed.specs.LengthDelimited.{FrameOf, IsTooLong, IsTooLongCut, RefusesPayload, gives_delimited, length_header, no_frame_empty};
ghost use Rattle.framed.specs.DelimitedBack.{delimited_back, one_frame_cut};
ghost use Rattle.framed.specs.Pieces.{pieces_end, pieces_partial, pieces_prompt, pieces_stable};
ghost use Rattle.framed.specs.SteadyPieces.{SameFrame, delimited_once};
ghost use Rattle.lite_base.specs.Alike.{Sameness};
ghost use Rattle.framed.specs.declared.cut_error.CutError.TheVariants as small;
ghost use Rattle.framed.specs.declared.frame_error.FrameError.TheVariants.{CutOff};

use crate::cut_error::CutError;
use crate::frame_error::FrameError;
use crate::prompt_decoder::PromptDecoder;
use crate::round_trip::RoundTrip;
use crate::steady_decoder::SteadyDecoder;
use bytes::BytesMut;
use lent_frames::{Cut, Cutter, Span};
use std::convert::AsSlice;
use tokio_util::codec::{Decoder, Encoder};

/// A codec for frames of bytes: the number of the bytes in four bytes, the highest first, and then the bytes.
///
/// It is the default layout of `tokio_util`'s `LengthDelimitedCodec`, with a limit. It encodes whatever has the
/// bytes of a slice.
///
/// # Examples
///
/// ```
/// use bytes::BytesMut;
/// use framed::LengthDelimited;
/// use tokio_util::codec::{Decoder, Encoder};
///
/// let mut codec = LengthDelimited { max: 100 };
/// let mut bytes = BytesMut::new(rt.alloc());
/// if codec.encode("hi", &mut bytes).is_err() {
///     return Err(Fail::from("two bytes are allowed"));
/// }
/// assert_eq!(rt; bytes.as_slice(), b"\0\0\0\x02hi".as_slice());
/// match codec.decode(&mut bytes) {
///     Ok(Some(frame)) => assert_eq!(rt; frame.as_slice(), b"hi".as_slice()),
///     _ => return Err(Fail::from("there is a frame")),
/// }
/// ```
#[derive(Debug, Clone, Copy, PartialEq, Eq)]
pub struct LengthDelimited {
    /// How many bytes a frame may have at most, without the four before it.
    pub max: u32,
}

impl Decoder for LengthDelimited {
    type Item = BytesMut;

    type Error = FrameError;

    ghost gives = { gives_delimited };

    ghost stable = { pieces_stable (λ c v. FrameOf c v.items) IsTooLong SaysOutOfMemory (λ e. e ≡ CutOff) };

    ghost partial_has_no_frame = { pieces_partial (λ c v. FrameOf c v.items) IsTooLong SaysOutOfMemory (λ e. e ≡ CutOff) };

    ghost end_is_partial = { pieces_end (λ c v. FrameOf c v.items) IsTooLong SaysOutOfMemory (λ e. e ≡ CutOff) };

    fn decode(&mut self, src: &mut BytesMut) -> Result<Option<BytesMut>, FrameError>
        ensures next { Decodes gives_delimited self.old src.old.items result self.new src.new.items }
        ensures kept { IfOk result (λ r. IfNone r ((src.new.items ≡ src.old.items) × (self.new ≡ self.old))) }
    {
        if src.len() < 4 {
            return Ok(None);
        }
        let length = length_of(src.as_slice());
        if length > self.max {
            return Err(FrameError::TooLong(length as usize));
        }
        let end = 4 + length as usize;
        if src.len() < end {
            return Ok(None);
        }
        let mut frame = src.split_to(end)?;
        frame.advance(4);
        Ok(Some(frame))
    }

    fn decode_eof(&mut self, src: &mut BytesMut) -> Result<Option<BytesMut>, FrameError> {
        match self.decode(src)? {
            Some(frame) => Ok(Some(frame)),
            None if src.is_empty() => Ok(None),
            None => Err(FrameError::CutOff),
        }
    }
}

impl<T: AsSlice<u8> + Drop> Encoder<T> for LengthDelimited {
    type Error = FrameError;

    ghost encodes = { λ s item frame t. FrameOf s (T.items item) frame × (t ≡ s) };

    ghost refuses = { λ s item. RefusesPayload s (length (T.items item)) };

    fn encode(&mut self, item: T, dst: &mut BytesMut) -> Result<(), FrameError> {
        let payload = item.as_slice();
        if payload.len() > self.max as usize {
            return Err(FrameError::TooLong(payload.len()));
        }
        let length = payload.len() as u32;
        dst.reserve(4 + payload.len())?;
        dst.extend_reserved(&length.to_be_bytes());
        dst.extend_reserved(payload);
        Ok(())
    }
}

impl PromptDecoder for LengthDelimited {
    ghost prompt = { pieces_prompt (λ c v. FrameOf c v.items) IsTooLong SaysOutOfMemory (λ e. e ≡ CutOff)
        (λ c v. no_frame_empty c v.items) };
}

impl SteadyDecoder for LengthDelimited {
    ghost lacks = { SaysOutOfMemory };

    ghost same = { Sameness.by SameFrame };

    ghost one_outcome = { delimited_once };
}

impl Cutter for LengthDelimited {
    type Error = CutError;

    ghost piece = { FrameOf };

    ghost refuses = { IsTooLongCut };

    ghost cut_off = { λ _ _ e. e ≡ small.CutOff };

    #[inline(always)]
    fn cut(&self, bytes: &[u8], seen: usize) -> Cut<CutError> {
        if bytes.len() < 4 {
            return Cut::More(4);
        }
        let payload = length_of(bytes);
        if payload > self.max {
            return Cut::Refused(CutError::TooLong(payload as usize));
        }
        let size = 4 + payload as usize;
        if bytes.len() < size {
            return Cut::More(size);
        }
        Cut::Whole(Span {
            from: 4,
            to: size,
            size,
        })
    }

    fn at_end(&self, bytes: &[u8]) -> CutError {
        CutError::CutOff
    }

    ghost one = { one_frame_cut };

    ghost some = { no_frame_empty };
}

impl<T: AsSlice<u8> + Drop> RoundTrip<T> for LengthDelimited {
    type Decoder = LengthDelimited;

    ghost readable = { λ c _ d. c.max ≤ d.max };

    ghost means = { λ item frame. frame.items ≡ T.items item };

    ghost back = { delimited_back T.items };
}

// The number in the first four bytes.
fn length_of(head: &[u8]) -> u32
    requires { 4 ≤ length head.now }
    ensures number { take 4 head.now ≡ length_header result }
    ensures small { result < 2 ^ 32 }
{
    u32::from_be_bytes([head[0], head[1], head[2], head[3]])
}
