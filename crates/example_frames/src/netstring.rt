//! Netstrings, as a codec of one's own.
ghost use Rattle.std.specs.Prelude.{◌≡◌, ◌≤◌, IfNone, IfOk};
ghost use Rattle.framed.specs.HeadCuts.{RefusesHeadedCut, headed_one, headed_some};
ghost use Rattle.framed.specs.Heads.{HeadedFrame, gives_headed, headed_end, headed_partial, headed_prompt, headed_stable};
ghost use Rattle.framed.specs.HeadsBack.{headed_back};
ghost use Rattle.framed.specs.declared.CutError.TheVariants.{CutOff};
ghost use Rattle.tokio_util.specs.Codec.Next.{Decodes};
ghost use Rattle.example_frames.specs.Netstring.{RefusesNetstring, netstring, says_more, same_longest};

use bytes::BytesMut;
use framed::{
    Cut, CutError, Cutter, Delimiter, FrameError, PromptDecoder, RoundTrip, cut_body,
    find_delimiter, read_decimal, take_body,
};
use std::convert::AsSlice;
use tokio_util::codec::{Decoder, Encoder};

/// The longest number of a `usize` has so many digits.
const DIGITS: usize = 20;

/// A codec for netstrings: the number of the bytes in decimal digits, `:`, the bytes, and `,`.
#[derive(Debug, Clone, Copy)]
pub struct Netstring {
    /// How many bytes a string may have at most.
    pub max: usize,
}

impl Decoder for Netstring {
    type Item = BytesMut;

    type Error = FrameError;

    ghost gives = { gives_headed netstring };

    ghost stable = { headed_stable netstring };

    ghost partial_has_no_frame = { headed_partial netstring };

    ghost end_is_partial = { headed_end netstring };

    fn decode(&mut self, src: &mut BytesMut) -> Result<Option<BytesMut>, FrameError>
        ensures next { Decodes (gives_headed netstring) self.old src.old.items result self.new src.new.items }
        ensures kept { IfOk result (λ r. IfNone r ((src.new.items ≡ src.old.items) × (self.new ≡ self.old))) }
    {
        let at = match find_delimiter(src.as_slice(), b':', DIGITS) {
            Delimiter::At(at) => at,
            Delimiter::Missing => return Ok(None),
            Delimiter::TooFar => return Err(FrameError::Malformed),
        };
        let Some(length) = read_decimal(&src.as_slice()[..at]) else {
            return Err(FrameError::Malformed);
        };
        if length > self.max {
            return Err(FrameError::TooLong(length));
        }
        take_body(src, at + 1, length, b",")
    }

    fn decode_eof(&mut self, src: &mut BytesMut) -> Result<Option<BytesMut>, FrameError> {
        match self.decode(src)? {
            Some(string) => Ok(Some(string)),
            None if src.is_empty() => Ok(None),
            None => Err(FrameError::CutOff),
        }
    }
}

impl PromptDecoder for Netstring {
    ghost prompt = { headed_prompt netstring };
}

impl Cutter for Netstring {
    type Error = CutError;

    ghost piece = { HeadedFrame netstring };

    ghost refuses = { RefusesHeadedCut netstring };

    ghost cut_off = { λ _ _ e. e ≡ CutOff };

    fn cut(&self, bytes: &[u8], seen: usize) -> Cut<CutError> {
        let at = match find_delimiter(bytes, b':', DIGITS) {
            Delimiter::At(at) => at,
            Delimiter::Missing => return Cut::More(bytes.len() + 1),
            Delimiter::TooFar => return Cut::Refused(CutError::Malformed),
        };
        let Some(length) = read_decimal(&bytes[..at]) else {
            return Cut::Refused(CutError::Malformed);
        };
        if self.max < length {
            return Cut::Refused(CutError::TooLong(length));
        }
        cut_body(bytes, at + 1, length, b",")
    }

    fn at_end(&self, bytes: &[u8]) -> CutError {
        CutError::CutOff
    }

    ghost one = { headed_one netstring };

    ghost some = { headed_some netstring };
}

impl<T: AsSlice<u8> + Drop> Encoder<T> for Netstring {
    type Error = FrameError;

    ghost encodes = { λ s item frame t. HeadedFrame netstring s (T.items item) frame × (t ≡ s) };

    ghost refuses = { λ s item spare e. RefusesNetstring s (T.items item) spare e };

    fn encode(&mut self, item: T, dst: &mut BytesMut) -> Result<(), FrameError> {
        let string = item.as_slice();
        if string.len() > self.max {
            return Err(FrameError::TooLong(string.len()));
        }
        let mut digits = itoa::Buffer::new();
        let head = digits.format(string.len());
        dst.reserve(head.len() + string.len() + 2)?;
        dst.extend_reserved(head.as_bytes());
        dst.extend_reserved(b":");
        dst.extend_reserved(string);
        dst.extend_reserved(b",");
        Ok(())
    }
}

impl<T: AsSlice<u8> + Drop> RoundTrip<T> for Netstring {
    type Decoder = Netstring;

    ghost readable = { λ c _ d. c.max ≤ d.max };

    ghost means = { λ item string. string.items ≡ T.items item };

    ghost back = { headed_back netstring T.items _ (λ c d. c.max ≤ d.max) (λ c x frame b is. is) same_longest says_more };
}
