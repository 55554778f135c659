//! Encoders whose frames come back.
ghost use Rattle.std.specs.Prelude.{List};
ghost use Rattle.framed.specs.RoundTrip.{RoundTripLaws};

use crate::prompt_decoder::PromptDecoder;
use tokio_util::codec::Encoder;

/// An encoder whose frames a decoder reads back as the items.
///
/// [`LengthDelimited`](crate::LengthDelimited), [`LineDelimited`](crate::LineDelimited) and `LinesCodec` of
/// `tokio_util` are such encoders. By `LinesCodec` a line comes back if it is UTF-8 within the decoder's limit, has
/// no newline, and does not end with a carriage return. The trait has no function of its own to write. It has two
/// laws:
///
/// - `back`: of an item's frame, whatever bytes follow it, the decoder gives the item. It leaves the bytes that
///   follow. If it returns an error, memory was refused.
/// - `nothing`: of no bytes it gives no frame.
pub trait RoundTrip<X>: Encoder<X> {
    /// The type of the decoder that reads the frames.
    type Decoder: PromptDecoder;

    /// The decoder can read back what the encoder writes for these items.
    ghost readable: { Self → List X → Self.Decoder → Type 0 };

    /// The frame that the decoder gives is this item.
    ghost means: { X → Self.Decoder.Item → Type 0 };

    /// Does nothing. The trait is its laws, which stand below a function.
    fn is_round_trip(&self) {}

    ghost back: { RoundTripLaws Self.encodes Self.Decoder.gives Self.Decoder.Error.from_gives readable means };
}
