//! Decoders whose frames do not depend on how the bytes are cut.
ghost use Rattle.std.specs.Prelude.{Result};
ghost use Rattle.framed.specs.SteadyFrames.{OneOutcome};
ghost use Rattle.lite_base.specs.Alike.{Sameness};

use crate::prompt_decoder::PromptDecoder;

/// A decoder that finds at most one frame or error in any bytes.
///
/// The frames of a [`FramedRead`](crate::FramedRead) by such a decoder do not depend on when its reader was pending, nor
/// on how the bytes came, unless memory was refused: it is a `SteadyStream`. The trait has no function of its own to
/// write. [`LengthDelimited`](crate::LengthDelimited), [`LineDelimited`](crate::LineDelimited) and `LinesCodec` of
/// `tokio_util` have it. `BytesCodec` does not, because its frames are the chunks that the reader shows.
pub trait SteadyDecoder: PromptDecoder {
    /// The errors that say that memory was refused.
    ghost lacks: { Self.Error → Type 0 };

    /// When two items are the same: frames with the same bytes are, and errors of one kind.
    ghost same: { Sameness (Result Self.Item Self.Error) };

    /// Does nothing. The trait is its law, which stands below a function.
    fn finds_one(&self) {}

    ghost one_outcome: { OneOutcome Self.gives Self.Error.from_gives lacks same };
}
