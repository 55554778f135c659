//! Decoders that give a frame at its last byte.
ghost use Rattle.std.specs.Prelude.{ℕ};
ghost use Rattle.framed.specs.Prompt.{PromptLaws};

use tokio_util::codec::Decoder;

/// A decoder that gives a frame as soon as its last byte is there.
///
/// [`FramedRead`](crate::FramedRead) needs that to take no byte behind a frame from its reader. The trait has
/// no function of its own to write. It has four laws:
///
/// - `alone`: a frame is a front of the bytes, and the decoder gives it of these bytes alone.
/// - `owed`: a frame of no bytes lowers `owes`, so the decoder gives finitely many of them.
/// - `waits`: a decoder that needs more bytes owes no frame.
/// - `last`: a frame that is given only because the input ends takes bytes.
///
/// A codec of your own implements `Decoder` and this trait, and for replies `Encoder`. If the frames of its
/// encoder are to be read back, it also implements [`RoundTrip`](crate::RoundTrip).
pub trait PromptDecoder: Decoder {
    /// How many frames the decoder may give of no bytes.
    ghost owes: { Self → ℕ } = { λ _. 0 };

    /// Does nothing. The trait is its laws, which stand below a function.
    fn is_prompt(&self) {}

    ghost prompt: { PromptLaws Self.gives owes };
}
