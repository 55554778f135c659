//! The kit's pieces of bytes are given as they are.
ghost use Rattle.framed.specs.BytesCodec.{chunks_prompt};

use crate::prompt_decoder::PromptDecoder;
use tokio_util::codec::BytesCodec;

impl PromptDecoder for BytesCodec {
    ghost prompt = { chunks_prompt };
}
