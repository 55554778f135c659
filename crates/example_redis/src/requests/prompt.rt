//! A request is given at its last byte.
ghost use Rattle.example_redis.specs.Laws.Prompt.{requests_prompt};

use super::Requests;
use framed::PromptDecoder;

impl PromptDecoder for Requests {
    ghost prompt = { requests_prompt };
}
