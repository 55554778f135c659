//! The kit's lines are given at their newline.
ghost use Rattle.std.specs.Prelude.{◌≡◌, string_bytes};
ghost use Rattle.framed.specs.LinesBack.{ReadsLines, lines_back};
ghost use Rattle.framed.specs.LinesCodec.{lines_prompt};
ghost use Rattle.framed.specs.SteadyLines.{LacksLine, SameLine, lines_once};
ghost use Rattle.lite_base.specs.Alike.{Sameness};

use crate::prompt_decoder::PromptDecoder;
use crate::round_trip::RoundTrip;
use crate::steady_decoder::SteadyDecoder;
use std::convert::AsStr;
use tokio_util::codec::LinesCodec;

impl PromptDecoder for LinesCodec {
    ghost prompt = { lines_prompt };
}

impl SteadyDecoder for LinesCodec {
    ghost lacks = { LacksLine };

    ghost same = { Sameness.by SameLine };

    ghost one_outcome = { lines_once };
}

impl<T: AsStr + Drop> RoundTrip<T> for LinesCodec {
    type Decoder = LinesCodec;

    ghost readable = { ReadsLines T.text };

    ghost means = { λ item line. string_bytes line ≡ T.text item };

    ghost back = { lines_back T.text };
}
