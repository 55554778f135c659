//! What a line is.
ghost use Rattle.std.specs.Prelude.{◌≡◌, None, Some, IfErr, IfOk, IsUtf8};
ghost use Rattle.example_pipeline.specs.Pipeline.{IsBadLine, line_number};

use crate::fault::Cause;

/// Returns the number of a line, if it is digits alone, which a plus may begin, and fits 64 bits.
#[tactic(auto, using(crate::specs::Laws::number_utf8))]
pub fn number(line: &[u8]) -> Result<u64, Cause>
    ensures number { IfOk result (λ n. line_number line.now ≡ Some n) }
    ensures bad { IfErr result (λ e. (line_number line.now ≡ None) × IsBadLine line.now e) }
{
    let Ok(text) = str::from_utf8(line) else {
        return Err(Cause::NotUtf8);
    };
    match text_number(text) {
        Some(n) => Ok(n),
        None => Err(Cause::NotANumber),
    }
}

// Returns the number of a text.
#[tactic(auto, using(crate::specs::Laws::digits_number_some, crate::specs::Laws::digits_number_none))]
fn text_number(text: &str) -> Option<u64>
    ensures { result ≡ line_number text.now }
{
    match text.parse::<u64>() {
        Ok(n) => Some(n),
        Err(_) => None,
    }
}
