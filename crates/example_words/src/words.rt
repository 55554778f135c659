//! The words of a text.
ghost use Rattle.std.specs.Prelude.{◌≡◌, ◌∷◌, ◌<◌, [], MatchOption, false, length, true};
ghost use Rattle.std.specs.Char.{is_ascii_whitespace};
ghost use Rattle.std.specs.List.{position};
ghost use Rattle.example_words.specs.Words.{IsWord, words};

/// Returns the first word of a text, and what is behind it.
pub fn next_word(text: &[u8]) -> Option<(&[u8], &[u8])>
    ensures { MatchOption result (words text.now ≡ [])
        (λ r. (words text.now ≡ r.0.now ∷ words r.1.now) × (length r.1.now < length text.now)) }
{
    let text = text.trim_ascii_start();
    if text.is_empty() {
        return None;
    }
    let end = first_white(text).unwrap_or(text.len());
    Some((&text[..end], &text[end..]))
}

// Returns where the first white space is.
fn first_white(text: &[u8]) -> Option<usize>
    ensures { result ≡ position is_ascii_whitespace text.now }
{
    text.iter().position(|byte| byte.is_ascii_whitespace())
}

/// Returns whether these bytes are one word.
pub fn is_word(bytes: &[u8]) -> bool
    ensures word { result ≡ true → IsWord bytes.now }
    ensures other { result ≡ false → IsWord bytes.now → ⊥ }
{
    !bytes.is_empty() && first_white(bytes).is_none()
}
