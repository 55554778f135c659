//! A word and its count as a line.
ghost use Rattle.std.specs.Prelude.{◌≡◌, ◌≢◌, ◌∷◌, ◌++◌, ◌<◌, [], IfErr, IfOk, List, MatchBool, MatchOption, OnOk, decimal, ℕ};
ghost use Rattle.std.specs.Str.Parse.{IsNumeral};
ghost use Rattle.futures_lite.specs.Readers.{Without};
ghost use Rattle.example_words.specs.Records.{record_line};
ghost use Rattle.example_words.specs.Refusals.{RefusedCount, RefusedRecord};
ghost use Rattle.example_words.specs.Words.{IsWord};

use crate::fault::LineError;
use crate::words::is_word;
use itoa::Buffer;
use std::alloc::AllocError;

/// A word, and how often it was counted.
#[derive(Debug, Clone, Copy, PartialEq, Eq)]
pub struct Record<'a> {
    /// Its bytes.
    pub word: &'a [u8],
    /// How often it was counted, at least once.
    pub count: u64,
}

/// Appends the line of a word and its count. It fails only if memory was refused.
pub fn push_record(text: &mut Vec<u8>, word: &[u8], count: u64) -> Result<(), AllocError>
    ensures { OnOk result (text.new.items ≡ text.old.items ++ record_line (word.now, count)) }
{
    let mut buffer = Buffer::new();
    text.extend_from_slice(word)?;
    text.extend_from_slice(b"\t")?;
    text.extend_from_slice(buffer.format(count).as_bytes())?;
    text.extend_from_slice(b"\n")
}

/// Returns the record of a line, which has its newline.
///
/// # Errors
///
/// The line has no newline, no tab, no word before its first tab, or no count behind it.
#[tactic(auto, using(crate::specs::Laws::record_cut))]
pub fn parse_record(line: &[u8]) -> Result<Record<'_>, LineError>
    ensures line { IfOk result (λ r. line.now ≡ record_line (r.word.now, r.count)) }
    ensures word { IfOk result (λ r. IsWord r.word.now) }
    ensures positive { IfOk result (λ r. 0 < r.count) }
    ensures refused { IfErr result (λ e. RefusedRecord line.now e) }
{
    let Some(record) = without_newline(line) else {
        return Err(LineError::CutOff);
    };
    let Some((word, digits)) = split_at_tab(record) else {
        return Err(LineError::NoTab);
    };
    if !is_word(word) {
        return Err(LineError::NoWord);
    }
    let count = parse_count(digits)?;
    Ok(Record { word, count })
}

// Returns what is before the newline at the end of the line.
fn without_newline(line: &[u8]) -> Option<&[u8]>
    ensures { MatchOption result ((front : List ℕ) → line.now ≢ front ++ 10 ∷ []) (λ front. line.now ≡ front.now ++ 10 ∷ []) }
{
    line.strip_suffix(b"\n")
}

// Returns what is before the first tab, and what is behind it.
fn split_at_tab(text: &[u8]) -> Option<(&[u8], &[u8])>
    ensures { MatchOption result (Without 9 text.now) (λ r. (text.now ≡ r.0.now ++ 9 ∷ r.1.now) × Without 9 r.0.now) }
{
    let tab = text.iter().position(|byte| *byte == b'\t')?;
    Some((&text[..tab], &text[tab + 1..]))
}

// Returns the count that these digits are, if it is written as `push_record` writes it, and not 0.
fn parse_count(digits: &[u8]) -> Result<u64, LineError>
    ensures count { IfOk result (λ n. (digits.now ≡ decimal n) × (0 < n)) }
    ensures refused { IfErr result (λ e. RefusedCount digits.now e) }
{
    let Ok(text) = str::from_utf8(digits) else {
        return Err(LineError::NoCount);
    };
    let count = match text.parse::<u64>() {
        Ok(count) => count,
        Err(_) if is_number(digits) => return Err(LineError::TooLarge),
        Err(_) => return Err(LineError::NoCount),
    };
    let mut buffer = Buffer::new();
    if count > 0 && buffer.format(count).as_bytes() == digits {
        Ok(count)
    } else {
        Err(LineError::NoCount)
    }
}

// Returns whether these bytes are decimal digits, and at least one.
fn is_number(bytes: &[u8]) -> bool
    ensures { MatchBool result (IsNumeral 10 bytes.now) (IsNumeral 10 bytes.now → ⊥) }
{
    !bytes.is_empty() && bytes.iter().all(|byte| byte.is_ascii_digit())
}
