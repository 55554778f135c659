//! How often each word was counted.
ghost use Rattle.std.specs.Prelude.{◌≡◌, ◌+◌, ◌<◌, [], IfErr, IfOk, List, OnOk, if◌then◌else◌, map, ℕ};
ghost use Rattle.std.specs.Cmp.Lexicographic.{slice_cmp};
ghost use Rattle.std.specs.List.{All};
ghost use Rattle.std.specs.List.Sorted.{IsStrictlySortedBy};
ghost use Rattle.std.specs.Ordering.{nat_cmp};
ghost use Rattle.std.specs.Str.{bytes_eq};
ghost use Rattle.example_words.specs.Words.{occurrences};
ghost use Rattle.example_words.specs.Records.{counted_records, record_lines, total_count};
ghost use Rattle.example_words.specs.Refusals.{RefusedWord, RefusedWords};

use crate::fault::LineError;
use crate::record::push_record;
use crate::words::next_word;
use std::alloc::{AllocError, Global};
use std::collections::BTreeMap;

/// A count for each word, sorted by the words' bytes.
#[derive(Drop)]
pub struct Counts {
    alloc: Global,
    counts: BTreeMap<Vec<u8>, u64>,
}

impl Counts {
    /// Returns counts of no words.
    pub fn new(alloc: Global) -> Counts
        ensures { counted_records result ≡ [] }
    {
        Counts {
            alloc,
            counts: BTreeMap::new(alloc),
        }
    }

    /// Counts each word of a line.
    ///
    /// # Errors
    ///
    /// A count passes 64 bits, or memory for a new word was refused. Words before it are counted.
    pub fn add_line(&mut self, line: &[u8]) -> Result<(), LineError>
        ensures counts { OnOk result ((w : List ℕ) →
            total_count (counted_records self.new) w ≡ total_count (counted_records self.old) w + occurrences line.now w) }
        ensures positive { OnOk result (All (λ r. 0 < r.1) (counted_records self.old) → All (λ r. 0 < r.1) (counted_records self.new)) }
        ensures refused { IfErr result (λ e. RefusedWords (total_count (counted_records self.old)) line.now e) }
    {
        let mut rest = line;
        while let Some((word, behind)) = next_word(rest) {
            self.add(word)?;
            rest = behind;
        }
        Ok(())
    }

    // Counts a word once more. Nothing is allocated for a word that was counted before.
    fn add(&mut self, word: &[u8]) -> Result<(), LineError>
        ensures counts { OnOk result ((w : List ℕ) →
            total_count (counted_records self.new) w ≡ total_count (counted_records self.old) w + (if bytes_eq w word.now then 1 else 0)) }
        ensures positive { OnOk result (All (λ r. 0 < r.1) (counted_records self.old) → All (λ r. 0 < r.1) (counted_records self.new)) }
        ensures refused { IfErr result (λ e. RefusedWord (total_count (counted_records self.old) word.now) e) }
    {
        if let Some(count) = self.counts.get_mut(word) {
            let Some(more) = count.checked_add(1) else {
                return Err(LineError::TooLarge);
            };
            *count = more;
            return Ok(());
        }
        let key = Vec::from_slice(self.alloc, word)?;
        match self.counts.insert(key, 1) {
            Ok(_) => Ok(()),
            Err(_) => Err(LineError::Memory),
        }
    }

    /// Returns the text of the counts, a line for each word.
    pub fn text(&self) -> Result<Vec<u8>, AllocError>
        ensures lines { IfOk result (λ text. text.items ≡ record_lines (counted_records self.now)) }
        ensures sorted { IfOk result (λ _. IsStrictlySortedBy (slice_cmp nat_cmp) (map (λ r. r.0) (counted_records self.now))) }
    {
        let mut text = Vec::new(self.alloc);
        for (word, count) in self.counts.iter() {
            push_record(&mut text, word, *count)?;
        }
        Ok(text)
    }
}
