//! The sum of the counts of one word.
ghost use Rattle.std.specs.Prelude.{◌≡◌, ◌∷◌, ◌++◌, ◌<◌, [], IfErr, List, OnOk};
ghost use Rattle.example_words.specs.Records.{Counted, TableSoFar, pending, record_lines};
ghost use Rattle.example_words.specs.Refusals.{RefusedSum};

use crate::fault::LineError;
use crate::record::{Record, push_record};
use std::alloc::{AllocError, Global};
use std::cmp::Ordering;

/// The word of the last record, and the sum of its counts. The sum is 0 before the first record.
#[derive(Drop)]
pub struct Sum {
    word: Vec<u8>,
    count: u64,
}

impl Sum {
    /// Returns the sum before the first record.
    pub fn new(alloc: Global) -> Sum
        ensures { pending result ≡ [] }
    {
        Sum {
            word: Vec::new(alloc),
            count: 0,
        }
    }

    /// Adds the next record. If it begins another word, the line of the word before is appended to `text`.
    ///
    /// # Errors
    ///
    /// The word is less than the one before it, the sum passes 64 bits, or memory was refused.
    pub fn add(&mut self, next: Record<'_>, text: &mut Vec<u8>) -> Result<(), LineError>
        ensures added { OnOk result ((more : List Counted) × (text.new.items ≡ text.old.items ++ record_lines more)
            × ((done read : List Counted) → 0 < next.entry.count → TableSoFar done self.old.word.items self.old.count read
            → TableSoFar (done ++ more) self.new.word.items self.new.count (read ++ (next.entry.word.now, next.entry.count) ∷ []))) }
        ensures refused { IfErr result (λ e. RefusedSum self.old.word.items self.old.count (next.entry.word.now, next.entry.count) e) }
    {
        if self.count > 0 {
            match next.word.cmp(self.word.as_slice()) {
                Ordering::Less => return Err(LineError::OutOfOrder),
                Ordering::Equal => {
                    let Some(count) = self.count.checked_add(next.count) else {
                        return Err(LineError::TooLarge);
                    };
                    self.count = count;
                    return Ok(());
                }
                Ordering::Greater => push_record(text, &self.word, self.count)?,
            }
        }
        self.word.clear();
        self.word.extend_from_slice(next.word)?;
        self.count = next.count;
        Ok(())
    }

    /// Appends the line of the word to `text`, if there was a record. It fails only if memory was refused.
    pub fn finish(&self, text: &mut Vec<u8>) -> Result<(), AllocError>
        ensures { OnOk result (text.new.items ≡ text.old.items ++ record_lines (pending self.now)) }
    {
        if self.count == 0 {
            return Ok(());
        }
        push_record(text, &self.word, self.count)
    }
}
