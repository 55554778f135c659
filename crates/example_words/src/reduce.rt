//! Counts become sums.
ghost use Rattle.std.specs.Prelude.{◌≡◌, ◌∷◌, ◌++◌, ◌<◌, [], IfErr, IfOk, List, OnOk};
ghost use Rattle.example_words.specs.Records.{Counted, TableSoFar, record_line, record_lines};
ghost use Rattle.example_words.specs.Refusals.{RefusedLine};
ghost use Rattle.example_words.specs.Runs.{ReduceStops, Reduces};

use crate::fault::{LineError, WordsError};
use crate::input::read_line;
use crate::output::{write, write_last};
use crate::record::parse_record;
use crate::sum::Sum;
use futures_lite::AsyncWrite;
use futures_lite::future::Waits;
use futures_lite::io::{AsyncBufRead, CountedRead};
use std::alloc::AllocGlobal;
use std::sync::Wait;

/// Reads records to the end of the input, sorted by word, and writes a line for each word with the sum of its counts.
///
/// # Errors
///
/// The input or the output failed, memory was refused, or a line was refused (`ReduceStops`). The error of a line names the
/// last one read. If the output failed, it took a prefix of the lines of the sums. At any other error the sums of all words
/// but the last were written, and not flushed.
pub fn reduce<R, T, O>(
    waits: &mut Waits<'_>,
    rt: &R,
    reader: &mut T,
    output: &mut O,
) -> Result<(), WordsError>
where
    R: Wait + AllocGlobal,
    T: AsyncBufRead + CountedRead,
    O: AsyncWrite,
    requires counts { T.ranks.counts reader.old }
    ensures written { IfOk result (λ _. Reduces T.reads O.writes reader.old output.old reader.new output.new) }
    ensures stopped { IfErr result (λ e. ReduceStops T.reads O.writes reader.old output.old e reader.new output.new) }
{
    let mut sum = Sum::new(rt.alloc());
    let mut line = Vec::new(rt.alloc());
    let mut text = Vec::new(rt.alloc());
    let mut number: u64 = 0;
    for _ in rt.forever() {
        read_line(waits, rt, reader, &mut line)?;
        text.clear();
        if line.is_empty() {
            sum.finish(&mut text)?;
            return write_last(waits, rt, output, &text);
        }
        number = number.saturating_add(1);
        if let Err(e) = add_line(&mut sum, &line, &mut text) {
            return Err(WordsError::Line(number, e));
        }
        write(waits, rt, output, &text)?;
    }
    unreachable!()
}

// Adds the record of a line to the sum. If it begins another word, the line of the word before is appended to `text`.
fn add_line(sum: &mut Sum, line: &[u8], text: &mut Vec<u8>) -> Result<(), LineError>
    ensures added { OnOk result ((r : Counted) × (line.now ≡ record_line r) × (more : List Counted)
        × (text.new.items ≡ text.old.items ++ record_lines more) × ((done read : List Counted)
        → TableSoFar done sum.old.word.items sum.old.count read → TableSoFar (done ++ more) sum.new.word.items sum.new.count (read ++ r ∷ []))) }
    ensures refused { IfErr result (λ e. RefusedLine sum.old.word.items sum.old.count line.now e) }
{
    sum.add(parse_record(line)?, text)
}
