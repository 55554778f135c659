//! Words become counts.
ghost use Rattle.std.specs.Prelude.{IfErr, IfOk};
ghost use Rattle.example_words.specs.Runs.{CountStops, HasCounted, MapStops, MapsText};

use crate::counts::Counts;
use crate::fault::WordsError;
use crate::input::read_line;
use crate::output::write_last;
use futures_lite::AsyncWrite;
use futures_lite::future::Waits;
use futures_lite::io::{AsyncBufRead, CountedRead};
use std::alloc::AllocGlobal;
use std::sync::Wait;

/// Reads a text to its end, and writes a line for each word of it, with how often it is there.
///
/// # Errors
///
/// The input or the output failed, memory was refused, or a count passes 64 bits (`MapStops`). The error of a line names the
/// last one read. If the output failed, it took a prefix of the lines. At any other error nothing was written.
pub fn map<R, T, O>(
    waits: &mut Waits<'_>,
    rt: &R,
    reader: &mut T,
    output: &mut O,
) -> Result<(), WordsError>
where
    R: Wait + AllocGlobal,
    T: AsyncBufRead + CountedRead,
    O: AsyncWrite,
    requires counts { T.ranks.counts reader.old }
    ensures written { IfOk result (λ _. MapsText T.reads O.writes reader.old output.old reader.new output.new) }
    ensures stopped { IfErr result (λ e. MapStops T.reads O.writes reader.old output.old e reader.new output.new) }
{
    let counts = count_words(waits, rt, reader)?;
    let text = counts.text()?;
    write_last(waits, rt, output, &text)
}

// Counts the words of a text, which is read to its end.
fn count_words<R, T>(waits: &mut Waits<'_>, rt: &R, reader: &mut T) -> Result<Counts, WordsError>
where
    R: Wait + AllocGlobal,
    T: AsyncBufRead + CountedRead,
    requires counts { T.ranks.counts reader.old }
    ensures counted { IfOk result (λ counts. HasCounted T.reads reader.old counts reader.new) }
    ensures stopped { IfErr result (λ e. CountStops T.reads reader.old e reader.new) }
{
    let mut counts = Counts::new(rt.alloc());
    let mut line = Vec::new(rt.alloc());
    let mut number: u64 = 0;
    for _ in rt.forever() {
        let more = read_line(waits, rt, reader, &mut line)?;
        number = number.saturating_add(1);
        if let Err(e) = counts.add_line(&line) {
            return Err(WordsError::Line(number, e));
        }
        if !more {
            return Ok(counts);
        }
    }
    unreachable!()
}
