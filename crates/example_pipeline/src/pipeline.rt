//! Lines become numbers, numbers become sums, and sums become text.
ghost use Rattle.std.specs.Prelude.{◌≡◌, ◌++◌, ◌∷◌, [], IfErr, IfOk, List, option_to_list, ℕ};
ghost use Rattle.example_pipeline.specs.Pipeline.{HoldsWindow, SumPasses, full_sums, if_even, last_sums, text_of_sums};
ghost use Rattle.example_pipeline.specs.Runs.{AddFails, AddsLines, AddsLine, AddsUpTo, EndFails, EndsOutput, IsReading, RunStops, SumsWhole};
ghost use Rattle.example_pipeline.specs.Runs.{FailsOutput, FailsTaking, TakesFlush, TakesFlushed, TakesWholeText};
ghost use Rattle.example_pipeline.specs.declared.fault.Cause.TheVariants.{Overflow};

use crate::fault::{Cause, PipelineError};
use crate::input::{read_line, without_end};
use crate::number::number;
use crate::output::{flush, write_sum};
use crate::sums::Sums;
use futures_lite::AsyncWrite;
use futures_lite::future::Waits;
use futures_lite::io::{AsyncBufRead, CountedRead};
use std::alloc::AllocGlobal;
use std::io;
use std::io::ErrorKind;
use std::sync::Wait;

/// Reads lines to the end of the input, and writes the sums of windows of three of their even numbers, each as a line,
/// as soon as the window is full. Then it flushes.
///
/// On `Ok`, just the text of these sums was written, and then flushed once (`SumsWhole`). It stops at the first line
/// that is no number, and at each error (`RunStops`). Unless the output failed, nothing is read behind the line that it
/// names. Before a bad line, the sums of all lines before it were written, that of the last window too. At an error of
/// the input, an overflow or a refusal of memory, the sums of the full windows were written, which are a prefix of the
/// text for any input that goes on. Both were flushed. If the output fails, it took a prefix of the text, and that
/// failure came last.
pub fn run<R, T, O>(
    waits: &mut Waits<'_>,
    rt: &R,
    reader: &mut T,
    output: &mut O,
) -> Result<(), PipelineError>
where
    R: Wait + AllocGlobal,
    T: AsyncBufRead + CountedRead,
    O: AsyncWrite,
    requires counts { T.ranks.counts reader.old }
    ensures whole { IfOk result (λ _. SumsWhole T.reads O.writes reader.old output.old reader.new output.new) }
    ensures stopped { IfErr result (λ e. RunStops T.reads O.writes reader.old output.old e reader.new output.new) }
{
    let mut sums = Sums::new();
    match add_lines(waits, rt, reader, output, &mut sums) {
        Ok(line) => finish(waits, rt, output, &sums, line),
        Err(e) => match close(waits, rt, output, &sums, &e) {
            Ok(()) => Err(e),
            Err(failed) => Err(failed),
        },
    }
}

// Reads and adds the lines, and writes the sum of each full window. Returns the number of the last line.
fn add_lines<R, T, O>(
    waits: &mut Waits<'_>,
    rt: &R,
    reader: &mut T,
    output: &mut O,
    sums: &mut Sums,
) -> Result<u64, PipelineError>
where
    R: Wait + AllocGlobal,
    T: AsyncBufRead + CountedRead,
    O: AsyncWrite,
    requires counts { T.ranks.counts reader.old }
    requires fresh { HoldsWindow sums.old [] }
    ensures whole { IfOk result (λ _. AddsLines T.reads O.writes reader.old output.old sums.new reader.new output.new) }
    ensures stopped { IfErr result (λ e. AddsUpTo T.reads O.writes reader.old output.old e sums.new reader.new output.new) }
{
    let mut text = Vec::new(rt.alloc());
    let mut line: u64 = 0;
    for _ in rt.forever() {
        let next = line.saturating_add(1);
        let whole = match read_line(waits, rt, reader, &mut text) {
            Ok(whole) => whole,
            Err(e) => return Err(PipelineError {
                line: next,
                cause: reading(e),
            }),
        };
        if text.is_empty() {
            return Ok(line);
        }
        line = next;
        if let Err(cause) = add_line(waits, rt, output, sums, &text) {
            return Err(PipelineError { line, cause });
        }
        if !whole {
            return Ok(line);
        }
    }
    unreachable!()
}

// Returns why a line was not read.
fn reading(error: io::Error) -> Cause
    ensures { IsReading error result }
{
    if error.kind() == ErrorKind::OutOfMemory {
        Cause::Memory
    } else {
        Cause::Input(error)
    }
}

// Adds a line, and writes the sum of the window if that fills it.
fn add_line<R: Wait, O: AsyncWrite>(
    waits: &mut Waits<'_>,
    rt: &R,
    output: &mut O,
    sums: &mut Sums,
    line: &[u8],
) -> Result<(), Cause>
    ensures added { IfOk result (λ _. AddsLine O.writes line.now sums.old output.old sums.new output.new) }
    ensures failed { IfErr result (λ e. AddFails O.writes line.now sums.old output.old e sums.new output.new) }
{
    let item = number(without_end(line))?;
    match add_number(sums, item) {
        Ok(Some(sum)) => match write_sum(waits, rt, output, sum) {
            Ok(()) => Ok(()),
            Err(e) => Err(Cause::Output(e)),
        },
        Ok(None) => Ok(()),
        Err(cause) => Err(cause),
    }
}

// Adds a number, if it is even, and returns the sum of the window if that fills it.
fn add_number(sums: &mut Sums, item: u64) -> Result<Option<u64>, Cause>
    ensures added { IfOk result (λ sum. (l : List ℕ) → HoldsWindow sums.old l
        → HoldsWindow sums.new (l ++ if_even item) × (full_sums (l ++ if_even item) ≡ full_sums l ++ option_to_list sum)) }
    ensures large { IfErr result (λ e. (e ≡ Overflow) × (if_even item ≡ item ∷ [])
        × ((l : List ℕ) → HoldsWindow sums.old l → SumPasses l item)) }
{
    if item % 2 == 0 {
        sums.add(item)
    } else {
        Ok(None)
    }
}

// Ends the output at an error: behind all lines before a bad one, and else behind the last full window.
fn close<R: Wait, O: AsyncWrite>(
    waits: &mut Waits<'_>,
    rt: &R,
    output: &mut O,
    sums: &Sums,
    error: &PipelineError,
) -> Result<(), PipelineError>
    ensures closed { IfOk result (λ _. EndsOutput O.writes sums.now error.now.cause output.old output.new) }
    ensures failed { IfErr result (λ e. EndFails O.writes sums.now error.now.cause output.old e.cause output.new) }
{
    match &error.cause {
        Cause::NotUtf8 | Cause::NotANumber => finish(waits, rt, output, sums, error.line),
        Cause::Overflow | Cause::Memory | Cause::Input(_) => finish_early(
            waits, rt, output, error.line,
        ),
        Cause::Output(_) => Ok(()),
    }
}

// Writes the sum of the last window, if it is not full, and flushes.
fn finish<R: Wait, O: AsyncWrite>(
    waits: &mut Waits<'_>,
    rt: &R,
    output: &mut O,
    sums: &Sums,
    line: u64,
) -> Result<(), PipelineError>
    ensures written { IfOk result (λ _. (l : List ℕ) → HoldsWindow sums.now l
        → TakesFlushed O.writes output.old (text_of_sums (last_sums l)) output.new) }
    ensures failed { IfErr result (λ e. (l : List ℕ) → HoldsWindow sums.now l
        → FailsOutput O.writes output.old (text_of_sums (last_sums l)) e.cause output.new) }
{
    match write_last(waits, rt, output, sums) {
        Ok(()) => finish_early(waits, rt, output, line),
        Err(e) => Err(PipelineError {
            line,
            cause: Cause::Output(e),
        }),
    }
}

// Writes the sum of the last window, if it has a number and is not full.
fn write_last<R: Wait, O: AsyncWrite>(
    waits: &mut Waits<'_>,
    rt: &R,
    output: &mut O,
    sums: &Sums,
) -> io::Result<()>
    ensures written { IfOk result (λ _. (l : List ℕ) → HoldsWindow sums.now l
        → TakesWholeText O.writes output.old (text_of_sums (last_sums l)) output.new) }
    ensures failed { IfErr result (λ e. (l : List ℕ) → HoldsWindow sums.now l
        → FailsTaking O.writes output.old (text_of_sums (last_sums l)) e output.new) }
{
    match sums.last() {
        Some(sum) => write_sum(waits, rt, output, sum),
        None => Ok(()),
    }
}

// Flushes.
#[tactic(auto, using(crate::proofs::Taken::flush_unwritten))]
fn finish_early<R: Wait, O: AsyncWrite>(
    waits: &mut Waits<'_>,
    rt: &R,
    output: &mut O,
    line: u64,
) -> Result<(), PipelineError>
    ensures flushed { IfOk result (λ _. TakesFlush O.writes output.old output.new) }
    ensures failed { IfErr result (λ e. FailsOutput O.writes output.old [] e.cause output.new) }
{
    match flush(waits, rt, output) {
        Ok(()) => Ok(()),
        Err(e) => Err(PipelineError {
            line,
            cause: Cause::Output(e),
        }),
    }
}
