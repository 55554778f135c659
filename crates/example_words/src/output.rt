//! Text of the output.
ghost use Rattle.std.specs.Prelude.{IfErr, IfOk};
ghost use Rattle.example_words.specs.Runs.{TextUnwritten, WritesText, WritesFlushed};

use crate::fault::WordsError;
use futures_lite::AsyncWrite;
use futures_lite::future::Waits;
use futures_lite::io::{wait_flush, wait_write_all};
use std::sync::Wait;

/// Writes all of the text. The only error is `Output`, behind a prefix of the text.
pub fn write<R: Wait, O: AsyncWrite>(
    waits: &mut Waits<'_>,
    rt: &R,
    output: &mut O,
    text: &[u8],
) -> Result<(), WordsError>
    ensures written { IfOk result (λ _. WritesText O.writes output.old text.now output.new) }
    ensures failed { IfErr result (λ e. TextUnwritten O.writes output.old text.now e output.new) }
{
    match wait_write_all(waits, rt, output, text) {
        Ok(Ok(())) => Ok(()),
        Ok(Err(e)) => Err(WordsError::Output(e)),
        Err(_) => unreachable!(),
    }
}

/// Writes all of the text, and flushes. The only error is `Output`, behind a prefix of the text.
pub fn write_last<R: Wait, O: AsyncWrite>(
    waits: &mut Waits<'_>,
    rt: &R,
    output: &mut O,
    text: &[u8],
) -> Result<(), WordsError>
    ensures written { IfOk result (λ _. WritesFlushed O.writes output.old text.now output.new) }
    ensures failed { IfErr result (λ e. TextUnwritten O.writes output.old text.now e output.new) }
{
    write(waits, rt, output, text)?;
    match wait_flush(waits, rt, output) {
        Ok(Ok(())) => Ok(()),
        Ok(Err(e)) => Err(WordsError::Output(e)),
        Err(_) => unreachable!(),
    }
}
