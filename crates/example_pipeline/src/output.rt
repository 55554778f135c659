//! Sums as lines of the output.
ghost use Rattle.std.specs.Prelude.{IfErr, IfOk};
ghost use Rattle.example_pipeline.specs.Pipeline.{sum_line};
ghost use Rattle.example_pipeline.specs.Runs.{FailsFlush, FailsTaking, TakesFlush, TakesWholeText};

use futures_lite::AsyncWrite;
use futures_lite::future::Waits;
use futures_lite::io::{wait_flush, wait_write_all};
use itoa::Buffer;
use std::io;
use std::sync::Wait;

/// Writes a sum as a line.
pub fn write_sum<R: Wait, O: AsyncWrite>(
    waits: &mut Waits<'_>,
    rt: &R,
    output: &mut O,
    sum: u64,
) -> io::Result<()>
    ensures written { IfOk result (λ _. TakesWholeText O.writes output.old (sum_line sum) output.new) }
    ensures failed { IfErr result (λ e. FailsTaking O.writes output.old (sum_line sum) e output.new) }
{
    let mut buffer = Buffer::new();
    match write(waits, rt, output, buffer.format(sum).as_bytes()) {
        Ok(()) => write(waits, rt, output, b"\n"),
        Err(e) => Err(e),
    }
}

// Writes all of the text.
fn write<R: Wait, O: AsyncWrite>(
    waits: &mut Waits<'_>,
    rt: &R,
    output: &mut O,
    text: &[u8],
) -> io::Result<()>
    ensures written { IfOk result (λ _. TakesWholeText O.writes output.old text.now output.new) }
    ensures failed { IfErr result (λ e. FailsTaking O.writes output.old text.now e output.new) }
{
    match wait_write_all(waits, rt, output, text) {
        Ok(written) => written,
        Err(_) => unreachable!(),
    }
}

/// Flushes.
pub fn flush<R: Wait, O: AsyncWrite>(
    waits: &mut Waits<'_>,
    rt: &R,
    output: &mut O,
) -> io::Result<()>
    ensures flushed { IfOk result (λ _. TakesFlush O.writes output.old output.new) }
    ensures failed { IfErr result (λ e. FailsFlush O.writes output.old e output.new) }
{
    match wait_flush(waits, rt, output) {
        Ok(flushed) => flushed,
        Err(_) => unreachable!(),
    }
}
