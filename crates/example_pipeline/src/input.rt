//! Lines of the input.
ghost use Rattle.std.specs.Prelude.{◌≡◌, IfErr, IfOk};
ghost use Rattle.futures_lite.specs.Lines.{without_return};
ghost use Rattle.example_pipeline.specs.Pipeline.{line_text};
ghost use Rattle.example_pipeline.specs.Runs.{FailsWithin, GivesLine};

use futures_lite::future::Waits;
use futures_lite::io::{AsyncBufRead, CountedRead, wait_read_until};
use std::io;
use std::sync::Wait;

/// Reads a line into `line`, with its newline. Returns whether it has one; if not, the input ended behind it.
///
/// If memory for the line was refused, the error is of the kind `OutOfMemory`.
pub fn read_line<R, T>(
    waits: &mut Waits<'_>,
    rt: &R,
    reader: &mut T,
    line: &mut Vec<u8>,
) -> io::Result<bool>
where
    R: Wait,
    T: AsyncBufRead + CountedRead,
    requires counts { T.ranks.counts reader.old }
    ensures read { IfOk result (λ whole. GivesLine T.reads reader.old line.new.items whole reader.new) }
    ensures failed { IfErr result (λ e. FailsWithin T.reads reader.old e reader.new) }
    ensures again { T.ranks.counts reader.new }
{
    line.clear();
    match wait_read_until(waits, rt, reader, b'\n', line) {
        Ok(Ok(_)) => Ok(line.last() == Some(&b'\n')),
        Ok(Err(e)) => Err(e),
        Err(_) => unreachable!(),
    }
}

/// Returns a line without its end: a newline, and a carriage return before it.
pub fn without_end(line: &[u8]) -> &[u8]
    ensures { result.now ≡ line_text line.now }
{
    match line.strip_suffix(b"\n") {
        Some(front) => without_return(front),
        None => line,
    }
}

// Returns a line without a carriage return at its end.
fn without_return(line: &[u8]) -> &[u8]
    ensures { result.now ≡ without_return line.now }
{
    let amount = line.len();
    if amount > 0 && line[amount - 1] == b'\r' {
        &line[..amount - 1]
    } else {
        line
    }
}
