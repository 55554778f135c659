//! Lines of the input.
ghost use Rattle.std.specs.Prelude.{IfErr, IfOk};
ghost use Rattle.example_words.specs.Runs.{LineUnread, ReadsOneLine};

use crate::fault::WordsError;
use futures_lite::future::Waits;
use futures_lite::io::{AsyncBufRead, CountedRead, wait_read_until};
use std::io::ErrorKind;
use std::sync::Wait;

/// Reads a line into `line`, with its newline. Returns whether it has one; if not, the input ended behind it.
///
/// # Errors
///
/// `Input` has the reader's error, which came within the line, and `Memory` says that memory for the line was refused.
pub fn read_line<R, T>(
    waits: &mut Waits<'_>,
    rt: &R,
    reader: &mut T,
    line: &mut Vec<u8>,
) -> Result<bool, WordsError>
where
    R: Wait,
    T: AsyncBufRead + CountedRead,
    requires counts { T.ranks.counts reader.old }
    ensures read { IfOk result (λ whole. ReadsOneLine T.reads reader.old line.new.items whole reader.new) }
    ensures failed { IfErr result (λ e. LineUnread T.reads reader.old e reader.new) }
    ensures again { T.ranks.counts reader.new }
{
    line.clear();
    match wait_read_until(waits, rt, reader, b'\n', line) {
        Ok(Ok(_)) => Ok(line.last() == Some(&b'\n')),
        Ok(Err(e)) if e.kind() == ErrorKind::OutOfMemory => Err(WordsError::Memory),
        Ok(Err(e)) => Err(WordsError::Input(e)),
        Err(_) => unreachable!(),
    }
}
