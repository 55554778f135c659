//! What is made of the lines of a reader.
ghost use Rattle.nests_agree.specs.Lengths.{IsLength, IsTested};

use std::io;

/// The length of a line, or the error in its place.
pub(crate) fn length(line: io::Result<String>) -> io::Result<usize>
    ensures { IsLength line result }
{
    match line {
        Ok(text) => Ok(text.as_str().len()),
        Err(e) => Err(e),
    }
}

/// Whether this is an error, or the length of a line that is not empty.
pub(crate) fn is_some(length: &io::Result<usize>) -> bool
    ensures { IsTested length.now result }
{
    match length {
        Ok(n) => *n > 0,
        Err(_) => true,
    }
}
