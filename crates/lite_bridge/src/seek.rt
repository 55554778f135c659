//! What a buffered reader over a cursor returns from reads and seeks.
ghost use Rattle.lite_bridge.specs.Logical.{AnswersAsCursor, IsInStep};

use crate::{BytesLike, Cursor};
use lite_buffered::BufReader;

/// States that a buffered reader over a cursor gives the same results as the cursor
/// alone.
///
/// That is so for each list of reads and seeks, if nothing else is called and the capacity is at least 1
/// byte. The cursor alone is at the logical position, which is the inner position less the number of bytes in
/// the buffer. Bytes, ends of file, and the results and errors of seeks are the same.
pub fn answers_as_cursor<T: BytesLike>(_reader: &BufReader<Cursor<T>>)
    requires { IsInStep T.bytes _reader.now }
    ensures { AnswersAsCursor T.bytes _reader.now }
{}
