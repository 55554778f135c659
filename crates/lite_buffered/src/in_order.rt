ghost use Rattle.lite_buffered.specs.BufReader.{KeepsOrder};

use crate::buf_reader::BufReader;
use lite_io_base::{AsyncRead, AsyncWrite};

/// States that a buffered reader keeps the order of reads and writes.
///
/// However reads and writes follow one another, the inner value is read and written in the same order, and
/// what is written is the same. The bytes in the buffer before, followed by those read since from the inner
/// value, are those that came out, followed by those in the buffer now. So no read returns a byte that only a
/// later write put there.
#[tactic(auto, using(crate::specs::Laws::BufReader::in_order))]
pub fn keeps_order<R: AsyncRead + AsyncWrite>(_reader: &BufReader<R>)
    ensures { KeepsOrder R.reads R.writes _reader.now }
{}
