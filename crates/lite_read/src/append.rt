//! Moves bytes from the buffer of a reader to the end of a vector.
ghost use Rattle.std.specs.Prelude.{◌≡◌, ◌≤◌, ◌<◌, ◌+◌, ◌++◌, length, take, vec_capacity, IfErr, IfOk};
ghost use Rattle.lite_read.specs.Uses.{error_kind, OutOfMemory, bytes};

use lite_io_base::AsyncBufRead;
use std::io;

/// Appends the first `amount` bytes of the buffer of `reader` to the vector, and consumes them. It returns
/// `Err` if the vector has no room for them and memory is refused. Nothing but the capacity of the vector
/// changes then.
pub(crate) fn append<R: AsyncBufRead>(
    reader: &mut R,
    amount: usize,
    buf: &mut Vec<u8>,
) -> io::Result<()>
    requires { amount ≤ length (R.buffer_of reader.old) }
    ensures ok { IfOk result (λ u. buf.new.items ≡ buf.old.items ++ take amount (R.buffer_of reader.old)) }
    ensures taken { IfOk result (λ u. R.reads reader.old (bytes (take amount (R.buffer_of reader.old))) reader.new) }
    ensures refused { IfErr result (λ e. error_kind e ≡ OutOfMemory) }
    ensures full { IfErr result (λ e. vec_capacity buf.old < length buf.old.items + amount) }
    ensures room { vec_capacity buf.old ≤ vec_capacity buf.new }
    ensures unread { IfErr result (λ e. reader.new ≡ reader.old) }
    ensures held { IfErr result (λ e. buf.new.items ≡ buf.old.items) }
{
    buf.extend_from_slice(&reader.buffer()[..amount])?;
    reader.consume(amount);
    Ok(())
}
