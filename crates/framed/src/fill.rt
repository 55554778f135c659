//! One fill of a reader's buffer.
ghost use Rattle.std.specs.Prelude.{◌≡◌, ◌==◌, IfOk, length};
ghost use Rattle.lite_io_base.specs.Runs.{OnlyOkLends};
ghost use Rattle.framed.specs.Uses.{IfReady, Keeps, Registered, fill_marks};

use lite_base::{Context, Poll};
use lite_io_base::AsyncBufRead;
use std::io;

/// Fills the buffer of a reader. Returns whether it is at end of file.
#[inline(always)]
pub(crate) fn fill<R: AsyncBufRead>(reader: &mut R, cx: &mut Context<'_>) -> Poll<io::Result<bool>>
    ensures ran { R.reads reader.old (fill_marks result (R.buffer_of reader.new)) reader.new }
    ensures ended { IfReady result (λ r. IfOk r (λ ended. ended ≡ (length (R.buffer_of reader.new) == 0))) }
    ensures shown { OnlyOkLends result (R.buffer_of reader.new) }
    ensures registered { Registered result (R.registers reader.new) cx.new }
    ensures context { Keeps cx.old cx.new }
{
    match reader.poll_fill_buf(cx) {
        Poll::Ready(Ok(available)) => Poll::Ready(Ok(available.is_empty())),
        Poll::Ready(Err(e)) => Poll::Ready(Err(e)),
        Poll::Pending => Poll::Pending,
    }
}
