//! Searches in the buffer of a reader.
ghost use Rattle.std.specs.Prelude.{◌≡◌, ◌+◌, ◌<◌, ◌^◌, IfOk, IfSome};
ghost use Rattle.lite_read.specs.Uses.{is_ascii, list_all, IfReady, Keeps, fill_marks, IsFirstByte, is_byte, Registered};
ghost use Rattle.lite_read.specs.Find.{up_to};

use crate::{LineScan, scan_line};
use lite_base::{Context, Poll};
use lite_io_base::AsyncBufRead;
use memchr::memchr;
use std::io;

/// Fills the buffer of a reader, and returns the position of the first `byte` in it.
// Inline, because a call would write a result of about a hundred bytes to memory, and read it again.
#[inline(always)]
pub(crate) fn find_byte<R: AsyncBufRead>(
    reader: &mut R,
    cx: &mut Context<'_>,
    byte: u8,
) -> Poll<io::Result<Option<usize>>>
    ensures ran { R.reads reader.old (fill_marks result (R.buffer_of reader.new)) reader.new }
    ensures found { IfReady result (λ r. IfOk r (λ at. IsFirstByte (is_byte byte) (R.buffer_of reader.new) at)) }
    ensures small { IfReady result (λ r. IfOk r (λ at. IfSome at (λ k. k + 1 < 2 ^ 64))) }
    ensures registered { Registered result (R.registers reader.new) cx.new }
    ensures context { Keeps cx.old cx.new }
{
    match reader.poll_fill_buf(cx) {
        Poll::Ready(Ok(available)) => Poll::Ready(Ok(memchr(byte, available))),
        Poll::Ready(Err(e)) => Poll::Ready(Err(e)),
        Poll::Pending => Poll::Pending,
    }
}

/// Fills the buffer of a reader, and returns the position of the first newline in it, and whether the bytes
/// before it are ASCII. If there is no newline, it returns whether all bytes of the buffer are ASCII.
#[tactic(auto, using(crate::proofs::Texts::first_newline, crate::proofs::Texts::line_ascii))]
pub fn find_line<R: AsyncBufRead>(
    reader: &mut R,
    cx: &mut Context<'_>,
) -> Poll<io::Result<(Option<usize>, bool)>>
    ensures ran { R.reads reader.old (fill_marks result (R.buffer_of reader.new)) reader.new }
    ensures found { IfReady result (λ r. IfOk r (λ line. IsFirstByte (is_byte 10) (R.buffer_of reader.new) line.0)) }
    ensures small { IfReady result (λ r. IfOk r (λ line. IfSome line.0 (λ k. k + 1 < 2 ^ 64))) }
    ensures ascii { IfReady result (λ r. IfOk r (λ line. line.1 ≡ list_all is_ascii (up_to line.0 (R.buffer_of reader.new)))) }
    ensures registered { Registered result (R.registers reader.new) cx.new }
    ensures context { Keeps cx.old cx.new }
{
    match reader.poll_fill_buf(cx) {
        Poll::Ready(Ok(available)) => {
            let LineScan { newline, ascii } = scan_line(available);
            Poll::Ready(Ok((newline, ascii)))
        }
        Poll::Ready(Err(e)) => Poll::Ready(Err(e)),
        Poll::Pending => Poll::Pending,
    }
}
