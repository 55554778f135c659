ghost use Rattle.std.specs.Prelude.{◌≡◌, ◌<◌, ◌≤◌, [], Ok, length, IfOk, ⊤};
ghost use Rattle.lite_write.specs.Uses.{io_slices_bytes, IfReady, Keeps, write_marks, Registered};
ghost use Rattle.lite_io_base.specs.Laws.Runs.{idle_laws};
ghost use Rattle.lite_io_base.specs.Runs.{Idle};
ghost use Rattle.lite_write.specs.Laws.Sink.{sinks_calm, sinks_laws, sinks_steady};
ghost use Rattle.lite_write.specs.Sink.{Sinks};
ghost use Rattle.lite_io_base.specs.Laws.Armed.{arms_marks_always};

use lite_base::{Context, Poll};
use lite_io_base::{
    ArmedWrite, AsyncWrite, CalmWrite, ReadSpec, SteadyWrite, WriteSpec, first_nonempty,
};
use std::io;
use std::io::IoSlice;

/// A writer that takes all bytes and drops them.
///
/// Returned by [`sink`](crate::make::sink).
#[derive(Clone, Copy, Debug)]
pub struct Sink {}

impl WriteSpec for Sink {
    ghost writes = { Sinks };

    ghost write_laws = { sinks_laws };
}

// It is not read from.
impl ReadSpec for Sink {
    ghost reads = { Idle };

    ghost read_laws = { idle_laws };
}

impl AsyncWrite for Sink {
    // It is never pending.
    ghost write_registers = { λ _ _. ⊤ };

    /// Takes all of `buf`.
    fn poll_write(&mut self, _cx: &mut Context<'_>, buf: &[u8]) -> Poll<io::Result<usize>>
        ensures bound { IfReady result (λ r. IfOk r (λ n. n ≤ length buf.now)) }
        ensures ran { Sinks self.old (write_marks result buf.now) self.new }
        ensures all { result ≡ Poll.Ready (Ok (length buf.now)) }
        ensures registered { Registered result (λ _. ⊤) _cx.new }
        ensures context { Keeps _cx.old _cx.new }
    {
        Poll::Ready(Ok(buf.len()))
    }

    /// Takes all of the first buffer that is not empty.
    fn poll_write_vectored(
        &mut self,
        cx: &mut Context<'_>,
        bufs: &[IoSlice<'_>],
    ) -> Poll<io::Result<usize>>
        ensures bound { IfReady result (λ r. IfOk r (λ n. n ≤ length (io_slices_bytes bufs.now))) }
        ensures ran { Sinks self.old (write_marks result (io_slices_bytes bufs.now)) self.new }
        ensures some { 0 < length (io_slices_bytes bufs.now) → IfReady result (λ r. IfOk r (λ n. 0 < n)) }
        ensures registered { Registered result (λ _. ⊤) cx.new }
        ensures context { Keeps cx.old cx.new }
    {
        self.poll_write(cx, first_nonempty(bufs))
    }

    fn poll_flush(&mut self, _cx: &mut Context<'_>) -> Poll<io::Result<()>> {
        Poll::Ready(Ok(()))
    }

    fn poll_close(&mut self, _cx: &mut Context<'_>) -> Poll<io::Result<()>> {
        Poll::Ready(Ok(()))
    }
}

impl SteadyWrite for Sink {
    ghost alike = { λ _ _. ⊤ };

    ghost below = { λ _. [] };

    ghost steady = { sinks_steady };
}

impl CalmWrite for Sink {
    ghost is_calm = { λ _. ⊤ };

    ghost calm = { sinks_calm };
}

impl ArmedWrite for Sink {
    ghost armed = { arms_marks_always };
}
