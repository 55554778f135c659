//! Writers of this library as those of the toolchain's `tokio`.
ghost use Rattle.std.specs.Io.Slices.{io_slices_bytes};
ghost use Rattle.std.specs.Prelude.{◌≡◌, ◌<◌, ◌≤◌, [], Ok, length};
ghost use Rattle.compat.specs.Laws.ToKit.{nothing_written, writes_on};
ghost use Rattle.compat.specs.ToKit.{TookBytes, WriteFailedAt, WroteAt};
ghost use Rattle.compat.specs.Uses.{Covers, Keeps, Lasting, OnPending, done_marks, write_marks};
ghost use Rattle.lite_io_base.specs.WriteMarks.WriteMark.{closed, flushed, wrote};
ghost use Rattle.tokio.specs.Io.Moved.{IfReadyErr, OnReadyOk, bytes_moved, count_moved};

use crate::compat::Compat;
use lite_base::{Context, Poll};
use lite_io_base::AsyncWrite;
use std::io;
use std::io::IoSlice;

impl<W: AsyncWrite + Drop> tokio::io::AsyncWrite for Compat<W> {
    ghost needs = { λ k s. W.write_registers k.inner (Lasting.hears s) };

    ghost writes = { λ a xs b. TookBytes W.writes a.inner xs b.inner };

    ghost is_flushed = { λ k. WroteAt W.writes flushed k.inner };

    ghost is_shut_down = { λ k. WroteAt W.writes closed k.inner };

    ghost is_full = { λ k. WroteAt W.writes (wrote []) k.inner };

    ghost fails = { λ k. WriteFailedAt W.writes k.inner };

    ghost writes_nothing = { λ k. nothing_written W.write_laws k.inner };

    ghost writes_in_order = { λ a xs b ys c. writes_on W.write_laws a.inner xs b.inner ys c.inner };

    fn poll_write(&mut self, cx: &mut Context<'_>, buf: &[u8]) -> Poll<io::Result<usize>>
        ensures bound { count_moved result ≤ length buf.now }
        ensures bytes { TookBytes W.writes self.old.inner (bytes_moved result buf.now) self.new.inner }
        ensures full { result ≡ Poll.Ready (Ok 0) → 0 < length buf.now → WroteAt W.writes (wrote []) self.new.inner }
        ensures failed { IfReadyErr result (WriteFailedAt W.writes self.new.inner) }
        ensures registered { OnPending result (Covers cx.new (λ s. W.write_registers self.new.inner (Lasting.hears s))) }
        ensures kept { Keeps cx.old cx.new }

        // It is one write of the writer, and returns what that returned.
        ensures ran { W.writes self.old.inner (write_marks result buf.now) self.new.inner }
    {
        match self.inner.poll_write(cx, buf) {
            Poll::Ready(written) => Poll::Ready(written),
            Poll::Pending => cx.register(&self.source, &mut self.slot),
        }
    }

    fn poll_write_vectored(
        &mut self,
        cx: &mut Context<'_>,
        bufs: &[IoSlice<'_>],
    ) -> Poll<io::Result<usize>>
        ensures bound { count_moved result ≤ length (io_slices_bytes bufs.now) }
        ensures bytes { TookBytes W.writes self.old.inner (bytes_moved result (io_slices_bytes bufs.now)) self.new.inner }
        ensures full { result ≡ Poll.Ready (Ok 0) → 0 < length (io_slices_bytes bufs.now)
            → WroteAt W.writes (wrote []) self.new.inner }
        ensures failed { IfReadyErr result (WriteFailedAt W.writes self.new.inner) }
        ensures registered { OnPending result (Covers cx.new (λ s. W.write_registers self.new.inner (Lasting.hears s))) }
        ensures kept { Keeps cx.old cx.new }

        // It is one vectored write of the writer, and returns what that returned.
        ensures ran { W.writes self.old.inner (write_marks result (io_slices_bytes bufs.now)) self.new.inner }
    {
        match self.inner.poll_write_vectored(cx, bufs) {
            Poll::Ready(written) => Poll::Ready(written),
            Poll::Pending => cx.register(&self.source, &mut self.slot),
        }
    }

    fn poll_flush(&mut self, cx: &mut Context<'_>) -> Poll<io::Result<()>>
        ensures flushed { OnReadyOk result (WroteAt W.writes flushed self.new.inner) }
        ensures bytes { TookBytes W.writes self.old.inner [] self.new.inner }
        ensures failed { IfReadyErr result (WriteFailedAt W.writes self.new.inner) }
        ensures registered { OnPending result (Covers cx.new (λ s. W.write_registers self.new.inner (Lasting.hears s))) }
        ensures kept { Keeps cx.old cx.new }

        // It is one flush of the writer, and returns what that returned.
        ensures ran { W.writes self.old.inner (done_marks flushed result) self.new.inner }
    {
        match self.inner.poll_flush(cx) {
            Poll::Ready(done) => Poll::Ready(done),
            Poll::Pending => cx.register(&self.source, &mut self.slot),
        }
    }

    fn poll_shutdown(&mut self, cx: &mut Context<'_>) -> Poll<io::Result<()>>
        ensures shut_down { OnReadyOk result (WroteAt W.writes closed self.new.inner) }
        ensures bytes { TookBytes W.writes self.old.inner [] self.new.inner }
        ensures failed { IfReadyErr result (WriteFailedAt W.writes self.new.inner) }
        ensures registered { OnPending result (Covers cx.new (λ s. W.write_registers self.new.inner (Lasting.hears s))) }
        ensures kept { Keeps cx.old cx.new }

        // It is one close of the writer, and returns what that returned.
        ensures ran { W.writes self.old.inner (done_marks closed result) self.new.inner }
    {
        match self.inner.poll_close(cx) {
            Poll::Ready(done) => Poll::Ready(done),
            Poll::Pending => cx.register(&self.source, &mut self.slot),
        }
    }
}
