//! Readers of this library as those of the toolchain's `tokio`.
ghost use Rattle.std.specs.Prelude.{◌≡◌, ◌<◌, ◌≤◌, [], Ok, drop, length, take};
ghost use Rattle.compat.specs.Laws.ToKit.{nothing_read, reads_on};
ghost use Rattle.compat.specs.ToKit.{EndedAt, FailedAt, GaveBytes};
ghost use Rattle.compat.specs.Uses.{Covers, Keeps, Lasting, OnPending, bytes, read_marks};
ghost use Rattle.lite_io_base.specs.Marks.{fill_marks};
ghost use Rattle.tokio.specs.Io.Moved.{IfReadyErr, OnReadyOk, bytes_moved, count_moved};

use crate::compat::Compat;
use lite_base::{Context, Poll};
use lite_io_base::{AsyncBufRead, AsyncRead, fill};
use std::io;

impl<R: AsyncRead + Drop> tokio::io::AsyncRead for Compat<R> {
    ghost needs = { λ k s. R.registers k.inner (Lasting.hears s) };

    ghost reads = { λ a xs b. GaveBytes R.reads a.inner xs b.inner };

    ghost is_at_end = { λ k. EndedAt R.reads k.inner };

    ghost fails = { λ k. FailedAt R.reads k.inner };

    ghost reads_nothing = { λ k. nothing_read R.read_laws k.inner };

    ghost reads_in_order = { λ a xs b ys c. reads_on R.read_laws a.inner xs b.inner ys c.inner };

    fn poll_read(&mut self, cx: &mut Context<'_>, buf: &mut [u8]) -> Poll<io::Result<usize>>
        ensures bound { count_moved result ≤ length buf.new }
        ensures bytes { GaveBytes R.reads self.old.inner (bytes_moved result buf.new) self.new.inner }
        ensures end { result ≡ Poll.Ready (Ok 0) → 0 < length buf.old → EndedAt R.reads self.new.inner }
        ensures failed { IfReadyErr result (FailedAt R.reads self.new.inner) }
        ensures registered { OnPending result (Covers cx.new (λ s. R.registers self.new.inner (Lasting.hears s))) }
        ensures kept { Keeps cx.old cx.new }

        // It is one read of the reader, and returns what that returned.
        ensures ran { R.reads self.old.inner (read_marks result buf.new) self.new.inner }
    {
        match self.inner.poll_read(cx, buf) {
            Poll::Ready(read) => Poll::Ready(read),
            Poll::Pending => cx.register(&self.source, &mut self.slot),
        }
    }
}

impl<R: AsyncBufRead + Drop> tokio::io::AsyncBufRead for Compat<R> {
    ghost buffered = { λ k. R.buffer_of k.inner };

    fn poll_fill_buf(&mut self, cx: &mut Context<'_>) -> Poll<io::Result<()>>
        ensures bytes { GaveBytes R.reads self.old.inner [] self.new.inner }
        ensures end { OnReadyOk result (length (R.buffer_of self.new.inner) ≡ 0 → EndedAt R.reads self.new.inner) }
        ensures failed { IfReadyErr result (FailedAt R.reads self.new.inner) }
        ensures registered { OnPending result (Covers cx.new (λ s. R.registers self.new.inner (Lasting.hears s))) }
        ensures kept { Keeps cx.old cx.new }

        // It is one call of the reader, and returns what that returned.
        ensures ran { R.reads self.old.inner (fill_marks result (R.buffer_of self.new.inner)) self.new.inner }
    {
        match fill(&mut self.inner, cx) {
            Poll::Ready(filled) => Poll::Ready(filled),
            Poll::Pending => cx.register(&self.source, &mut self.slot),
        }
    }

    fn buffer(&self) -> &[u8] {
        self.inner.buffer()
    }

    fn consume(&mut self, amount: usize)
        requires { amount ≤ length (R.buffer_of self.old.inner) }
        ensures bytes { GaveBytes R.reads self.old.inner (take amount (R.buffer_of self.old.inner)) self.new.inner }
        ensures rest { R.buffer_of self.new.inner ≡ drop amount (R.buffer_of self.old.inner) }
        ensures ran { R.reads self.old.inner (bytes (take amount (R.buffer_of self.old.inner))) self.new.inner }
    {
        self.inner.consume(amount)
    }
}
