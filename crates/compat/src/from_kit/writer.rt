//! Writers of the toolchain's `tokio` as those of this library.
ghost use Rattle.compat.specs.FromKit.{Needs, KitWriteStep};
ghost use Rattle.compat.specs.Uses.{Steps};
ghost use Rattle.lite_io_base.specs.Laws.Runs.{steps_laws};

use crate::compat::Compat;
use lite_base::{Context, Poll};
use lite_io_base::{AsyncWrite, WriteSpec};
use std::io;
use std::io::IoSlice;

impl<W: tokio::io::AsyncWrite> WriteSpec for Compat<W> {
    ghost writes = { Steps (KitWriteStep W.writes W.is_flushed W.is_shut_down W.fails) };

    ghost write_laws = { steps_laws (KitWriteStep W.writes W.is_flushed W.is_shut_down W.fails) };
}

impl<W: tokio::io::AsyncWrite> AsyncWrite for Compat<W> {
    ghost write_registers = { λ k. Needs (W.needs k.inner) };

    fn poll_write(&mut self, cx: &mut Context<'_>, buf: &[u8]) -> Poll<io::Result<usize>> {
        self.inner.poll_write(cx, buf)
    }

    fn poll_write_vectored(
        &mut self,
        cx: &mut Context<'_>,
        bufs: &[IoSlice<'_>],
    ) -> Poll<io::Result<usize>> {
        self.inner.poll_write_vectored(cx, bufs)
    }

    fn poll_flush(&mut self, cx: &mut Context<'_>) -> Poll<io::Result<()>> {
        self.inner.poll_flush(cx)
    }

    fn poll_close(&mut self, cx: &mut Context<'_>) -> Poll<io::Result<()>> {
        self.inner.poll_shutdown(cx)
    }
}
