//! Readers of the toolchain's `tokio` as those of this library.
ghost use Rattle.compat.specs.FromKit.{KitReadCall, Needs};
ghost use Rattle.lite_io_base.specs.Joined.{Joined};
ghost use Rattle.lite_io_base.specs.Laws.Joined.{joined_laws};

use crate::compat::Compat;
use lite_base::{Context, Poll};
use lite_io_base::{AsyncRead, ReadSpec};
use std::io;

impl<R: tokio::io::AsyncRead> ReadSpec for Compat<R> {
    ghost reads = { Joined (KitReadCall R.reads R.is_at_end R.fails) };

    ghost read_laws = { joined_laws (KitReadCall R.reads R.is_at_end R.fails) };
}

impl<R: tokio::io::AsyncRead> AsyncRead for Compat<R> {
    ghost registers = { λ k. Needs (R.needs k.inner) };

    fn poll_read(&mut self, cx: &mut Context<'_>, buf: &mut [u8]) -> Poll<io::Result<usize>> {
        self.inner.poll_read(cx, buf)
    }
}
