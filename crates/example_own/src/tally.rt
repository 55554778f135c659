//! A writer that says what each of its marks does.
ghost use Rattle.futures_lite.specs.Own.{Steps, writer_by_steps};
ghost use Rattle.example_own.specs.Tally.{TallyStep};

use futures_lite::io::{AsyncWrite, WriteSpec};
use futures_lite::{Context, Poll};
use std::io;

/// Takes all bytes and says how many they were, up to `u64::MAX`.
#[derive(Drop)]
pub struct Tally {
    pub bytes: u64,
}

impl WriteSpec for Tally {
    ghost writes = { Steps TallyStep };

    ghost write_laws = { writer_by_steps TallyStep };
}

impl AsyncWrite for Tally {
    fn poll_write(&mut self, _cx: &mut Context<'_>, buf: &[u8]) -> Poll<io::Result<usize>> {
        self.bytes = self.bytes.saturating_add(buf.len() as u64);
        Poll::Ready(Ok(buf.len()))
    }

    fn poll_flush(&mut self, _cx: &mut Context<'_>) -> Poll<io::Result<()>> {
        Poll::Ready(Ok(()))
    }

    fn poll_close(&mut self, _cx: &mut Context<'_>) -> Poll<io::Result<()>> {
        Poll::Ready(Ok(()))
    }
}
