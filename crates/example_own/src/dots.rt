//! A reader that stores one byte a call, says what each mark of its reads is, and is ranked.
ghost use Rattle.futures_lite.specs.Ranks.{number_ranks};
ghost use Rattle.futures_lite.specs.Own.{Steps, reader_by_steps, reader_counting};
ghost use Rattle.example_own.specs.Dots.{DotsStep, dots_left, dots_lower};

use futures_lite::io::{AsyncRead, CountedRead, ReadSpec};
use futures_lite::{Context, Poll};
use std::io;

/// Reads as many dots as are left, one a call, and then ends.
#[derive(Drop)]
pub struct Dots {
    pub left: u32,
}

impl ReadSpec for Dots {
    ghost reads = { Steps DotsStep };

    ghost read_laws = { reader_by_steps DotsStep };
}

impl AsyncRead for Dots {
    #[tactic(auto, using(futures_lite::specs::Own::reads_one))]
    fn poll_read(&mut self, _cx: &mut Context<'_>, buf: &mut [u8]) -> Poll<io::Result<usize>> {
        if self.left == 0 || buf.is_empty() {
            return Poll::Ready(Ok(0));
        }
        buf[0] = b'.';
        self.left -= 1;
        Poll::Ready(Ok(1))
    }
}

// As many dots as are left fall with each byte, so a read to the end returns.
impl CountedRead for Dots {
    ghost ranks = { number_ranks dots_left };

    ghost counting = { reader_counting dots_lower };
}
