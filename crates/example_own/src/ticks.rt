//! A stream that says nothing of what it answers.
ghost use Rattle.futures_lite.specs.Own.{AnyAnswers, NoHint, anything_stream};

use futures_lite::{Context, Poll, Stream};

/// Gives `next`, `next + 1` and so on below `end`, and then ends for ever.
#[derive(Drop)]
pub struct Ticks {
    pub next: u32,
    pub end: u32,
}

impl Stream for Ticks {
    type Item = u32;

    ghost run = { AnyAnswers };

    ghost hints = { NoHint };

    ghost laws = { anything_stream };

    fn poll_next(&mut self, _cx: &mut Context<'_>) -> Poll<Option<u32>> {
        if self.next >= self.end {
            return Poll::Ready(None);
        }
        self.next += 1;
        Poll::Ready(Some(self.next - 1))
    }

    fn size_hint(&self) -> (usize, Option<usize>) {
        (0, None)
    }
}
