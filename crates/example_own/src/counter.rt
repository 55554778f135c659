//! A stream that says what each of its polls answers, and is ranked.
ghost use Rattle.std.specs.List.{FoldsTo};
ghost use Rattle.futures_lite.specs.Ranks.{number_ranks};
ghost use Rattle.futures_lite.specs.Own.{HintsAt, stream_counting, stream_hinting};
ghost use Rattle.example_own.specs.Counter.{CounterStep, counter_lowers, items_left};

use futures_lite::stream::Counted;
use futures_lite::{Context, Poll, Stream};

/// Gives `next`, `next + 1` and so on below `end`, and then ends for ever.
#[derive(Drop)]
pub struct Counter {
    pub next: u32,
    pub end: u32,
}

impl Stream for Counter {
    type Item = u32;

    ghost run = { FoldsTo CounterStep };

    ghost hints = { HintsAt items_left };

    ghost laws = { stream_hinting counter_lowers };

    fn poll_next(&mut self, _cx: &mut Context<'_>) -> Poll<Option<u32>> {
        if self.next >= self.end {
            return Poll::Ready(None);
        }
        self.next += 1;
        Poll::Ready(Some(self.next - 1))
    }

    fn size_hint(&self) -> (usize, Option<usize>) {
        let left = self.end.saturating_sub(self.next) as usize;
        (left, Some(left))
    }
}

// How far it is from its end falls with each item, so a poll may go on over items until there is an answer.
impl Counted for Counter {
    ghost ranks = { number_ranks items_left };

    ghost counting = { stream_counting counter_lowers };
}
