//! A future that says what each of its polls answers.
ghost use Rattle.futures_lite.specs.Own.{StepsToValue, future_by_steps};
ghost use Rattle.example_own.specs.Countdown.{CountdownStep};

use futures_lite::{Context, Future, Poll};

/// Is pending `left` times, and then gives `value`.
#[derive(Drop)]
pub struct Countdown {
    pub left: u8,
    pub value: u32,
}

impl Future for Countdown {
    type Output = u32;

    ghost run = { StepsToValue CountdownStep };

    ghost laws = { future_by_steps CountdownStep };

    fn poll(&mut self, cx: &mut Context<'_>) -> Poll<u32> {
        if self.left == 0 {
            return Poll::Ready(self.value);
        }
        self.left -= 1;
        cx.yield_now()
    }
}
