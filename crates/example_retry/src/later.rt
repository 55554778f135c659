//! A future that is pending at first, and says nothing of what it returns.
ghost use Rattle.futures_lite.specs.Own.{AnyValue, anything_future};

use futures_lite::{Context, Future, Poll};

/// Returns `Pending` `left` times, and then `reply`. Each `Pending` wakes the task.
#[derive(Drop)]
pub struct Later {
    pub left: u32,
    pub reply: Result<u32, u32>,
}

impl Future for Later {
    type Output = Result<u32, u32>;

    ghost run = { AnyValue };

    ghost laws = { anything_future };

    fn poll(&mut self, cx: &mut Context<'_>) -> Poll<Result<u32, u32>> {
        if self.left == 0 {
            return Poll::Ready(self.reply);
        }
        self.left -= 1;
        cx.yield_now()
    }
}
