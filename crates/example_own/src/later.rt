//! A future that says nothing of what it answers.
ghost use Rattle.futures_lite.specs.Own.{AnyValue, anything_future};

use futures_lite::{Context, Future, Poll};

/// Is pending `left` times, and then gives `value`.
#[derive(Drop)]
pub struct Later {
    pub left: u8,
    pub value: u32,
}

impl Future for Later {
    type Output = u32;

    ghost run = { AnyValue };

    ghost laws = { anything_future };

    fn poll(&mut self, cx: &mut Context<'_>) -> Poll<u32> {
        if self.left == 0 {
            return Poll::Ready(self.value);
        }
        self.left -= 1;
        cx.yield_now()
    }
}
