//! The task that receives.
ghost use Rattle.std.specs.Prelude.{◌≡◌};
ghost use Rattle.futures_lite.specs.Contexts.{Keeps};
ghost use Rattle.example_queue.specs.Tasks.{Receives};

use crate::queue::Queue;
use futures_lite::{Context, Poll, Stream};
use std::alloc::AllocError;

/// Keeps the items that it receives.
#[derive(Drop)]
pub struct Receiver<T> {
    pub(crate) received: Vec<T>,
}

impl<T: Drop> Receiver<T> {
    /// Receives all items that wait.
    ///
    /// `Ready(Ok(()))`: the queue is closed, and no item is left. `Pending`: more may be sent. `Err`: there was no
    /// memory for an item, which is dropped.
    pub fn poll_receive(
        &mut self,
        queue: &mut Queue<T>,
        cx: &mut Context<'_>,
    ) -> Poll<Result<(), AllocError>>
        ensures received { Receives self.old.received.items queue.old result self.new.received.items queue.new }
        ensures context { Keeps cx.old cx.new }
    {
        loop {
            match queue.poll_next(cx) {
                Poll::Ready(Some(item)) => {
                    if self.received.push(item).is_err() {
                        return Poll::Ready(Err(AllocError));
                    }
                }
                Poll::Ready(None) => return Poll::Ready(Ok(())),
                Poll::Pending => return Poll::Pending,
            }
        }
    }
}
