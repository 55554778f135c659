//! The task that sends.
ghost use Rattle.std.specs.Prelude.{◌≡◌, false};
ghost use Rattle.futures_lite.specs.Contexts.{Keeps, Registered};
ghost use Rattle.example_queue.specs.Queue.{Queued};
ghost use Rattle.example_queue.specs.Tasks.{NextToSend, SenderRegisters, Sends};

use crate::queue::Queue;
use crate::send_error::SendError;
use futures_lite::{Context, Poll, Stream};
use std::alloc::AllocError;

/// Sends the items of a stream.
#[derive(Drop)]
pub struct Sender<S, T> {
    pub(crate) source: S,
    // The item that is sent next, since the queue handed it back.
    pub(crate) held: Option<T>,
}

impl<T: Drop, S: Stream<Item = T>> Sender<S, T> {
    /// Sends items until one is refused, or there is none.
    ///
    /// `Ready(Ok(()))`: all items were sent, and the queue is closed. `Pending`: the source is pending, or the queue is
    /// full. Then the task is woken, since the receiver is to have its turn. `Err`: there was no memory for the item,
    /// which is held.
    pub fn poll_send(
        &mut self,
        queue: &mut Queue<T>,
        cx: &mut Context<'_>,
    ) -> Poll<Result<(), AllocError>>
        requires polls { S.can_poll self.old.source }
        requires open { queue.old.is_closed ≡ false }
        ensures sent { Sends S.run self.old queue.old result self.new queue.new }
        ensures again { S.can_poll self.new.source }
        ensures registered { Registered result (SenderRegisters S.registers self.new) cx.new }
        ensures context { Keeps cx.old cx.new }
    {
        loop {
            match self.poll_item(cx) {
                Poll::Ready(Some(item)) => match queue.send(item) {
                    Ok(()) => {}
                    Err(SendError::Memory(item)) => {
                        self.held = Some(item);
                        return Poll::Ready(Err(AllocError));
                    }
                    Err(SendError::Full(item)) | Err(SendError::Closed(item)) => {
                        self.held = Some(item);
                        return cx.yield_now();
                    }
                },
                Poll::Ready(None) => {
                    queue.close();
                    return Poll::Ready(Ok(()));
                }
                Poll::Pending => return Poll::Pending,
            }
        }
    }

    // The item that was handed back, or what the source returns.
    fn poll_item(&mut self, cx: &mut Context<'_>) -> Poll<Option<T>>
        requires { S.can_poll self.old.source }
        ensures taken { NextToSend S.run self.old result self.new }
        ensures again { S.can_poll self.new.source }
        ensures registered { Registered result (S.registers self.new.source) cx.new }
        ensures context { Keeps cx.old cx.new }
    {
        match self.held.take() {
            Some(item) => Poll::Ready(Some(item)),
            None => self.source.poll_next(cx),
        }
    }
}
