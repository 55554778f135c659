//! Two tasks that have a queue in turn.
ghost use Rattle.std.specs.Prelude.{◌≡◌, [], None, false};
ghost use Rattle.std.specs.declared.alloc.AllocError.{AllocError};
ghost use Rattle.futures_lite.specs.Contexts.{Keeps};
ghost use Rattle.futures_lite.specs.Own.{StepsToValue};
ghost use Rattle.example_queue.specs.Queue.{Queued};
ghost use Rattle.example_queue.specs.Transfer.{ReceivesAll, TransferStep};
ghost use Rattle.example_queue.specs.TransferLaws.{transfer_laws};

use crate::queue::Queue;
use crate::receiver::Receiver;
use crate::sender::Sender;
use futures_lite::{Context, Future, Poll, Stream};
use std::alloc::AllocError;
use std::mem;

/// A future that owns a queue, and lends it to a task that sends and to a task that receives.
///
/// Each poll gives each task one turn. The value is what was received, once the source has ended. `Err` means that
/// there was no memory for an item. All items are dropped with the future then. Do not poll it after its value.
#[derive(Drop)]
pub struct Transfer<S, T> {
    pub(crate) sender: Sender<S, T>,
    pub(crate) queue: Queue<T>,
    pub(crate) receiver: Receiver<T>,
}

impl<T: Drop, S: Stream<Item = T>> Transfer<S, T> {
    // The receiver's turn.
    fn receive(&mut self, cx: &mut Context<'_>) -> Poll<Result<Vec<T>, AllocError>>
        ensures received { ReceivesAll self.old.receiver.received.items self.old.queue result self.new.receiver.received.items self.new.queue }
        ensures sender { self.new.sender ≡ self.old.sender }
        ensures context { Keeps cx.old cx.new }
    {
        match self.receiver.poll_receive(&mut self.queue, cx) {
            Poll::Ready(Ok(())) => {
                let none = Vec::new(*self.receiver.received.allocator());
                Poll::Ready(Ok(mem::replace(&mut self.receiver.received, none)))
            }
            Poll::Ready(Err(error)) => Poll::Ready(Err(error)),
            Poll::Pending => Poll::Pending,
        }
    }
}

impl<T: Drop, S: Stream<Item = T>> Future for Transfer<S, T> {
    type Output = Result<Vec<T>, AllocError>;

    ghost can_poll = { λ x. S.can_poll x.sender.source × (x.queue.is_closed ≡ false) };

    ghost run = { StepsToValue (TransferStep S.run) };

    ghost laws = { transfer_laws S.laws };

    fn poll(&mut self, cx: &mut Context<'_>) -> Poll<Result<Vec<T>, AllocError>> {
        match self.sender.poll_send(&mut self.queue, cx) {
            Poll::Ready(Ok(())) => self.receive(cx),
            Poll::Ready(Err(error)) => Poll::Ready(Err(error)),
            Poll::Pending => self.receive(cx),
        }
    }
}
