//! A bounded queue.
ghost use Rattle.std.specs.Prelude.{◌≡◌, ◌<◌, ◌++◌, ◌∷◌, [], IfErr, IsTrue, OnOk, false, length, true};
ghost use Rattle.std.specs.List.{FoldsTo};
ghost use Rattle.futures_lite.specs.Own.{NoHint, stream_by_steps, stream_counting};
ghost use Rattle.futures_lite.specs.Ranks.{number_ranks};
ghost use Rattle.example_queue.specs.Queue.{HandsBack, QueueStep, Queued};
ghost use Rattle.example_queue.specs.QueueLaws.{items_waiting, queue_lowers};

use crate::send_error::SendError;
use futures_lite::stream::Counted;
use futures_lite::{Context, Poll, Stream};
use std::alloc::{AllocFailed, Global};
use std::collections::VecDeque;
use std::marker::Model;

/// A bounded queue. It is a stream of its items, in the order in which they were sent.
#[derive(Drop)]
pub struct Queue<T> {
    items: VecDeque<T>,
    bound: usize,
    is_closed: bool,
}

impl<T> Model for Queue<T> {
    ghost use Rattle.example_queue.specs.Queue.{Queued};

    ghost Value = { Queued T };

    ghost view = { λ q. record { waiting = q.items.items; bound = q.bound; is_closed = q.is_closed } };
}

impl<T> Queue<T> {
    /// Returns an empty queue that may hold `bound` items. It allocates nothing.
    pub fn new(alloc: Global, bound: usize) -> Queue<T>
        ensures { result ≡ record { waiting = []; bound = bound; is_closed = false } }
    {
        Queue {
            items: VecDeque::new(alloc),
            bound,
            is_closed: false,
        }
    }

    /// Appends the item. If it is refused, the error hands it back, and the queue is unchanged.
    pub fn send(&mut self, item: T) -> Result<(), SendError<T>>
        ensures sent { OnOk result (self.new ≡ record self.old { waiting = self.old.waiting ++ item ∷ [] }) }
        ensures within { OnOk result (length self.old.waiting < self.old.bound) }
        ensures unchanged { IfErr result (λ _. self.new ≡ self.old) }
        ensures refused { IfErr result (HandsBack self.old item) }
    {
        if self.is_closed {
            return Err(SendError::Closed(item));
        }
        if self.items.len() >= self.bound {
            return Err(SendError::Full(item));
        }
        match self.items.push_back(item) {
            Ok(()) => Ok(()),
            Err(AllocFailed { value }) => Err(SendError::Memory(value)),
        }
    }

    /// Says that no item is to come. The items that wait can still be received.
    pub fn close(&mut self)
        ensures { self.new ≡ record self.old { is_closed = true } }
    {
        self.is_closed = true;
    }
}

impl<T> Stream for Queue<T> {
    type Item = T;

    ghost run = { FoldsTo QueueStep };

    ghost hints = { NoHint };

    ghost laws = { stream_by_steps QueueStep };

    fn poll_next(&mut self, _cx: &mut Context<'_>) -> Poll<Option<T>> {
        match self.items.pop_front() {
            Some(item) => Poll::Ready(Some(item)),
            None if self.is_closed => Poll::Ready(None),
            None => Poll::Pending,
        }
    }

    fn size_hint(&self) -> (usize, Option<usize>) {
        (0, None)
    }
}

// The number of items that wait falls with each item.
impl<T> Counted for Queue<T> {
    ghost ranks = { number_ranks items_waiting };

    ghost counting = { stream_counting queue_lowers };
}
