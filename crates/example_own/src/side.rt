//! One side of a merge.
ghost use Rattle.std.specs.Prelude.{◌≡◌};
ghost use Rattle.futures_lite.specs.Contexts.{Keeps, Registered};
ghost use Rattle.example_own.specs.Side.{Filled, unanswered};

use futures_lite::{Context, Poll, Stream};
use std::mem;

/// A stream, and its last answer until that is passed on. An end is never passed on, so the stream is not polled after it.
#[derive(Drop)]
pub struct Side<S> {
    pub stream: S,
    pub answer: Poll<Option<u32>>,
}

impl<S> Side<S> {
    /// The side of a stream that was not polled yet.
    pub fn new(stream: S) -> Side<S>
        ensures { result ≡ unanswered stream }
    {
        Side {
            stream,
            answer: Poll::Pending,
        }
    }

    /// Passes on the answer.
    pub fn pass_on(&mut self) -> Poll<Option<u32>>
        ensures answer { result ≡ self.old.answer }
        ensures left { self.new ≡ unanswered self.old.stream }
    {
        mem::replace(&mut self.answer, Poll::Pending)
    }
}

impl<S: Stream<Item = u32>> Side<S> {
    /// Polls the stream, if there is no answer.
    pub fn fill(&mut self, cx: &mut Context<'_>)
        requires { S.can_poll self.old.stream }
        ensures filled { Filled S.run self.old self.new }
        ensures again { S.can_poll self.new.stream }
        ensures registered { Registered self.new.answer (S.registers self.new.stream) cx.new }
        ensures context { Keeps cx.old cx.new }
    {
        if self.answer.is_pending() {
            self.answer = self.stream.poll_next(cx);
        }
    }
}
