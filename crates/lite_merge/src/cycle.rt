ghost use Rattle.std.specs.Prelude.{◌≡◌, [], ◌∷◌, IfSome, None, Result, Some};
ghost use Rattle.lite_merge.specs.Uses.{Keeps, Registered, NoHint};
ghost use Rattle.std.specs.declared.alloc.AllocError.{AllocError};
ghost use Rattle.lite_merge.specs.Cycle.{AllCopies, Cycles, Renews};
ghost use Rattle.lite_merge.specs.Laws.Cycle.{cycle_calm, cycle_laws, cycle_arms};

use lite_base::{ArmedStream, CalmStream, Context, Poll, Stream, ready};
use std::alloc::AllocError;

/// A stream that yields the items of another stream over and over.
///
/// Returned by [`cycle`](crate::make::cycle), which keeps a clone of the stream as it was passed. When the
/// stream ends, it clones that one and returns the clone's first result in the same poll, even if that is an
/// end. So the cycle of an empty stream returns `Ready(None)`, and the next poll polls the same clone.
///
/// An item is `Ok`. `Err(AllocError)` means that a clone was refused for want of memory. The next poll tries
/// again, without polling the stream that has ended. A clone is what the stream's own `Clone` returns. In
/// futures-lite a clone is never refused, so its items are not `Result`s.
#[derive(Clone, Debug, Drop)]
pub struct Cycle<S> {
    pub(crate) original: S,

    // None if the stream has ended and its clone was refused.
    pub(crate) stream: Option<S>,
}

impl<S: Stream + Clone> Cycle<S> {
    // Makes a clone and continues with it: returns its first result, or the refusal.
    fn renew(&mut self, cx: &mut Context<'_>) -> Poll<Option<Result<S::Item, AllocError>>>
        requires { (copy : S) → S.is_clone self.old.original copy → S.can_poll copy }
        ensures ran { (asked : Result S AllocError)
            × Renews S.run S.is_clone S.is_infallible self.old.original asked (result ∷ []) self.new.stream }
        ensures original { self.new.original ≡ self.old.original }
        ensures again { IfSome self.new.stream S.can_poll }
        ensures registered { Registered result (λ fact. (s : S) × (self.new.stream ≡ Some s) × S.registers s fact) cx.new }
        ensures context { Keeps cx.old cx.new }
    {
        let mut copy = match self.original.clone() {
            Ok(copy) => copy,
            Err(refused) => {
                self.stream = None;
                return Poll::Ready(Some(Err(refused)));
            }
        };
        let answer = copy.poll_next(cx);
        self.stream = Some(copy);
        match ready!(answer) {
            Some(item) => Poll::Ready(Some(Ok(item))),
            None => Poll::Ready(None),
        }
    }
}

impl<S: Stream + Clone> Stream for Cycle<S> {
    type Item = Result<S::Item, AllocError>;

    ghost can_poll = { AllCopies S.can_poll S.is_clone };

    ghost run = { Cycles S.run S.is_clone S.is_infallible };

    ghost registers = { λ m fact. (s : S) × (m.stream ≡ Some s) × S.registers s fact };

    ghost hints = { NoHint };

    ghost laws = { cycle_laws S.is_clone S.is_infallible S.laws };

    fn poll_next(&mut self, cx: &mut Context<'_>) -> Poll<Option<Result<S::Item, AllocError>>> {
        match &mut self.stream {
            Some(stream) => match ready!(stream.poll_next(cx)) {
                Some(item) => Poll::Ready(Some(Ok(item))),
                None => self.renew(cx),
            },
            None => self.renew(cx),
        }
    }

    fn size_hint(&self) -> (usize, Option<usize>) {
        (0, None)
    }
}

impl<S: CalmStream + Clone> CalmStream for Cycle<S> {
    ghost is_calm = { AllCopies S.is_calm S.is_clone };

    ghost calm = { cycle_calm S.is_clone S.is_infallible S.calm };
}

impl<S: ArmedStream + Clone> ArmedStream for Cycle<S> {
    ghost armed = { cycle_arms S.is_clone S.is_infallible S.laws S.armed };
}
