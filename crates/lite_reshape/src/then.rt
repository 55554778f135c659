ghost use Rattle.std.specs.Prelude.{Option, None, ℕ, ◌≡◌, ◌∷◌, [], IfSome};
ghost use Rattle.lite_reshape.specs.Uses.{Keeps, Registered, Calls, ok_counting, OptionBy, SameItem, AgreeFrom};
ghost use Rattle.lite_reshape.specs.FlatMap.{EachMade};
ghost use Rattle.lite_reshape.specs.Expanding.{HeldRegisters};
ghost use Rattle.lite_reshape.specs.Laws.Expanding.{held_counting, held_ranks};
ghost use Rattle.lite_reshape.specs.Laws.Then.{hands_one, then_calm, then_laws, then_steady, then_arms};
ghost use Rattle.lite_reshape.specs.Then.{CanThen, HandsOut, MakesEach, Thens, then_hint, then_parts};

use lite_base::{
    ArmedFuture, ArmedStream, CalmFuture, CalmStream, Context, Counted, Future, OkCounted, Poll,
    SteadyFuture, SteadyStream, Stream, ready,
};

/// A stream that yields the values of the futures that a function returns for the items of another stream.
///
/// Returned by [`then`](crate::make::then). A future is polled in the call that made it. While it is pending
/// it is kept, and the other stream is not polled.
#[derive(Debug, Drop)]
pub struct Then<S, F, Fut> {
    pub(crate) stream: S,
    pub(crate) future: Option<Fut>,
    pub(crate) f: F,
}

impl<S: Stream, F, Fut: Future + Drop> Then<S, F, Fut> {
    // Polls a future that was just made, and keeps it if it is pending.
    #[inline(always)]
    #[tactic(auto, using(crate::specs::Laws::Then::hands_rules))]
    fn poll_made(&mut self, mut future: Fut, cx: &mut Context<'_>) -> Poll<Option<Fut::Output>>
        requires free { self.old.future ≡ None }
        requires can_poll { Fut.can_poll future }
        ensures given { HandsOut Fut.run future (result ∷ []) self.new.future }
        ensures same { self.new ≡ record self.old { future = self.new.future } }
        ensures again { IfSome self.new.future Fut.can_poll }
        ensures registered { Registered result (HeldRegisters S.registers Fut.registers self.new.stream self.new.future) cx.new }
        ensures context { Keeps cx.old cx.new }
    {
        match future.poll(cx) {
            Poll::Ready(value) => Poll::Ready(Some(value)),
            Poll::Pending => {
                self.future = Some(future);
                Poll::Pending
            }
        }
    }
}

impl<S: Stream, F: FnMut(S::Item) -> Fut, Fut: Future + Drop> Stream for Then<S, F, Fut> {
    type Item = Fut::Output;

    ghost can_poll = { CanThen S.can_poll (MakesEach S.run F.FnMut Fut.can_poll) Fut.can_poll };

    ghost run = { Thens S.run (Calls F.FnMut) Fut.run };

    ghost registers = { λ m. HeldRegisters S.registers Fut.registers m.stream m.future };

    ghost hints = { λ m hint. (inner : ℕ × Option ℕ) × S.hints m.stream inner × (hint ≡ then_hint m.future inner) };

    ghost laws = { then_laws F.FnMut S.laws Fut.laws };

    #[tactic(auto, using(lite_base::specs::Laws::EachItem::each_rules))]
    fn poll_next(&mut self, cx: &mut Context<'_>) -> Poll<Option<Fut::Output>> {
        match &mut self.future {
            Some(future) => {
                let value = ready!(future.poll(cx));
                self.future = None;
                Poll::Ready(Some(value))
            }
            None => match ready!(self.stream.poll_next(cx)) {
                Some(item) => {
                    let future = (self.f)(item);
                    self.poll_made(future, cx)
                }
                None => Poll::Ready(None),
            },
        }
    }

    fn size_hint(&self) -> (usize, Option<usize>) {
        let (lower, upper) = self.stream.size_hint();
        if self.future.is_none() {
            return (lower, upper);
        }
        (
            lower.saturating_add(1),
            upper.and_then(|most| most.checked_add(1)),
        )
    }
}

impl<S: Counted, F: FnMut(S::Item) -> Fut, Fut: Future + Drop> Counted for Then<S, F, Fut> {
    ghost ranks = { held_ranks then_parts S.ranks };

    ghost counting = { held_counting then_parts S.laws S.counting hands_one };
}

impl<
    T,
    E,
    S: Counted,
    F: FnMut(S::Item) -> Fut,
    Fut: Future<Output = Result<T, E>> + Drop,
> OkCounted for Then<S, F, Fut> {
    type Ok = T;

    type Err = E;

    ghost ok_ranks = { held_ranks then_parts S.ranks };

    ghost ok_counting = { ok_counting (held_counting then_parts S.laws S.counting hands_one) };
}

impl<S: SteadyStream, F: FnMut(S::Item) -> Fut, Fut: SteadyFuture + Drop> SteadyStream
    for Then<S, F, Fut> {
    ghost ample = { Thens S.ample (Calls F.FnMut) Fut.ample };

    ghost needs_none = { S.needs_none × Fut.needs_none };

    ghost same = { Fut.same };

    ghost alike = { λ x y. S.alike x.stream y.stream
        × (AgreeFrom (SameItem S.same) Fut.alike (Calls F.FnMut) x.f y.f × OptionBy Fut.alike x.future y.future) };

    ghost steady = { then_steady Fut.same Fut.steady S.same (Calls F.FnMut) S.steady };
}

impl<S: CalmStream, F: FnMut(S::Item) -> Fut, Fut: CalmFuture + Drop> CalmStream
    for Then<S, F, Fut> {
    ghost is_calm = { λ m. S.is_calm m.stream × EachMade F.FnMut Fut.is_calm m.f m.future };

    ghost calm = { then_calm Fut.calm F.FnMut S.calm };
}

impl<S: ArmedStream, F: FnMut(S::Item) -> Fut, Fut: ArmedFuture + Drop> ArmedStream
    for Then<S, F, Fut> {
    ghost armed = { then_arms Fut.armed F.FnMut S.armed };
}
