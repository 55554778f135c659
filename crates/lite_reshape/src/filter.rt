ghost use Rattle.std.specs.Prelude.{Option, ℕ, ◌≡◌, []};
ghost use Rattle.lite_reshape.specs.Uses.{ranks_of, CalledAt, Terminates-map, Accepts, through_counting, ok_counting, AgreeFrom, SameItem};
ghost use Rattle.lite_reshape.specs.Uses.{through_calm, through_steady_over};
ghost use Rattle.lite_base.specs.EachItem.{MayShowEach};
ghost use Rattle.lite_stream.specs.Laws.Pointwise.{asks_testing};
ghost use Rattle.lite_stream.specs.Laws.Through.{laws_capped};
ghost use Rattle.lite_reshape.specs.Filter.{CanFilter, Filters, filter_parts};
ghost use Rattle.lite_reshape.specs.Leaving.{Sifts};
ghost use Rattle.lite_reshape.specs.Laws.Agreeing.{leaves_testing};
ghost use Rattle.lite_reshape.specs.Laws.Leaving.{leaves_calming, leaves_on, leaves_relating, leaves_arming};
ghost use Rattle.lite_stream.specs.Laws.Arming.{through_arms};

use lite_base::{
    ArmedStream, CalmStream, Context, Counted, OkCounted, Poll, PollSteps, SteadyStream, Stream,
    drive,
};

/// A stream that yields the items of another stream for which a predicate returns true.
///
/// Returned by [`filter`](crate::make::filter). One poll may skip many items, up to a kept one, `Pending` or
/// an end. So the other stream must be `Counted`.
#[derive(Debug, Drop)]
pub struct Filter<S, P> {
    pub(crate) stream: S,
    pub(crate) predicate: P,
}

impl<S: Counted<Item: Drop>, P: FnMut(&S::Item) -> bool> PollSteps for Filter<S, P> {
    type Output = Option<S::Item>;

    ghost can_step = { CanFilter S.can_poll S.ranks (MayShowEach S.run P.FnMut) };

    ghost step = { Sifts (Accepts (CalledAt P.FnMut)) S.run (CanFilter S.can_poll S.ranks (MayShowEach S.run P.FnMut))
        (λ m. m.stream) (λ m. m.predicate) };

    ghost step_registers = { λ m. S.registers m.stream };

    ghost goes_on = { λ x y c h. h.0 };

    ghost finite = { λ x c. Terminates-map (λ m. m.stream) (λ m n h. (h.1.0, [], h.1.1)) x (S.ends x.stream c.1) };

    #[tactic(auto, using(lite_base::specs::Laws::EachItem::each_rules))]
    fn poll_step(&mut self, cx: &mut Context<'_>) -> Option<Poll<Option<S::Item>>> {
        match self.stream.poll_next(cx) {
            Poll::Ready(Some(item)) => {
                if (self.predicate)(&item) {
                    Some(Poll::Ready(Some(item)))
                } else {
                    None
                }
            }
            Poll::Ready(None) => Some(Poll::Ready(None)),
            Poll::Pending => Some(Poll::Pending),
        }
    }
}

impl<S: Counted<Item: Drop>, P: FnMut(&S::Item) -> bool> Stream for Filter<S, P> {
    type Item = S::Item;

    ghost can_poll = { CanFilter S.can_poll S.ranks (MayShowEach S.run P.FnMut) };

    ghost run = { Filters S.run (CalledAt P.FnMut) };

    ghost registers = { λ m. S.registers m.stream };

    ghost hints = { λ m hint. (inner : ℕ × Option ℕ) × S.hints m.stream inner × (hint ≡ (0, inner.1)) };

    ghost laws = { laws_capped filter_parts S.laws (leaves_relating (Accepts (CalledAt P.FnMut)))
        (leaves_on _ (CalledAt P.FnMut) (asks_testing _) filter_parts S.laws S.counting) };

    fn poll_next(&mut self, cx: &mut Context<'_>) -> Poll<Option<S::Item>> {
        drive(self, cx)
    }

    fn size_hint(&self) -> (usize, Option<usize>) {
        (0, self.stream.size_hint().1)
    }
}

impl<S: Counted<Item: Drop>, P: FnMut(&S::Item) -> bool> Counted for Filter<S, P> {
    ghost ranks = { ranks_of (λ m. m.stream) S.ranks };

    ghost counting = { through_counting filter_parts S.counting (leaves_relating (Accepts (CalledAt P.FnMut))) };
}

impl<T: Drop, E: Drop, S: Counted<Item = Result<T, E>>, P: FnMut(&Result<T, E>) -> bool> OkCounted
    for Filter<S, P> {
    type Ok = T;

    type Err = E;

    ghost ok_ranks = { ranks_of (λ m. m.stream) S.ranks };

    ghost ok_counting = { ok_counting (through_counting filter_parts S.counting (leaves_relating (Accepts (CalledAt P.FnMut)))) };
}

impl<S: Counted<Item: Drop> + SteadyStream, P: FnMut(&S::Item) -> bool> SteadyStream
    for Filter<S, P> {
    ghost ample = { Filters S.ample (CalledAt P.FnMut) };

    ghost needs_none = { S.needs_none };

    ghost same = { S.same };

    ghost alike = { λ x y. S.alike x.stream y.stream
        × AgreeFrom (SameItem S.same) (λ y z. y ≡ z) (CalledAt P.FnMut) x.predicate y.predicate };

    ghost steady = { through_steady_over filter_parts S.same S.same S.steady
        (leaves_relating (Accepts (CalledAt P.FnMut))).following
        (leaves_testing (CalledAt P.FnMut) S.same) };
}

impl<S: Counted<Item: Drop> + CalmStream, P: FnMut(&S::Item) -> bool> CalmStream for Filter<S, P> {
    ghost is_calm = { λ m. S.is_calm m.stream };

    ghost calm = { through_calm filter_parts S.calm (leaves_calming (Accepts (CalledAt P.FnMut))) };
}

impl<S: Counted<Item: Drop> + ArmedStream, P: FnMut(&S::Item) -> bool> ArmedStream
    for Filter<S, P> {
    ghost armed = { through_arms filter_parts S.armed (leaves_arming (Accepts (CalledAt P.FnMut))) };
}
