ghost use Rattle.std.specs.Prelude.{◌≡◌, None};
ghost use Rattle.lite_stream.specs.Uses.{ranks_of, CalledAt, Accepts, NoHint, ok_counting, SameItem, AgreeFrom, MayShowEach};
ghost use Rattle.lite_stream.specs.TakeWhile.{TakesWhile, take_while_parts};
ghost use Rattle.lite_stream.specs.Laws.Agreeing.{through_steady_over};
ghost use Rattle.lite_stream.specs.Laws.Calming.{through_calm};
ghost use Rattle.lite_stream.specs.Laws.Pointwise.{asks_testing, exchanges_calming, exchanges_on, exchanges_relating, exchanges_testing, exchanges_arming};
ghost use Rattle.lite_stream.specs.Laws.Through.{laws_unhinted, through_counting};
ghost use Rattle.lite_stream.specs.Laws.Arming.{through_arms};

use lite_base::{
    ArmedStream, CalmStream, Context, Counted, OkCounted, Poll, SteadyStream, Stream, ready,
};

/// A stream that yields the items of another stream, and ends at each item for which a predicate returns
/// false.
///
/// Returned by [`take_while`](crate::make::take_while). The item for which the predicate returns false is
/// dropped. The end is not for ever: the next poll polls the other stream again.
#[derive(Debug, Drop)]
pub struct TakeWhile<S, P> {
    pub(crate) stream: S,
    pub(crate) predicate: P,
}

impl<S: Stream<Item: Drop>, P: FnMut(&S::Item) -> bool> Stream for TakeWhile<S, P> {
    type Item = S::Item;

    ghost can_poll = { λ m. S.can_poll m.stream × MayShowEach S.run P.FnMut m.stream m.predicate };

    ghost run = { TakesWhile S.run (CalledAt P.FnMut) };

    ghost registers = { λ m. S.registers m.stream };

    ghost hints = { NoHint };

    ghost laws = { laws_unhinted take_while_parts S.laws (exchanges_relating (Accepts (CalledAt P.FnMut)))
        (exchanges_on _ (CalledAt P.FnMut) (asks_testing _) take_while_parts S.laws) };

    #[tactic(auto, using(lite_base::specs::Laws::EachItem::each_rules))]
    fn poll_next(&mut self, cx: &mut Context<'_>) -> Poll<Option<S::Item>> {
        match ready!(self.stream.poll_next(cx)) {
            Some(item) if (self.predicate)(&item) => Poll::Ready(Some(item)),
            Some(_) => Poll::Ready(None),
            None => Poll::Ready(None),
        }
    }

    fn size_hint(&self) -> (usize, Option<usize>) {
        (0, None)
    }
}

impl<S: Counted<Item: Drop>, P: FnMut(&S::Item) -> bool> Counted for TakeWhile<S, P> {
    ghost ranks = { ranks_of (λ m. m.stream) S.ranks };

    ghost counting = { through_counting take_while_parts S.counting (exchanges_relating (Accepts (CalledAt P.FnMut))) };
}

impl<T: Drop, E: Drop, S: Counted<Item = Result<T, E>>, P: FnMut(&Result<T, E>) -> bool> OkCounted
    for TakeWhile<S, P> {
    type Ok = T;

    type Err = E;

    ghost ok_ranks = { ranks_of (λ m. m.stream) S.ranks };

    ghost ok_counting = { ok_counting
        (through_counting take_while_parts S.counting (exchanges_relating (Accepts (CalledAt P.FnMut)))) };
}

impl<S: SteadyStream<Item: Drop>, P: FnMut(&S::Item) -> bool> SteadyStream for TakeWhile<S, P> {
    ghost ample = { TakesWhile S.ample (CalledAt P.FnMut) };

    ghost needs_none = { S.needs_none };

    ghost same = { S.same };

    ghost alike = { λ x y. S.alike x.stream y.stream
        × AgreeFrom (SameItem S.same) (λ y z. y ≡ z) (CalledAt P.FnMut) x.predicate y.predicate };

    ghost steady = { through_steady_over take_while_parts S.same S.same S.steady
        (exchanges_relating (Accepts (CalledAt P.FnMut))).following
        (exchanges_testing (CalledAt P.FnMut) S.same) };
}

impl<S: CalmStream<Item: Drop>, P: FnMut(&S::Item) -> bool> CalmStream for TakeWhile<S, P> {
    ghost is_calm = { λ m. S.is_calm m.stream };

    ghost calm = { through_calm take_while_parts S.calm (exchanges_calming (Accepts (CalledAt P.FnMut))) };
}

impl<S: ArmedStream<Item: Drop>, P: FnMut(&S::Item) -> bool> ArmedStream for TakeWhile<S, P> {
    ghost armed = { through_arms take_while_parts S.armed (exchanges_arming (Accepts (CalledAt P.FnMut))) };
}
