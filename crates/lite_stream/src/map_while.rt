ghost use Rattle.std.specs.Prelude.{None};
ghost use Rattle.lite_stream.specs.Uses.{ranks_of, Calls, NoHint, ok_counting, AgreeKeeping, Keeping, MayCallEach};
ghost use Rattle.lite_stream.specs.MapWhile.{MapsWhile, map_while_parts};
ghost use Rattle.lite_stream.specs.Laws.Agreeing.{through_steady_over};
ghost use Rattle.lite_stream.specs.Laws.Calming.{through_calm};
ghost use Rattle.lite_stream.specs.Laws.Pointwise.{exchanges_calming, exchanges_keeping, exchanges_on, exchanges_relating, exchanges_arming};
ghost use Rattle.lite_stream.specs.Laws.Through.{laws_unhinted, through_counting};
ghost use Rattle.lite_stream.specs.Laws.Arming.{through_arms};

use lite_base::{
    ArmedStream, CalmStream, Context, Counted, OkCounted, Poll, SteadyStream, Stream, ready,
};

/// A stream that yields the values that a function returns for the items of another stream, and ends at each
/// `None`.
///
/// Returned by [`map_while`](crate::make::map_while). The end at a `None` is not for ever: the next poll
/// polls the other stream again.
#[derive(Debug, Drop)]
pub struct MapWhile<S, F> {
    pub(crate) stream: S,
    pub(crate) f: F,
}

impl<B, S: Stream, F: FnMut(S::Item) -> Option<B>> Stream for MapWhile<S, F> {
    type Item = B;

    ghost can_poll = { λ m. S.can_poll m.stream × MayCallEach S.run F.FnMut m.stream m.f };

    ghost run = { MapsWhile S.run (Calls F.FnMut) };

    ghost registers = { λ m. S.registers m.stream };

    ghost hints = { NoHint };

    ghost laws = { laws_unhinted map_while_parts S.laws (exchanges_relating (Calls F.FnMut))
        (exchanges_on (Calls F.FnMut) _ (λ p q x y c. (y, c)) map_while_parts S.laws) };

    #[tactic(auto, using(lite_base::specs::Laws::EachItem::each_rules))]
    fn poll_next(&mut self, cx: &mut Context<'_>) -> Poll<Option<B>> {
        match ready!(self.stream.poll_next(cx)) {
            Some(item) => Poll::Ready((self.f)(item)),
            None => Poll::Ready(None),
        }
    }

    fn size_hint(&self) -> (usize, Option<usize>) {
        (0, None)
    }
}

impl<B, S: Counted, F: FnMut(S::Item) -> Option<B>> Counted for MapWhile<S, F> {
    ghost ranks = { ranks_of (λ m. m.stream) S.ranks };

    ghost counting = { through_counting map_while_parts S.counting (exchanges_relating (Calls F.FnMut)) };
}

impl<T, E, S: Counted, F: FnMut(S::Item) -> Option<Result<T, E>>> OkCounted for MapWhile<S, F> {
    type Ok = T;

    type Err = E;

    ghost ok_ranks = { ranks_of (λ m. m.stream) S.ranks };

    ghost ok_counting = { ok_counting (through_counting map_while_parts S.counting (exchanges_relating (Calls F.FnMut))) };
}

impl<B, S: SteadyStream, F: FnMut(S::Item) -> Option<B>> SteadyStream for MapWhile<S, F> {
    ghost ample = { MapsWhile S.ample (Calls F.FnMut) };

    ghost needs_none = { S.needs_none };

    ghost same = { Keeping S.same (Calls F.FnMut) };

    ghost alike = { λ x y. S.alike x.stream y.stream × AgreeKeeping S.same (Calls F.FnMut) x.f y.f };

    ghost steady = { through_steady_over map_while_parts S.same (Keeping S.same (Calls F.FnMut)) S.steady
        (exchanges_relating (Calls F.FnMut)).following
        (exchanges_keeping (Calls F.FnMut) S.same) };
}

impl<B, S: CalmStream, F: FnMut(S::Item) -> Option<B>> CalmStream for MapWhile<S, F> {
    ghost is_calm = { λ m. S.is_calm m.stream };

    ghost calm = { through_calm map_while_parts S.calm (exchanges_calming (Calls F.FnMut)) };
}

impl<B, S: ArmedStream, F: FnMut(S::Item) -> Option<B>> ArmedStream for MapWhile<S, F> {
    ghost armed = { through_arms map_while_parts S.armed (exchanges_arming (Calls F.FnMut)) };
}
