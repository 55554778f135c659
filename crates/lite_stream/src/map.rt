ghost use Rattle.lite_stream.specs.Uses.{ranks_of, Calls, ok_counting, AgreeOver, Answering, MayCallEach};
ghost use Rattle.lite_stream.specs.Map.{Maps, map_parts};
ghost use Rattle.lite_stream.specs.Laws.Agreeing.{through_steady_over};
ghost use Rattle.lite_stream.specs.Laws.Calming.{through_calm};
ghost use Rattle.lite_stream.specs.Laws.Pointwise.{asks_always, exchanges_on, replaces_answering, replaces_calming, replaces_relating, replaces_arming};
ghost use Rattle.lite_stream.specs.Laws.Through.{laws_hinted, through_counting};
ghost use Rattle.lite_stream.specs.Laws.Arming.{through_arms};

use lite_base::{
    ArmedStream, CalmStream, Context, Counted, OkCounted, Poll, SteadyStream, Stream, ready,
};

/// A stream that yields what a function returns for each item of another stream.
///
/// Returned by [`map`](crate::make::map). `Pending` and the end of the other stream pass through.
#[derive(Debug, Drop)]
pub struct Map<S, F> {
    pub(crate) stream: S,
    pub(crate) f: F,
}

impl<U, S: Stream, F: FnMut(S::Item) -> U> Stream for Map<S, F> {
    type Item = U;

    ghost can_poll = { λ m. S.can_poll m.stream × MayCallEach S.run F.FnMut m.stream m.f };

    ghost run = { Maps S.run (Calls F.FnMut) };

    ghost registers = { λ m. S.registers m.stream };

    ghost hints = { λ m hint. S.hints m.stream hint };

    ghost laws = { laws_hinted map_parts S.laws (replaces_relating (Calls F.FnMut))
        (exchanges_on _ (Calls F.FnMut) (asks_always _) map_parts S.laws) };

    #[tactic(auto, using(lite_base::specs::Laws::EachItem::each_rules))]
    fn poll_next(&mut self, cx: &mut Context<'_>) -> Poll<Option<U>> {
        match ready!(self.stream.poll_next(cx)) {
            Some(x) => Poll::Ready(Some((self.f)(x))),
            None => Poll::Ready(None),
        }
    }

    fn size_hint(&self) -> (usize, Option<usize>) {
        self.stream.size_hint()
    }
}

impl<U, S: Counted, F: FnMut(S::Item) -> U> Counted for Map<S, F> {
    ghost ranks = { ranks_of (λ m. m.stream) S.ranks };

    ghost counting = { through_counting map_parts S.counting (replaces_relating (Calls F.FnMut)) };
}

impl<T, E, S: Counted, F: FnMut(S::Item) -> Result<T, E>> OkCounted for Map<S, F> {
    type Ok = T;

    type Err = E;

    ghost ok_ranks = { ranks_of (λ m. m.stream) S.ranks };

    ghost ok_counting = { ok_counting (through_counting map_parts S.counting (replaces_relating (Calls F.FnMut))) };
}

impl<U, S: SteadyStream, F: FnMut(S::Item) -> U> SteadyStream for Map<S, F> {
    ghost ample = { Maps S.ample (Calls F.FnMut) };

    ghost needs_none = { S.needs_none };

    ghost same = { Answering S.same (Calls F.FnMut) };

    ghost alike = { λ x y. S.alike x.stream y.stream × AgreeOver S.same (Calls F.FnMut) x.f y.f };

    ghost steady = { through_steady_over map_parts S.same (Answering S.same (Calls F.FnMut)) S.steady
        (replaces_relating (Calls F.FnMut)).following
        (replaces_answering (Calls F.FnMut) S.same) };
}

impl<U, S: CalmStream, F: FnMut(S::Item) -> U> CalmStream for Map<S, F> {
    ghost is_calm = { λ m. S.is_calm m.stream };

    ghost calm = { through_calm map_parts S.calm (replaces_calming (Calls F.FnMut)) };
}

impl<U, S: ArmedStream, F: FnMut(S::Item) -> U> ArmedStream for Map<S, F> {
    ghost armed = { through_arms map_parts S.armed (replaces_arming (Calls F.FnMut)) };
}
