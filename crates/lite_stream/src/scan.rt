ghost use Rattle.std.specs.Prelude.{None};
ghost use Rattle.lite_stream.specs.Uses.{ranks_of, CallsWith, NoHint, ok_counting, AgreeKeeping, Keeping};
ghost use Rattle.lite_base.specs.EachItem.{MayCallEachWith};
ghost use Rattle.lite_stream.specs.Scan.{Scans, scan_parts};
ghost use Rattle.lite_stream.specs.Laws.Agreeing.{through_steady_over};
ghost use Rattle.lite_stream.specs.Laws.Calming.{through_calm};
ghost use Rattle.lite_stream.specs.Laws.Pointwise.{exchanges_calming, exchanges_keeping, exchanges_on, exchanges_relating, exchanges_arming};
ghost use Rattle.lite_stream.specs.Laws.Through.{laws_unhinted, through_counting};
ghost use Rattle.lite_stream.specs.Laws.Arming.{through_arms};

use lite_base::{
    ArmedStream, CalmStream, Context, Counted, OkCounted, Poll, SteadyStream, Stream, ready,
};

/// A stream that calls a function with a state and each item of another stream, and ends at each `None`.
///
/// Returned by [`scan`](crate::make::scan). The state is kept from call to call. The end at a `None` is not
/// for ever: the next poll polls the other stream again.
#[derive(Debug, Drop)]
pub struct Scan<S, St, F> {
    pub(crate) stream: S,
    pub(crate) state: St,
    pub(crate) f: F,
}

impl<St, B, S: Stream, F: FnMut(&mut St, S::Item) -> Option<B>> Stream for Scan<S, St, F> {
    type Item = B;

    ghost can_poll = { λ m. S.can_poll m.stream × MayCallEachWith S.run F.FnMut m.stream (m.f, m.state) };

    ghost run = { Scans S.run (CallsWith F.FnMut) };

    ghost registers = { λ m. S.registers m.stream };

    ghost hints = { NoHint };

    ghost laws = { laws_unhinted scan_parts S.laws (exchanges_relating (CallsWith F.FnMut))
        (exchanges_on (CallsWith F.FnMut) _ (λ p q x y c. (y, c)) scan_parts S.laws) };

    #[tactic(auto, using(lite_base::specs::Laws::EachItem::each_rules))]
    fn poll_next(&mut self, cx: &mut Context<'_>) -> Poll<Option<B>> {
        match ready!(self.stream.poll_next(cx)) {
            Some(item) => Poll::Ready((self.f)(&mut self.state, item)),
            None => Poll::Ready(None),
        }
    }

    fn size_hint(&self) -> (usize, Option<usize>) {
        (0, None)
    }
}

impl<St, B, S: Counted, F: FnMut(&mut St, S::Item) -> Option<B>> Counted for Scan<S, St, F> {
    ghost ranks = { ranks_of (λ m. m.stream) S.ranks };

    ghost counting = { through_counting scan_parts S.counting (exchanges_relating (CallsWith F.FnMut)) };
}

impl<T, E, St, S: Counted, F: FnMut(&mut St, S::Item) -> Option<Result<T, E>>> OkCounted
    for Scan<S, St, F> {
    type Ok = T;

    type Err = E;

    ghost ok_ranks = { ranks_of (λ m. m.stream) S.ranks };

    ghost ok_counting = { ok_counting (through_counting scan_parts S.counting (exchanges_relating (CallsWith F.FnMut))) };
}

impl<St, B, S: SteadyStream, F: FnMut(&mut St, S::Item) -> Option<B>> SteadyStream
    for Scan<S, St, F> {
    ghost ample = { Scans S.ample (CallsWith F.FnMut) };

    ghost needs_none = { S.needs_none };

    ghost same = { Keeping S.same (CallsWith F.FnMut) };

    ghost alike = { λ x y. S.alike x.stream y.stream × AgreeKeeping S.same (CallsWith F.FnMut) (x.f, x.state) (y.f, y.state) };

    ghost steady = { through_steady_over scan_parts S.same (Keeping S.same (CallsWith F.FnMut)) S.steady
        (exchanges_relating (CallsWith F.FnMut)).following
        (exchanges_keeping (CallsWith F.FnMut) S.same) };
}

impl<St, B, S: CalmStream, F: FnMut(&mut St, S::Item) -> Option<B>> CalmStream for Scan<S, St, F> {
    ghost is_calm = { λ m. S.is_calm m.stream };

    ghost calm = { through_calm scan_parts S.calm (exchanges_calming (CallsWith F.FnMut)) };
}

impl<St, B, S: ArmedStream, F: FnMut(&mut St, S::Item) -> Option<B>> ArmedStream
    for Scan<S, St, F> {
    ghost armed = { through_arms scan_parts S.armed (exchanges_arming (CallsWith F.FnMut)) };
}
