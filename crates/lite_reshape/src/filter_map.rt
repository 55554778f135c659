ghost use Rattle.std.specs.Prelude.{[], None};
ghost use Rattle.lite_reshape.specs.Uses.{ranks_of, Terminates-map, MayCallEach, Calls, NoHint, laws_unhinted, through_counting, ok_counting, AgreeKeeping};
ghost use Rattle.lite_reshape.specs.Uses.{Keeping, through_calm, through_steady_over};
ghost use Rattle.lite_reshape.specs.FilterMap.{CanFilterMap, FilterMaps, filter_map_parts};
ghost use Rattle.lite_reshape.specs.Leaving.{Sifts};
ghost use Rattle.lite_reshape.specs.Laws.Agreeing.{leaves_keeping};
ghost use Rattle.lite_reshape.specs.Laws.Leaving.{leaves_calming, leaves_on, leaves_relating, leaves_arming};
ghost use Rattle.lite_stream.specs.Laws.Arming.{through_arms};

use lite_base::{
    ArmedStream, CalmStream, Context, Counted, OkCounted, Poll, PollSteps, SteadyStream, Stream,
    drive,
};

/// A stream that yields the values for which a function, called with the items of another stream, returns
/// `Some`.
///
/// Returned by [`filter_map`](crate::make::filter_map). One poll may skip many items, up to a kept one,
/// `Pending` or an end. So the other stream must be `Counted`.
#[derive(Debug, Drop)]
pub struct FilterMap<S, F> {
    pub(crate) stream: S,
    pub(crate) f: F,
}

impl<B, S: Counted, F: FnMut(S::Item) -> Option<B>> PollSteps for FilterMap<S, F> {
    type Output = Option<B>;

    ghost can_step = { CanFilterMap S.can_poll S.ranks (MayCallEach S.run F.FnMut) };

    ghost step = { Sifts (Calls F.FnMut) S.run (CanFilterMap S.can_poll S.ranks (MayCallEach S.run F.FnMut)) (λ m. m.stream)
        (λ m. m.f) };

    ghost step_registers = { λ m. S.registers m.stream };

    ghost goes_on = { λ x y c h. h.0 };

    ghost finite = { λ x c. Terminates-map (λ m. m.stream) (λ m n h. (h.1.0, [], h.1.1)) x (S.ends x.stream c.1) };

    #[tactic(auto, using(lite_base::specs::Laws::EachItem::each_rules))]
    fn poll_step(&mut self, cx: &mut Context<'_>) -> Option<Poll<Option<B>>> {
        match self.stream.poll_next(cx) {
            Poll::Ready(Some(item)) => {
                let value = (self.f)(item)?;
                Some(Poll::Ready(Some(value)))
            }
            Poll::Ready(None) => Some(Poll::Ready(None)),
            Poll::Pending => Some(Poll::Pending),
        }
    }
}

impl<B, S: Counted, F: FnMut(S::Item) -> Option<B>> Stream for FilterMap<S, F> {
    type Item = B;

    ghost can_poll = { CanFilterMap S.can_poll S.ranks (MayCallEach S.run F.FnMut) };

    ghost run = { FilterMaps S.run (Calls F.FnMut) };

    ghost registers = { λ m. S.registers m.stream };

    ghost hints = { NoHint };

    ghost laws = { laws_unhinted filter_map_parts S.laws (leaves_relating (Calls F.FnMut))
        (leaves_on (Calls F.FnMut) _ (λ p q x y c. (y, c)) filter_map_parts S.laws S.counting) };

    fn poll_next(&mut self, cx: &mut Context<'_>) -> Poll<Option<B>> {
        drive(self, cx)
    }

    fn size_hint(&self) -> (usize, Option<usize>) {
        (0, None)
    }
}

impl<B, S: Counted, F: FnMut(S::Item) -> Option<B>> Counted for FilterMap<S, F> {
    ghost ranks = { ranks_of (λ m. m.stream) S.ranks };

    ghost counting = { through_counting filter_map_parts S.counting (leaves_relating (Calls F.FnMut)) };
}

impl<T, E, S: Counted, F: FnMut(S::Item) -> Option<Result<T, E>>> OkCounted for FilterMap<S, F> {
    type Ok = T;

    type Err = E;

    ghost ok_ranks = { ranks_of (λ m. m.stream) S.ranks };

    ghost ok_counting = { ok_counting (through_counting filter_map_parts S.counting (leaves_relating (Calls F.FnMut))) };
}

impl<B, S: Counted + SteadyStream, F: FnMut(S::Item) -> Option<B>> SteadyStream
    for FilterMap<S, F> {
    ghost ample = { FilterMaps S.ample (Calls F.FnMut) };

    ghost needs_none = { S.needs_none };

    ghost same = { Keeping S.same (Calls F.FnMut) };

    ghost alike = { λ x y. S.alike x.stream y.stream × AgreeKeeping S.same (Calls F.FnMut) x.f y.f };

    ghost steady = { through_steady_over filter_map_parts S.same (Keeping S.same (Calls F.FnMut)) S.steady
        (leaves_relating (Calls F.FnMut)).following
        (leaves_keeping (Calls F.FnMut) S.same) };
}

impl<B, S: Counted + CalmStream, F: FnMut(S::Item) -> Option<B>> CalmStream for FilterMap<S, F> {
    ghost is_calm = { λ m. S.is_calm m.stream };

    ghost calm = { through_calm filter_map_parts S.calm (leaves_calming (Calls F.FnMut)) };
}

impl<B, S: Counted + ArmedStream, F: FnMut(S::Item) -> Option<B>> ArmedStream for FilterMap<S, F> {
    ghost armed = { through_arms filter_map_parts S.armed (leaves_arming (Calls F.FnMut)) };
}
