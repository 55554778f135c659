ghost use Rattle.std.specs.Prelude.{[], ◌≡◌, None};
ghost use Rattle.lite_reshape.specs.Uses.{ranks_of, CalledAt, Terminates-map, NoHint, laws_unhinted, through_counting, ok_counting, OptionBy, SameItem};
ghost use Rattle.lite_reshape.specs.Uses.{AgreeFrom, through_calm, through_steady_over};
ghost use Rattle.lite_reshape.specs.Leaving.{Sifts};
ghost use Rattle.lite_reshape.specs.SkipWhile.{CanSkip, MayAskUntil, SkipsUntil, SkipsWhile, skip_while_parts};
ghost use Rattle.lite_reshape.specs.Laws.Agreeing.{leaves_until};
ghost use Rattle.lite_reshape.specs.Laws.Leaving.{leaves_calming, leaves_on, leaves_relating, leaves_arming};
ghost use Rattle.lite_stream.specs.Laws.Arming.{through_arms};

use lite_base::{
    ArmedStream, CalmStream, Context, Counted, OkCounted, Poll, PollSteps, SteadyStream, Stream,
    drive,
};

/// A stream that skips the first items of another stream while a predicate returns true, and yields the
/// others.
///
/// Returned by [`skip_while`](crate::make::skip_while). At the first item that is yielded the predicate is
/// dropped, and no longer called. One poll may skip many items, up to another item, `Pending` or an end. So
/// the other stream must be `Counted`.
#[derive(Debug, Drop)]
pub struct SkipWhile<S, P> {
    pub(crate) stream: S,
    pub(crate) predicate: Option<P>,
}

impl<S: Counted<Item: Drop>, P: FnMut(&S::Item) -> bool + Drop> PollSteps for SkipWhile<S, P> {
    type Output = Option<S::Item>;

    ghost can_step = { CanSkip S.can_poll S.ranks (MayAskUntil S.run P.FnMut) };

    ghost step = { Sifts (SkipsUntil (CalledAt P.FnMut)) S.run (CanSkip S.can_poll S.ranks (MayAskUntil S.run P.FnMut))
        (λ m. m.stream) (λ m. m.predicate) };

    ghost step_registers = { λ m. S.registers m.stream };

    ghost goes_on = { λ x y c h. h.0 };

    ghost finite = { λ x c. Terminates-map (λ m. m.stream) (λ m n h. (h.1.0, [], h.1.1)) x (S.ends x.stream c.1) };

    #[tactic(auto, using(lite_base::specs::Laws::EachItem::each_rules))]
    fn poll_step(&mut self, cx: &mut Context<'_>) -> Option<Poll<Option<S::Item>>> {
        match self.stream.poll_next(cx) {
            Poll::Ready(Some(item)) => match &mut self.predicate {
                Some(predicate) => {
                    if predicate(&item) {
                        None
                    } else {
                        self.predicate = None;
                        Some(Poll::Ready(Some(item)))
                    }
                }
                None => Some(Poll::Ready(Some(item))),
            },
            Poll::Ready(None) => Some(Poll::Ready(None)),
            Poll::Pending => Some(Poll::Pending),
        }
    }
}

impl<S: Counted<Item: Drop>, P: FnMut(&S::Item) -> bool + Drop> Stream for SkipWhile<S, P> {
    type Item = S::Item;

    ghost can_poll = { CanSkip S.can_poll S.ranks (MayAskUntil S.run P.FnMut) };

    ghost run = { SkipsWhile S.run (CalledAt P.FnMut) };

    ghost registers = { λ m. S.registers m.stream };

    ghost hints = { NoHint };

    ghost laws = { laws_unhinted skip_while_parts S.laws (leaves_relating (SkipsUntil (CalledAt P.FnMut)))
        (leaves_on (SkipsUntil (CalledAt P.FnMut)) _ (λ p q x y c. (y, c)) skip_while_parts S.laws S.counting) };

    fn poll_next(&mut self, cx: &mut Context<'_>) -> Poll<Option<S::Item>> {
        drive(self, cx)
    }

    fn size_hint(&self) -> (usize, Option<usize>) {
        (0, None)
    }
}

impl<S: Counted<Item: Drop>, P: FnMut(&S::Item) -> bool + Drop> Counted for SkipWhile<S, P> {
    ghost ranks = { ranks_of (λ m. m.stream) S.ranks };

    ghost counting = { through_counting skip_while_parts S.counting (leaves_relating (SkipsUntil (CalledAt P.FnMut))) };
}

impl<
    T: Drop,
    E: Drop,
    S: Counted<Item = Result<T, E>>,
    P: FnMut(&Result<T, E>) -> bool + Drop,
> OkCounted for SkipWhile<S, P> {
    type Ok = T;

    type Err = E;

    ghost ok_ranks = { ranks_of (λ m. m.stream) S.ranks };

    ghost ok_counting = { ok_counting
        (through_counting skip_while_parts S.counting (leaves_relating (SkipsUntil (CalledAt P.FnMut)))) };
}

impl<S: Counted<Item: Drop> + SteadyStream, P: FnMut(&S::Item) -> bool + Drop> SteadyStream
    for SkipWhile<S, P> {
    ghost ample = { SkipsWhile S.ample (CalledAt P.FnMut) };

    ghost needs_none = { S.needs_none };

    ghost same = { S.same };

    ghost alike = { λ x y. S.alike x.stream y.stream
        × OptionBy (AgreeFrom (SameItem S.same) (λ y z. y ≡ z) (CalledAt P.FnMut)) x.predicate y.predicate };

    ghost steady = { through_steady_over skip_while_parts S.same S.same S.steady
        (leaves_relating (SkipsUntil (CalledAt P.FnMut))).following
        (leaves_until (CalledAt P.FnMut) S.same) };
}

impl<S: Counted<Item: Drop> + CalmStream, P: FnMut(&S::Item) -> bool + Drop> CalmStream
    for SkipWhile<S, P> {
    ghost is_calm = { λ m. S.is_calm m.stream };

    ghost calm = { through_calm skip_while_parts S.calm (leaves_calming (SkipsUntil (CalledAt P.FnMut))) };
}

impl<S: Counted<Item: Drop> + ArmedStream, P: FnMut(&S::Item) -> bool + Drop> ArmedStream
    for SkipWhile<S, P> {
    ghost armed = { through_arms skip_while_parts S.armed (leaves_arming (SkipsUntil (CalledAt P.FnMut))) };
}
