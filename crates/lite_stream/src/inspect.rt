ghost use Rattle.std.specs.Prelude.{⊤, None};
ghost use Rattle.lite_stream.specs.Uses.{ranks_of, NoHint, CalledAt, ok_counting, MayShowEach};
ghost use Rattle.lite_stream.specs.Inspect.{Inspects, ShowsItem, inspect_parts};
ghost use Rattle.lite_stream.specs.Laws.Agreeing.{through_steady_over, shows_match};
ghost use Rattle.lite_stream.specs.Laws.Calming.{through_calm};
ghost use Rattle.lite_stream.specs.Laws.Pointwise.{asks_showing, exchanges_on, replaces_calming, replaces_relating, replaces_showing, replaces_arming};
ghost use Rattle.lite_stream.specs.Laws.Through.{laws_unhinted, through_counting};
ghost use Rattle.lite_stream.specs.Laws.Arming.{through_arms};

use lite_base::{
    ArmedStream, CalmStream, Context, Counted, OkCounted, Poll, SteadyStream, Stream, ready,
};

/// A stream that calls a function with a reference to each item of another stream, and then yields the item.
///
/// Returned by [`inspect`](crate::make::inspect).
#[derive(Debug, Drop)]
pub struct Inspect<S, F> {
    pub(crate) stream: S,
    pub(crate) f: F,
}

impl<S: Stream, F: FnMut(&S::Item)> Stream for Inspect<S, F> {
    type Item = S::Item;

    ghost can_poll = { λ m. S.can_poll m.stream × MayShowEach S.run F.FnMut m.stream m.f };

    ghost run = { Inspects S.run (CalledAt F.FnMut) };

    ghost registers = { λ m. S.registers m.stream };

    ghost hints = { NoHint };

    ghost laws = { laws_unhinted inspect_parts S.laws (replaces_relating (ShowsItem (CalledAt F.FnMut)))
        (exchanges_on _ (CalledAt F.FnMut) (asks_showing _) inspect_parts S.laws) };

    #[tactic(auto, using(lite_base::specs::Laws::EachItem::each_rules))]
    fn poll_next(&mut self, cx: &mut Context<'_>) -> Poll<Option<S::Item>> {
        match ready!(self.stream.poll_next(cx)) {
            Some(item) => {
                (self.f)(&item);
                Poll::Ready(Some(item))
            }
            None => Poll::Ready(None),
        }
    }

    fn size_hint(&self) -> (usize, Option<usize>) {
        (0, None)
    }
}

impl<S: Counted, F: FnMut(&S::Item)> Counted for Inspect<S, F> {
    ghost ranks = { ranks_of (λ m. m.stream) S.ranks };

    ghost counting = { through_counting inspect_parts S.counting (replaces_relating (ShowsItem (CalledAt F.FnMut))) };
}

impl<T, E, S: Counted<Item = Result<T, E>>, F: FnMut(&Result<T, E>)> OkCounted for Inspect<S, F> {
    type Ok = T;

    type Err = E;

    ghost ok_ranks = { ranks_of (λ m. m.stream) S.ranks };

    ghost ok_counting = { ok_counting (through_counting inspect_parts S.counting (replaces_relating (ShowsItem (CalledAt F.FnMut)))) };
}

impl<S: SteadyStream, F: FnMut(&S::Item)> SteadyStream for Inspect<S, F> {
    ghost ample = { Inspects S.ample (CalledAt F.FnMut) };

    ghost needs_none = { S.needs_none };

    ghost same = { S.same };

    ghost alike = { λ x y. S.alike x.stream y.stream × ⊤ };

    ghost steady = { through_steady_over inspect_parts S.same S.same S.steady
        (replaces_relating (ShowsItem (CalledAt F.FnMut))).following
        (replaces_showing (ShowsItem (CalledAt F.FnMut)) (shows_match (CalledAt F.FnMut)) S.same) };
}

impl<S: CalmStream, F: FnMut(&S::Item)> CalmStream for Inspect<S, F> {
    ghost is_calm = { λ m. S.is_calm m.stream };

    ghost calm = { through_calm inspect_parts S.calm (replaces_calming (ShowsItem (CalledAt F.FnMut))) };
}

impl<S: ArmedStream, F: FnMut(&S::Item)> ArmedStream for Inspect<S, F> {
    ghost armed = { through_arms inspect_parts S.armed (replaces_arming (ShowsItem (CalledAt F.FnMut))) };
}
