ghost use Rattle.std.specs.Prelude.{◌≡◌, None};
ghost use Rattle.lite_stream.specs.Uses.{NoHint, ok_counting};
ghost use Rattle.lite_base.specs.Laws.Ranks.{number_counting};
ghost use Rattle.lite_base.specs.Ranks.{number_ranks};
ghost use Rattle.lite_stream.specs.Take.{Takes, is_none_left, left_after, take_parts};
ghost use Rattle.lite_stream.specs.Laws.Agreeing.{through_steady_over};
ghost use Rattle.lite_stream.specs.Laws.Calming.{through_calm};
ghost use Rattle.lite_stream.specs.Laws.Cutting.{cuts_calming, cuts_relating, cuts_arming};
ghost use Rattle.lite_stream.specs.Laws.Take.{takes_agreeing, takes_lowers};
ghost use Rattle.lite_stream.specs.Laws.Through.{laws_unhinted, through_on};
ghost use Rattle.lite_stream.specs.Laws.Arming.{through_arms};

use lite_base::{
    ArmedStream, CalmStream, Context, Counted, OkCounted, Poll, SteadyStream, Stream, ready,
};

/// A stream that yields the items of another stream, up to a given number, and then ends for ever.
///
/// Returned by [`take`](crate::make::take). Once it has yielded that number of items, or the other stream has
/// ended, it does not poll the other stream. It is `Counted` over any stream, because it yields a limited
/// number of items: `ranks` counts those that are left.
#[derive(Clone, Debug, Drop)]
pub struct Take<S> {
    pub(crate) stream: S,
    pub(crate) n: usize,
}

impl<S: Stream> Stream for Take<S> {
    type Item = S::Item;

    ghost can_poll = { λ m. S.can_poll m.stream };

    ghost run = { Takes S.run };

    ghost registers = { λ m. S.registers m.stream };

    ghost hints = { NoHint };

    ghost laws = { laws_unhinted take_parts S.laws (cuts_relating is_none_left left_after)
        (through_on take_parts S.laws) };

    fn poll_next(&mut self, cx: &mut Context<'_>) -> Poll<Option<S::Item>> {
        if self.n == 0 {
            return Poll::Ready(None);
        }
        let next = ready!(self.stream.poll_next(cx));
        match &next {
            Some(_) => self.n -= 1,
            None => self.n = 0,
        }
        Poll::Ready(next)
    }

    fn size_hint(&self) -> (usize, Option<usize>) {
        (0, None)
    }
}

impl<S: Stream> Counted for Take<S> {
    ghost ranks = { number_ranks (λ m. m.n) };

    ghost counting = { number_counting (λ x y l h. takes_lowers x.n y.n h.ins l h.related) };
}

impl<T, E, S: Stream<Item = Result<T, E>>> OkCounted for Take<S> {
    type Ok = T;

    type Err = E;

    ghost ok_ranks = { number_ranks (λ m. m.n) };

    ghost ok_counting = { ok_counting (number_counting (λ x y l h. takes_lowers x.n y.n h.ins l h.related)) };
}

impl<S: SteadyStream> SteadyStream for Take<S> {
    ghost ample = { Takes S.ample };

    ghost needs_none = { S.needs_none };

    ghost same = { S.same };

    ghost alike = { λ x y. S.alike x.stream y.stream × (y.n ≡ x.n) };

    ghost steady = { through_steady_over take_parts S.same S.same S.steady (cuts_relating is_none_left left_after).following
        (takes_agreeing S.same) };
}

impl<S: CalmStream> CalmStream for Take<S> {
    ghost is_calm = { λ m. S.is_calm m.stream };

    ghost calm = { through_calm take_parts S.calm (cuts_calming is_none_left left_after) };
}

impl<S: ArmedStream> ArmedStream for Take<S> {
    ghost armed = { through_arms take_parts S.armed (cuts_arming is_none_left left_after) };
}
