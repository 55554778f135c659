ghost use Rattle.std.specs.Prelude.{◌≡◌, None};
ghost use Rattle.lite_stream.specs.Uses.{ranks_of, NoHint, Pairwise, Sameness};
ghost use Rattle.lite_stream.specs.Enumerate.{Enumerates, Numbers, enumerate_parts};
ghost use Rattle.lite_stream.specs.Laws.Agreeing.{through_steady_over, numbers_match};
ghost use Rattle.lite_stream.specs.Laws.Calming.{through_calm};
ghost use Rattle.lite_stream.specs.Laws.Pointwise.{replaces_agreeing, replaces_calming, replaces_relating, replaces_arming};
ghost use Rattle.lite_stream.specs.Laws.Through.{laws_unhinted, through_counting, through_on};
ghost use Rattle.lite_stream.specs.Laws.Arming.{through_arms};

use lite_base::{ArmedStream, CalmStream, Context, Counted, Poll, SteadyStream, Stream, ready};

/// A stream that yields the items of another stream, each paired with its number.
///
/// Returned by [`enumerate`](crate::make::enumerate). The numbers are 0, 1, 2 and so on; they continue across
/// `Pending` and ends. After `usize::MAX` comes 0. Unlike futures-lite, it never panics at an overflow.
#[derive(Clone, Debug, Drop)]
pub struct Enumerate<S> {
    pub(crate) stream: S,
    pub(crate) i: usize,
}

impl<S: Stream> Stream for Enumerate<S> {
    type Item = (usize, S::Item);

    ghost can_poll = { λ m. S.can_poll m.stream };

    ghost run = { Enumerates S.run };

    ghost registers = { λ m. S.registers m.stream };

    ghost hints = { NoHint };

    ghost laws = { laws_unhinted enumerate_parts S.laws (replaces_relating Numbers)
        (through_on enumerate_parts S.laws) };

    fn poll_next(&mut self, cx: &mut Context<'_>) -> Poll<Option<(usize, S::Item)>> {
        match ready!(self.stream.poll_next(cx)) {
            Some(item) => {
                let number = self.i;
                self.i = number.wrapping_add(1);
                Poll::Ready(Some((number, item)))
            }
            None => Poll::Ready(None),
        }
    }

    fn size_hint(&self) -> (usize, Option<usize>) {
        (0, None)
    }
}

impl<S: Counted> Counted for Enumerate<S> {
    ghost ranks = { ranks_of (λ m. m.stream) S.ranks };

    ghost counting = { through_counting enumerate_parts S.counting (replaces_relating Numbers) };
}

impl<S: SteadyStream> SteadyStream for Enumerate<S> {
    ghost ample = { Enumerates S.ample };

    ghost needs_none = { S.needs_none };

    ghost same = { Pairwise Sameness.equal S.same };

    ghost alike = { λ x y. S.alike x.stream y.stream × (y.i ≡ x.i) };

    ghost steady = { through_steady_over enumerate_parts S.same (Pairwise Sameness.equal S.same) S.steady
        (replaces_relating Numbers).following
        (replaces_agreeing Numbers S.same (Pairwise Sameness.equal S.same) (numbers_match S.same)) };
}

impl<S: CalmStream> CalmStream for Enumerate<S> {
    ghost is_calm = { λ m. S.is_calm m.stream };

    ghost calm = { through_calm enumerate_parts S.calm (replaces_calming Numbers) };
}

impl<S: ArmedStream> ArmedStream for Enumerate<S> {
    ghost armed = { through_arms enumerate_parts S.armed (replaces_arming Numbers) };
}
