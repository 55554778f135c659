ghost use Rattle.std.specs.Prelude.{◌≡◌, None};
ghost use Rattle.lite_stream.specs.Uses.{ranks_of, NoHint, ok_counting};
ghost use Rattle.lite_stream.specs.Fuse.{Fuses, fuse_parts};
ghost use Rattle.lite_stream.specs.Laws.Agreeing.{through_steady_over};
ghost use Rattle.lite_stream.specs.Laws.Calming.{through_calm};
ghost use Rattle.lite_stream.specs.Laws.Fuse.{fuses_agreeing, fuses_calming, fuses_relating, fuses_arming};
ghost use Rattle.lite_stream.specs.Laws.Through.{laws_unhinted, through_counting, through_on};
ghost use Rattle.lite_stream.specs.Laws.Arming.{through_arms};

use lite_base::{
    ArmedStream, CalmStream, Context, Counted, OkCounted, Poll, SteadyStream, Stream, ready,
};

/// A stream that ends for ever once another stream has ended.
///
/// Returned by [`fuse`](crate::make::fuse). After its first end the other stream is not polled.
#[derive(Clone, Debug, Drop)]
pub struct Fuse<S> {
    pub(crate) stream: S,
    pub(crate) done: bool,
}

impl<S: Stream> Stream for Fuse<S> {
    type Item = S::Item;

    ghost can_poll = { λ m. S.can_poll m.stream };

    ghost run = { Fuses S.run };

    ghost registers = { λ m. S.registers m.stream };

    ghost hints = { NoHint };

    ghost laws = { laws_unhinted fuse_parts S.laws fuses_relating (through_on fuse_parts S.laws) };

    fn poll_next(&mut self, cx: &mut Context<'_>) -> Poll<Option<S::Item>> {
        if self.done {
            return Poll::Ready(None);
        }
        match ready!(self.stream.poll_next(cx)) {
            Some(item) => Poll::Ready(Some(item)),
            None => {
                self.done = true;
                Poll::Ready(None)
            }
        }
    }

    fn size_hint(&self) -> (usize, Option<usize>) {
        (0, None)
    }
}

impl<S: Counted> Counted for Fuse<S> {
    ghost ranks = { ranks_of (λ m. m.stream) S.ranks };

    ghost counting = { through_counting fuse_parts S.counting fuses_relating };
}

impl<T, E, S: Counted<Item = Result<T, E>>> OkCounted for Fuse<S> {
    type Ok = T;

    type Err = E;

    ghost ok_ranks = { ranks_of (λ m. m.stream) S.ranks };

    ghost ok_counting = { ok_counting (through_counting fuse_parts S.counting fuses_relating) };
}

impl<S: SteadyStream> SteadyStream for Fuse<S> {
    ghost ample = { Fuses S.ample };

    ghost needs_none = { S.needs_none };

    ghost same = { S.same };

    ghost alike = { λ x y. S.alike x.stream y.stream × (y.done ≡ x.done) };

    ghost steady = { through_steady_over fuse_parts S.same S.same S.steady fuses_relating.following (fuses_agreeing S.same) };
}

impl<S: CalmStream> CalmStream for Fuse<S> {
    ghost is_calm = { λ m. S.is_calm m.stream };

    ghost calm = { through_calm fuse_parts S.calm fuses_calming };
}

impl<S: ArmedStream> ArmedStream for Fuse<S> {
    ghost armed = { through_arms fuse_parts S.armed fuses_arming };
}
