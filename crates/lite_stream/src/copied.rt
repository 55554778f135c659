ghost use Rattle.std.specs.Prelude.{⊤, None};
ghost use Rattle.lite_stream.specs.Uses.{ranks_of, NoHint, ok_counting};
ghost use Rattle.lite_stream.specs.Copied.{CopiesAll, CopiesItem, Referred, copied_parts};
ghost use Rattle.lite_stream.specs.Laws.Agreeing.{through_steady_over, copies_match};
ghost use Rattle.lite_stream.specs.Laws.Calming.{through_calm};
ghost use Rattle.lite_stream.specs.Laws.Pointwise.{replaces_agreeing, replaces_calming, replaces_relating, replaces_arming};
ghost use Rattle.lite_stream.specs.Laws.Through.{laws_unhinted, through_counting, through_on};
ghost use Rattle.lite_stream.specs.Laws.Arming.{through_arms};

use lite_base::{
    ArmedStream, CalmStream, Context, Counted, OkCounted, Poll, SteadyStream, Stream, ready,
};

/// A stream that yields a copy of the value behind each reference that another stream yields.
///
/// Returned by [`copied`](crate::make::copied). `Pending` and ends are passed on.
#[derive(Clone, Debug, Drop)]
pub struct Copied<S> {
    pub(crate) stream: S,
}

impl<'a, T: Copy + 'a, S: Stream<Item = &'a T>> Stream for Copied<S> {
    type Item = T;

    ghost can_poll = { λ m. S.can_poll m.stream };

    ghost run = { CopiesAll S.run };

    ghost registers = { λ m. S.registers m.stream };

    ghost hints = { NoHint };

    ghost laws = { laws_unhinted copied_parts S.laws (replaces_relating CopiesItem) (through_on copied_parts S.laws) };

    fn poll_next(&mut self, cx: &mut Context<'_>) -> Poll<Option<T>> {
        match ready!(self.stream.poll_next(cx)) {
            Some(item) => Poll::Ready(Some(*item)),
            None => Poll::Ready(None),
        }
    }

    fn size_hint(&self) -> (usize, Option<usize>) {
        (0, None)
    }
}

impl<'a, T: Copy + 'a, S: Counted<Item = &'a T>> Counted for Copied<S> {
    ghost ranks = { ranks_of (λ m. m.stream) S.ranks };

    ghost counting = { through_counting copied_parts S.counting (replaces_relating CopiesItem) };
}

impl<'a, T: Copy + 'a, E: Copy + 'a, S: Counted<Item = &'a Result<T, E>>> OkCounted for Copied<S> {
    type Ok = T;

    type Err = E;

    ghost ok_ranks = { ranks_of (λ m. m.stream) S.ranks };

    ghost ok_counting = { ok_counting (through_counting copied_parts S.counting (replaces_relating CopiesItem)) };
}

impl<'a, T: Copy + 'a, S: SteadyStream<Item = &'a T>> SteadyStream for Copied<S> {
    ghost ample = { CopiesAll S.ample };

    ghost needs_none = { S.needs_none };

    ghost same = { Referred S.same };

    ghost alike = { λ x y. S.alike x.stream y.stream × ⊤ };

    ghost steady = { through_steady_over copied_parts S.same (Referred S.same) S.steady (replaces_relating CopiesItem).following
        (replaces_agreeing CopiesItem S.same (Referred S.same) (copies_match S.same)) };
}

impl<'a, T: Copy + 'a, S: CalmStream<Item = &'a T>> CalmStream for Copied<S> {
    ghost is_calm = { λ m. S.is_calm m.stream };

    ghost calm = { through_calm copied_parts S.calm (replaces_calming CopiesItem) };
}

impl<'a, T: Copy + 'a, S: ArmedStream<Item = &'a T>> ArmedStream for Copied<S> {
    ghost armed = { through_arms copied_parts S.armed (replaces_arming CopiesItem) };
}
