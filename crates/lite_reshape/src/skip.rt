ghost use Rattle.std.specs.Prelude.{◌≡◌, None};
ghost use Rattle.std.proofs.Common.{arith};
ghost use Rattle.std.proofs.lemmas.Bool.Decides.{nat_tests};
ghost use Rattle.lite_reshape.specs.Uses.{NoHint, Terminates-count, laws_unhinted, ok_counting, ranks_of};
ghost use Rattle.lite_reshape.specs.Uses.{through_counting, through_on, through_steady_over, refl};
ghost use Rattle.lite_reshape.specs.Uses.{through_calm};
ghost use Rattle.lite_reshape.specs.Leaving.{Sifts};
ghost use Rattle.lite_reshape.specs.Skip.{Skips, SkipsFirst, skip_parts};
ghost use Rattle.lite_reshape.specs.Laws.Agreeing.{leaves_selecting};
ghost use Rattle.lite_reshape.specs.Laws.Leaving.{leaves_calming, leaves_relating, leaves_arming};
ghost use Rattle.lite_stream.specs.Laws.Arming.{through_arms};

use lite_base::{
    ArmedStream, CalmStream, Context, Counted, OkCounted, Poll, PollSteps, SteadyStream, Stream,
    drive,
};

/// A stream that skips the first items of another stream, and yields the others.
///
/// Returned by [`skip`](crate::make::skip). One poll may skip many items, up to another item, `Pending` or an
/// end. The number of items that are still to be skipped is kept across `Pending` and ends.
#[derive(Clone, Debug, Drop)]
pub struct Skip<S> {
    pub(crate) stream: S,
    pub(crate) n: usize,
}

impl<S: Stream<Item: Drop>> PollSteps for Skip<S> {
    type Output = Option<S::Item>;

    ghost can_step = { λ m. S.can_poll m.stream };

    ghost step = { Sifts Skips S.run (λ m. S.can_poll m.stream) (λ m. m.stream) (λ m. m.n) };

    ghost step_registers = { λ m. S.registers m.stream };

    ghost goes_on = { λ x y c h. h.0 };

    ghost finite = { λ x c. Terminates-count (λ m. m.n) (λ m n h. Prim.grind (arith, nat_tests, h.1.2)) x };

    fn poll_step(&mut self, cx: &mut Context<'_>) -> Option<Poll<Option<S::Item>>> {
        let answer = self.stream.poll_next(cx);
        // (one way out for all answers: with two, LLVM makes a loop of each round that leaves an item out)
        if self.n == 0 || !matches!(answer, Poll::Ready(Some(_))) {
            return Some(answer);
        }
        self.n -= 1;
        None
    }
}

impl<S: Stream<Item: Drop>> Stream for Skip<S> {
    type Item = S::Item;

    ghost can_poll = { λ m. S.can_poll m.stream };

    ghost run = { SkipsFirst S.run };

    ghost registers = { λ m. S.registers m.stream };

    ghost hints = { NoHint };

    ghost laws = { laws_unhinted skip_parts S.laws (leaves_relating Skips)
        (through_on skip_parts S.laws) };

    fn poll_next(&mut self, cx: &mut Context<'_>) -> Poll<Option<S::Item>> {
        drive(self, cx)
    }

    fn size_hint(&self) -> (usize, Option<usize>) {
        (0, None)
    }
}

impl<S: Counted<Item: Drop>> Counted for Skip<S> {
    ghost ranks = { ranks_of (λ m. m.stream) S.ranks };

    ghost counting = { through_counting skip_parts S.counting (leaves_relating Skips) };
}

impl<T: Drop, E: Drop, S: Counted<Item = Result<T, E>>> OkCounted for Skip<S> {
    type Ok = T;

    type Err = E;

    ghost ok_ranks = { ranks_of (λ m. m.stream) S.ranks };

    ghost ok_counting = { ok_counting (through_counting skip_parts S.counting (leaves_relating Skips)) };
}

impl<S: SteadyStream<Item: Drop>> SteadyStream for Skip<S> {
    ghost ample = { SkipsFirst S.ample };

    ghost needs_none = { S.needs_none };

    ghost same = { S.same };

    ghost alike = { λ x y. S.alike x.stream y.stream × (y.n ≡ x.n) };

    ghost steady = { through_steady_over skip_parts S.same S.same S.steady (leaves_relating Skips).following
        (leaves_selecting _ _ S.same (λ n m. m ≡ n) (λ n m x w e s. rw e (refl, refl))) };
}

impl<S: CalmStream<Item: Drop>> CalmStream for Skip<S> {
    ghost is_calm = { λ m. S.is_calm m.stream };

    ghost calm = { through_calm skip_parts S.calm (leaves_calming Skips) };
}

impl<S: ArmedStream<Item: Drop>> ArmedStream for Skip<S> {
    ghost armed = { through_arms skip_parts S.armed (leaves_arming Skips) };
}
