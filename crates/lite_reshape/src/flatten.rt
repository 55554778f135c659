ghost use Rattle.std.specs.Prelude.{None};
ghost use Rattle.lite_reshape.specs.Uses.{runs_of, NoHint, laws_following, ok_counting, OptionBy, AlikeBy};
ghost use Rattle.lite_reshape.specs.Flatten.{Flattens};
ghost use Rattle.lite_reshape.specs.Expanding.{HeldRegisters};
ghost use Rattle.lite_reshape.specs.Inner.{CanStepFlat, EachInner, FlatSteps, flatten_parts, flattening_ranks};
ghost use Rattle.lite_reshape.specs.Laws.Calming.{flattening_calm};
ghost use Rattle.lite_reshape.specs.Laws.Flatten.{flat_ends, flattening, flattening_counting, flattening_on};
ghost use Rattle.lite_reshape.specs.Laws.SteadyFlatten.{flattening_steady};
ghost use Rattle.lite_reshape.specs.Laws.Arming.{flattening_arms};

use crate::inner::poll_part;
use lite_base::{
    ArmedStream, CalmStream, Context, Counted, OkCounted, Poll, PollSteps, SteadyStream, Stream,
    drive,
};

/// A stream that yields the items of the streams that another stream yields, one stream after the other.
///
/// Returned by [`flatten`](crate::make::flatten). An inner stream is polled up to its first end, and then
/// dropped. The outer stream is polled for the next one in the same call. One poll may go through many inner
/// streams, so the outer stream must be `Counted`. The end of the outer stream passes through.
#[derive(Clone, Debug, Drop)]
pub struct Flatten<S: Stream> {
    pub(crate) stream: S,
    pub(crate) inner_stream: Option<S::Item>,
}

impl<B: Stream + Drop, S: Counted<Item = B>> PollSteps for Flatten<S> {
    type Output = Option<B::Item>;

    ghost can_step = { CanStepFlat flatten_parts S.run S.can_poll S.ranks.counts B.can_poll };

    ghost step = { FlatSteps B.run S.run flatten_parts (CanStepFlat flatten_parts S.run S.can_poll S.ranks.counts B.can_poll) };

    ghost step_registers = { λ m. HeldRegisters S.registers B.registers m.stream m.inner_stream };

    ghost goes_on = { λ x y c h. h.0 };

    ghost finite = { flat_ends B.run S.run flatten_parts (λ x c. S.ends x.stream c.1) };

    fn poll_step(&mut self, cx: &mut Context<'_>) -> Option<Poll<Option<B::Item>>> {
        poll_part(&mut self.stream, &mut self.inner_stream, cx)
    }
}

impl<B: Stream + Drop, S: Counted<Item = B>> Stream for Flatten<S> {
    type Item = B::Item;

    ghost can_poll = { CanStepFlat flatten_parts S.run S.can_poll S.ranks.counts B.can_poll };

    ghost run = { Flattens B.run S.run };

    ghost registers = { λ m. HeldRegisters S.registers B.registers m.stream m.inner_stream };

    ghost hints = { NoHint };

    ghost laws = { laws_following flatten_parts S.laws (flattening (runs_of B.laws))
        (flattening_on flatten_parts S.laws S.counting B.laws.polls_on) };

    fn poll_next(&mut self, cx: &mut Context<'_>) -> Poll<Option<B::Item>> {
        drive(self, cx)
    }

    fn size_hint(&self) -> (usize, Option<usize>) {
        (0, None)
    }
}

impl<B: Counted + Drop, S: Counted<Item = B>> Counted for Flatten<S> {
    ghost ranks = { flattening_ranks flatten_parts S.run S.ranks B.ranks };

    ghost counting = { flattening_counting flatten_parts S.laws S.counting B.counting };
}

impl<T, E, B: Counted<Item = Result<T, E>> + Drop, S: Counted<Item = B>> OkCounted for Flatten<S> {
    type Ok = T;

    type Err = E;

    ghost ok_ranks = { flattening_ranks flatten_parts S.run S.ranks B.ranks };

    ghost ok_counting = { ok_counting (flattening_counting flatten_parts S.laws S.counting B.counting) };
}

impl<B: SteadyStream + Drop, S: Counted<Item = B> + SteadyStream> SteadyStream for Flatten<S> {
    ghost ample = { Flattens B.ample S.ample };

    ghost needs_none = { S.needs_none × B.needs_none };

    ghost same = { B.same };

    ghost alike = { λ x y. AlikeBy (OptionBy B.alike) S.ample x.stream y.stream
        × OptionBy B.alike x.inner_stream y.inner_stream };

    ghost steady = { flattening_steady flatten_parts B.same (λ x y e. e) S.steady.laws S.steady.found B.steady };
}

impl<B: CalmStream + Drop, S: Counted<Item = B> + CalmStream> CalmStream for Flatten<S> {
    ghost is_calm = { λ m. S.is_calm m.stream × EachInner S.run B.is_calm m.stream m.inner_stream };

    ghost calm = { flattening_calm B.calm flatten_parts S.laws S.calm };
}

impl<B: ArmedStream + Drop, S: Counted<Item = B> + ArmedStream> ArmedStream for Flatten<S> {
    ghost armed = { flattening_arms flatten_parts S.armed B.armed };
}
