ghost use Rattle.std.specs.Prelude.{None};
ghost use Rattle.lite_reshape.specs.Uses.{Calls, NoHint, Maps, ok_counting, OptionBy, SameItem, AgreeFrom};
ghost use Rattle.lite_reshape.specs.FlatMap.{CanFlatMap, CanStepMap, FlatMapSteps, FlatMaps, flat_map_parts, EachMade, flat_map_ranks};
ghost use Rattle.lite_reshape.specs.Expanding.{HeldRegisters};
ghost use Rattle.lite_reshape.specs.Laws.FlatMap.{flat_map_calm, flat_map_counting, flat_map_laws, flat_map_steady, made_end};
ghost use Rattle.lite_reshape.specs.Laws.Flatten.{flat_ends};
ghost use Rattle.lite_reshape.specs.Laws.Arming.{flattening_arms};
ghost use Rattle.lite_stream.specs.Laws.Arming.{through_arms};
ghost use Rattle.lite_stream.specs.Map.{map_parts};
ghost use Rattle.lite_stream.specs.Laws.Pointwise.{replaces_arming};

use crate::inner::poll_part;
use lite_base::{
    ArmedStream, CalmStream, Context, Counted, OkCounted, Poll, PollSteps, SteadyStream, Stream,
    drive,
};
use lite_stream::Map;

/// A stream that yields the items of the streams that a function returns for the items of another stream.
///
/// Returned by [`flat_map`](crate::make::flat_map). `Pending` passes through, and so does the end of the
/// outer stream. The end of an inner stream does not: the outer stream is polled for the next one in the same
/// call. While there is an inner stream, the outer one is not polled. It yields what
/// [`Flatten`](crate::Flatten) yields over a [`Map`](lite_stream::Map).
#[derive(Debug, Drop)]
pub struct FlatMap<S, U, F> {
    pub(crate) stream: Map<S, F>,
    pub(crate) inner_stream: Option<U>,
}

impl<S: Counted, U: Stream + Drop, F: FnMut(S::Item) -> U> PollSteps for FlatMap<S, U, F> {
    type Output = Option<U::Item>;

    ghost can_step = { CanStepMap S.run F.FnMut ⟦<Map<S, F> as Stream>⟧.can_poll S.ranks.counts U.can_poll };

    ghost step = { FlatMapSteps S.run F.FnMut U.run
        (CanStepMap S.run F.FnMut ⟦<Map<S, F> as Stream>⟧.can_poll S.ranks.counts U.can_poll) };

    ghost step_registers = { λ m. HeldRegisters ⟦<Map<S, F> as Stream>⟧.registers U.registers m.stream m.inner_stream };

    ghost goes_on = { λ x y c h. h.0 };

    ghost finite = { flat_ends U.run (Maps S.run (Calls F.FnMut)) flat_map_parts
        (λ x c. made_end F.FnMut S.counting x.stream c.1) };

    fn poll_step(&mut self, cx: &mut Context<'_>) -> Option<Poll<Option<U::Item>>> {
        poll_part(&mut self.stream, &mut self.inner_stream, cx)
    }
}

impl<S: Counted, U: Stream + Drop, F: FnMut(S::Item) -> U> Stream for FlatMap<S, U, F> {
    type Item = U::Item;

    ghost can_poll = { CanFlatMap F.FnMut ⟦<Map<S, F> as Stream>⟧.can_poll S.ranks.counts U.can_poll };

    ghost run = { FlatMaps S.run F.FnMut U.run };

    ghost registers = { λ m. HeldRegisters ⟦<Map<S, F> as Stream>⟧.registers U.registers m.stream m.inner_stream };

    ghost hints = { NoHint };

    ghost laws = { flat_map_laws F.FnMut S.laws S.counting U.laws };

    fn poll_next(&mut self, cx: &mut Context<'_>) -> Poll<Option<U::Item>> {
        drive(self, cx)
    }

    fn size_hint(&self) -> (usize, Option<usize>) {
        (0, None)
    }
}

impl<S: Counted, U: Counted + Drop, F: FnMut(S::Item) -> U> Counted for FlatMap<S, U, F> {
    ghost ranks = { flat_map_ranks F.FnMut S.ranks U.ranks };

    ghost counting = { flat_map_counting F.FnMut S.laws S.counting U.counting };
}

impl<T, E, S: Counted, U: Counted<Item = Result<T, E>> + Drop, F: FnMut(S::Item) -> U> OkCounted
    for FlatMap<S, U, F> {
    type Ok = T;

    type Err = E;

    ghost ok_ranks = { flat_map_ranks F.FnMut S.ranks U.ranks };

    ghost ok_counting = { ok_counting (flat_map_counting F.FnMut S.laws S.counting U.counting) };
}

impl<S: Counted + SteadyStream, U: SteadyStream + Drop, F: FnMut(S::Item) -> U> SteadyStream
    for FlatMap<S, U, F> {
    ghost ample = { FlatMaps S.ample F.FnMut U.ample };

    ghost needs_none = { S.needs_none × U.needs_none };

    ghost same = { U.same };

    ghost alike = { λ x y. S.alike x.stream.stream y.stream.stream
        × AgreeFrom (SameItem S.same) U.alike (Calls F.FnMut) x.stream.f y.stream.f
        × OptionBy U.alike x.inner_stream y.inner_stream };

    ghost steady = { flat_map_steady F.FnMut S.same U.same S.steady U.steady };
}

impl<S: Counted + CalmStream, U: CalmStream + Drop, F: FnMut(S::Item) -> U> CalmStream
    for FlatMap<S, U, F> {
    ghost is_calm = { λ m. S.is_calm m.stream.stream × EachMade F.FnMut U.is_calm m.stream.f m.inner_stream };

    ghost calm = { flat_map_calm F.FnMut S.laws S.calm U.calm };
}

impl<S: Counted + ArmedStream, U: ArmedStream + Drop, F: FnMut(S::Item) -> U> ArmedStream
    for FlatMap<S, U, F> {
    ghost armed = { flattening_arms flat_map_parts (through_arms map_parts S.armed (replaces_arming (Calls F.FnMut))) U.armed };
}
