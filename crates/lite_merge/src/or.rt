ghost use Rattle.std.specs.Prelude.{◌≡◌, None, false};
ghost use Rattle.lite_merge.specs.Uses.{NoHint, ok_counting};
ghost use Rattle.lite_merge.specs.Laws.Or.{or_calm, or_counting, or_laws, or_arms};
ghost use Rattle.lite_merge.specs.Merge.{MergeRegisters, fused};
ghost use Rattle.lite_merge.specs.Or.{Ors, or_ranks};

use crate::picks::poll_in_order;
use lite_base::{ArmedStream, CalmStream, Context, Counted, OkCounted, Poll, Stream};
use std::marker::Model;

/// A stream that yields the items of two streams as they come, and prefers the first.
///
/// Returned by [`or`](crate::make::or). Each poll polls the first stream, unless that has ended. If this
/// gives no item, the poll then polls the second stream, unless that has ended. If neither gives an item, the
/// poll returns an end if both streams have ended, and `Pending` otherwise. After that end this stream ends
/// for ever. Both streams are dropped with it, and not before. A contract sees each stream as a `Fuse`.
#[derive(Clone, Debug, Drop)]
pub struct Or<S1, S2> {
    stream1: S1,
    stream2: S2,
    // Whether each has ended. The two share a word, which two `Fuse`s would not.
    has_ended1: bool,
    has_ended2: bool,
}

impl<S1, S2> Model for Or<S1, S2> {
    ghost use Rattle.lite_merge.specs.Merge.{BothFused, fused};

    ghost Value = { BothFused S1 S2 };

    ghost view = { λ m. record { stream1 = fused m.stream1 m.has_ended1; stream2 = fused m.stream2 m.has_ended2 } };
}

impl<S1, S2> Or<S1, S2> {
    pub(crate) fn new(stream1: S1, stream2: S2) -> Or<S1, S2>
        ensures { result ≡ record { stream1 = fused stream1 false; stream2 = fused stream2 false } }
    {
        Or {
            stream1,
            stream2,
            has_ended1: false,
            has_ended2: false,
        }
    }
}

impl<S1: Stream, S2: Stream<Item = S1::Item>> Stream for Or<S1, S2> {
    type Item = S1::Item;

    ghost can_poll = { λ m. S1.can_poll m.stream1.stream × S2.can_poll m.stream2.stream };

    ghost run = { Ors S1.run S2.run };

    ghost registers = { λ m. MergeRegisters S1.registers S2.registers m.stream1 m.stream2 };

    ghost hints = { NoHint };

    ghost laws = { or_laws S1.laws S2.laws };

    fn poll_next(&mut self, cx: &mut Context<'_>) -> Poll<Option<S1::Item>> {
        poll_in_order(
            &mut self.stream1,
            &mut self.has_ended1,
            &mut self.stream2,
            &mut self.has_ended2,
            cx,
        )
    }

    fn size_hint(&self) -> (usize, Option<usize>) {
        (0, None)
    }
}

impl<S1: Counted, S2: Counted<Item = S1::Item>> Counted for Or<S1, S2> {
    ghost ranks = { or_ranks S1.ranks S2.ranks };

    ghost counting = { or_counting S2.laws S1.counting S2.counting };
}

impl<T, E, S1: Counted<Item = Result<T, E>>, S2: Counted<Item = Result<T, E>>> OkCounted
    for Or<S1, S2> {
    type Ok = T;

    type Err = E;

    ghost ok_ranks = { or_ranks S1.ranks S2.ranks };

    ghost ok_counting = { ok_counting (or_counting S2.laws S1.counting S2.counting) };
}

impl<S1: CalmStream, S2: CalmStream<Item = S1::Item>> CalmStream for Or<S1, S2> {
    ghost is_calm = { λ m. S1.is_calm m.stream1.stream × S2.is_calm m.stream2.stream };

    ghost calm = { or_calm S1.calm S2.calm };
}

impl<S1: ArmedStream, S2: ArmedStream<Item = S1::Item>> ArmedStream for Or<S1, S2> {
    ghost armed = { or_arms S1.armed S2.armed };
}
