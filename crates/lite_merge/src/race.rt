ghost use Rattle.std.specs.Prelude.{◌≡◌, None, false};
ghost use Rattle.lite_merge.specs.Uses.{NoHint, ok_counting};
ghost use Rattle.lite_merge.specs.Laws.Race.{race_calm, race_counting, race_laws, race_arms};
ghost use Rattle.lite_merge.specs.Merge.{MergeRegisters, fused};
ghost use Rattle.lite_merge.specs.Race.{RacesOn, race_ranks};

use crate::picks::poll_in_order;
use lite_base::{ArmedStream, CalmStream, Context, Counted, OkCounted, Poll, Stream};
use rand_core::Rng;
use std::marker::Model;

/// A stream that yields the items of two streams as they come, with neither preferred.
///
/// Returned by [`race`](crate::make::race) and [`race_with_seed`](crate::make::race_with_seed). Each poll
/// takes one word from the generator by `next_u32`. If its lowest bit is 1, the poll polls the first stream
/// first, otherwise the second. If this gives no item, it then polls the other stream. A stream that has
/// ended is not polled. If neither gives an item, the poll returns an end if both streams have ended, and
/// `Pending` otherwise. After that end this stream ends for ever. Both streams are dropped with it, and not
/// before. It is `Counted` if both streams are; its `ranks.counts` then requires `ranks.firm` of both. A
/// contract sees each stream as a `Fuse`.
#[derive(Clone, Debug, Drop)]
pub struct Race<S1, S2, R> {
    stream1: S1,
    stream2: S2,
    rng: R,
    // Whether each stream has ended. The two share a word, which two `Fuse`s would not.
    has_ended1: bool,
    has_ended2: bool,
}

impl<S1, S2, R> Model for Race<S1, S2, R> {
    ghost use Rattle.lite_merge.specs.Merge.{BothRaced, fused};

    ghost Value = { BothRaced S1 S2 R };

    ghost view = { λ m. record {
      stream1 = fused m.stream1 m.has_ended1;
      stream2 = fused m.stream2 m.has_ended2;
      rng = m.rng;
    } };
}

impl<S1, S2, R> Race<S1, S2, R> {
    pub(crate) fn new(stream1: S1, stream2: S2, rng: R) -> Race<S1, S2, R>
        ensures { result ≡ record { stream1 = fused stream1 false; stream2 = fused stream2 false; rng = rng } }
    {
        Race {
            stream1,
            stream2,
            rng,
            has_ended1: false,
            has_ended2: false,
        }
    }
}

impl<S1: Stream, S2: Stream<Item = S1::Item>, R: Rng> Stream for Race<S1, S2, R> {
    type Item = S1::Item;

    ghost can_poll = { λ m. S1.can_poll m.stream1.stream × S2.can_poll m.stream2.stream };

    ghost run = { RacesOn S1.run S2.run R.stream };

    ghost registers = { λ m. MergeRegisters S1.registers S2.registers m.stream1 m.stream2 };

    ghost hints = { NoHint };

    ghost laws = { race_laws R.stream S1.laws S2.laws };

    fn poll_next(&mut self, cx: &mut Context<'_>) -> Poll<Option<S1::Item>> {
        if self.rng.next_u32() % 2 == 1 {
            poll_in_order(
                &mut self.stream1,
                &mut self.has_ended1,
                &mut self.stream2,
                &mut self.has_ended2,
                cx,
            )
        } else {
            poll_in_order(
                &mut self.stream2,
                &mut self.has_ended2,
                &mut self.stream1,
                &mut self.has_ended1,
                cx,
            )
        }
    }

    fn size_hint(&self) -> (usize, Option<usize>) {
        (0, None)
    }
}

impl<S1: Counted, S2: Counted<Item = S1::Item>, R: Rng> Counted for Race<S1, S2, R> {
    ghost ranks = { race_ranks S1.ranks S2.ranks };

    ghost counting = { race_counting R.stream S1.counting S2.counting };
}

impl<T, E, S1: Counted<Item = Result<T, E>>, S2: Counted<Item = Result<T, E>>, R: Rng> OkCounted
    for Race<S1, S2, R> {
    type Ok = T;

    type Err = E;

    ghost ok_ranks = { race_ranks S1.ranks S2.ranks };

    ghost ok_counting = { ok_counting (race_counting R.stream S1.counting S2.counting) };
}

impl<S1: CalmStream, S2: CalmStream<Item = S1::Item>, R: Rng> CalmStream for Race<S1, S2, R> {
    ghost is_calm = { λ m. S1.is_calm m.stream1.stream × S2.is_calm m.stream2.stream };

    ghost calm = { race_calm R.stream S1.calm S2.calm };
}

impl<S1: ArmedStream, S2: ArmedStream<Item = S1::Item>, R: Rng> ArmedStream for Race<S1, S2, R> {
    ghost armed = { race_arms R.stream S1.armed S2.armed };
}
