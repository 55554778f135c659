ghost use Rattle.std.specs.Prelude.{◌≡◌, List, [], ◌∷◌, None};
ghost use Rattle.lite_merge.specs.Uses.{Keeps, Answer, Registered, NoHint, Pairwise, SameHeld};
ghost use Rattle.lite_merge.specs.Laws.Zip.{zip_steady, zip_calm, zip_counting, zip_laws, zip_arms};
ghost use Rattle.lite_merge.specs.Zip.{Pairs, WithHeld, ZipRegisters, Zips, zip_ranks};

use lite_base::{ArmedStream, CalmStream, Context, Counted, Poll, SteadyStream, Stream, ready};

/// A stream that yields pairs of the items of two streams.
///
/// Returned by [`zip`](crate::make::zip). An item of the first stream is kept until the second stream yields
/// an item, which makes the pair, or ends, which drops the kept item. While an item is kept the first stream
/// is not polled. The end of either stream passes through. A poll after it polls the two streams again.
#[derive(Clone, Debug, Drop)]
pub struct Zip<A: Stream, B> {
    pub(crate) item_slot: Option<A::Item>,
    pub(crate) first: A,
    pub(crate) second: B,
}

impl<A: Stream<Item: Drop>, B: Stream> Zip<A, B> {
    // Polls the second stream for the second part of the pair that `item` begins.
    fn poll_pair(&mut self, item: A::Item, cx: &mut Context<'_>) -> Poll<Option<(A::Item, B::Item)>>
        requires empty { self.old.item_slot ≡ None }
        requires can_poll { B.can_poll self.old.second }
        ensures met { (seconds : List (Answer B.Item)) × B.run self.old.second seconds self.new.second
            × WithHeld item [] (Pairs []) seconds (result ∷ []) self.new.item_slot }
        ensures first { self.new.first ≡ self.old.first }
        ensures again { B.can_poll self.new.second }
        ensures registered { Registered result
            (ZipRegisters A.registers B.registers self.new.item_slot self.new.first self.new.second) cx.new }
        ensures context { Keeps cx.old cx.new }
    {
        match self.second.poll_next(cx) {
            Poll::Ready(Some(other)) => Poll::Ready(Some((item, other))),
            Poll::Ready(None) => Poll::Ready(None),
            Poll::Pending => {
                self.item_slot = Some(item);
                Poll::Pending
            }
        }
    }
}

impl<A: Stream<Item: Drop>, B: Stream> Stream for Zip<A, B> {
    type Item = (A::Item, B::Item);

    ghost can_poll = { λ m. A.can_poll m.first × B.can_poll m.second };

    ghost run = { Zips A.run B.run };

    ghost registers = { λ m. ZipRegisters A.registers B.registers m.item_slot m.first m.second };

    ghost hints = { NoHint };

    ghost laws = { zip_laws A.laws B.laws };

    fn poll_next(&mut self, cx: &mut Context<'_>) -> Poll<Option<(A::Item, B::Item)>> {
        match self.item_slot.take() {
            Some(held) => self.poll_pair(held, cx),
            None => match ready!(self.first.poll_next(cx)) {
                Some(item) => self.poll_pair(item, cx),
                None => Poll::Ready(None),
            },
        }
    }

    fn size_hint(&self) -> (usize, Option<usize>) {
        (0, None)
    }
}

impl<A: Counted<Item: Drop>, B: Stream> Counted for Zip<A, B> {
    ghost ranks = { zip_ranks A.ranks };

    ghost counting = { zip_counting A.laws A.counting };
}

impl<A: SteadyStream<Item: Drop>, B: SteadyStream> SteadyStream for Zip<A, B> {
    ghost ample = { Zips A.ample B.ample };

    ghost needs_none = { A.needs_none × B.needs_none };

    ghost same = { Pairwise A.same B.same };

    ghost alike = { λ x y. A.alike x.first y.first × B.alike x.second y.second × SameHeld A.same x.item_slot y.item_slot };

    ghost steady = { zip_steady A.same B.same A.steady B.steady };
}

impl<A: CalmStream<Item: Drop>, B: CalmStream> CalmStream for Zip<A, B> {
    ghost is_calm = { λ m. A.is_calm m.first × B.is_calm m.second };

    ghost calm = { zip_calm A.calm B.calm };
}

impl<A: ArmedStream<Item: Drop>, B: ArmedStream> ArmedStream for Zip<A, B> {
    ghost armed = { zip_arms A.armed B.armed };
}
