//! A stream that merges two others in order.
ghost use Rattle.std.specs.Prelude.{◌≡◌, ℕ, List};
ghost use Rattle.std.specs.List.{FoldsTo};
ghost use Rattle.futures_lite.specs.Lists.{Lists, ListsAs};
ghost use Rattle.futures_lite.specs.Own.{NoHint, stream_ranking};
ghost use Rattle.example_own.specs.MergeRank.{merge_lowers, side_ranks};
ghost use Rattle.example_own.specs.MergeSorted.{MergeStep, SidesRegister, SidesYield, merge_sorted};
ghost use Rattle.example_own.specs.Merged.{merge_laws};
ghost use Rattle.example_own.specs.Side.{unanswered};

use crate::side::Side;
use futures_lite::stream::Counted;
use futures_lite::{Context, Poll, Stream};

/// Yields the items of two streams: of the two that are next the smaller, and the left one if they are equal.
///
/// A poll polls each side that has no answer, and returns `Pending` if one of them is. At most one item of each side is held.
#[derive(Drop)]
pub struct MergeSorted<S, T> {
    pub left: Side<S>,
    pub right: Side<T>,
}

/// Merges two streams. If the items of both are known, so are those of the merge.
pub fn merge_sorted<S, T>(left: S, right: T) -> MergeSorted<S, T>
where
    S: Stream<Item = u32>,
    T: Stream<Item = u32>,
    ensures parts { result ≡ record { left = unanswered left; right = unanswered right } }
    ensures lists { (xs ys : List ℕ) → Lists S.run left xs → Lists T.run right ys
        → ListsAs ⟦<MergeSorted<S, T> as Stream>⟧.run result (merge_sorted xs ys) }
{
    MergeSorted {
        left: Side::new(left),
        right: Side::new(right),
    }
}

impl<S, T> MergeSorted<S, T> {
    // Passes on the item that is next, if both sides have an answer.
    fn yield_next(&mut self) -> Poll<Option<u32>>
        ensures { SidesYield self.old.left self.old.right result self.new }
    {
        match (&self.left.answer, &self.right.answer) {
            (Poll::Pending, _) | (_, Poll::Pending) => Poll::Pending,
            (Poll::Ready(None), Poll::Ready(None)) => Poll::Ready(None),
            (Poll::Ready(Some(x)), Poll::Ready(Some(y))) if x <= y => self.left.pass_on(),
            (Poll::Ready(Some(_)), Poll::Ready(None)) => self.left.pass_on(),
            _ => self.right.pass_on(),
        }
    }
}

impl<S: Stream<Item = u32>, T: Stream<Item = u32>> Stream for MergeSorted<S, T> {
    type Item = u32;

    ghost can_poll = { λ m. S.can_poll m.left.stream × T.can_poll m.right.stream };

    ghost run = { FoldsTo (MergeStep S.run T.run) };

    ghost registers = { SidesRegister S.registers T.registers };

    ghost hints = { NoHint };

    ghost laws = { merge_laws S.laws T.laws };

    fn poll_next(&mut self, cx: &mut Context<'_>) -> Poll<Option<u32>> {
        self.left.fill(cx);
        self.right.fill(cx);
        self.yield_next()
    }

    fn size_hint(&self) -> (usize, Option<usize>) {
        (0, None)
    }
}

// An item lowers its side's rank when the stream yields it, or when it is passed on.
impl<S: Counted<Item = u32>, T: Counted<Item = u32>> Counted for MergeSorted<S, T> {
    ghost ranks = { side_ranks S.ranks T.ranks };

    ghost counting = { stream_ranking (merge_lowers S.counting T.counting) };
}
