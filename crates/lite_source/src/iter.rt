ghost use Rattle.std.specs.Prelude.{⊤};
ghost use Rattle.lite_source.specs.Uses.{Alike, ap, ok_counting};
ghost use Rattle.lite_source.specs.Iter.{AlwaysNext, IterHints, Iterates, Nexts, iter_ranks};
ghost use Rattle.lite_source.specs.Laws.Folds.{folds_calm, folds_steady};
ghost use Rattle.lite_source.specs.Laws.Iter.{iter_counting, iter_laws};
ghost use Rattle.lite_base.specs.Laws.Armed.{arms_always};

use lite_base::{ArmedStream, CalmStream, Context, Counted, OkCounted, Poll, SteadyStream, Stream};

/// A stream of the items of an iterator. Each poll calls `next` once.
///
/// Returned by [`iter`](crate::make::iter). It never returns `Pending`. A poll after an end calls `next`
/// again. Size hint: the iterator's.
#[derive(Clone, Debug, Drop)]
pub struct Iter<I> {
    pub(crate) iter: I,
}

impl<I: Iterator> Stream for Iter<I> {
    type Item = I::Item;

    ghost can_poll = { λ x. AlwaysNext I.can_next I.next_gives I.remaining x.iter };

    ghost run = { λ x l y. Iterates I.can_next I.next_gives I.remaining x.iter l y.iter };

    // It is never pending.
    ghost registers = { λ _ _. ⊤ };

    ghost hints = { λ x. IterHints (I.remaining x.iter) };

    ghost laws = { iter_laws I.can_next I.next_gives I.remaining };

    fn poll_next(&mut self, _cx: &mut Context<'_>) -> Poll<Option<I::Item>> {
        Poll::Ready(self.iter.next())
    }

    fn size_hint(&self) -> (usize, Option<usize>) {
        self.iter.size_hint()
    }
}

impl<I: Iterator> Counted for Iter<I> {
    ghost ranks = { iter_ranks I.can_next I.next_gives I.remaining };

    ghost counting = { iter_counting I.can_next I.next_gives I.remaining };
}

impl<T, E, I: Iterator<Item = Result<T, E>>> OkCounted for Iter<I> {
    type Ok = T;

    type Err = E;

    ghost ok_ranks = { iter_ranks I.can_next I.next_gives I.remaining };

    ghost ok_counting = { ok_counting (iter_counting I.can_next I.next_gives I.remaining) };
}

impl<I: Iterator> SteadyStream for Iter<I> {
    ghost ample = { λ x l y. Iterates I.can_next I.next_gives I.remaining x.iter l y.iter };

    ghost alike = { λ x y. Alike (Iterates I.can_next I.next_gives I.remaining) x.iter y.iter };

    ghost steady = { folds_steady (λ x. x.iter) (Nexts I.can_next I.next_gives I.remaining)
        (λ x y. ap (λ v. record x { iter = v })) };
}

impl<I: Iterator> CalmStream for Iter<I> {
    ghost is_calm = { λ _. ⊤ };

    ghost calm = { folds_calm (λ x. x.iter) (Nexts I.can_next I.next_gives I.remaining) (λ i j h. h) };
}

impl<I: Iterator> ArmedStream for Iter<I> {
    ghost armed = { arms_always };
}
