ghost use Rattle.std.specs.Prelude.{◌≡◌};
ghost use Rattle.lite_consume.specs.Uses.{AgreeFrom, Calls, SameItem};
ghost use Rattle.lite_consume.specs.Consuming.{fold_of};
ghost use Rattle.lite_consume.specs.Laws.Agreeing.{part_steady};
ghost use Rattle.lite_consume.specs.Laws.Matching.{position_steady};
ghost use Rattle.lite_consume.specs.Laws.Returning.{returns_counted};
ghost use Rattle.lite_consume.specs.Position.{positions};

use crate::consume::Consume;
use crate::folder::{Folder, SteadyFolder};
use lite_base::{Counted, SteadyStream};

/// A future that resolves to the index of the first item of a stream for which a predicate returns true, or
/// to `None` at an end.
///
/// Returned by [`position`](crate::make::position). The index counts from 0, at the first item that this
/// future polls, and modulo 2^64. The count is kept while the stream is pending. The stream is left after
/// that item.
pub type PositionFuture<'a, S, P> = Consume<&'a mut S, Position<P>>;

/// Calls the predicate with each item. The first one for which it returns true decides.
#[derive(Debug, Drop)]
pub struct Position<P> {
    /// The predicate that is called with each item.
    pub predicate: P,
    /// The index of the next item.
    pub index: usize,
}

impl<S: Counted, P: FnMut(S::Item) -> bool> Folder<S> for Position<P> {
    type Output = Option<usize>;

    ghost fold = { fold_of (λ f. (f.predicate, f.index)) (positions (Calls P.FnMut)) };

    ghost can_take = { λ f x. P.FnMut.pre f.predicate (x, tt) };

    ghost counts = { S.ranks.counts };

    fn take_in(&mut self, item: S::Item) -> Option<Option<usize>> {
        if (self.predicate)(item) {
            return Some(Some(self.index));
        }
        self.index = self.index.wrapping_add(1);
        None
    }

    fn finish(&mut self) -> Option<usize> {
        None
    }

    ghost returns = { returns_counted S.counting (λ p q x o h. tt) };
}

impl<S: Counted + SteadyStream, P: FnMut(S::Item) -> bool> SteadyFolder<S> for Position<P> {
    ghost ample = { fold_of (λ f. (f.predicate, f.index)) (positions (Calls P.FnMut)) };

    ghost agree = { λ f g. AgreeFrom (SameItem S.same) (λ y z. y ≡ z) (Calls P.FnMut) f.predicate g.predicate
        × (g.index ≡ f.index) };

    ghost steady_fold = { part_steady (λ f. (f.predicate, f.index)) (position_steady (SameItem S.same) (Calls P.FnMut)) };
}
