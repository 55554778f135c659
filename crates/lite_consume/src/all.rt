ghost use Rattle.std.specs.Prelude.{◌≡◌};
ghost use Rattle.lite_consume.specs.Uses.{AgreeFrom, Calls, SameItem};
ghost use Rattle.lite_consume.specs.All.{all_fold};
ghost use Rattle.lite_consume.specs.Consuming.{fold_of};
ghost use Rattle.lite_consume.specs.Laws.Agreeing.{part_steady};
ghost use Rattle.lite_consume.specs.Laws.Matching.{all_steady};
ghost use Rattle.lite_consume.specs.Laws.Returning.{returns_counted};

use crate::consume::Consume;
use crate::folder::{Folder, SteadyFolder};
use lite_base::{Counted, SteadyStream};

/// A future that resolves to whether a predicate returns true for each item of a stream. It is true if there
/// is no item.
///
/// Returned by [`all`](crate::make::all). The first item for which the predicate returns false decides. The
/// stream is left after that item.
pub type AllFuture<'a, S, P> = Consume<&'a mut S, All<P>>;

/// Calls the predicate with each item. The first one for which it returns false decides.
#[derive(Debug, Drop)]
pub struct All<P> {
    /// The predicate that is called with each item.
    pub predicate: P,
}

impl<S: Counted, P: FnMut(S::Item) -> bool> Folder<S> for All<P> {
    type Output = bool;

    ghost fold = { fold_of (λ f. f.predicate) (all_fold (Calls P.FnMut)) };

    ghost can_take = { λ f x. P.FnMut.pre f.predicate (x, tt) };

    ghost counts = { S.ranks.counts };

    fn take_in(&mut self, item: S::Item) -> Option<bool> {
        if (self.predicate)(item) {
            None
        } else {
            Some(false)
        }
    }

    fn finish(&mut self) -> bool {
        true
    }

    ghost returns = { returns_counted S.counting (λ p q x o h. tt) };
}

impl<S: Counted + SteadyStream, P: FnMut(S::Item) -> bool> SteadyFolder<S> for All<P> {
    ghost ample = { fold_of (λ f. f.predicate) (all_fold (Calls P.FnMut)) };

    ghost agree = { λ f g. AgreeFrom (SameItem S.same) (λ y z. y ≡ z) (Calls P.FnMut) f.predicate g.predicate };

    ghost steady_fold = { part_steady (λ f. f.predicate) (all_steady (SameItem S.same) (Calls P.FnMut)) };
}
