ghost use Rattle.std.specs.Prelude.{◌≡◌};
ghost use Rattle.lite_consume.specs.Uses.{AgreeFrom, CalledAt, Optional, SameItem, TakesAt};
ghost use Rattle.lite_consume.specs.Consuming.{fold_of};
ghost use Rattle.lite_consume.specs.Find.{finds};
ghost use Rattle.lite_consume.specs.Laws.Agreeing.{part_steady};
ghost use Rattle.lite_consume.specs.Laws.Matching.{find_steady};
ghost use Rattle.lite_consume.specs.Laws.Returning.{returns_counted};

use crate::consume::Consume;
use crate::folder::{Folder, SteadyFolder};
use lite_base::{Counted, SteadyStream};

/// A future that resolves to the first item of a stream for which a predicate returns true, or to `None` at
/// an end.
///
/// Returned by [`find`](crate::make::find). The stream is left after that item.
pub type FindFuture<'a, S, P> = Consume<&'a mut S, Find<P>>;

/// Calls the predicate with each item. The first one for which it returns true decides.
#[derive(Debug, Drop)]
pub struct Find<P> {
    /// The predicate that is called with each item.
    pub predicate: P,
}

impl<S: Counted<Item: Drop>, P: FnMut(&S::Item) -> bool> Folder<S> for Find<P> {
    type Output = Option<S::Item>;

    ghost fold = { fold_of (λ f. f.predicate) (finds (CalledAt P.FnMut)) };

    ghost can_take = { λ f. TakesAt P.FnMut f.predicate };

    ghost counts = { S.ranks.counts };

    fn take_in(&mut self, item: S::Item) -> Option<Option<S::Item>> {
        if (self.predicate)(&item) {
            Some(Some(item))
        } else {
            None
        }
    }

    fn finish(&mut self) -> Option<S::Item> {
        None
    }

    ghost returns = { returns_counted S.counting (λ p q x o h. tt) };
}

impl<S: Counted<Item: Drop> + SteadyStream, P: FnMut(&S::Item) -> bool> SteadyFolder<S>
    for Find<P> {
    ghost ample = { fold_of (λ f. f.predicate) (finds (CalledAt P.FnMut)) };

    ghost same = { Optional S.same };

    ghost agree = { λ f g. AgreeFrom (SameItem S.same) (λ y z. y ≡ z) (CalledAt P.FnMut) f.predicate g.predicate };

    ghost steady_fold = { part_steady (λ f. f.predicate) (find_steady S.same (CalledAt P.FnMut)) };
}
