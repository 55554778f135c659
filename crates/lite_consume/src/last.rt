ghost use Rattle.lite_consume.specs.Uses.{Optional, SameHeld};
ghost use Rattle.lite_consume.specs.Consuming.{fold_of};
ghost use Rattle.lite_consume.specs.Last.{lasts};
ghost use Rattle.lite_consume.specs.Laws.Agreeing.{part_steady};
ghost use Rattle.lite_consume.specs.Laws.Matching.{last_steady};
ghost use Rattle.lite_consume.specs.Laws.Returning.{returns_counted};

use crate::consume::Consume;
use crate::folder::{Folder, SteadyFolder};
use lite_base::{Counted, SteadyStream, Stream};

/// A future that resolves to the last item of a stream before its end, or to `None` if there is none.
///
/// Returned by [`last`](crate::make::last).
pub type LastFuture<S> = Consume<S, Last<<S as Stream>::Item>>;

/// Keeps the latest item.
#[derive(Debug, Drop)]
pub struct Last<T> {
    /// The latest item, or `None` before the first.
    pub last: Option<T>,
}

impl<T: Drop, S: Counted<Item = T>> Folder<S> for Last<T> {
    type Output = Option<T>;

    ghost fold = { fold_of (λ f. f.last) lasts };

    ghost counts = { S.ranks.counts };

    fn take_in(&mut self, item: T) -> Option<Option<T>> {
        self.last = Some(item);
        None
    }

    fn finish(&mut self) -> Option<T> {
        self.last.take()
    }

    ghost returns = { returns_counted S.counting (λ p q x o h. tt) };
}

impl<T: Drop, S: Counted<Item = T> + SteadyStream> SteadyFolder<S> for Last<T> {
    ghost ample = { fold_of (λ f. f.last) lasts };

    ghost same = { Optional S.same };

    ghost agree = { λ f g. SameHeld S.same f.last g.last };

    ghost steady_fold = { part_steady (λ f. f.last) (last_steady S.same) };
}
