ghost use Rattle.std.specs.Prelude.{◌≡◌};
ghost use Rattle.lite_consume.specs.Consuming.{fold_of};
ghost use Rattle.lite_consume.specs.Count.{counts};
ghost use Rattle.lite_consume.specs.Laws.Agreeing.{part_steady};
ghost use Rattle.lite_consume.specs.Laws.Matching.{count_steady};
ghost use Rattle.lite_consume.specs.Laws.Returning.{returns_counted};

use crate::consume::Consume;
use crate::folder::{Folder, SteadyFolder};
use lite_base::{Counted, SteadyStream};

/// A future that resolves to the number of items of a stream up to its end, modulo 2^64.
///
/// Returned by [`count`](crate::make::count).
pub type CountFuture<S> = Consume<S, Count>;

/// Counts the items.
#[derive(Debug, Drop)]
pub struct Count {
    /// How many items were counted, modulo 2^64.
    pub count: usize,
}

impl<S: Counted<Item: Drop>> Folder<S> for Count {
    type Output = usize;

    ghost fold = { fold_of (λ f. f.count) counts };

    ghost counts = { S.ranks.counts };

    fn take_in(&mut self, _item: S::Item) -> Option<usize> {
        self.count = self.count.wrapping_add(1);
        None
    }

    fn finish(&mut self) -> usize {
        self.count
    }

    ghost returns = { returns_counted S.counting (λ p q x o h. tt) };
}

impl<S: Counted<Item: Drop> + SteadyStream> SteadyFolder<S> for Count {
    ghost ample = { fold_of (λ f. f.count) counts };

    ghost agree = { λ f g. g.count ≡ f.count };

    ghost steady_fold = { part_steady (λ f. f.count) (count_steady S.same) };
}
