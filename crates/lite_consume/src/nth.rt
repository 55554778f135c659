ghost use Rattle.std.specs.Prelude.{◌≡◌};
ghost use Rattle.lite_consume.specs.Uses.{Optional};
ghost use Rattle.lite_consume.specs.Consuming.{fold_of};
ghost use Rattle.lite_consume.specs.Laws.Agreeing.{part_steady};
ghost use Rattle.lite_consume.specs.Laws.Matching.{nth_steady};
ghost use Rattle.lite_consume.specs.Laws.Returning.{one_less, returns_fewer};
ghost use Rattle.lite_consume.specs.Nth.{nths};

use crate::consume::Consume;
use crate::folder::{Folder, SteadyFolder};
use lite_base::{SteadyStream, Stream};

/// A future that resolves to the item of a stream with a given index, counted from 0, or to `None` at an end
/// before it.
///
/// Returned by [`nth`](crate::make::nth). The number of items to skip is kept while the stream is pending.
/// The stream is left after that item, or after its end.
pub type NthFuture<'a, S> = Consume<&'a mut S, Nth>;

/// Skips `n` items. The next one decides.
#[derive(Debug, Drop)]
pub struct Nth {
    /// How many items are still to be skipped.
    pub n: usize,
}

impl<S: Stream<Item: Drop>> Folder<S> for Nth {
    type Output = Option<S::Item>;

    ghost fold = { fold_of (λ f. f.n) nths };

    fn take_in(&mut self, item: S::Item) -> Option<Option<S::Item>> {
        if self.n == 0 {
            return Some(Some(item));
        }
        self.n -= 1;
        None
    }

    fn finish(&mut self) -> Option<S::Item> {
        None
    }

    ghost returns = { returns_fewer (λ f. f.n) (λ p q x h. one_less h) (λ p q x o h. tt) };
}

impl<S: SteadyStream<Item: Drop>> SteadyFolder<S> for Nth {
    ghost ample = { fold_of (λ f. f.n) nths };

    ghost same = { Optional S.same };

    ghost agree = { λ f g. g.n ≡ f.n };

    ghost steady_fold = { part_steady (λ f. f.n) (nth_steady S.same) };
}
