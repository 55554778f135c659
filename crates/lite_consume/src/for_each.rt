ghost use Rattle.std.specs.Prelude.{◌≡◌};
ghost use Rattle.lite_consume.specs.Uses.{AgreeFrom, Calls, SameItem};
ghost use Rattle.lite_consume.specs.Consuming.{fold_of};
ghost use Rattle.lite_consume.specs.ForEach.{calls_each};
ghost use Rattle.lite_consume.specs.Laws.Agreeing.{part_steady};
ghost use Rattle.lite_consume.specs.Laws.Matching.{for_each_steady};
ghost use Rattle.lite_consume.specs.Laws.Returning.{returns_counted};

use crate::consume::Consume;
use crate::folder::{Folder, SteadyFolder};
use lite_base::{Counted, SteadyStream};

/// A future that calls a closure with each item of a stream, up to its end.
///
/// Returned by [`for_each`](crate::make::for_each).
pub type ForEachFuture<S, F> = Consume<S, ForEach<F>>;

/// Calls the closure with each item.
#[derive(Debug, Drop)]
pub struct ForEach<F> {
    /// The closure that is called with each item.
    pub f: F,
}

impl<S: Counted, F: FnMut(S::Item)> Folder<S> for ForEach<F> {
    type Output = ();

    ghost fold = { fold_of (λ m. m.f) (calls_each (Calls F.FnMut)) };

    ghost can_take = { λ m x. F.FnMut.pre m.f (x, tt) };

    ghost counts = { S.ranks.counts };

    fn take_in(&mut self, item: S::Item) -> Option<()> {
        (self.f)(item);
        None
    }

    fn finish(&mut self) {}

    ghost returns = { returns_counted S.counting (λ p q x o h. tt) };
}

impl<S: Counted + SteadyStream, F: FnMut(S::Item)> SteadyFolder<S> for ForEach<F> {
    ghost ample = { fold_of (λ m. m.f) (calls_each (Calls F.FnMut)) };

    ghost agree = { λ m n. AgreeFrom (SameItem S.same) (λ y z. y ≡ z) (Calls F.FnMut) m.f n.f };

    ghost steady_fold = { part_steady (λ m. m.f) (for_each_steady (SameItem S.same) (Calls F.FnMut)) };
}
