ghost use Rattle.lite_consume.specs.Uses.{AgreeKeeping, Calls, Keeping, Optional};
ghost use Rattle.lite_consume.specs.Consuming.{fold_of};
ghost use Rattle.lite_consume.specs.FindMap.{finds_map};
ghost use Rattle.lite_consume.specs.Laws.Agreeing.{part_steady};
ghost use Rattle.lite_consume.specs.Laws.Matching.{find_map_steady};
ghost use Rattle.lite_consume.specs.Laws.Returning.{returns_counted};

use crate::consume::Consume;
use crate::folder::{Folder, SteadyFolder};
use lite_base::{Counted, SteadyStream};

/// A future that resolves to the first result of a closure on the items of a stream that is not `None`, or to
/// `None` at an end.
///
/// Returned by [`find_map`](crate::make::find_map). The stream is left after that item.
pub type FindMapFuture<'a, S, F> = Consume<&'a mut S, FindMap<F>>;

/// Calls the closure with each item. Its first result that is not `None` decides.
#[derive(Debug, Drop)]
pub struct FindMap<F> {
    /// The closure that is called with each item.
    pub f: F,
}

impl<B, S: Counted, F: FnMut(S::Item) -> Option<B>> Folder<S> for FindMap<F> {
    type Output = Option<B>;

    ghost fold = { fold_of (λ m. m.f) (finds_map (Calls F.FnMut)) };

    ghost can_take = { λ m x. F.FnMut.pre m.f (x, tt) };

    ghost counts = { S.ranks.counts };

    fn take_in(&mut self, item: S::Item) -> Option<Option<B>> {
        match (self.f)(item) {
            Some(value) => Some(Some(value)),
            None => None,
        }
    }

    fn finish(&mut self) -> Option<B> {
        None
    }

    ghost returns = { returns_counted S.counting (λ p q x o h. tt) };
}

impl<B, S: Counted + SteadyStream, F: FnMut(S::Item) -> Option<B>> SteadyFolder<S> for FindMap<F> {
    ghost ample = { fold_of (λ m. m.f) (finds_map (Calls F.FnMut)) };

    ghost same = { Optional (Keeping S.same (Calls F.FnMut)) };

    ghost agree = { λ m n. AgreeKeeping S.same (Calls F.FnMut) m.f n.f };

    ghost steady_fold = { part_steady (λ m. m.f) (find_map_steady S.same (Calls F.FnMut)) };
}
