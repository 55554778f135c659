ghost use Rattle.lite_consume.specs.Uses.{Agree, Calls};
ghost use Rattle.lite_consume.specs.Consuming.{fold_of};
ghost use Rattle.lite_consume.specs.Agreeing.{AgreeDeciding, Giving};
ghost use Rattle.lite_consume.specs.Laws.Agreeing.{part_steady};
ghost use Rattle.lite_consume.specs.Laws.Matching.{try_for_each_steady};
ghost use Rattle.lite_consume.specs.Laws.Returning.{returns_counted};
ghost use Rattle.lite_consume.specs.TryForEach.{try_each_fold};

use crate::consume::Consume;
use crate::folder::{Folder, SteadyFolder};
use lite_base::{Counted, SteadyStream};

/// A future that calls a closure with each item of a stream, up to its end or the first error that the
/// closure returns.
///
/// Returned by [`try_for_each`](crate::make::try_for_each). The value is that error, or `Ok(())` at the end.
/// After an error the stream is left after that item.
pub type TryForEachFuture<'a, S, F> = Consume<&'a mut S, TryForEach<F>>;

/// Calls the closure with each item. Its first error decides.
#[derive(Debug, Drop)]
pub struct TryForEach<F> {
    /// The closure that is called with each item.
    pub f: F,
}

impl<E, S: Counted, F: FnMut(S::Item) -> Result<(), E>> Folder<S> for TryForEach<F> {
    type Output = Result<(), E>;

    ghost fold = { fold_of (λ m. m.f) (try_each_fold (Calls F.FnMut)) };

    ghost can_take = { λ m x. F.FnMut.pre m.f (x, tt) };

    ghost counts = { S.ranks.counts };

    fn take_in(&mut self, item: S::Item) -> Option<Result<(), E>> {
        match (self.f)(item) {
            Ok(()) => None,
            Err(error) => Some(Err(error)),
        }
    }

    fn finish(&mut self) -> Result<(), E> {
        Ok(())
    }

    ghost returns = { returns_counted S.counting (λ p q x o h. tt) };
}

impl<E, S: Counted + SteadyStream, F: FnMut(S::Item) -> Result<(), E>> SteadyFolder<S>
    for TryForEach<F> {
    ghost ample = { fold_of (λ m. m.f) (try_each_fold (Calls F.FnMut)) };

    ghost same = { Giving S.same (try_each_fold (Calls F.FnMut)) };

    ghost agree = { λ m n. AgreeDeciding S.same (Agree (Calls F.FnMut)) (try_each_fold (Calls F.FnMut)) m.f n.f };

    ghost steady_fold = { part_steady (λ m. m.f) (try_for_each_steady (Calls F.FnMut) S.same) };
}
