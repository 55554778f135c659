ghost use Rattle.std.specs.Prelude.{◌≡◌, IsSome, Some};
ghost use Rattle.lite_consume.specs.Uses.{Agree};
ghost use Rattle.lite_consume.specs.Fold.{CallsBoth, folds, folds_open};
ghost use Rattle.lite_consume.specs.Consuming.{fold_of};
ghost use Rattle.lite_consume.specs.Agreeing.{AgreeBeside, AgreeOrKin, Giving};
ghost use Rattle.lite_consume.specs.Laws.Agreeing.{part_steady};
ghost use Rattle.lite_consume.specs.Laws.Matching.{fold_steady};
ghost use Rattle.lite_consume.specs.Laws.Returning.{returns_counted};

use crate::consume::Consume;
use crate::folder::{Folder, SteadyFolder};
use lite_base::{Counted, SteadyStream};

/// A future that folds the items of a stream, one after the other, into an accumulator.
///
/// Returned by [`fold`](crate::make::fold). The accumulator is kept while the stream is pending. It is the
/// value at the end. Do not poll the future after that.
pub type FoldFuture<S, F, T> = Consume<S, Fold<F, T>>;

/// Calls the closure with the accumulator and each item. The result is the next accumulator.
#[derive(Debug, Drop)]
pub struct Fold<F, T> {
    /// The closure that is called with the accumulator and each item.
    pub f: F,
    /// The accumulator; `None` after it was returned.
    pub acc: Option<T>,
}

impl<T: Drop, S: Counted, F: FnMut(T, S::Item) -> T> Folder<S> for Fold<F, T> {
    type Output = T;

    ghost fold = { fold_of (λ m. (m.f, m.acc)) (folds (CallsBoth F.FnMut)) };

    ghost can_take = { λ m x. (a : T) → m.acc ≡ Some a → F.FnMut.pre m.f (a, (x, tt)) };

    ghost is_open = { λ m. IsSome m.acc };

    ghost counts = { S.ranks.counts };

    fn take_in(&mut self, item: S::Item) -> Option<T> {
        match self.acc.take() {
            Some(acc) => {
                self.acc = Some((self.f)(acc, item));
                None
            }
            None => unreachable!(),
        }
    }

    fn finish(&mut self) -> T {
        match self.acc.take() {
            Some(acc) => acc,
            None => unreachable!(),
        }
    }

    ghost returns = { returns_counted S.counting (λ p q x o h. folds_open (CallsBoth F.FnMut) (p.f, p.acc) (q.f, q.acc) x h) };
}

impl<T: Drop, S: Counted + SteadyStream, F: FnMut(T, S::Item) -> T> SteadyFolder<S> for Fold<F, T> {
    ghost ample = { fold_of (λ m. (m.f, m.acc)) (folds (CallsBoth F.FnMut)) };

    ghost same = { Giving S.same (folds (CallsBoth F.FnMut)) };

    ghost agree = { λ m n. AgreeOrKin S.same (AgreeBeside (Agree (CallsBoth F.FnMut))) (folds (CallsBoth F.FnMut)) (m.f, m.acc)
        (n.f, n.acc) };

    ghost steady_fold = { part_steady (λ m. (m.f, m.acc)) (fold_steady (CallsBoth F.FnMut) S.same) };
}
