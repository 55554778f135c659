ghost use Rattle.std.specs.Prelude.{◌≡◌, IsSome, Ok, Some};
ghost use Rattle.lite_consume.specs.Uses.{Agree};
ghost use Rattle.lite_consume.specs.Fold.{CallsBoth};
ghost use Rattle.lite_consume.specs.Consuming.{fold_of};
ghost use Rattle.lite_consume.specs.Agreeing.{AgreeBeside, AgreeDeciding, Giving};
ghost use Rattle.lite_consume.specs.Laws.Agreeing.{part_steady};
ghost use Rattle.lite_consume.specs.Laws.Matching.{try_fold_steady};
ghost use Rattle.lite_consume.specs.Laws.Returning.{returns_ok};
ghost use Rattle.lite_consume.specs.TryFold.{try_fold_steps, tries_fold_open};

use crate::consume::Consume;
use crate::folder::{Folder, SteadyFolder};
use lite_base::{OkCounted, SteadyStream};

/// A future that folds the values in the `Ok` items of a stream into an accumulator, up to the first error.
///
/// Returned by [`try_fold`](crate::make::try_fold). An `Err` item, or an error that the closure returns, is
/// the value. The stream is then left after that item.
pub type TryFoldFuture<'a, S, F, B> = Consume<&'a mut S, TryFold<F, B>>;

/// Calls the closure with the accumulator and the value in each item. The result is the next accumulator, or
/// an error that decides.
#[derive(Debug, Drop)]
pub struct TryFold<F, B> {
    /// The closure that is called with the accumulator and the value in each item.
    pub f: F,
    /// The accumulator; `None` after it was returned.
    pub acc: Option<B>,
}

impl<B: Drop, S: OkCounted, F: FnMut(B, S::Ok) -> Result<B, S::Err>> Folder<S> for TryFold<F, B> {
    type Output = Result<B, S::Err>;

    ghost fold = { fold_of (λ m. (m.f, m.acc)) (try_fold_steps (CallsBoth F.FnMut)) };

    ghost can_take = { λ m x. (a : B) (y : S.Ok) → m.acc ≡ Some a → x ≡ Ok y → F.FnMut.pre m.f (a, (y, tt)) };

    ghost is_open = { λ m. IsSome m.acc };

    ghost counts = { S.ok_ranks.counts };

    fn take_in(&mut self, item: Result<S::Ok, S::Err>) -> Option<Result<B, S::Err>> {
        let value = match item {
            Ok(value) => value,
            Err(error) => return Some(Err(error)),
        };
        match self.acc.take() {
            Some(acc) => match (self.f)(acc, value) {
                Ok(folded) => {
                    self.acc = Some(folded);
                    None
                }
                Err(error) => Some(Err(error)),
            },
            None => unreachable!(),
        }
    }

    fn finish(&mut self) -> Result<B, S::Err> {
        match self.acc.take() {
            Some(acc) => Ok(acc),
            None => unreachable!(),
        }
    }

    ghost returns = { returns_ok S.ok_counting (λ p q e h. h)
        (λ p q x o h. tries_fold_open (CallsBoth F.FnMut) (p.f, p.acc) (q.f, q.acc) x h) };
}

impl<B: Drop, S: OkCounted + SteadyStream, F: FnMut(B, S::Ok) -> Result<B, S::Err>> SteadyFolder<S>
    for TryFold<F, B> {
    ghost ample = { fold_of (λ m. (m.f, m.acc)) (try_fold_steps (CallsBoth F.FnMut)) };

    ghost same = { Giving S.same (try_fold_steps (CallsBoth F.FnMut)) };

    ghost agree = { λ m n. AgreeDeciding S.same (AgreeBeside (Agree (CallsBoth F.FnMut))) (try_fold_steps (CallsBoth F.FnMut))
        (m.f, m.acc) (n.f, n.acc) };

    ghost steady_fold = { part_steady (λ m. (m.f, m.acc)) (try_fold_steady (CallsBoth F.FnMut) S.same) };
}
