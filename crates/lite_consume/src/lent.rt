ghost use Rattle.lite_consume.specs.Consuming.{fold_of};
ghost use Rattle.lite_consume.specs.Laws.Agreeing.{part_steady};
ghost use Rattle.lite_consume.specs.Laws.Returning.{lent_returns};

use crate::folder::{Folder, SteadyFolder};
use lite_base::{SteadyStream, Stream};

impl<S: Stream, F: Folder<S>> Folder<&mut S> for &mut F {
    type Output = F::Output;

    ghost fold = { fold_of (λ f. f.now) F.fold };

    ghost can_take = { λ f. F.can_take f.now };

    ghost is_open = { λ f. F.is_open f.now };

    ghost counts = { λ s. F.counts s.now };

    fn take_in(&mut self, item: S::Item) -> Option<F::Output> {
        (**self).take_in(item)
    }

    fn finish(&mut self) -> F::Output {
        (**self).finish()
    }

    ghost returns = { lent_returns S.run F.fold F.returns };
}

impl<S: SteadyStream, F: SteadyFolder<S>> SteadyFolder<&mut S> for &mut F {
    ghost ample = { fold_of (λ f. f.now) F.ample };

    ghost needs_none = { F.needs_none };

    ghost same = { F.same };

    ghost agree = { λ f g. F.agree f.now g.now };

    ghost steady_fold = { part_steady (λ f. f.now) F.steady_fold };
}
