ghost use Rattle.std.specs.Prelude.{◌⊎◌};
ghost use Rattle.lite_future.specs.Uses.{Pairwise};
ghost use Rattle.lite_future.specs.Side.{CanAsk, SidesBy, IfAsked, IsAskedAnd};
ghost use Rattle.lite_future.specs.Zip.{FutureZips};
ghost use Rattle.lite_future.specs.Laws.Zip.{zips_calm, zips_laws, zips_steady, zips_arms};

use crate::side::{Side, ask, take_both};
use lite_base::{ArmedFuture, CalmFuture, Context, Future, Poll, SteadyFuture};

/// A future that resolves to the values of two futures, once both are ready.
///
/// Returned by [`zip`](crate::make::zip). Each poll polls each future that has no value yet, the first before
/// the second, so two futures wait at the same time on one thread. A future is dropped in the poll that
/// returns its value. Do not poll a `Zip` after its value.
#[derive(Debug, Drop)]
pub struct Zip<F1: Future<Output: Drop>, F2: Future<Output: Drop>> {
    pub(crate) first: Side<F1, F1::Output>,
    pub(crate) second: Side<F2, F2::Output>,
}

impl<F1, F2> Future for Zip<F1, F2>
where
    F1: Future<Output: Drop> + Drop,
    F2: Future<Output: Drop> + Drop,
{
    type Output = (F1::Output, F2::Output);

    ghost can_poll = { λ x. CanAsk F1.can_poll x.first × CanAsk F2.can_poll x.second };

    ghost run = { λ x l y. FutureZips F1.run F2.run x.first x.second l y.first y.second };

    ghost registers = { λ x fact. IsAskedAnd x.first (λ f. F1.registers f fact) ⊎ IsAskedAnd x.second (λ f. F2.registers f fact) };

    ghost laws = { zips_laws F1.laws F2.laws };

    fn poll(&mut self, cx: &mut Context<'_>) -> Poll<(F1::Output, F2::Output)> {
        ask(&mut self.first, cx);
        ask(&mut self.second, cx);
        take_both(&mut self.first, &mut self.second)
    }
}

impl<F1, F2> SteadyFuture for Zip<F1, F2>
where
    F1: SteadyFuture<Output: Drop> + Drop,
    F2: SteadyFuture<Output: Drop> + Drop,
{
    ghost ample = { λ x l y. FutureZips F1.ample F2.ample x.first x.second l y.first y.second };

    ghost needs_none = { F1.needs_none × F2.needs_none };

    ghost same = { Pairwise F1.same F2.same };

    ghost alike = { λ x y. SidesBy F1.same F1.alike x.first y.first × SidesBy F2.same F2.alike x.second y.second };

    ghost steady = { zips_steady F1.same F2.same F1.steady F2.steady };
}

impl<F1, F2> CalmFuture for Zip<F1, F2>
where
    F1: CalmFuture<Output: Drop> + Drop,
    F2: CalmFuture<Output: Drop> + Drop,
{
    ghost is_calm = { λ x. IfAsked x.first F1.is_calm × IfAsked x.second F2.is_calm };

    ghost calm = { zips_calm F1.calm F2.calm };
}

impl<F1, F2> ArmedFuture for Zip<F1, F2>
where
    F1: ArmedFuture<Output: Drop> + Drop,
    F2: ArmedFuture<Output: Drop> + Drop,
{
    ghost armed = { zips_arms F1.armed F2.armed };
}
