ghost use Rattle.std.specs.Prelude.{◌⊎◌};
ghost use Rattle.lite_future.specs.Side.{CanAsk, IfAsked, IsAskedAnd};
ghost use Rattle.lite_future.specs.TryZip.{TryZips};
ghost use Rattle.lite_future.specs.Laws.TryZip.{try_zips_calm, try_zips_laws, try_zips_arms};

use crate::side::{Side, take_both, try_ask};
use lite_base::{ArmedFuture, CalmFuture, Context, Future, Poll};

/// A future that resolves to the values of two futures, or to the first error.
///
/// Returned by [`try_zip`](crate::make::try_zip). Each poll polls each future that has no value yet, the
/// first before the second. It does not poll the second if the first failed in that poll. A future is dropped
/// in the poll that returns its value. After an error both stay as they are.
#[derive(Debug, Drop)]
pub struct TryZip<F1, T1, F2, T2> {
    pub(crate) first: Side<F1, T1>,
    pub(crate) second: Side<F2, T2>,
}

impl<T1, T2, E, F1, F2> Future for TryZip<F1, T1, F2, T2>
where
    F1: Future<Output = Result<T1, E>> + Drop,
    F2: Future<Output = Result<T2, E>> + Drop,
    T1: Drop,
    T2: Drop,
{
    type Output = Result<(T1, T2), E>;

    ghost can_poll = { λ x. CanAsk F1.can_poll x.first × CanAsk F2.can_poll x.second };

    ghost run = { λ x l y. TryZips F1.run F2.run x.first x.second l y.first y.second };

    ghost registers = { λ x fact. IsAskedAnd x.first (λ f. F1.registers f fact) ⊎ IsAskedAnd x.second (λ f. F2.registers f fact) };

    ghost laws = { try_zips_laws F1.laws F2.laws };

    fn poll(&mut self, cx: &mut Context<'_>) -> Poll<Result<(T1, T2), E>> {
        if let Err(e) = try_ask(&mut self.first, cx) {
            return Poll::Ready(Err(e));
        }
        if let Err(e) = try_ask(&mut self.second, cx) {
            return Poll::Ready(Err(e));
        }
        match take_both(&mut self.first, &mut self.second) {
            Poll::Ready(both) => Poll::Ready(Ok(both)),
            Poll::Pending => Poll::Pending,
        }
    }
}

impl<T1, T2, E, F1, F2> CalmFuture for TryZip<F1, T1, F2, T2>
where
    F1: CalmFuture<Output = Result<T1, E>> + Drop,
    F2: CalmFuture<Output = Result<T2, E>> + Drop,
    T1: Drop,
    T2: Drop,
{
    ghost is_calm = { λ x. IfAsked x.first F1.is_calm × IfAsked x.second F2.is_calm };

    ghost calm = { try_zips_calm F1.calm F2.calm };
}

impl<T1, T2, E, F1, F2> ArmedFuture for TryZip<F1, T1, F2, T2>
where
    F1: ArmedFuture<Output = Result<T1, E>> + Drop,
    F2: ArmedFuture<Output = Result<T2, E>> + Drop,
    T1: Drop,
    T2: Drop,
{
    ghost armed = { try_zips_arms F1.armed F2.armed };
}
