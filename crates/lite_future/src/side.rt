ghost use Rattle.std.specs.Prelude.{◌≡◌, ◌∷◌, [], Err, IfErr, IfOk, Ok, Result};
ghost use Rattle.lite_future.specs.Uses.{Keeps, Lasting, Poll};
ghost use Rattle.futures.specs.Task.{Holds};
ghost use Rattle.lite_future.specs.Side.{CanAsk, IsAskedAnd, Stands};
ghost use Rattle.lite_future.specs.Together.{TakesBoth};
ghost use Rattle.lite_future.specs.declared.side.Side.TheVariants.{Asked};

use lite_base::{Context, Future, Poll};
use std::mem;

/// One of two futures that are waited for together.
#[derive(Debug, Drop)]
pub(crate) enum Side<F, T> {
    /// The future, which has not returned its value.
    Asked(F),
    /// Its value. The future was dropped.
    Gave(T),
    /// The value was returned.
    Taken,
}

/// Polls the future, unless its value is there.
pub(crate) fn ask<F: Future + Drop>(side: &mut Side<F, F::Output>, cx: &mut Context<'_>)
where
    F::Output: Drop,
    requires { CanAsk F.can_poll side.old }
    ensures row { (a : Poll F.Output) × Stands (λ v. v) F.run side.old (a ∷ []) side.new }
    ensures again { CanAsk F.can_poll side.new }
    ensures registered { (fact : Lasting) → IsAskedAnd side.new (λ f. F.registers f fact) → Holds cx.new fact }
    ensures context { Keeps cx.old cx.new }
{
    if let Side::Asked(future) = side {
        if let Poll::Ready(x) = future.poll(cx) {
            *side = Side::Gave(x);
        }
    }
}

/// Polls the future, unless its value is there. `Err` is the future's own, and the future stays.
pub(crate) fn try_ask<T, E, F>(side: &mut Side<F, T>, cx: &mut Context<'_>) -> Result<(), E>
where
    F: Future<Output = Result<T, E>> + Drop,
    T: Drop,
    requires { CanAsk F.can_poll side.old }
    ensures row { IfOk result (λ _. (a : Poll (Result T E)) × Stands (λ v. Ok v) F.run side.old (a ∷ []) side.new) }
    ensures failed { IfErr result
        (λ e. (f g : F) × (side.old ≡ Asked f) × F.run f (Poll.Ready (Err e) ∷ []) g × (side.new ≡ Asked g)) }
    ensures again { IfOk result (λ _. CanAsk F.can_poll side.new) }
    ensures registered { IfOk result (λ _. (fact : Lasting) → IsAskedAnd side.new (λ f. F.registers f fact) → Holds cx.new fact) }
    ensures context { Keeps cx.old cx.new }
{
    let Side::Asked(future) = side else {
        return Ok(());
    };
    match future.poll(cx) {
        Poll::Ready(Ok(x)) => {
            *side = Side::Gave(x);
            Ok(())
        }
        Poll::Ready(Err(e)) => Err(e),
        Poll::Pending => Ok(()),
    }
}

/// Takes the two values, once both are there.
pub(crate) fn take_both<F, G, X, Y>(first: &mut Side<F, X>, second: &mut Side<G, Y>) -> Poll<(X, Y)>
where
    F: Drop,
    G: Drop,
    X: Drop,
    Y: Drop,
    ensures { TakesBoth first.old second.old result first.new second.new }
{
    match (&*first, &*second) {
        (Side::Gave(_), Side::Gave(_)) => {}
        _ => return Poll::Pending,
    }
    match (
        mem::replace(first, Side::Taken),
        mem::replace(second, Side::Taken),
    ) {
        (Side::Gave(x), Side::Gave(y)) => Poll::Ready((x, y)),
        _ => unreachable!(),
    }
}
