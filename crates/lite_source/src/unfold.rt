ghost use Rattle.std.specs.Prelude.{None};
ghost use Rattle.lite_source.specs.Uses.{Calls, MakesAlways, NoHint};
ghost use Rattle.lite_source.specs.Unfold.{UnfoldsBy, item_of, seed_of};
ghost use Rattle.lite_source.specs.Unfolding.{IfHeldFuture, PartOf, UnfoldAlike, UnfoldRegisters};
ghost use Rattle.lite_source.specs.Laws.Unfold.{unfold_laws, unfold_runs};
ghost use Rattle.lite_source.specs.Laws.Unfolded.{unfolds_calm, unfolds_steady, unfolds_arms};

use crate::unfolding::Unfolding;
use lite_base::{
    ArmedFuture, ArmedStream, CalmFuture, CalmStream, Context, Future, Poll, SteadyFuture,
    SteadyStream, Stream, ready,
};
use std::fmt;

/// A stream that yields items made by futures. Each future also returns the next seed.
///
/// Returned by [`unfold`](crate::make::unfold). A future is polled in the poll that made it, and is kept
/// while it is pending. `None` of a future ends the stream for ever. The stream may be polled after its end;
/// that of futures-lite panics then.
#[derive(Drop)]
pub struct Unfold<T, F, Fut> {
    pub(crate) f: F,
    pub(crate) state: Unfolding<T, Fut>,
}

impl<T: fmt::Debug, F, Fut: fmt::Debug> fmt::Debug for Unfold<T, F, Fut> {
    fn fmt<W: fmt::Write>(&self, f: &mut fmt::Formatter<W>) -> fmt::Result {
        self.state.show("Unfold", f)
    }
}

impl<T, F, Fut, Item> Stream for Unfold<T, F, Fut>
where
    T: Drop,
    F: FnMut(T) -> Fut,
    Fut: Future<Output = Option<(Item, T)>> + Drop,
{
    type Item = Item;

    ghost can_poll = { λ x. F.IsAlwaysCallable x.f × MakesAlways F.FnMut Fut.can_poll x.f
        × IfHeldFuture x.state Fut.can_poll };

    ghost run = { UnfoldsBy F.FnMut Fut.run };

    ghost registers = { λ x. UnfoldRegisters Fut.registers x.state };

    ghost hints = { NoHint };

    ghost laws = { unfold_laws F.FnMut Fut.run Fut.laws };

    #[tactic(auto, using(crate::specs::Laws::Unfolding::unfolds_rules))]
    fn poll_next(&mut self, cx: &mut Context<'_>) -> Poll<Option<Item>> {
        match ready!(self.state.poll(&mut self.f, cx)) {
            Some(Some((item, seed))) => {
                self.state.go_on(seed);
                Poll::Ready(Some(item))
            }
            Some(None) => Poll::Ready(None),
            None => Poll::Ready(None),
        }
    }

    fn size_hint(&self) -> (usize, Option<usize>) {
        (0, None)
    }
}

impl<T, F, Fut, Item> SteadyStream for Unfold<T, F, Fut>
where
    T: Drop,
    F: FnMut(T) -> Fut,
    Fut: SteadyFuture<Output = Option<(Item, T)>> + Drop,
{
    ghost ample = { UnfoldsBy F.FnMut Fut.ample };

    ghost needs_none = { Fut.needs_none };

    ghost same = { PartOf Fut.same item_of };

    ghost alike = { λ x y. UnfoldAlike Fut.same Fut.alike (Calls F.FnMut) seed_of item_of (x.f, x.state) (y.f, y.state) };

    ghost steady = { unfolds_steady F.FnMut seed_of item_of Fut.same (λ x. (x.f, x.state))
        (unfold_runs F.FnMut Fut.ample) Fut.steady };
}

impl<T, F, Fut, Item> CalmStream for Unfold<T, F, Fut>
where
    T: Drop,
    F: FnMut(T) -> Fut,
    Fut: CalmFuture<Output = Option<(Item, T)>> + Drop,
{
    ghost is_calm = { λ x. MakesAlways F.FnMut Fut.is_calm x.f × IfHeldFuture x.state Fut.is_calm };

    ghost calm = { unfolds_calm F.FnMut Fut.calm seed_of item_of (λ x. (x.f, x.state)) };
}

impl<T, F, Fut, Item> ArmedStream for Unfold<T, F, Fut>
where
    T: Drop,
    F: FnMut(T) -> Fut,
    Fut: ArmedFuture<Output = Option<(Item, T)>> + Drop,
{
    ghost armed = { unfolds_arms F.FnMut Fut.armed seed_of item_of (λ x. (x.f, x.state)) };
}
