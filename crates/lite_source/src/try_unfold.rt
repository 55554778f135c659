ghost use Rattle.std.specs.Prelude.{None};
ghost use Rattle.lite_source.specs.Uses.{Calls, MakesAlways, NoHint};
ghost use Rattle.lite_source.specs.TryUnfold.{TryUnfoldsBy, try_item_of, try_seed_of};
ghost use Rattle.lite_source.specs.Unfolding.{IfHeldFuture, PartOf, UnfoldAlike, UnfoldRegisters};
ghost use Rattle.lite_source.specs.Laws.TryUnfold.{try_unfold_laws, try_unfold_runs};
ghost use Rattle.lite_source.specs.Laws.Unfolded.{unfolds_calm, unfolds_steady, unfolds_arms};

use crate::unfolding::Unfolding;
use lite_base::{
    ArmedFuture, ArmedStream, CalmFuture, CalmStream, Context, Future, Poll, SteadyFuture,
    SteadyStream, Stream, ready,
};
use std::fmt;

/// A stream that yields items made by futures, up to the first error. Each future also returns the next
/// state.
///
/// Returned by [`try_unfold`](crate::make::try_unfold). A future is polled in the poll that made it, and is
/// kept while it is pending. `Ok(None)` of a future ends the stream. `Err(e)` is yielded as an item. After
/// either the stream is at an end for ever.
#[derive(Drop)]
pub struct TryUnfold<T, F, Fut> {
    pub(crate) f: F,
    pub(crate) state: Unfolding<T, Fut>,
}

impl<T: fmt::Debug, F, Fut: fmt::Debug> fmt::Debug for TryUnfold<T, F, Fut> {
    fn fmt<W: fmt::Write>(&self, f: &mut fmt::Formatter<W>) -> fmt::Result {
        self.state.show("TryUnfold", f)
    }
}

impl<T, F, Fut, Item, E> Stream for TryUnfold<T, F, Fut>
where
    T: Drop,
    F: FnMut(T) -> Fut,
    Fut: Future<Output = Result<Option<(Item, T)>, E>> + Drop,
{
    type Item = Result<Item, E>;

    ghost can_poll = { λ x. F.IsAlwaysCallable x.f × MakesAlways F.FnMut Fut.can_poll x.f
        × IfHeldFuture x.state Fut.can_poll };

    ghost run = { TryUnfoldsBy F.FnMut Fut.run };

    ghost registers = { λ x. UnfoldRegisters Fut.registers x.state };

    ghost hints = { NoHint };

    ghost laws = { try_unfold_laws F.FnMut Fut.run Fut.laws };

    #[tactic(auto, using(crate::specs::Laws::Unfolding::unfolds_rules))]
    fn poll_next(&mut self, cx: &mut Context<'_>) -> Poll<Option<Result<Item, E>>> {
        match ready!(self.state.poll(&mut self.f, cx)) {
            Some(Ok(Some((item, seed)))) => {
                self.state.go_on(seed);
                Poll::Ready(Some(Ok(item)))
            }
            Some(Ok(None)) => Poll::Ready(None),
            Some(Err(error)) => Poll::Ready(Some(Err(error))),
            None => Poll::Ready(None),
        }
    }

    fn size_hint(&self) -> (usize, Option<usize>) {
        (0, None)
    }
}

impl<T, F, Fut, Item, E> SteadyStream for TryUnfold<T, F, Fut>
where
    T: Drop,
    F: FnMut(T) -> Fut,
    Fut: SteadyFuture<Output = Result<Option<(Item, T)>, E>> + Drop,
{
    ghost ample = { TryUnfoldsBy F.FnMut Fut.ample };

    ghost needs_none = { Fut.needs_none };

    ghost same = { PartOf Fut.same try_item_of };

    ghost alike = { λ x y. UnfoldAlike Fut.same Fut.alike (Calls F.FnMut) try_seed_of try_item_of (x.f, x.state) (y.f, y.state) };

    ghost steady = { unfolds_steady F.FnMut try_seed_of try_item_of Fut.same (λ x. (x.f, x.state))
        (try_unfold_runs F.FnMut Fut.ample) Fut.steady };
}

impl<T, F, Fut, Item, E> CalmStream for TryUnfold<T, F, Fut>
where
    T: Drop,
    F: FnMut(T) -> Fut,
    Fut: CalmFuture<Output = Result<Option<(Item, T)>, E>> + Drop,
{
    ghost is_calm = { λ x. MakesAlways F.FnMut Fut.is_calm x.f × IfHeldFuture x.state Fut.is_calm };

    ghost calm = { unfolds_calm F.FnMut Fut.calm try_seed_of try_item_of (λ x. (x.f, x.state)) };
}

impl<T, F, Fut, Item, E> ArmedStream for TryUnfold<T, F, Fut>
where
    T: Drop,
    F: FnMut(T) -> Fut,
    Fut: ArmedFuture<Output = Result<Option<(Item, T)>, E>> + Drop,
{
    ghost armed = { unfolds_arms F.FnMut Fut.armed try_seed_of try_item_of (λ x. (x.f, x.state)) };
}
