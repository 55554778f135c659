ghost use Rattle.std.specs.Prelude.{[], ◌∷◌, None};
ghost use Rattle.lite_reshape.specs.Uses.{NoHint, through_calm, through_on};
ghost use Rattle.lite_reshape.specs.Cloned.{AlikeCloned, ClonedFrom, Clones, ClonesAll, ClonesUnrefused, cloned_parts};
ghost use Rattle.lite_reshape.specs.Laws.Cloned.{cloned_laws, cloned_ok_counting, cloned_steady, clones_calming, cloned_arms};
ghost use Rattle.lite_reshape.specs.Laws.Expanding.{held_ranks};

use lite_base::{
    ArmedStream, CalmStream, Context, Counted, OkCounted, Poll, SteadyStream, Stream, ready,
};
use std::alloc::AllocError;

/// A stream that yields clones of the references that another stream yields.
///
/// Returned by [`cloned`](crate::make::cloned). An item is `Ok` with a clone, or `Err(AllocError)` if the
/// clone was refused for want of memory. In that case the reference is kept. The next poll tries the same
/// clone again, without polling the other stream. A clone that cannot fail is never refused.
#[derive(Clone, Debug, Drop)]
pub struct Cloned<S: Stream> {
    pub(crate) stream: S,
    pub(crate) held: Option<S::Item>,
}

// Makes a clone, and keeps the reference if it is refused.
#[tactic(auto, using(crate::specs::Laws::Cloned::gives_copy))]
fn try_clone<'a, T: Clone>(
    item: &'a T,
    held: &mut Option<&'a T>,
) -> Poll<Option<Result<T, AllocError>>>
    ensures { Clones T.is_clone T.is_infallible item.entry (result ∷ []) held.new }
{
    match item.clone() {
        Ok(copy) => {
            *held = None;
            Poll::Ready(Some(Ok(copy)))
        }
        Err(refused) => {
            *held = Some(item);
            Poll::Ready(Some(Err(refused)))
        }
    }
}

impl<'a, T: Clone + 'a, S: Stream<Item = &'a T>> Stream for Cloned<S> {
    type Item = Result<T, AllocError>;

    ghost can_poll = { λ m. S.can_poll m.stream };

    ghost run = { ClonesAll T.is_clone T.is_infallible S.run };

    ghost registers = { λ m. S.registers m.stream };

    ghost hints = { NoHint };

    ghost laws = { cloned_laws T.is_clone T.is_infallible S.laws };

    #[tactic(auto, using(crate::specs::Laws::Expanding::held_answers))]
    fn poll_next(&mut self, cx: &mut Context<'_>) -> Poll<Option<Result<T, AllocError>>> {
        match self.held {
            Some(item) => try_clone(item, &mut self.held),
            None => match ready!(self.stream.poll_next(cx)) {
                Some(item) => try_clone(item, &mut self.held),
                None => Poll::Ready(None),
            },
        }
    }

    fn size_hint(&self) -> (usize, Option<usize>) {
        (0, None)
    }
}

impl<'a, T: Clone + 'a, S: Counted<Item = &'a T>> OkCounted for Cloned<S> {
    type Ok = T;

    type Err = AllocError;

    ghost ok_ranks = { held_ranks cloned_parts S.ranks };

    ghost ok_counting = { cloned_ok_counting T.is_clone T.is_infallible S.laws S.counting };
}

impl<'a, T: Clone + 'a, S: SteadyStream<Item = &'a T>> SteadyStream for Cloned<S> {
    ghost ample = { ClonesUnrefused T.is_clone S.ample };

    ghost needs_none = { S.needs_none × ((x : T) → T.is_infallible x) };

    ghost same = { ClonedFrom S.same T.is_clone };

    ghost alike = { AlikeCloned S.same S.alike T.is_clone };

    ghost steady = { cloned_steady T.is_clone T.is_infallible S.same S.steady };
}

impl<'a, T: Clone + 'a, S: CalmStream<Item = &'a T>> CalmStream for Cloned<S> {
    ghost is_calm = { λ m. S.is_calm m.stream };

    ghost calm = { through_calm cloned_parts S.calm (clones_calming T.is_clone T.is_infallible) };
}

impl<'a, T: Clone + 'a, S: ArmedStream<Item = &'a T>> ArmedStream for Cloned<S> {
    ghost armed = { cloned_arms T.is_clone T.is_infallible S.armed };
}
