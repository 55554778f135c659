ghost use Rattle.std.specs.Prelude.{◌-◌, ◌^◌, ◌≡◌, ⊤, None};
ghost use Rattle.lite_source.specs.Laws.Repeat.{repeat_calm, repeat_laws, repeat_steady};
ghost use Rattle.lite_source.specs.Repeat.{Repeats, SameClones};
ghost use Rattle.lite_base.specs.Laws.Armed.{arms_always};

use lite_base::{ArmedStream, CalmStream, Context, Poll, SteadyStream, Stream};
use std::alloc::AllocError;

/// A stream that yields clones of one item, one a poll, and never ends.
///
/// Returned by [`repeat`](crate::make::repeat). An `Ok` item is a clone of the item. `Err(AllocError)` means
/// that the clone was refused for lack of memory, and the next poll clones again. It is yielded only if a
/// clone may be refused. Unlike that of futures-lite, each item is a `Result`.
#[derive(Clone, Debug, Drop)]
pub struct Repeat<T> {
    pub(crate) item: T,
}

impl<T: Clone> Stream for Repeat<T> {
    type Item = Result<T, AllocError>;

    ghost run = { Repeats T.is_clone T.is_infallible };

    // It is never pending.
    ghost registers = { λ _ _. ⊤ };

    ghost hints = { λ x hint. hint ≡ (2 ^ 64 - 1, None) };

    ghost laws = { repeat_laws T.is_clone T.is_infallible (2 ^ 64 - 1) };

    fn poll_next(&mut self, _cx: &mut Context<'_>) -> Poll<Option<Result<T, AllocError>>> {
        Poll::Ready(Some(self.item.clone()))
    }

    fn size_hint(&self) -> (usize, Option<usize>) {
        (usize::MAX, None)
    }
}

impl<T: Clone> SteadyStream for Repeat<T> {
    ghost ample = { Repeats T.is_clone (λ _. ⊤) };

    ghost needs_none = { (x : T) → T.is_infallible x };

    ghost alike = { λ x y. SameClones T.is_clone x.item y.item };

    ghost steady = { repeat_steady T.is_clone T.is_infallible };
}

impl<T: Clone> CalmStream for Repeat<T> {
    ghost is_calm = { λ _. ⊤ };

    ghost calm = { repeat_calm T.is_clone T.is_infallible };
}

impl<T: Clone> ArmedStream for Repeat<T> {
    ghost armed = { arms_always };
}
