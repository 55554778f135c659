ghost use Rattle.std.specs.Prelude.{◌≡◌, ⊤, Some};
ghost use Rattle.lite_source.specs.Uses.{ok_counting, steady_always};
ghost use Rattle.lite_source.specs.Always.{no_ranks};
ghost use Rattle.lite_source.specs.Empty.{GivesEnds};
ghost use Rattle.lite_source.specs.Laws.Empty.{empty_calm, empty_counting, empty_laws, empty_steady};
ghost use Rattle.lite_base.specs.Laws.Armed.{arms_always};

use lite_base::{ArmedStream, CalmStream, Context, Counted, OkCounted, Poll, SteadyStream, Stream};
use std::marker::PhantomData;

/// An empty stream: every poll returns `Ready(None)`.
///
/// Returned by [`empty`](crate::make::empty).
#[derive(Clone, Debug, Drop)]
pub struct Empty<T> {
    pub(crate) item: PhantomData<T>,
}

impl<T> Stream for Empty<T> {
    type Item = T;

    ghost run = { GivesEnds };

    // It is never pending.
    ghost registers = { λ _ _. ⊤ };

    ghost hints = { λ x hint. hint ≡ (0, Some 0) };

    ghost laws = { empty_laws };

    fn poll_next(&mut self, _cx: &mut Context<'_>) -> Poll<Option<T>> {
        Poll::Ready(None)
    }

    fn size_hint(&self) -> (usize, Option<usize>) {
        (0, Some(0))
    }
}

impl<T> Counted for Empty<T> {
    ghost ranks = { no_ranks };

    ghost counting = { empty_counting };
}

impl<T, E> OkCounted for Empty<Result<T, E>> {
    type Ok = T;

    type Err = E;

    ghost ok_ranks = { no_ranks };

    ghost ok_counting = { ok_counting empty_counting };
}

impl<T> SteadyStream for Empty<T> {
    ghost ample = { GivesEnds };

    ghost alike = { λ _ _. ⊤ };

    ghost steady = { steady_always empty_laws empty_steady };
}

impl<T> CalmStream for Empty<T> {
    ghost is_calm = { λ _. ⊤ };

    ghost calm = { empty_calm };
}

impl<T> ArmedStream for Empty<T> {
    ghost armed = { arms_always };
}
