ghost use Rattle.std.specs.Prelude.{◌≡◌, ⊤, Some};
ghost use Rattle.lite_source.specs.Uses.{ok_counting, steady_always};
ghost use Rattle.lite_source.specs.Always.{no_ranks};
ghost use Rattle.lite_source.specs.Laws.Pending.{pending_counting, pending_laws, pending_steady};
ghost use Rattle.lite_source.specs.Pending.{GivesPendings};

use lite_base::{Context, Counted, OkCounted, Poll, SteadyStream, Stream};
use std::marker::PhantomData;

/// A stream that is pending for ever. A poll wakes nothing.
///
/// Returned by [`pending`](crate::make::pending).
#[derive(Clone, Debug, Drop)]
pub struct Pending<T> {
    pub(crate) item: PhantomData<T>,
}

impl<T> Stream for Pending<T> {
    type Item = T;

    ghost run = { GivesPendings };

    ghost hints = { λ x hint. hint ≡ (0, Some 0) };

    ghost laws = { pending_laws };

    fn poll_next(&mut self, _cx: &mut Context<'_>) -> Poll<Option<T>> {
        Poll::Pending
    }

    fn size_hint(&self) -> (usize, Option<usize>) {
        (0, Some(0))
    }
}

impl<T> Counted for Pending<T> {
    ghost ranks = { no_ranks };

    ghost counting = { pending_counting };
}

impl<T, E> OkCounted for Pending<Result<T, E>> {
    type Ok = T;

    type Err = E;

    ghost ok_ranks = { no_ranks };

    ghost ok_counting = { ok_counting pending_counting };
}

impl<T> SteadyStream for Pending<T> {
    ghost ample = { GivesPendings };

    ghost alike = { λ _ _. ⊤ };

    ghost steady = { steady_always pending_laws pending_steady };
}
