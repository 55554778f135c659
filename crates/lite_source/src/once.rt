ghost use Rattle.std.specs.Prelude.{◌≡◌, ⊤, Some, length};
ghost use Rattle.lite_source.specs.Uses.{ok_counting, steady_always};
ghost use Rattle.lite_source.specs.Laws.Once.{once_calm, once_counting, once_laws, once_steady};
ghost use Rattle.lite_source.specs.Once.{GivesOnce, once_left, once_ranks};
ghost use Rattle.lite_base.specs.Laws.Armed.{arms_always};

use lite_base::{ArmedStream, CalmStream, Context, Counted, OkCounted, Poll, SteadyStream, Stream};

/// A stream that yields one item, and then is at an end for ever.
///
/// Returned by [`once`](crate::make::once).
#[derive(Clone, Debug, Drop)]
pub struct Once<T> {
    pub(crate) value: Option<T>,
}

impl<T> Stream for Once<T> {
    type Item = T;

    ghost run = { GivesOnce };

    // It is never pending.
    ghost registers = { λ _ _. ⊤ };

    ghost hints = { λ x hint. hint ≡ (length (once_left x.value), Some (length (once_left x.value))) };

    ghost laws = { once_laws };

    fn poll_next(&mut self, _cx: &mut Context<'_>) -> Poll<Option<T>> {
        Poll::Ready(self.value.take())
    }

    fn size_hint(&self) -> (usize, Option<usize>) {
        if self.value.is_some() {
            (1, Some(1))
        } else {
            (0, Some(0))
        }
    }
}

impl<T> Counted for Once<T> {
    ghost ranks = { once_ranks };

    ghost counting = { once_counting };
}

impl<T, E> OkCounted for Once<Result<T, E>> {
    type Ok = T;

    type Err = E;

    ghost ok_ranks = { once_ranks };

    ghost ok_counting = { ok_counting once_counting };
}

impl<T> SteadyStream for Once<T> {
    ghost ample = { GivesOnce };

    ghost alike = { λ x y. y.value ≡ x.value };

    ghost steady = { steady_always once_laws once_steady };
}

impl<T> CalmStream for Once<T> {
    ghost is_calm = { λ _. ⊤ };

    ghost calm = { once_calm };
}

impl<T> ArmedStream for Once<T> {
    ghost armed = { arms_always };
}
