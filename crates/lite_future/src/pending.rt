ghost use Rattle.std.specs.Prelude.{◌≡◌, ⊤};
ghost use Rattle.lite_future.specs.Uses.{Waiting};
ghost use Rattle.lite_future.specs.Laws.Pending.{waits_laws, waits_steady};

use lite_base::{Context, Future, Poll, SteadyFuture};
use std::alloc::AllocError;
use std::marker::PhantomData;

/// A future that is never ready, and may always be polled again.
///
/// Returned by [`pending`](crate::make::pending). A poll registers nothing in its context, so nothing wakes
/// the task.
#[derive(Debug, Drop)]
pub struct Pending<T> {
    pub(crate) marker: PhantomData<T>,
}

impl<T> Clone for Pending<T> {
    ghost is_clone = { λ x y. y ≡ x };

    ghost is_infallible = { λ _. ⊤ };

    fn clone(&self) -> Result<Pending<T>, AllocError> {
        Ok(Pending {
            marker: PhantomData,
        })
    }
}

impl<T> Future for Pending<T> {
    type Output = T;

    ghost run = { λ x l y. Waiting l × (y ≡ x) };

    ghost laws = { waits_laws };

    fn poll(&mut self, _cx: &mut Context<'_>) -> Poll<T> {
        Poll::Pending
    }
}

impl<T> SteadyFuture for Pending<T> {
    ghost ample = { λ x l y. Waiting l × (y ≡ x) };

    ghost alike = { λ _ _. ⊤ };

    ghost steady = { waits_steady };
}
