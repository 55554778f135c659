//! A future in an executor.
ghost use Rattle.std.specs.Prelude.{◌≡◌, None};

use futures_lite::Future;

/// A future, and its value once it has one.
#[derive(Drop)]
pub struct Task<F, A> {
    pub(crate) future: F,
    pub(crate) value: Option<A>,
}

impl<F: Future> Task<F, F::Output> {
    /// A task that has not been polled.
    pub fn new(future: F) -> Task<F, F::Output>
        ensures { result ≡ record { future = future; value = None } }
    {
        Task {
            future,
            value: None,
        }
    }
}

impl<F, A> Task<F, A> {
    /// The value, where the future has given it.
    pub fn into_value(self) -> Option<A>
    where
        F: Drop,
        ensures { result ≡ self.value }
    {
        self.value
    }
}
