//! The trait of futures, and calls that wait for one.
ghost use Rattle.std.specs.Prelude.{[], ◌∷◌, ⊤};
ghost use Rattle.lite_base.specs.Uses.{OnPending, Keeps, Lasting, Poll};
ghost use Rattle.lite_base.specs.FutureLaws.{FutureLaws};
ghost use Rattle.lite_base.specs.Runs.{Runs};
ghost use Rattle.lite_base.specs.Registered.{Registered};

use futures::task::{Context, Poll};

mod armed;
pub mod block_on;
mod calm;
mod steady;
mod waiter;
mod waits;

pub use armed::{ArmedFuture, poll_armed};
pub use calm::CalmFuture;
pub use steady::SteadyFuture;
pub use waiter::Waiter;
pub use waits::Waits;

/// A computation that may not be done yet, and returns its value when polled.
///
/// A contract describes the whole list of poll results: any number of `Pending`, and at most one value.
/// Unlike `std::future::Future`, it is polled without `Pin`.
///
/// # Examples
///
/// A future of your own. Its contract says nothing of the value.
///
/// ```
/// use futures_lite::{Context, Future, Poll, future};
///
/// #[derive(Drop)]
/// struct Later {
///     left: u8,
///     value: u32,
/// }
///
/// impl Future for Later {
///     type Output = u32;
///
///     ghost use Rattle.futures_lite.specs.Own.{AnyValue, anything_future};
///
///     ghost run = { AnyValue };
///
///     ghost laws = { anything_future };
///
///     fn poll(&mut self, cx: &mut Context<'_>) -> Poll<u32> {
///         if self.left == 0 {
///             return Poll::Ready(self.value);
///         }
///         self.left -= 1;
///         cx.yield_now()
///     }
/// }
///
/// assert_eq!(rt; future::block_on(&rt, Later { left: 2, value: 7 })?, 7);
/// ```
pub trait Future {
    /// The type of the value.
    type Output;

    /// The values that may be polled: those that have not returned `Ready` before, unless the type allows a
    /// poll after it, and whose closures may be called.
    ghost can_poll: { Self → Type 0 } = { λ _. ⊤ };

    /// From the first value, polls returned these results in order, and left the second value.
    ghost run: { Runs (Poll Self.Output) Self };

    /// What a poll that returned `Pending` and left this value has registered in its context.
    ghost registers: { Self → Lasting → Type 0 } = { λ _ _. ⊥ };

    /// Polls the future for its value.
    ///
    /// `Poll::Pending` means that the value is not there yet; the future may be polled again. `Poll::Ready`
    /// holds the value. Do not poll the future after that, unless its type says that this is allowed. What
    /// `cx` holds stays there.
    ///
    /// # Examples
    ///
    /// ```
    /// use futures_lite::{Doorbell, Future, Poll, Solo, future};
    ///
    /// let solo = Solo::new(&rt, Doorbell::spinning())?;
    /// let mut yielding = future::yield_now();
    ///
    /// let mut cx = solo.begin();
    /// let first = yielding.poll(&mut cx);
    /// let second = yielding.poll(&mut cx);
    /// cx.cancel();
    ///
    /// assert_eq!(rt; first, Poll::Pending);
    /// assert_eq!(rt; second, Poll::Ready(()));
    /// ```
    fn poll(&mut self, cx: &mut Context<'_>) -> Poll<Self::Output>
        requires { can_poll self.old }
        ensures ran { run self.old (result ∷ []) self.new }
        ensures again { OnPending result (can_poll self.new) }
        ensures registered { Registered result (registers self.new) cx.new }
        ensures context { Keeps cx.old cx.new };

    ghost laws: { FutureLaws can_poll run };
}
