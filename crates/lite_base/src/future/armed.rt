ghost use Rattle.std.specs.Prelude.{[], ◌∷◌};
ghost use Rattle.futures.specs.Task.{IsArmed};
ghost use Rattle.lite_base.specs.Armed.{Arms};
ghost use Rattle.lite_base.specs.Registered.{Registered};
ghost use Rattle.lite_base.specs.Uses.{Keeps, OnPending};

use super::Future;
use futures::task::{Context, Poll};

/// A future whose every `Pending` has registered the task at a source, or has woken it.
///
/// A future over others is armed if they are. A type of your own states it by its law `armed`: each list of polls of
/// which the last returned `Pending` leaves a value that registers `Lasting.armed`.
///
/// # Examples
///
/// ```
/// use futures_lite::laws::ArmedFuture;
/// use futures_lite::{Context, Doorbell, Poll, Solo, future};
///
/// /// Polls a future, and returns whether it is ready.
/// fn is_ready<F: ArmedFuture>(waited: &mut F, cx: &mut Context<'_>) -> bool
/// where
///     F::Output: Drop,
///     requires { F.can_poll waited.old }
/// {
///     matches!(future::poll_armed(waited, cx), Poll::Ready(_))
/// }
///
/// let solo = Solo::new(&rt, Doorbell::spinning())?;
/// let mut both = future::zip(future::yield_now(), future::ready(7u8));
///
/// let mut cx = solo.begin();
/// let at_first = is_ready(&mut both, &mut cx);
/// let then = is_ready(&mut both, &mut cx);
/// cx.cancel();
///
/// assert_eq!(rt; (at_first, then), (false, true));
/// ```
pub trait ArmedFuture: Future {
    /// Does nothing. The trait exists for its law.
    fn is_armed_future(&self) {}

    ghost armed: { Arms Self.run Self.registers };
}

/// Polls `future` once, and returns the result.
///
/// If the result is `Pending`, the task is armed in `cx`: it is registered at a source, or it was woken. So an
/// executor may park the task after this call, on the contract alone. The caller guarantees that `future` may be
/// polled.
///
/// # Examples
///
/// ```
/// use futures_lite::{Doorbell, Poll, Solo, future};
///
/// let solo = Solo::new(&rt, Doorbell::spinning())?;
/// let mut yielding = future::yield_now();
///
/// let mut cx = solo.begin();
/// let first = future::poll_armed(&mut yielding, &mut cx);
/// let second = future::poll_armed(&mut yielding, &mut cx);
/// cx.cancel();
///
/// assert_eq!(rt; first, Poll::Pending);
/// assert_eq!(rt; second, Poll::Ready(()));
/// ```
pub fn poll_armed<F: ArmedFuture>(future: &mut F, cx: &mut Context<'_>) -> Poll<F::Output>
    requires { F.can_poll future.old }
    ensures ran { F.run future.old (result ∷ []) future.new }
    ensures again { OnPending result (F.can_poll future.new) }
    ensures registered { Registered result (F.registers future.new) cx.new }
    ensures armed { OnPending result (IsArmed cx.new) }
    ensures context { Keeps cx.old cx.new }
{
    future.poll(cx)
}
