ghost use Rattle.std.specs.Prelude.{[], ◌∷◌};
ghost use Rattle.futures.specs.Task.{IsArmed};
ghost use Rattle.lite_base.specs.Armed.{Arms};
ghost use Rattle.lite_base.specs.Registered.{Registered};
ghost use Rattle.lite_base.specs.Uses.{Keeps, OnPending};

use crate::stream::Stream;
use futures::task::{Context, Poll};

/// A stream whose every `Pending` has registered the task at a source, or has woken it.
///
/// An adapter is armed if its streams and futures are. A type of your own states it by its law `armed`: each list of
/// polls of which the last returned `Pending` leaves a value that registers `Lasting.armed`.
///
/// # Examples
///
/// ```
/// use futures_lite::laws::ArmedStream;
/// use futures_lite::{Context, Doorbell, Poll, Solo, StreamExt, stream};
///
/// /// Polls a stream with a budget twice, and returns the second result.
/// fn second<S: ArmedStream>(source: &mut S, cx: &mut Context<'_>) -> Poll<Option<S::Item>>
/// where
///     S::Item: Drop,
///     requires { S.can_poll source.old }
/// {
///     let _ = stream::poll_armed_next(source, cx);
///     stream::poll_armed_next(source, cx)
/// }
///
/// let solo = Solo::new(&rt, Doorbell::spinning())?;
/// let mut numbers = stream::iter(0u8..3).with_budget(1);
///
/// let mut cx = solo.begin();
/// let paused = second(&mut numbers, &mut cx);
/// cx.cancel();
///
/// assert_eq!(rt; paused, Poll::Pending);
/// ```
pub trait ArmedStream: Stream {
    /// Does nothing. The trait exists for its law.
    fn is_armed_stream(&self) {}

    ghost armed: { Arms Self.run Self.registers };
}

/// Polls `stream` once, and returns the result.
///
/// If the result is `Pending`, the task is armed in `cx`: it is registered at a source, or it was woken. So an
/// executor may park the task after this call, on the contract alone. The caller guarantees that `stream` may be
/// polled.
///
/// # Examples
///
/// ```
/// use futures_lite::{Doorbell, Poll, Solo, StreamExt, stream};
///
/// let solo = Solo::new(&rt, Doorbell::spinning())?;
/// let mut numbers = stream::iter(7u8..9).with_budget(1);
///
/// let mut cx = solo.begin();
/// let first = stream::poll_armed_next(&mut numbers, &mut cx);
/// let second = stream::poll_armed_next(&mut numbers, &mut cx);
/// cx.cancel();
///
/// assert_eq!(rt; first, Poll::Ready(Some(7)));
/// assert_eq!(rt; second, Poll::Pending);
/// ```
pub fn poll_armed_next<S: ArmedStream>(
    stream: &mut S,
    cx: &mut Context<'_>,
) -> Poll<Option<S::Item>>
    requires { S.can_poll stream.old }
    ensures ran { S.run stream.old (result ∷ []) stream.new }
    ensures again { S.can_poll stream.new }
    ensures registered { Registered result (S.registers stream.new) cx.new }
    ensures armed { OnPending result (IsArmed cx.new) }
    ensures context { Keeps cx.old cx.new }
{
    stream.poll_next(cx)
}
