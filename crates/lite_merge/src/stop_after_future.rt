ghost use Rattle.std.specs.Prelude.{◌≡◌, ◌↔◌, IsSome, IsTrue, None, Some};
ghost use Rattle.lite_merge.specs.Uses.{ok_counting, ranks_of, through_calm, through_counting};
ghost use Rattle.lite_merge.specs.Laws.StopAfterFuture.{stop_laws, stops_calming, stops_relating, stop_arms};
ghost use Rattle.lite_merge.specs.StopAfterFuture.{Stops};
ghost use Rattle.lite_merge.specs.Stopping.{CanStop, StopHints, StopRegisters, future_of, stop_parts};
ghost use Rattle.lite_merge.specs.declared.stop_after_future.Stopping.TheVariants.{Stopped};

use lite_base::{
    ArmedStream, CalmStream, Context, Counted, Future, OkCounted, Poll, Stream, ready,
};
use std::mem;

/// What has become of the future.
#[derive(Debug, Drop)]
pub(crate) enum Stopping<Fut, T> {
    Holding(Fut),
    TakenOut,
    Stopped(Option<T>),
}

/// A stream that yields the items of another stream until a future is ready, and then ends for ever.
///
/// Returned by [`stop_after_future`](crate::make::stop_after_future). Each poll polls the future first. When
/// the future is ready, the other stream is not polled, and this stream ends. When the other stream ends, the
/// future is dropped. Once the future was taken out by `take_future`, the results of the other stream pass
/// through.
#[derive(Debug, Drop)]
pub struct StopAfterFuture<S, Fut: Future> {
    pub(crate) stream: S,
    pub(crate) future: Stopping<Fut, Fut::Output>,
}

impl<S, Fut: Future> StopAfterFuture<S, Fut> {
    ghost use Rattle.lite_merge.specs.Stopping.{IsStopped, result_of, without_future, without_result};

    /// Takes the future out, and returns it.
    ///
    /// The results of the other stream then pass through for ever. Returns `None`, and changes nothing, if
    /// the stream has stopped, or if the future was taken out before.
    ///
    /// # Examples
    ///
    /// ```
    /// use futures_lite::{StreamExt, future, stream};
    ///
    /// let mut ticks = stream::stop_after_future(stream::iter(0u8..2), future::ready('x'));
    /// let Some(taken) = ticks.take_future() else {
    ///     return Err(Fail::from("the future is taken out"));
    /// };
    /// assert_eq!(rt; future::block_on(&rt, taken)?, 'x');
    /// assert_eq!(rt; future::block_on(&rt, ticks.next())?, Some(0));
    /// assert!(rt; ticks.take_future().is_none());
    /// ```
    pub fn take_future(&mut self) -> Option<Fut>
        ensures taken { result ≡ future_of self.old.future }
        ensures left { self.new ≡ record self.old { future = without_future self.old.future } }
    {
        if !matches!(self.future, Stopping::Holding(_)) {
            return None;
        }
        match mem::replace(&mut self.future, Stopping::TakenOut) {
            Stopping::Holding(future) => Some(future),
            _ => unreachable!(),
        }
    }

    /// Takes the value of the future out, and returns it.
    ///
    /// Returns `None`, and changes nothing, if the stream has not stopped, if it stopped because the other
    /// stream ended, or if the value was taken out before.
    ///
    /// # Examples
    ///
    /// ```
    /// use futures_lite::{StreamExt, future, stream};
    ///
    /// let mut ticks = stream::stop_after_future(stream::iter(0u8..2), future::ready('x'));
    /// assert_eq!(rt; ticks.take_result(), None);
    /// assert_eq!(rt; future::block_on(&rt, ticks.next())?, None);
    /// assert_eq!(rt; ticks.take_result(), Some('x'));
    /// assert_eq!(rt; ticks.take_result(), None);
    /// ```
    pub fn take_result(&mut self) -> Option<Fut::Output>
        ensures taken { result ≡ result_of self.old.future }
        ensures left { self.new ≡ record self.old { future = without_result self.old.future } }
    {
        match &mut self.future {
            Stopping::Stopped(result) => result.take(),
            _ => None,
        }
    }

    /// Returns whether the stream has stopped, because the future was ready or because the other stream
    /// ended.
    ///
    /// # Examples
    ///
    /// ```
    /// use futures_lite::{StreamExt, future, stream};
    ///
    /// let mut ticks = stream::stop_after_future(stream::iter(0u8..2), future::ready(()));
    /// assert!(rt; !ticks.is_stopped());
    /// assert_eq!(rt; future::block_on(&rt, ticks.next())?, None);
    /// assert!(rt; ticks.is_stopped());
    /// ```
    pub fn is_stopped(&self) -> bool
        ensures { IsTrue result ↔ IsStopped self.now.future }
    {
        matches!(self.future, Stopping::Stopped(_))
    }
}

impl<S, Fut: Future + Drop> StopAfterFuture<S, Fut> {
    // Drops the future, and keeps its value, if there is one.
    fn stop(&mut self, value: Option<Fut::Output>)
        requires { IsSome (future_of self.old.future) }
        ensures { self.new ≡ record self.old { future = Stopped value } }
    {
        match mem::replace(&mut self.future, Stopping::Stopped(value)) {
            Stopping::Holding(_future) => {}
            _ => unreachable!(),
        }
    }
}

impl<S: Stream, Fut: Future + Drop> Stream for StopAfterFuture<S, Fut> {
    type Item = S::Item;

    ghost can_poll = { CanStop S.can_poll Fut.can_poll };

    ghost run = { Stops S.run Fut.run };

    ghost registers = { StopRegisters S.registers Fut.registers };

    ghost hints = { StopHints S.hints };

    ghost laws = { stop_laws S.laws Fut.laws };

    fn poll_next(&mut self, cx: &mut Context<'_>) -> Poll<Option<S::Item>> {
        match &mut self.future {
            Stopping::Holding(future) => match future.poll(cx) {
                Poll::Ready(value) => {
                    self.stop(Some(value));
                    Poll::Ready(None)
                }
                Poll::Pending => match ready!(self.stream.poll_next(cx)) {
                    Some(item) => Poll::Ready(Some(item)),
                    None => {
                        self.stop(None);
                        Poll::Ready(None)
                    }
                },
            },
            Stopping::TakenOut => self.stream.poll_next(cx),
            Stopping::Stopped(_) => Poll::Ready(None),
        }
    }

    fn size_hint(&self) -> (usize, Option<usize>) {
        if self.is_stopped() {
            return (0, Some(0));
        }
        let (_, upper) = self.stream.size_hint();
        (0, upper)
    }
}

impl<S: Counted, Fut: Future + Drop> Counted for StopAfterFuture<S, Fut> {
    ghost ranks = { ranks_of (λ m. m.stream) S.ranks };

    ghost counting = { through_counting stop_parts S.counting (stops_relating Fut.laws) };
}

impl<T, E, S: Counted<Item = Result<T, E>>, Fut: Future + Drop> OkCounted
    for StopAfterFuture<S, Fut> {
    type Ok = T;

    type Err = E;

    ghost ok_ranks = { ranks_of (λ m. m.stream) S.ranks };

    ghost ok_counting = { ok_counting (through_counting stop_parts S.counting (stops_relating Fut.laws)) };
}

impl<S: CalmStream, Fut: Future + Drop> CalmStream for StopAfterFuture<S, Fut> {
    ghost is_calm = { λ m. S.is_calm m.stream };

    ghost calm = { through_calm stop_parts S.calm (stops_calming Fut.laws) };
}

impl<S: ArmedStream, Fut: Future + Drop> ArmedStream for StopAfterFuture<S, Fut> {
    ghost armed = { stop_arms Fut.run S.armed Fut.registers };
}
