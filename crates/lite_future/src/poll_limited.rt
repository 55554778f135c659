//! A future that is polled a limited number of times.
ghost use Rattle.std.specs.Prelude.{◌<◌, ⊤};
ghost use Rattle.lite_future.specs.Uses.{Lasting};
ghost use Rattle.lite_future.specs.PollLimited.{LimitsPolls};
ghost use Rattle.lite_future.specs.Laws.PollLimited.{limits_calm, limits_laws, limits_arms};

use lite_base::{ArmedFuture, CalmFuture, Context, Future, Poll};

/// A future was polled as often as its limit allows, and has no value.
///
/// # Examples
///
/// ```
/// use futures_lite::future::{self, Exhausted};
/// use futures_lite::FutureExt;
///
/// let waiting = future::pending::<u8>().with_poll_limit(1);
/// assert_eq!(rt; future::block_on(&rt, waiting)?, Err(Exhausted));
/// ```
#[derive(Debug, Clone, Copy, PartialEq, Eq)]
pub struct Exhausted;

/// A future that polls its inner future a limited number of times.
///
/// Returned by [`with_poll_limit`](crate::make::with_poll_limit).
#[derive(Debug, Drop)]
pub struct PollLimited<F> {
    pub(crate) inner: F,
    // How many polls are left.
    pub(crate) left: usize,
}

impl<F: Future> Future for PollLimited<F> {
    type Output = Result<F::Output, Exhausted>;

    ghost can_poll = { λ x. 0 < x.left → F.can_poll x.inner };

    ghost run = { LimitsPolls F.run };

    ghost registers = { λ x. F.registers x.inner };

    ghost laws = { limits_laws F.laws };

    fn poll(&mut self, cx: &mut Context<'_>) -> Poll<Self::Output> {
        if self.left == 0 {
            return Poll::Ready(Err(Exhausted));
        }
        match self.inner.poll(cx) {
            Poll::Ready(value) => Poll::Ready(Ok(value)),
            Poll::Pending => {
                self.left -= 1;
                if self.left == 0 {
                    return Poll::Ready(Err(Exhausted));
                }
                Poll::Pending
            }
        }
    }
}

impl<F: CalmFuture> CalmFuture for PollLimited<F> {
    ghost is_calm = { λ x. F.is_calm x.inner };

    ghost calm = { limits_calm F.calm };
}

impl<F: ArmedFuture> ArmedFuture for PollLimited<F> {
    ghost armed = { limits_arms F.armed };
}

/// States what a future with a limit of polls has registered.
pub fn tells_of_poll_limited<F: Future>(poll_limited: &PollLimited<F>)
    ensures { (fact : Lasting) → F.registers poll_limited.now.inner fact → ⟦<PollLimited<F> as Future>⟧.registers poll_limited.now fact }
{}
