//! A combinator of futures: attempts, each a future, until one succeeds.
ghost use Rattle.std.specs.Prelude.{◌≡◌, IfSome, IsSome};
ghost use Rattle.futures_lite.specs.Contexts.{HoldsEach, Keeps, OnPending};
ghost use Rattle.futures_lite.specs.Streams.{MakesAlways};
ghost use Rattle.example_retry.specs.OnePoll.{PollsAttempt, PollsHeld};
ghost use Rattle.example_retry.specs.Retry.{AttemptRegisters, IsAttempt, MayRetry, Retries};
ghost use Rattle.example_retry.specs.RetryLaws.{retry_laws};

use futures_lite::{Context, Future, Poll};

/// A future that makes attempts until one succeeds, or none is left.
///
/// Returned by [`retry`](crate::make::retry). An attempt is polled in the poll that made it, and is kept while it is
/// pending. It is dropped once it is ready. So is its error, if another attempt follows: both must be `Drop`. Do not
/// poll the retry after its value.
#[derive(Drop)]
pub struct Retry<F, M> {
    pub(crate) make: M,
    // The number of the attempt that is held, or that is made next.
    pub(crate) number: u32,
    // The number of the last attempt that may be made.
    pub(crate) last: u32,
    pub(crate) attempt: Option<F>,
}

impl<T, E, F: Future<Output = Result<T, E>> + Drop, M: FnMut(u32) -> F> Retry<F, M> {
    // Polls the attempt, and makes it first if none is held.
    #[tactic(auto, using(crate::proofs::Polls::polls_attempt))]
    fn poll_attempt(&mut self, cx: &mut Context<'_>) -> Poll<Result<T, E>>
        requires may { MayRetry M.FnMut M.IsAlwaysCallable F.can_poll self.old }
        ensures polled { PollsAttempt M.FnMut F.run self.old result self.new }
        ensures again { MayRetry M.FnMut M.IsAlwaysCallable F.can_poll self.new }
        ensures registered { OnPending result (HoldsEach (AttemptRegisters F.registers self.new.attempt) cx.new) }
        ensures context { Keeps cx.old cx.new }
    {
        self.make_attempt();
        self.poll_held(cx)
    }

    // Makes the next attempt, if none is held.
    #[tactic(auto, using(futures_lite::specs::Streams::makes_on))]
    fn make_attempt(&mut self)
        requires may { MayRetry M.FnMut M.IsAlwaysCallable F.can_poll self.old }
        ensures attempt { IfSome self.new.attempt (λ v. IsAttempt M.FnMut self.old v self.new.make) }
        ensures others { self.new ≡ record self.old { make = self.new.make; attempt = self.new.attempt } }
        ensures made { IsSome self.new.attempt }
        ensures callable { M.IsAlwaysCallable self.new.make }
        ensures makes { MakesAlways M.FnMut F.can_poll self.new.make }
        ensures held { IfSome self.new.attempt F.can_poll }
    {
        if self.attempt.is_none() {
            self.attempt = Some((self.make)(self.number));
        }
    }

    // Polls the attempt that is held, and drops it once it is ready.
    fn poll_held(&mut self, cx: &mut Context<'_>) -> Poll<Result<T, E>>
        requires made { IsSome self.old.attempt }
        requires held { IfSome self.old.attempt F.can_poll }
        ensures polled { IfSome self.old.attempt (λ v. PollsHeld F.run self.old v result self.new) }
        ensures held { IfSome self.new.attempt F.can_poll }
        ensures registered { OnPending result (HoldsEach (AttemptRegisters F.registers self.new.attempt) cx.new) }
        ensures context { Keeps cx.old cx.new }
    {
        let Some(attempt) = &mut self.attempt else {
            unreachable!()
        };
        let result = attempt.poll(cx);
        if result.is_ready() {
            self.attempt = None;
        }
        result
    }
}

impl<T, E: Drop, F: Future<Output = Result<T, E>> + Drop, M: FnMut(u32) -> F> Future
    for Retry<F, M> {
    type Output = Result<T, E>;

    ghost can_poll = { MayRetry M.FnMut M.IsAlwaysCallable F.can_poll };

    ghost run = { Retries M.FnMut F.run };

    ghost registers = { λ x. AttemptRegisters F.registers x.attempt };

    ghost laws = { retry_laws M.FnMut F.laws };

    fn poll(&mut self, cx: &mut Context<'_>) -> Poll<Result<T, E>> {
        loop {
            match self.poll_attempt(cx) {
                Poll::Ready(Err(error)) => {
                    if self.number >= self.last {
                        return Poll::Ready(Err(error));
                    }
                    self.number += 1;
                }
                Poll::Ready(Ok(value)) => return Poll::Ready(Ok(value)),
                Poll::Pending => return Poll::Pending,
            }
        }
    }
}
