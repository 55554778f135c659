ghost use Rattle.lite_consume.specs.Uses.{Terminates-map};
ghost use Rattle.lite_consume.specs.Consume.{CanFold, ConsumePollStep, Folds};
ghost use Rattle.lite_consume.specs.Laws.Agreeing.{consumed_steady};
ghost use Rattle.lite_consume.specs.Laws.Consuming.{consumed_calm, consumed_laws, consumed_arms};

use crate::folder::{Folder, SteadyFolder};
use lite_base::{
    ArmedFuture, ArmedStream, CalmFuture, CalmStream, Context, Future, Poll, PollSteps,
    SteadyFuture, SteadyStream, Stream, drive,
};

/// A future that resolves to what a [`Folder`] makes of the items of a stream.
///
/// One poll consumes items until one decides, or the stream is pending, or it ends. What was made of the
/// items so far is kept while the stream is pending. After the value, the stream is left after the item that
/// decided, or after its end. All futures that consume a stream, such as `CountFuture`, are this type with a
/// folder of their own.
///
/// # Examples
///
/// ```
/// use futures_lite::stream::{self, Consume};
/// use futures_lite::{StreamExt, future};
///
/// let counting: Consume<_, _> = stream::iter(1u8..4).count();
/// assert_eq!(rt; future::block_on(&rt, counting)?, 3);
/// ```
#[derive(Debug, Drop)]
pub struct Consume<S, F> {
    pub(crate) stream: S,
    pub(crate) folder: F,
}

impl<S: Stream, F: Folder<S>> PollSteps for Consume<S, F> {
    type Output = F::Output;

    ghost can_step = { CanFold S.run F.fold S.can_poll F.counts F.is_open F.can_take };

    ghost step = { ConsumePollStep S.run F.fold (CanFold S.run F.fold S.can_poll F.counts F.is_open F.can_take) };

    ghost step_registers = { λ m. S.registers m.stream };

    ghost goes_on = { λ x y c h. h.0 };

    ghost finite = { λ x c. Terminates-map (λ m. (m.stream, m.folder)) (λ m n h. h.1) x (F.returns.ends x.stream x.folder c.1) };

    fn poll_step(&mut self, cx: &mut Context<'_>) -> Option<Poll<F::Output>> {
        match self.stream.poll_next(cx) {
            Poll::Ready(Some(item)) => match self.folder.take_in(item) {
                Some(value) => Some(Poll::Ready(value)),
                None => None,
            },
            Poll::Ready(None) => Some(Poll::Ready(self.folder.finish())),
            Poll::Pending => Some(Poll::Pending),
        }
    }
}

impl<S: Stream, F: Folder<S>> Future for Consume<S, F> {
    type Output = F::Output;

    ghost can_poll = { CanFold S.run F.fold S.can_poll F.counts F.is_open F.can_take };

    ghost run = { Folds S.run F.fold };

    ghost registers = { λ m. S.registers m.stream };

    ghost laws = { consumed_laws F.returns S.laws };

    fn poll(&mut self, cx: &mut Context<'_>) -> Poll<F::Output> {
        drive(self, cx)
    }
}

impl<S: SteadyStream, F: SteadyFolder<S>> SteadyFuture for Consume<S, F> {
    ghost ample = { Folds S.ample F.ample };

    ghost needs_none = { S.needs_none × F.needs_none };

    ghost same = { F.same };

    ghost alike = { λ x y. S.alike x.stream y.stream × F.agree x.folder y.folder };

    ghost steady = { consumed_steady S.same F.same S.steady F.steady_fold };
}

impl<S: CalmStream, F: Folder<S>> CalmFuture for Consume<S, F> {
    ghost is_calm = { λ m. S.is_calm m.stream };

    ghost calm = { consumed_calm F.fold S.calm };
}

impl<S: ArmedStream, F: Folder<S>> ArmedFuture for Consume<S, F> {
    ghost armed = { consumed_arms F.fold S.armed };
}
