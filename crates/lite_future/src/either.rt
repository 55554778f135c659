//! A future of one of two types.
ghost use Rattle.std.specs.Prelude.{◌≡◌};
ghost use Rattle.lite_future.specs.Uses.{Lasting};
ghost use Rattle.lite_base.specs.Alike.{Either as SameEither};
ghost use Rattle.lite_future.specs.Either.{BothEither, EitherRegisters, EitherRuns, OfEither};
ghost use Rattle.lite_future.specs.declared.either.Either.TheVariants.{Left, Right};
ghost use Rattle.lite_future.specs.Laws.Either.{either_calm, either_laws, either_steady, either_arms};

use lite_base::{ArmedFuture, CalmFuture, Context, Future, Poll, SteadyFuture};

/// A future of one of two types that have one output, so that both can stand in a list.
///
/// For three types take `Either<A, Either<B, C>>`.
///
/// # Examples
///
/// ```
/// use futures_lite::future::{self, Either};
///
/// let futures = [Either::Left(future::ready(7u8)), Either::Right(future::poll_fn(|_| Poll::Ready(8)))];
/// let mut values = 0;
/// for future in futures {
///     values += future::block_on(&rt, future)?;
/// }
/// assert_eq!(rt; values, 15);
/// ```
#[derive(Debug, Drop)]
pub enum Either<A, B> {
    /// A future of the first type.
    Left(A),
    /// A future of the second type.
    Right(B),
}

impl<A: Future, B: Future<Output = A::Output>> Future for Either<A, B> {
    type Output = A::Output;

    ghost can_poll = { OfEither A.can_poll B.can_poll };

    ghost run = { EitherRuns A.run B.run };

    ghost registers = { EitherRegisters A.registers B.registers };

    ghost laws = { either_laws A.laws B.laws };

    fn poll(&mut self, cx: &mut Context<'_>) -> Poll<A::Output> {
        match self {
            Either::Left(future) => future.poll(cx),
            Either::Right(future) => future.poll(cx),
        }
    }
}

impl<A: SteadyFuture, B: SteadyFuture<Output = A::Output>> SteadyFuture for Either<A, B> {
    ghost ample = { EitherRuns A.ample B.ample };

    ghost needs_none = { A.needs_none × B.needs_none };

    ghost same = { SameEither A.same B.same };

    ghost alike = { BothEither A.alike B.alike };

    ghost steady = { either_steady A.steady B.steady };
}

// Of the two the one that it is.
impl<A: CalmFuture, B: CalmFuture<Output = A::Output>> CalmFuture for Either<A, B> {
    ghost is_calm = { OfEither A.is_calm B.is_calm };

    ghost calm = { either_calm A.calm B.calm };
}

impl<A: ArmedFuture, B: ArmedFuture<Output = A::Output>> ArmedFuture for Either<A, B> {
    ghost armed = { either_arms A.armed B.armed };
}

/// States what an `Either` has registered.
pub fn tells_of_either<A, B>(either: &Either<A, B>, first: &A, second: &B)
where
    A: Future,
    B: Future<Output = A::Output>,
    ensures first { either.now ≡ Left first.now → (fact : Lasting) → A.registers first.now fact
        → ⟦<Either<A, B> as Future>⟧.registers either.now fact }
    ensures second { either.now ≡ Right second.now → (fact : Lasting) → B.registers second.now fact
        → ⟦<Either<A, B> as Future>⟧.registers either.now fact }
{}
