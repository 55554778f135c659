ghost use Rattle.std.specs.Prelude.{◌≡◌, None};
ghost use Rattle.lite_reshape.specs.Uses.{Keeps, Registered, NoHint, ok_counting, Either};
ghost use Rattle.lite_reshape.specs.Chain.{Chains, ChainRegisters, FirstAnswers, SecondAnswers, chain_ranks};
ghost use Rattle.lite_reshape.specs.Ended.Turn.{First};
ghost use Rattle.lite_reshape.specs.Laws.Calming.{chain_calm};
ghost use Rattle.lite_reshape.specs.Laws.Chain.{chain_counting, chain_laws};
ghost use Rattle.lite_reshape.specs.Laws.SteadyChain.{chain_steady};
ghost use Rattle.lite_reshape.specs.Laws.Arming.{chain_arms};

use crate::ended::Ended;
use lite_base::{
    ArmedStream, CalmStream, Context, Counted, OkCounted, Poll, SteadyStream, Stream, ready,
};

/// A stream that yields the items of one stream, and after its end those of another.
///
/// Returned by [`chain`](crate::make::chain). The second stream is polled in the same call in which the first
/// one ends. Neither is polled after its end. When both have ended, this stream ends for ever.
#[derive(Clone, Debug, Drop)]
pub struct Chain<S, U> {
    pub(crate) first: S,
    pub(crate) second: U,
    pub(crate) part: Ended,
}

impl<S: Stream, U: Stream<Item = S::Item>> Chain<S, U> {
    // Polls the first stream. Once that has ended, the result is the end, without a poll.
    #[inline(always)]
    fn poll_first(&mut self, cx: &mut Context<'_>) -> Poll<Option<S::Item>>
        requires can_poll { S.can_poll self.old.first }
        ensures asked { FirstAnswers S.run self.old result self.new }
        ensures second { self.new.second ≡ self.old.second }
        ensures again { S.can_poll self.new.first }
        ensures registered { Registered result (ChainRegisters S.registers U.registers self.new) cx.new }
        ensures context { Keeps cx.old cx.new }
    {
        if self.part.has_first() {
            return Poll::Ready(None);
        }
        match ready!(self.first.poll_next(cx)) {
            Some(item) => Poll::Ready(Some(item)),
            None => {
                self.part.end_first();
                Poll::Ready(None)
            }
        }
    }

    // Polls the second stream, when it is its turn. Once that has ended too, the result is the end, without a poll.
    #[inline(always)]
    fn poll_second(&mut self, cx: &mut Context<'_>) -> Poll<Option<S::Item>>
        requires turn { self.old.part ≡ First → ⊥ }
        requires can_poll { U.can_poll self.old.second }
        ensures asked { SecondAnswers U.run self.old result self.new }
        ensures first { self.new.first ≡ self.old.first }
        ensures again { U.can_poll self.new.second }
        ensures registered { Registered result (ChainRegisters S.registers U.registers self.new) cx.new }
        ensures context { Keeps cx.old cx.new }
    {
        if self.part.has_both() {
            return Poll::Ready(None);
        }
        match ready!(self.second.poll_next(cx)) {
            Some(item) => Poll::Ready(Some(item)),
            None => {
                self.part.end_second();
                Poll::Ready(None)
            }
        }
    }
}

impl<S: Stream, U: Stream<Item = S::Item>> Stream for Chain<S, U> {
    type Item = S::Item;

    ghost can_poll = { λ m. S.can_poll m.first × U.can_poll m.second };

    ghost run = { Chains S.run U.run };

    ghost registers = { ChainRegisters S.registers U.registers };

    ghost hints = { NoHint };

    ghost laws = { chain_laws S.laws U.laws };

    fn poll_next(&mut self, cx: &mut Context<'_>) -> Poll<Option<S::Item>> {
        match ready!(self.poll_first(cx)) {
            Some(item) => Poll::Ready(Some(item)),
            None => self.poll_second(cx),
        }
    }

    fn size_hint(&self) -> (usize, Option<usize>) {
        (0, None)
    }
}

impl<S: Counted, U: Counted<Item = S::Item>> Counted for Chain<S, U> {
    ghost ranks = { chain_ranks S.ranks U.ranks };

    ghost counting = { chain_counting S.counting U.counting };
}

impl<T, E, S: Counted<Item = Result<T, E>>, U: Counted<Item = Result<T, E>>> OkCounted
    for Chain<S, U> {
    type Ok = T;

    type Err = E;

    ghost ok_ranks = { chain_ranks S.ranks U.ranks };

    ghost ok_counting = { ok_counting (chain_counting S.counting U.counting) };
}

impl<S: SteadyStream, U: SteadyStream<Item = S::Item>> SteadyStream for Chain<S, U> {
    ghost ample = { Chains S.ample U.ample };

    ghost needs_none = { S.needs_none × U.needs_none };

    ghost same = { Either S.same U.same };

    ghost alike = { λ x y. S.alike x.first y.first × U.alike x.second y.second × (y.part ≡ x.part) };

    ghost steady = { chain_steady S.same U.same S.steady U.steady };
}

impl<S: CalmStream, U: CalmStream<Item = S::Item>> CalmStream for Chain<S, U> {
    ghost is_calm = { λ m. S.is_calm m.first × U.is_calm m.second };

    ghost calm = { chain_calm S.calm U.calm };
}

impl<S: ArmedStream, U: ArmedStream<Item = S::Item>> ArmedStream for Chain<S, U> {
    ghost armed = { chain_arms S.armed U.armed };
}
