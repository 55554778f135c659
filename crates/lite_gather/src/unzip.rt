ghost use Rattle.std.specs.Prelude.{◌≡◌, IfErr, IsSome, OnOk};
ghost use Rattle.lite_gather.specs.Uses.{OptionBy, Sameness, fold_of, part_steady, returns_counted};
ghost use Rattle.lite_gather.specs.Agreeing.{HoldsSameParts, SameCollected};
ghost use Rattle.lite_gather.specs.Gathering.{LacksRoom, NeverRefuses, Took};
ghost use Rattle.lite_gather.specs.Unzip.{refused_of, RefusedOne, unzips, unzips_open};
ghost use Rattle.lite_gather.specs.Laws.Agreeing.{unzip_steady};

use crate::gather::Gather;
use crate::refused::UnzipRefused;
use lite_base::{Counted, SteadyStream};
use lite_consume::{Consume, Folder, SteadyFolder};

/// A future that collects the first and the second parts of the items of a stream.
///
/// Returned by [`unzip`](crate::make::unzip). What was collected is kept while the stream is pending. The
/// value is both collections, or an [`UnzipRefused`] with them and what was refused. Do not poll the future
/// after either.
pub type UnzipFuture<S, FromA, FromB> = Consume<S, Unzip<FromA, FromB>>;

/// What was refused of an item: both parts if the first was refused, or the second alone.
enum Part<A, B> {
    Both(A, B),
    Second(B),
}

impl<A, B> Part<A, B> {
    fn with<FromA, FromB>(self, collected: (FromA, FromB)) -> UnzipRefused<FromA, FromB, A, B>
        ensures { result ≡ refused_of self collected }
    {
        match self {
            Part::Both(a, b) => UnzipRefused::Left {
                collected,
                item: (a, b),
            },
            Part::Second(item) => UnzipRefused::Right { collected, item },
        }
    }
}

fn take_both<A, B, FromA: Gather<A>, FromB: Gather<B>>(
    left: &mut FromA,
    right: &mut FromB,
    a: A,
    b: B,
) -> Result<(), Part<A, B>>
    ensures took { OnOk result (Took FromA.holds left.old a left.new × Took FromB.holds right.old b right.new) }
    ensures refused { IfErr result
        (λ part. RefusedOne FromA.holds FromB.holds (LacksRoom FromA.has_room) (LacksRoom FromB.has_room)
        (left.old, right.old) (a, b) (refused_of part (left.new, right.new))) }
{
    if let Err(a) = left.take_in(a) {
        return Err(Part::Both(a, b));
    }
    match right.take_in(b) {
        Ok(()) => Ok(()),
        Err(b) => Err(Part::Second(b)),
    }
}

/// Adds the first part of each item to one collection, and the second part to another.
#[derive(Debug, Drop)]
pub struct Unzip<FromA, FromB> {
    pub(crate) res: Option<(FromA, FromB)>,
}

impl<A, B, S: Counted<Item = (A, B)>, FromA: Gather<A>, FromB: Gather<B>> Folder<S>
    for Unzip<FromA, FromB> {
    type Output = Result<(FromA, FromB), UnzipRefused<FromA, FromB, A, B>>;

    ghost fold = { fold_of (λ f. f.res)
        (unzips FromA.holds FromB.holds (LacksRoom FromA.has_room) (LacksRoom FromB.has_room)) };

    ghost is_open = { λ f. IsSome f.res };

    ghost counts = { S.ranks.counts };

    fn take_in(
        &mut self,
        item: (A, B),
    ) -> Option<Result<(FromA, FromB), UnzipRefused<FromA, FromB, A, B>>> {
        let (a, b) = item;
        let taken = match &mut self.res {
            Some((left, right)) => take_both(left, right, a, b),
            None => unreachable!(),
        };
        let part = match taken {
            Ok(()) => return None,
            Err(part) => part,
        };
        let collected = self.res.take().unwrap();
        Some(Err(part.with(collected)))
    }

    fn finish(&mut self) -> Result<(FromA, FromB), UnzipRefused<FromA, FromB, A, B>> {
        Ok(self.res.take().unwrap())
    }

    ghost returns = { returns_counted S.counting
        (λ p q x o h. unzips_open FromA.holds FromB.holds (LacksRoom FromA.has_room) (LacksRoom FromB.has_room)
        p.res q.res x h) };
}

impl<
    A,
    B,
    S: Counted<Item = (A, B)> + SteadyStream,
    FromA: Gather<A>,
    FromB: Gather<B>,
> SteadyFolder<S> for Unzip<FromA, FromB> {
    ghost ample = { fold_of (λ f. f.res) (unzips FromA.holds FromB.holds NeverRefuses NeverRefuses) };

    ghost needs_none = { ⊥ };

    ghost same = { Sameness.by (SameCollected (HoldsSameParts S.same FromA.holds FromB.holds)) };

    ghost agree = { λ f g. OptionBy (HoldsSameParts S.same FromA.holds FromB.holds) f.res g.res };

    ghost steady_fold = { part_steady (λ f. f.res)
        (unzip_steady FromA.holds FromB.holds S.same (LacksRoom FromA.has_room) (LacksRoom FromB.has_room)) };
}
