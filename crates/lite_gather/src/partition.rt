ghost use Rattle.std.specs.Prelude.{◌≡◌, IfErr, IsSome, OnOk};
ghost use Rattle.lite_gather.specs.Uses.{AgreeFrom, OptionBy, SameItem, Sameness, fold_of, part_steady, returns_counted};
ghost use Rattle.std.specs.Fn.{CalledAt, TakesAt};
ghost use Rattle.lite_gather.specs.Agreeing.{HoldsSameBoth, SameCollected};
ghost use Rattle.lite_gather.specs.Gathering.{LacksRoom, NeverRefuses};
ghost use Rattle.lite_gather.specs.Partition.{Sorted, Unsorted, partitions, partitions_open};
ghost use Rattle.lite_gather.specs.Laws.Agreeing.{partition_steady};

use crate::gather::Gather;
use crate::refused::Refused;
use lite_base::{Counted, SteadyStream};
use lite_consume::{Consume, Folder, SteadyFolder};

/// A future that collects the items of a stream for which a predicate returns true, and the others.
///
/// Returned by [`partition`](crate::make::partition). What was collected is kept while the stream is pending.
/// The value is both collections, or a [`Refused`] with them and the item that one of them refused. Do not
/// poll the future after either.
pub type PartitionFuture<S, P, B> = Consume<S, Partition<P, B>>;

fn take_one<T, B: Gather<T>>(
    accepted: &mut B,
    rejected: &mut B,
    is_accepted: bool,
    item: T,
) -> Result<(), T>
    ensures took { OnOk result (Sorted B.holds is_accepted (accepted.old, rejected.old) item (accepted.new, rejected.new)) }
    ensures unchanged { IfErr result
        (λ back. (back ≡ item) × Unsorted B.holds (LacksRoom B.has_room) is_accepted (accepted.old, rejected.old) item
        (accepted.new, rejected.new)) }
{
    if is_accepted {
        accepted.take_in(item)
    } else {
        rejected.take_in(item)
    }
}

/// Adds each item to one of the two collections.
#[derive(Debug, Drop)]
pub struct Partition<P, B> {
    pub(crate) predicate: P,
    pub(crate) res: Option<(B, B)>,
}

impl<S: Counted, P: FnMut(&S::Item) -> bool, B: Gather<S::Item>> Folder<S> for Partition<P, B> {
    type Output = Result<(B, B), Refused<(B, B), S::Item>>;

    ghost fold = { fold_of (λ f. (f.predicate, f.res)) (partitions B.holds (CalledAt P.FnMut) (LacksRoom B.has_room)) };

    ghost can_take = { λ f. TakesAt P.FnMut f.predicate };

    ghost is_open = { λ f. IsSome f.res };

    ghost counts = { S.ranks.counts };

    fn take_in(&mut self, item: S::Item) -> Option<Result<(B, B), Refused<(B, B), S::Item>>> {
        let is_accepted = (self.predicate)(&item);
        let taken = match &mut self.res {
            Some((accepted, rejected)) => take_one(accepted, rejected, is_accepted, item),
            None => unreachable!(),
        };
        let item = match taken {
            Ok(()) => return None,
            Err(item) => item,
        };
        let collected = self.res.take().unwrap();
        Some(Err(Refused { collected, item }))
    }

    fn finish(&mut self) -> Result<(B, B), Refused<(B, B), S::Item>> {
        Ok(self.res.take().unwrap())
    }

    ghost returns = { returns_counted S.counting
        (λ p q x o h. partitions_open B.holds (CalledAt P.FnMut) (LacksRoom B.has_room) (p.predicate, p.res)
        (q.predicate, q.res) x h) };
}

impl<S: Counted + SteadyStream, P: FnMut(&S::Item) -> bool, B: Gather<S::Item>> SteadyFolder<S>
    for Partition<P, B> {
    ghost ample = { fold_of (λ f. (f.predicate, f.res)) (partitions B.holds (CalledAt P.FnMut) NeverRefuses) };

    ghost needs_none = { ⊥ };

    ghost same = { Sameness.by (SameCollected (HoldsSameBoth S.same S.same B.holds B.holds)) };

    ghost agree = { λ f g. AgreeFrom (SameItem S.same) (λ y z. y ≡ z) (CalledAt P.FnMut) f.predicate g.predicate
        × OptionBy (HoldsSameBoth S.same S.same B.holds B.holds) f.res g.res };

    ghost steady_fold = { part_steady (λ f. (f.predicate, f.res))
        (partition_steady S.same B.holds (CalledAt P.FnMut) (LacksRoom B.has_room)) };
}
