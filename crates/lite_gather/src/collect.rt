ghost use Rattle.std.specs.Prelude.{IsSome};
ghost use Rattle.lite_gather.specs.Uses.{OptionBy, Sameness, fold_of, part_steady, returns_counted};
ghost use Rattle.lite_gather.specs.Agreeing.{HoldsSame, SameCollected};
ghost use Rattle.lite_gather.specs.Collect.{collects, collects_open};
ghost use Rattle.lite_gather.specs.Gathering.{LacksRoom, NeverRefuses};
ghost use Rattle.lite_gather.specs.Laws.Agreeing.{collect_steady};

use crate::gather::Gather;
use crate::refused::Refused;
use lite_base::{Counted, SteadyStream};
use lite_consume::{Consume, Folder, SteadyFolder};
use std::mem;

/// A future that collects the items of a stream.
///
/// Returned by [`collect`](crate::make::collect). What was collected is kept while the stream is pending. The
/// value is the collection, or a [`Refused`] with the items so far and the item that the collection refused.
/// Do not poll the future after either.
pub type CollectFuture<S, C> = Consume<S, Collect<C>>;

/// Adds each item to the collection.
#[derive(Debug, Drop)]
pub struct Collect<C> {
    pub(crate) collection: Option<C>,
}

impl<S: Counted, C: Gather<S::Item>> Folder<S> for Collect<C> {
    type Output = Result<C, Refused<C, S::Item>>;

    ghost fold = { fold_of (λ f. f.collection) (collects (LacksRoom C.has_room) C.holds) };

    ghost is_open = { λ f. IsSome f.collection };

    ghost counts = { S.ranks.counts };

    fn take_in(&mut self, item: S::Item) -> Option<Result<C, Refused<C, S::Item>>> {
        // It is moved out meanwhile, because one that grows takes its own address, and with it the future's.
        let mut collected = self.collection.take().unwrap();
        match collected.take_in(item) {
            Ok(()) => match mem::replace(&mut self.collection, Some(collected)) {
                None => None,
                Some(_collection) => unreachable!(),
            },
            Err(item) => Some(Err(Refused { collected, item })),
        }
    }

    fn finish(&mut self) -> Result<C, Refused<C, S::Item>> {
        Ok(self.collection.take().unwrap())
    }

    ghost returns = { returns_counted S.counting
        (λ p q x o h. collects_open (LacksRoom C.has_room) C.holds p.collection q.collection x h) };
}

impl<S: Counted + SteadyStream, C: Gather<S::Item>> SteadyFolder<S> for Collect<C> {
    ghost ample = { fold_of (λ f. f.collection) (collects NeverRefuses C.holds) };

    ghost needs_none = { ⊥ };

    ghost same = { Sameness.by (SameCollected (HoldsSame S.same C.holds)) };

    ghost agree = { λ f g. OptionBy (HoldsSame S.same C.holds) f.collection g.collection };

    ghost steady_fold = { part_steady (λ f. f.collection) (collect_steady S.same C.holds (LacksRoom C.has_room)) };
}
