ghost use Rattle.std.specs.Prelude.{IsSome};
ghost use Rattle.lite_gather.specs.Uses.{OptionBy, SameErr, SameItem, SameOk, Sameness, fold_of, part_steady};
ghost use Rattle.lite_consume.specs.Laws.Returning.{returns_ok};
ghost use Rattle.lite_gather.specs.Agreeing.{HoldsSame, TrySameCollected, Unmixed};
ghost use Rattle.lite_gather.specs.Gathering.{LacksRoom, NeverRefuses};
ghost use Rattle.lite_gather.specs.TryCollect.{tries_collect, tries_collect_open};
ghost use Rattle.lite_gather.specs.Laws.Agreeing.{try_collect_steady};

use crate::gather::Gather;
use crate::refused::{Refused, TryCollectError};
use lite_base::{OkCounted, SteadyStream};
use lite_consume::{Consume, Folder, SteadyFolder};
use std::mem;

/// A future that collects the values in the `Ok` items of a stream, up to the first error.
///
/// Returned by [`try_collect`](crate::make::try_collect). What was collected is kept while the stream is
/// pending. The value is the collection, the first error among the items, or what was collected with the
/// value that the collection refused. Do not poll the future after any of them.
pub type TryCollectFuture<S, C> = Consume<S, TryCollect<C>>;

/// Adds the value in each item to the collection. The first error decides.
#[derive(Debug, Drop)]
pub struct TryCollect<C> {
    pub(crate) items: Option<C>,
}

impl<S: OkCounted, C: Gather<S::Ok>> Folder<S> for TryCollect<C> {
    type Output = Result<C, TryCollectError<C, S::Ok, S::Err>>;

    ghost fold = { fold_of (λ f. f.items) (tries_collect (LacksRoom C.has_room) C.holds) };

    ghost is_open = { λ f. IsSome f.items };

    ghost counts = { S.ok_ranks.counts };

    fn take_in(
        &mut self,
        item: Result<S::Ok, S::Err>,
    ) -> Option<Result<C, TryCollectError<C, S::Ok, S::Err>>> {
        let value = match item {
            Ok(value) => value,
            Err(error) => return Some(Err(TryCollectError::Source(error))),
        };
        // It is taken out meanwhile, as that of `collect`.
        let mut collected = self.items.take().unwrap();
        match collected.take_in(value) {
            Ok(()) => match mem::replace(&mut self.items, Some(collected)) {
                None => None,
                Some(_items) => unreachable!(),
            },
            Err(item) => {
                let refused = Refused { collected, item };
                Some(Err(TryCollectError::Memory(refused)))
            }
        }
    }

    fn finish(&mut self) -> Result<C, TryCollectError<C, S::Ok, S::Err>> {
        Ok(self.items.take().unwrap())
    }

    ghost returns = { returns_ok S.ok_counting (λ p q e h. h)
        (λ p q x o h. tries_collect_open (LacksRoom C.has_room) C.holds p.items q.items x h) };
}

impl<S: OkCounted + SteadyStream, C: Gather<S::Ok>> SteadyFolder<S> for TryCollect<C> {
    ghost ample = { fold_of (λ f. f.items) (tries_collect NeverRefuses C.holds) };

    ghost needs_none = { ⊥ };

    ghost same = { Sameness.by (TrySameCollected (HoldsSame (SameOk S.same) C.holds) (SameItem (SameErr S.same))) };

    ghost agree = { λ f g. Unmixed S.same (OptionBy (HoldsSame (SameOk S.same) C.holds) f.items g.items) };

    ghost steady_fold = { part_steady (λ f. f.items) (try_collect_steady S.same C.holds (LacksRoom C.has_room)) };
}
