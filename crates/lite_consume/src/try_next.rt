ghost use Rattle.std.specs.Prelude.{⊤};
ghost use Rattle.lite_consume.specs.TryNext.{SameNext, tries_next};
ghost use Rattle.lite_consume.specs.Laws.Matching.{try_next_steady};
ghost use Rattle.lite_consume.specs.Laws.Returning.{returns_none, none_given};

use crate::consume::Consume;
use crate::folder::{Folder, SteadyFolder};
use lite_base::{SteadyStream, Stream};

/// A future that resolves to `Ok(Some(value))` for the next item `Ok(value)` of a stream, to `Err(e)` for an
/// item `Err(e)`, and to `Ok(None)` at an end.
///
/// Returned by [`try_next`](crate::make::try_next). Each poll polls the stream once.
pub type TryNextFuture<'a, S> = Consume<&'a mut S, TryNext>;

/// Decides at the first item, which may be an error.
#[derive(Debug, Drop)]
pub struct TryNext;

impl<T, E, S: Stream<Item = Result<T, E>>> Folder<S> for TryNext {
    type Output = Result<Option<T>, E>;

    ghost fold = { tries_next };

    fn take_in(&mut self, item: Result<T, E>) -> Option<Result<Option<T>, E>> {
        match item {
            Ok(value) => Some(Ok(Some(value))),
            Err(error) => Some(Err(error)),
        }
    }

    fn finish(&mut self) -> Result<Option<T>, E> {
        Ok(None)
    }

    ghost returns = { returns_none none_given };
}

impl<T, E, S: SteadyStream<Item = Result<T, E>>> SteadyFolder<S> for TryNext {
    ghost ample = { tries_next };

    ghost same = { SameNext S.same };

    ghost agree = { λ _ _. ⊤ };

    ghost steady_fold = { try_next_steady S.same };
}
