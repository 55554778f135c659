ghost use Rattle.std.specs.Prelude.{⊤};
ghost use Rattle.lite_consume.specs.Uses.{Optional};
ghost use Rattle.lite_consume.specs.Laws.Matching.{next_steady};
ghost use Rattle.lite_consume.specs.Laws.Returning.{returns_none};
ghost use Rattle.lite_consume.specs.Next.{nexts};

use crate::consume::Consume;
use crate::folder::{Folder, SteadyFolder};
use lite_base::{SteadyStream, Stream};

/// A future that resolves to the next item of a stream, or to `None` at an end.
///
/// Returned by [`next`](crate::make::next). Each poll polls the stream once.
pub type NextFuture<'a, S> = Consume<&'a mut S, Next>;

/// Decides at the first item.
#[derive(Debug, Drop)]
pub struct Next;

impl<S: Stream> Folder<S> for Next {
    type Output = Option<S::Item>;

    ghost fold = { nexts };

    fn take_in(&mut self, item: S::Item) -> Option<Option<S::Item>> {
        Some(Some(item))
    }

    fn finish(&mut self) -> Option<S::Item> {
        None
    }

    ghost returns = { returns_none (λ p q x h. h) };
}

impl<S: SteadyStream> SteadyFolder<S> for Next {
    ghost ample = { nexts };

    ghost same = { Optional S.same };

    ghost agree = { λ _ _. ⊤ };

    ghost steady_fold = { next_steady S.same };
}
