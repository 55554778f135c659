ghost use Rattle.std.specs.Prelude.{⊤, Some, MatchOption};
ghost use Rattle.lite_consume.specs.Uses.{SameItem, Sameness};
ghost use Rattle.lite_consume.specs.Agreeing.{FoldSteadyLaws};
ghost use Rattle.lite_consume.specs.Consuming.{Fold};
ghost use Rattle.lite_consume.specs.Consume.{Returns};

use lite_base::{SteadyStream, Stream};

/// Consumes the items of a stream of the type `S`, one after the other, until the stream ends or an item
/// decides.
///
/// [`Consume`](crate::Consume) is the future that calls it.
pub trait Folder<S: Stream> {
    /// The type of the value.
    type Output;

    /// What is made of the items.
    ghost fold: { Fold Self S.Item Self.Output };

    /// The items that may be consumed.
    ghost can_take: { Self → S.Item → Type 0 } = { λ _ _. ⊤ };

    /// The values that have not returned their value yet.
    ghost is_open: { Self → Type 0 } = { λ _. ⊤ };

    /// The streams whose items may be consumed. If the folder may consume any number of them, `ranks.counts`
    /// has to hold.
    ghost counts: { S → Type 0 } = { λ _. ⊤ };

    /// Consumes an item. `Some(value)` means that the item decides; `value` is what the future resolves to.
    ///
    /// The caller guarantees that the folder has not returned its value yet, and that it may consume this
    /// item.
    ///
    /// # Examples
    ///
    /// ```
    /// use futures_lite::stream::{Folder, Iter};
    /// use std::ops::Range;
    ///
    /// /// The sum of the numbers up to the first 0.
    /// #[derive(Drop)]
    /// struct Sum {
    ///     sum: u32,
    /// }
    ///
    /// // The `?` are for the definition of the sum, and for the proof that a poll returns.
    /// impl Folder<Iter<Range<u32>>> for Sum {
    ///     type Output = u32;
    ///
    ///     ghost fold = { ? };
    ///
    ///     fn take_in(&mut self, item: u32) -> Option<u32> {
    ///         self.sum += item;
    ///         if item == 0 { Some(self.sum) } else { None }
    ///     }
    ///
    ///     fn finish(&mut self) -> u32 {
    ///         self.sum
    ///     }
    ///
    ///     ghost returns = { ? };
    /// }
    ///
    /// let mut folder = Sum { sum: 0 };
    /// assert_eq!(rt; folder.take_in(5), None);
    /// assert_eq!(rt; folder.take_in(0), Some(5));
    /// ```
    fn take_in(&mut self, item: S::Item) -> Option<Self::Output>
        requires open { is_open self.old }
        requires takes { can_take self.old item }
        ensures { fold.asks self.old item result self.new };

    /// Returns the value at an end of the stream.
    ///
    /// The caller guarantees that the folder has not returned its value yet.
    ///
    /// # Examples
    ///
    /// ```
    /// use futures_lite::stream::{Folder, Iter};
    /// use std::ops::Range;
    ///
    /// /// The number of items.
    /// #[derive(Drop)]
    /// struct Tally {
    ///     count: u32,
    /// }
    ///
    /// // The `?` are for the definition of the count, and for the proof that a poll returns.
    /// impl Folder<Iter<Range<u32>>> for Tally {
    ///     type Output = u32;
    ///
    ///     ghost fold = { ? };
    ///
    ///     fn take_in(&mut self, _item: u32) -> Option<u32> {
    ///         self.count += 1;
    ///         None
    ///     }
    ///
    ///     fn finish(&mut self) -> u32 {
    ///         self.count
    ///     }
    ///
    ///     ghost returns = { ? };
    /// }
    ///
    /// let mut folder = Tally { count: 0 };
    /// assert_eq!(rt; folder.take_in(5), None);
    /// assert_eq!(rt; folder.take_in(0), None);
    /// assert_eq!(rt; folder.finish(), 2);
    /// ```
    fn finish(&mut self) -> Self::Output
        requires { is_open self.old }
        ensures { fold.closes self.old result self.new };

    ghost returns: { Returns S.run fold counts is_open };
}

/// A [`Folder`] whose value depends only on the items, unless memory was refused.
///
/// Its future over a `SteadyStream` is a `SteadyFuture`. Items are compared with the stream's `same`.
pub trait SteadyFolder<S: SteadyStream>: Folder<S> {
    /// The steps in which no memory was refused.
    ghost ample: { Fold Self S.Item Self.Output };

    /// No step allocates. Then each is ample.
    ghost needs_none: { Type 0 } = { ⊤ };

    /// When two values are the same. By default they are if they are equal.
    ghost same: { Sameness Self.Output } = { Sameness.equal };

    /// The folders that make the same of items that are the same.
    ghost agree: { Self → Self → Type 0 };

    /// Does nothing. The trait exists for its law.
    fn is_steady_folder(&self) {}

    ghost steady_fold: { FoldSteadyLaws (SameItem S.same) Self.fold ample needs_none agree (SameItem same) };
}
