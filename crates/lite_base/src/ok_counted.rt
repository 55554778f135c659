ghost use Rattle.lite_base.specs.Ranks.{Terminates, OkCounting, OkRun, Ranks};
ghost use Rattle.lite_base.specs.Laws.Ranks.{ok_counting_ends};

use crate::stream::Stream;

/// A stream of `Result`s that cannot yield `Ok` items for ever without an `Err`, a `Pending` or an end
/// between them.
///
/// Futures that may consume many `Ok` items within one poll require it, because it guarantees that the poll
/// returns. Each `Ok` item lowers a rank, as in [`Counted`](crate::Counted). Every `Counted` stream of
/// `Result`s is one. So is a stream that yields `Err` at every poll, for example because each clone is
/// refused.
pub trait OkCounted: Stream<Item = Result<Self::Ok, Self::Err>> {
    /// The type of the value in an `Ok` item.
    type Ok;

    /// The type of the error in an `Err` item.
    type Err;

    /// The rank, the values at which it counts, and those at which it is firm. Each poll keeps both.
    ghost ok_ranks: { Ranks Self };

    /// Does nothing. The trait exists for its laws. A trait without a function cannot be implemented for a
    /// type that holds a closure.
    fn is_ok_counted(&self) {}

    ghost ok_counting: { OkCounting Self.run ok_ranks };

    ghost ok_ends: { (x : Self) → ok_ranks.counts x → Terminates (OkRun Self.run) x } = { ok_counting_ends ok_counting };
}
