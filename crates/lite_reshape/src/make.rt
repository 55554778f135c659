//! Functions that make the adapters.
ghost use Rattle.std.specs.Prelude.{◌≡◌, ◌<◌, Some, None};
ghost use Rattle.lite_reshape.specs.Ended.Turn.{First};

use crate::chain::Chain;
use crate::cloned::Cloned;
use crate::ended::Ended;
use crate::filter::Filter;
use crate::filter_map::FilterMap;
use crate::flat_map::FlatMap;
use crate::flatten::Flatten;
use crate::skip::Skip;
use crate::skip_while::SkipWhile;
use crate::step_by::StepBy;
use crate::then::Then;
use lite_base::Stream;
use lite_stream::make::map;

/// Returns a stream that yields the items of `stream` for which `predicate` returns true.
pub fn filter<S, P>(stream: S, predicate: P) -> Filter<S, P>
    ensures { result ≡ record { stream = stream; predicate = predicate } }
{
    Filter { stream, predicate }
}

/// Returns a stream that calls `f` with each item of `stream`, and yields the values for which `f` returns
/// `Some`.
pub fn filter_map<S, F>(stream: S, f: F) -> FilterMap<S, F>
    ensures { result ≡ record { stream = stream; f = f } }
{
    FilterMap { stream, f }
}

/// Returns a stream that skips the first `n` items of `stream`, and yields the others.
pub fn skip<S>(stream: S, n: usize) -> Skip<S>
    ensures { result ≡ record { stream = stream; n = n } }
{
    Skip { stream, n }
}

/// Returns a stream that skips items of `stream` while `predicate` returns true, and yields the others.
pub fn skip_while<S, P>(stream: S, predicate: P) -> SkipWhile<S, P>
    ensures { result ≡ record { stream = stream; predicate = Some predicate } }
{
    SkipWhile {
        stream,
        predicate: Some(predicate),
    }
}

/// Returns a stream that yields the first item of `stream` and each `step`-th after it; `step` must be
/// greater than 0.
pub fn step_by<S>(stream: S, step: usize) -> StepBy<S>
    requires { 0 < step }
    ensures { result ≡ record { stream = stream; step = step; i = 0 } }
{
    StepBy { stream, step, i: 0 }
}

/// Returns a stream that yields the items of `first`, and after its end those of `second`.
pub fn chain<S, U>(first: S, second: U) -> Chain<S, U>
    ensures { result ≡ record { first = first; second = second; part = First } }
{
    Chain {
        first,
        second,
        part: Ended::none(),
    }
}

/// Returns a stream that calls `f` with each item of `stream`, and yields the values of the futures that `f`
/// returns.
pub fn then<S, F, Fut>(stream: S, f: F) -> Then<S, F, Fut>
    ensures { result ≡ record { stream = stream; future = None; f = f } }
{
    Then {
        stream,
        future: None,
        f,
    }
}

/// Returns a stream that yields the items of the streams that `stream` yields, one stream after the other.
pub fn flatten<S: Stream>(stream: S) -> Flatten<S>
    ensures { result ≡ record { stream = stream; inner_stream = None } }
{
    Flatten {
        stream,
        inner_stream: None,
    }
}

/// Returns a stream that calls `f` with each item of `stream`, and yields the items of the streams that `f`
/// returns.
pub fn flat_map<S, U, F>(stream: S, f: F) -> FlatMap<S, U, F>
    ensures { result ≡ record { stream = record { stream = stream; f = f }; inner_stream = None } }
{
    FlatMap {
        stream: map(stream, f),
        inner_stream: None,
    }
}

/// Returns a stream that yields clones of the items of `stream`, which are references.
pub fn cloned<S: Stream>(stream: S) -> Cloned<S>
    ensures { result ≡ record { stream = stream; held = None } }
{
    Cloned { stream, held: None }
}
