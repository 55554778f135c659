//! Functions that make the adapters.
ghost use Rattle.std.specs.Prelude.{◌≡◌, false};

use crate::copied::Copied;
use crate::enumerate::Enumerate;
use crate::fuse::Fuse;
use crate::inspect::Inspect;
use crate::map::Map;
use crate::map_while::MapWhile;
use crate::scan::Scan;
use crate::take::Take;
use crate::take_while::TakeWhile;

/// Returns a stream that yields `f(item)` for each item of `stream`.
pub fn map<S, F>(stream: S, f: F) -> Map<S, F>
    ensures { result ≡ record { stream = stream; f = f } }
{
    Map { stream, f }
}

/// Returns a stream that yields pairs of a number, counted from 0, and an item of `stream`.
pub fn enumerate<S>(stream: S) -> Enumerate<S>
    ensures { result ≡ record { stream = stream; i = 0 } }
{
    Enumerate { stream, i: 0 }
}

/// Returns a stream that calls `f` with a reference to each item of `stream`, and then yields the item.
pub fn inspect<S, F>(stream: S, f: F) -> Inspect<S, F>
    ensures { result ≡ record { stream = stream; f = f } }
{
    Inspect { stream, f }
}

/// Returns a stream that yields copies of the items of `stream`, which are references.
pub fn copied<S>(stream: S) -> Copied<S>
    ensures { result ≡ record { stream = stream } }
{
    Copied { stream }
}

/// Returns a stream that yields the first `n` items of `stream`.
pub fn take<S>(stream: S, n: usize) -> Take<S>
    ensures { result ≡ record { stream = stream; n = n } }
{
    Take { stream, n }
}

/// Returns a stream that yields the items of `stream` up to its first end, and then ends for ever.
pub fn fuse<S>(stream: S) -> Fuse<S>
    ensures { result ≡ record { stream = stream; done = false } }
{
    Fuse {
        stream,
        done: false,
    }
}

/// Returns a stream that yields the items of `stream`, and ends at each item for which `predicate` returns
/// false.
pub fn take_while<S, P>(stream: S, predicate: P) -> TakeWhile<S, P>
    ensures { result ≡ record { stream = stream; predicate = predicate } }
{
    TakeWhile { stream, predicate }
}

/// Returns a stream that calls `f` with each item of `stream` and yields the values, and ends at each `None`.
pub fn map_while<S, F>(stream: S, f: F) -> MapWhile<S, F>
    ensures { result ≡ record { stream = stream; f = f } }
{
    MapWhile { stream, f }
}

/// Returns a stream that calls `f` with a state and each item of `stream` and yields the values, and ends at
/// each `None`.
pub fn scan<S, St, F>(stream: S, initial_state: St, f: F) -> Scan<S, St, F>
    ensures { result ≡ record { stream = stream; state = initial_state; f = f } }
{
    Scan {
        stream,
        state: initial_state,
        f,
    }
}
