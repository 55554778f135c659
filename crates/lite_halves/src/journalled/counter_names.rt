//! The four counters of a split.
ghost use Rattle.lite_halves.specs.Made.{Names};

use std::marker::{Brand, Model, PhantomData};
use std::sync::ledger::{Blank, Ledger};

/// Type-level names of the four counters of one split.
///
/// A function that splits is generic in it: `B: CounterNames`, or `B: CounterNames + Send + Sync` if a half goes to another
/// thread. Its contract requires `counters ≡ B.names`. Anyone who calls it passes `Brand` for `B`, and the
/// proof of that call picks the names: `record { names = a.counters }`.
pub trait CounterNames {
    /// The names of the four counters.
    ghost names: { Names };
}

impl CounterNames for Brand {
    ghost names = { record { reads = 0; got = 0; writes = 0; taken = 0 } };
}

/// Four new counters that no [`CounterNames`] name yet: of the calls and of the bytes of each half.
///
/// A counter is a ledger of std with one part, a token that takes no bytes. A contract sees the names of the
/// four.
///
/// # Examples
///
/// ```
/// use futures_lite::io::{NewCounters, Cursor, Journal, split_journalled};
/// use std::alloc::AllocError;
/// use std::marker::Brand;
///
/// let Ok(journal) = Journal::new(rt.alloc(), Cursor::new(Vec::new(rt.alloc()))) else {
///     return Err(AllocError.into());
/// };
/// let counters = NewCounters::new();
/// let halves = split_journalled::<HostRuntime, Cursor<Vec<u8>>, Brand>(rt, journal, counters);
/// let Ok((reader, writer)) = halves else {
///     return Err(AllocError.into());
/// };
/// assert_eq!(rt; (reader.calls(), writer.calls()), (0, 0));
/// ```
#[derive(Drop)]
pub struct NewCounters {
    pub(super) reads: Blank,
    pub(super) got: Blank,
    pub(super) writes: Blank,
    pub(super) taken: Blank,
}

impl Model for NewCounters {
    ghost use Rattle.std.specs.Prelude.{◌≡◌};
    ghost use Rattle.lite_halves.specs.Made.{Names};

    ghost Value = { Names };

    ghost view = { λ b. record { reads = b.reads.name; got = b.got.name; writes = b.writes.name; taken = b.taken.name } };

    ghost invariant = { λ b. (b.reads.parts ≡ 1) × (b.got.parts ≡ 1) × (b.writes.parts ≡ 1) × (b.taken.parts ≡ 1) };
}

impl NewCounters {
    /// Returns four new counters.
    ///
    /// # Examples
    ///
    /// ```
    /// use futures_lite::io::{NewCounters, Cursor, Journal, split_journalled};
    /// use std::alloc::AllocError;
    /// use std::marker::Brand;
    ///
    /// type Bytes = Cursor<Vec<u8>>;
    ///
    /// // Each split needs new ones.
    /// for text in [b"a", b"b"] {
    ///     let cursor = Cursor::new(Vec::from_slice(rt.alloc(), text)?);
    ///     let Ok(journal) = Journal::new(rt.alloc(), cursor) else {
    ///         return Err(AllocError.into());
    ///     };
    ///     let halves = split_journalled::<HostRuntime, Bytes, Brand>(rt, journal, NewCounters::new());
    ///     assert!(rt; halves.is_ok());
    /// }
    /// ```
    pub fn new() -> NewCounters {
        NewCounters {
            reads: Blank::new(1),
            got: Blank::new(1),
            writes: Blank::new(1),
            taken: Blank::new(1),
        }
    }
}

/// The ledger of the calls of the half that reads.
pub(super) struct Reads<B: CounterNames> {
    of: PhantomData<B>,
}

impl<B: CounterNames> Ledger for Reads<B> {
    ghost name = { B.names.reads };

    ghost parts = { 1 };
}

/// The ledger of the bytes that it read.
pub(super) struct Got<B: CounterNames> {
    of: PhantomData<B>,
}

impl<B: CounterNames> Ledger for Got<B> {
    ghost name = { B.names.got };

    ghost parts = { 1 };
}

/// The ledger of the calls of the half that writes.
pub(super) struct Writes<B: CounterNames> {
    of: PhantomData<B>,
}

impl<B: CounterNames> Ledger for Writes<B> {
    ghost name = { B.names.writes };

    ghost parts = { 1 };
}

/// The ledger of the bytes that it wrote.
pub(super) struct Taken<B: CounterNames> {
    of: PhantomData<B>,
}

impl<B: CounterNames> Ledger for Taken<B> {
    ghost name = { B.names.taken };

    ghost parts = { 1 };
}
