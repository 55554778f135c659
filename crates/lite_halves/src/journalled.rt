//! A journal in two halves, and its history.
ghost use Rattle.std.specs.Prelude.{◌≡◌, [], IfErr, IfOk};
ghost use Rattle.lite_halves.specs.Counts.{got_in, reads_in, taken_in, writes_in};
ghost use Rattle.lite_halves.specs.Journal.{IsSound, Replays};

mod counter_names;
mod locked;
mod made;
mod read_half;
mod tally;
mod write_half;

use crate::Journal;
pub use counter_names::{CounterNames, NewCounters};
use lite_io_base::{ReadSpec, WriteSpec};
use locked::Locked;
pub use read_half::JournalReadHalf;
use std::alloc::{AllocError, AllocGlobal};
use std::sync::{Arc, Mutex, Wait};
pub use write_half::JournalWriteHalf;

/// Splits a journal into a half that reads and a half that writes, which may be used in two threads.
///
/// The read half counts the journal's reads and the bytes that they returned. The write half counts its writes
/// and the bytes that they accepted. Entries from before the split are included. `B` names these four
/// counters, so halves of two splits cannot be mixed. `counters` must be the counters that `B` names.
///
/// Each call of a half locks the journal, so it may wait. The halves keep `rt` for that. This call does not
/// wait. `rt` and the stream must be `Drop`.
///
/// # Errors
///
/// `Err` returns the journal: the memory for what the halves share was refused. `counters` is dropped.
///
/// # Examples
///
/// ```
/// use futures_lite::future;
/// use futures_lite::io::{AsyncWriteExt, NewCounters, CounterNames, Cursor, Journal, split_journalled};
/// use std::alloc::{AllocError, AllocGlobal};
/// use std::marker::Brand;
/// use std::process::Abort;
/// use std::random::RandomSource;
/// use std::sync::Wait;
///
/// fn writes<R, B>(rt: R, journal: Journal<Cursor<Vec<u8>>>, counters: NewCounters) -> Result<(), Fail>
/// where
///     R: Wait + Abort + RandomSource + AllocGlobal + Copy,
///     B: CounterNames,
/// {
///     let halves = split_journalled::<R, Cursor<Vec<u8>>, B>(rt, journal, counters);
///     let Ok((reader, mut writer)) = halves else {
///         return Err(AllocError.into());
///     };
///     future::block_on(&rt, writer.write(b"ab"))??;
///     assert_eq!(rt; (reader.calls(), writer.calls(), writer.bytes()), (0, 1, 2));
///     Ok(())
/// }
///
/// let Ok(journal) = Journal::new(rt.alloc(), Cursor::new(Vec::new(rt.alloc()))) else {
///     return Err(AllocError.into());
/// };
/// writes::<HostRuntime, Brand>(rt, journal, NewCounters::new())?;
/// ```
pub fn split_journalled<R, T, B>(
    rt: R,
    journal: Journal<T>,
    counters: NewCounters,
) -> Result<(JournalReadHalf<R, T, B>, JournalWriteHalf<R, T, B>), Journal<T>>
where
    R: Wait + AllocGlobal + Clone + Drop,
    T: ReadSpec + WriteSpec + Clone + Drop,
    B: CounterNames,
    requires { counters ≡ B.names }
    ensures read { IfOk result (λ r. (r.0.calls ≡ reads_in journal.notes) × (r.0.bytes ≡ got_in journal.notes)) }
    ensures none_made { IfOk result (λ r. (r.0.made ≡ []) × (r.1.made ≡ [])) }
    ensures write { IfOk result (λ r. (r.1.calls ≡ writes_in journal.notes) × (r.1.bytes ≡ taken_in journal.notes)) }
    ensures err { IfErr result (λ back. back ≡ journal) }
{
    let Ok(other_rt) = rt.clone() else {
        return Err(journal);
    };
    let (locked, read_shares, write_shares) = Locked::open(counters);
    // The journal is put in last, so that it can be returned after a refusal.
    let Ok(shared) = Arc::new(rt.alloc(), Mutex::new(locked)) else {
        return Err(journal);
    };
    let Ok(other) = Arc::try_clone(&shared) else {
        return Err(journal);
    };
    let (reads, writes) = shared.lock(&rt).fill(journal, read_shares, write_shares);
    let read = JournalReadHalf {
        rt,
        shared,
        tally: reads,
    };
    let write = JournalWriteHalf {
        rt: other_rt,
        shared: other,
        tally: writes,
    };
    Ok((read, write))
}

/// Returns a clone of the journal so far.
///
/// It has as many entries, and they moved as many bytes, as the two halves count, whatever threads they were
/// used in. This call locks the journal, so it may wait.
///
/// # Errors
///
/// `Err(AllocError)` means that the memory for the clone was refused. Nothing changes.
///
/// # Examples
///
/// ```
/// use futures_lite::future;
/// use futures_lite::io::{AsyncWriteExt, NewCounters, Call, Cursor, Journal, history, split_journalled};
/// use std::alloc::AllocError;
/// use std::marker::Brand;
///
/// type Bytes = Cursor<Vec<u8>>;
///
/// let Ok(journal) = Journal::new(rt.alloc(), Cursor::new(Vec::new(rt.alloc()))) else {
///     return Err(AllocError.into());
/// };
/// let halves = split_journalled::<HostRuntime, Bytes, Brand>(rt, journal, NewCounters::new());
/// let Ok((mut reader, mut writer)) = halves else {
///     return Err(AllocError.into());
/// };
/// future::block_on(&rt, writer.flush())??;
/// let so_far = history(&mut reader, &mut writer)?;
/// assert_eq!(rt; so_far.entries().len(), 1);
/// assert_eq!(rt; so_far.entries()[0].call, Call::Flush);
/// ```
pub fn history<R: Wait, T: ReadSpec + WriteSpec + Clone, B: CounterNames>(
    read: &mut JournalReadHalf<R, T, B>,
    write: &mut JournalWriteHalf<R, T, B>,
) -> Result<Journal<T>, AllocError>
    ensures same { (read.new ≡ read.old) × (write.new ≡ write.old) }
    ensures sound { IfOk result (λ j. IsSound T.reads T.writes T.is_clone j) }
    ensures replays { IfOk result (λ j. Replays T.reads T.writes T.is_clone j) }
    ensures reads { IfOk result (λ j. reads_in j.notes ≡ read.old.calls) }
    ensures got { IfOk result (λ j. got_in j.notes ≡ read.old.bytes) }
    ensures writes { IfOk result (λ j. writes_in j.notes ≡ write.old.calls) }
    ensures taken { IfOk result (λ j. taken_in j.notes ≡ write.old.bytes) }
{
    let mut locked = read.shared.lock(&read.rt);
    let told = locked.history(&mut read.tally, &mut write.tally)?;
    // The contract of `entries` proves that it is sound.
    let _entries = told.entries();
    Ok(told)
}
