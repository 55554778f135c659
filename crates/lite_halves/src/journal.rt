//! The journal: what it has, how it is made, and how its entries are read.
ghost use Rattle.std.specs.Prelude.{◌≡◌, ◌<◌, List, ◌++◌, ◌∷◌, [], length, IfErr, IfOk};
ghost use Rattle.lite_halves.specs.Entry.{Note, note_of, notes_in};
ghost use Rattle.lite_halves.specs.Journal.{IsSound, Replays};

mod drive;
mod polls;

use crate::entry::Entry;
use lite_io_base::{ReadSpec, WriteSpec};
use std::alloc::{AllocError, Global};
use std::marker::Model;
use std::snapshot::Snapshot;

/// A stream of bytes that records each of its calls.
///
/// A journal has a clone of the stream as it was at the start, and the stream as it is now. It has an entry
/// for each call since the start, with its answer. Every journal is sound: each answer is one that its call
/// can return. The calls in order lead the stream from its start to what it is now. A contract sees the
/// start, the entries and the stream, and how many more entries there is room for.
///
/// Room for an entry, and for the bytes that are read or written, is made before the stream is called. If it
/// is refused, the call returns an error of the kind `OutOfMemory`. The stream is not called then, and
/// nothing changes. A call that has room for its entry and copies no byte is never refused. An `OutOfMemory`
/// of the stream itself is recorded like any other answer; `step_read`, `step_write`, `step_flush` and
/// `step_close` distinguish the two.
///
/// A vectored call is one plain call on the first nonempty buffer, with one entry. An entry of a read keeps
/// the bytes that were read.
///
/// # Examples
///
/// ```
/// use futures_lite::future;
/// use futures_lite::io::{AsyncReadExt, AsyncWriteExt, Call, Cursor, Journal};
/// use std::alloc::AllocError;
///
/// let cursor = Cursor::new(Vec::from_slice(rt.alloc(), b"ab")?);
/// let Ok(mut journal) = Journal::new(rt.alloc(), cursor) else {
///     return Err(AllocError.into());
/// };
/// future::block_on(&rt, journal.read(&mut [0u8]))??;
/// future::block_on(&rt, journal.write(b"x"))??;
/// assert_eq!(rt; journal.entries().len(), 2);
/// assert_eq!(rt; journal.entries()[0].call, Call::Read { room: 1 });
/// assert_eq!(rt; journal.into_inner().into_inner().as_slice(), b"ax".as_slice());
/// ```
#[derive(Debug, Drop)]
pub struct Journal<T: ReadSpec + WriteSpec + Clone> {
    start: T,
    stream: T,
    entries: Vec<Entry>,
    alloc: Global,
}

impl<T: ReadSpec + WriteSpec + Clone> Model for Journal<T> {
    ghost use Rattle.std.specs.Prelude.{◌-◌, vec_capacity, vec_len};
    ghost use Rattle.lite_halves.specs.Journal.{Chronicle, IsSound};
    ghost use Rattle.lite_halves.specs.Entry.{notes_in};

    ghost Value = { Chronicle T };

    ghost view = { λ j. record {
      start = j.start;
      notes = notes_in j.entries.items;
      stream = j.stream;
      room = vec_capacity j.entries - vec_len j.entries;
    } };

    ghost invariant = { λ j. IsSound T.reads T.writes T.is_clone
        (record {
          start = j.start;
          notes = notes_in j.entries.items;
          stream = j.stream;
          room = vec_capacity j.entries - vec_len j.entries;
        }) };
}

impl<T: ReadSpec + WriteSpec + Clone> Journal<T> {
    /// Returns a journal of `stream` without entries, which keeps a clone of `stream` as its start.
    ///
    /// Guarantees about the start hold up to the type's `Clone` contract: if clones equal their originals,
    /// they are guarantees about the stream that was passed.
    ///
    /// # Errors
    ///
    /// `Err` returns the stream: the clone was refused for want of memory.
    ///
    /// # Examples
    ///
    /// ```
    /// use futures_lite::io::{Cursor, Journal};
    /// use std::alloc::AllocError;
    ///
    /// let cursor = Cursor::new(Vec::from_slice(rt.alloc(), b"ab")?);
    /// let Ok(journal) = Journal::new(rt.alloc(), cursor) else {
    ///     return Err(AllocError.into());
    /// };
    /// assert!(rt; journal.entries().is_empty());
    /// assert_eq!(rt; journal.start().get_ref().as_slice(), b"ab".as_slice());
    /// ```
    pub fn new(alloc: Global, stream: T) -> Result<Journal<T>, T>
        ensures ok { IfOk result (λ j. (j.notes ≡ []) × (j.stream ≡ stream) × T.is_clone stream j.start) }
        ensures err { IfErr result (λ back. back ≡ stream) }
    {
        let Ok(start) = stream.clone() else {
            return Err(stream);
        };
        Ok(Journal {
            start,
            stream,
            entries: Vec::new(alloc),
            alloc,
        })
    }

    /// Returns a reference to the stream as it was when the journal began.
    ///
    /// # Examples
    ///
    /// ```
    /// use futures_lite::future;
    /// use futures_lite::io::{AsyncReadExt, Cursor, Journal};
    /// use std::alloc::AllocError;
    ///
    /// let cursor = Cursor::new(Vec::from_slice(rt.alloc(), b"ab")?);
    /// let Ok(mut journal) = Journal::new(rt.alloc(), cursor) else {
    ///     return Err(AllocError.into());
    /// };
    /// future::block_on(&rt, journal.read(&mut [0u8]))??;
    /// assert_eq!(rt; journal.start().position(), 0);
    /// assert_eq!(rt; journal.into_inner().position(), 1);
    /// ```
    pub fn start(&self) -> &T
        ensures { result.now ≡ self.now.start }
    {
        &self.start
    }

    /// Returns the calls since the start with their answers, in the order in which they were made.
    ///
    /// # Examples
    ///
    /// ```
    /// use futures_lite::future;
    /// use futures_lite::io::{Answer, AsyncWriteExt, Call, Cursor, Journal};
    /// use std::alloc::AllocError;
    ///
    /// let Ok(mut journal) = Journal::new(rt.alloc(), Cursor::new(Vec::new(rt.alloc()))) else {
    ///     return Err(AllocError.into());
    /// };
    /// future::block_on(&rt, journal.write(b"ab"))??;
    /// future::block_on(&rt, journal.flush())??;
    /// let [written, flushed] = journal.entries() else {
    ///     return Err(Fail::from("two calls are two entries"));
    /// };
    /// assert_eq!(rt; written.answer, Answer::Wrote(2));
    /// assert_eq!(rt; flushed.call, Call::Flush);
    /// ```
    pub fn entries(&self) -> &[Entry]
        ensures entries { notes_in result.now ≡ self.now.notes }
        ensures sound { IsSound T.reads T.writes T.is_clone self.now }
        ensures replays { Replays T.reads T.writes T.is_clone self.now }
    {
        &self.entries
    }

    /// Returns the entry of the latest call, for contracts only. There must be an entry.
    pub(crate) fn latest(&self) -> Snapshot<Entry>
        requires { 0 < length self.now.notes }
        ensures { (front : List Note) (e : Note) → self.now.notes ≡ front ++ e ∷ [] → note_of result.value ≡ e }
    {
        let Some((entry, _)) = self.entries.split_last() else {
            unreachable!()
        };
        Snapshot::of(entry)
    }

    /// Returns the stream as it is now.
    ///
    /// The clone that was kept as the start is dropped, so the stream must be `Drop`.
    ///
    /// # Examples
    ///
    /// ```
    /// use futures_lite::future;
    /// use futures_lite::io::{AsyncWriteExt, Cursor, Journal};
    /// use std::alloc::AllocError;
    ///
    /// let Ok(mut journal) = Journal::new(rt.alloc(), Cursor::new(Vec::new(rt.alloc()))) else {
    ///     return Err(AllocError.into());
    /// };
    /// future::block_on(&rt, journal.write(b"ab"))??;
    /// assert_eq!(rt; journal.into_inner().into_inner().as_slice(), b"ab".as_slice());
    /// ```
    pub fn into_inner(self) -> T
    where
        T: Drop,
        ensures { result ≡ self.stream }
    {
        let Journal {
            start: _,
            stream,
            entries: _,
            alloc: _,
        } = self;
        stream
    }
}

impl<T: ReadSpec + WriteSpec + Clone> Clone for Journal<T> {
    ghost is_clone = { λ a b. (b.notes ≡ a.notes) × T.is_clone a.start b.start × T.is_clone a.stream b.stream };

    fn clone(&self) -> Result<Journal<T>, AllocError> {
        let start = self.start.clone()?;
        let stream = self.stream.clone()?;
        let entries = self.entries.clone()?;
        Ok(Journal {
            start,
            stream,
            entries,
            alloc: self.alloc,
        })
    }
}
