//! Readers: two that are alike, and a calm one, of each type.
//! A call of a reader of bytes that are there is never pending, so it may be said to have registered every fact.
ghost use Rattle.std.specs.Prelude.{◌≡◌, ◌∷◌, [], Some, false, None, true};
ghost use Rattle.lite_base.specs.Steady.{TakesNone};
ghost use Rattle.lite_base.specs.Registered.{HoldsWoken};
ghost use Rattle.lite_bridge.specs.Known.{NoFault};
ghost use Rattle.lite_buffered.specs.Budgeted.{budgeted_inner, noted_of};
ghost use Rattle.lite_buffered.specs.BufReader.{bytes_ahead, reader_capacity, reader_inner};
ghost use Rattle.lite_buffered.specs.Chain.{first_of, has_ended, second_of};
ghost use Rattle.lite_buffered.specs.Take.{take_inner};
ghost use Rattle.lite_io_base.specs.Marks.{ReadMark};
ghost use Rattle.properties_met.specs.Registering.{TellsAll, TellsEach};
ghost use Rattle.properties_met.specs.Unrefused.{AmpleWhere};

use lite_base::{SteadyStream, Stream};
use lite_bridge::{AssertAsync, BytesLike, Cursor};
use lite_buffered::{Budgeted, BufReader, Chain, Empty, Repeat, Take};
use lite_halves::Journal;
use lite_io_base::{AsyncRead, AsyncSeek, AsyncWrite, CalmRead, ReadSpec, SteadyRead, WriteSpec};
use lite_mock::Marks;
use lite_read::Bytes;
use std::io::{Read, Seek, Write};

/// Readers of bytes are alike to themselves, and marks to the same with a pending before them.
pub fn readers_are_alike<'a, T: BytesLike>(
    bytes: &'a [u8],
    t: &T,
    place: u64,
    byte: u8,
    marks: &Marks,
)
    ensures slice { ⟦<&'a [u8] as SteadyRead>⟧.alike bytes.entry bytes.entry }
    ensures cursor { ⟦<Cursor<T> as SteadyRead>⟧.alike (record { inner = t.now; position = place })
        (record { inner = t.now; position = place }) }
    ensures empty { ⟦<Empty as SteadyRead>⟧.alike (record {}) (record {}) }
    ensures repeat { ⟦<Repeat as SteadyRead>⟧.alike (record { byte = byte }) (record { byte = byte }) }
    ensures marks { ⟦<Marks as SteadyRead>⟧.alike marks.now (ReadMark.pending ∷ marks.now) }
    ensures asserted { ⟦<AssertAsync<&'a [u8]> as SteadyRead>⟧.alike (record { inner = bytes.entry })
        (record { inner = bytes.entry }) }
{}

/// Readers of bytes are calm, and so are marks without a pending.
pub fn readers_are_calm<'a, T: BytesLike>(bytes: &'a [u8], t: &T, place: u64, byte: u8)
    ensures slice { ⟦<&'a [u8] as CalmRead>⟧.is_calm bytes.entry }
    ensures cursor { ⟦<Cursor<T> as CalmRead>⟧.is_calm (record { inner = t.now; position = place }) }
    ensures empty { ⟦<Empty as CalmRead>⟧.is_calm (record {}) }
    ensures repeat { ⟦<Repeat as CalmRead>⟧.is_calm (record { byte = byte }) }
    ensures marks { ⟦<Marks as CalmRead>⟧.is_calm (ReadMark.byte byte ∷ ReadMark.end ∷ []) }
    ensures asserted { ⟦<AssertAsync<&'a [u8]> as CalmRead>⟧.is_calm (record { inner = bytes.entry }) }
{}

/// Adapters of readers are alike over readers that are alike, and calm over calm ones.
pub fn adapters_have_properties<'a, R, S>(x: &&'a mut R, y: &&'a mut R, v: &S, w: &S, limit: u64)
where
    R: SteadyRead + CalmRead,
    S: SteadyRead + CalmRead,
    requires first { R.alike x.now.now y.now.now }
    requires second { S.alike v.now w.now }
    requires first_calm { R.is_calm x.now.now }
    requires second_calm { S.is_calm v.now }
    ensures lent { ⟦<&'a mut R as SteadyRead>⟧.alike x.now y.now }
    ensures take { ⟦<Take<S> as SteadyRead>⟧.alike (record { inner = v.now; limit = limit })
        (record { inner = w.now; limit = limit }) }
    ensures bytes { ⟦<Bytes<S> as SteadyRead>⟧.alike (record { inner = v.now; interrupted = false })
        (record { inner = w.now; interrupted = false }) }
    ensures chain { ⟦<Chain<&'a mut R, S> as SteadyRead>⟧.alike
        (record { first = x.now; second = v.now; has_ended = false })
        (record { first = y.now; second = w.now; has_ended = false }) }
    ensures lent_calm { ⟦<&'a mut R as CalmRead>⟧.is_calm x.now }
    ensures take_calm { ⟦<Take<S> as CalmRead>⟧.is_calm (record { inner = v.now; limit = limit }) }
    ensures bytes_calm { ⟦<Bytes<S> as CalmRead>⟧.is_calm (record { inner = v.now; interrupted = false }) }
    ensures chain_calm { ⟦<Chain<&'a mut R, S> as CalmRead>⟧.is_calm (record { first = x.now; second = v.now; has_ended = false }) }
{}

/// Two buffered readers as [`BufReader::new`] makes them are alike over readers that are, and calm over calm ones.
pub fn buffered_readers_have_properties<R: SteadyRead + CalmRead>(
    x: &BufReader<R>,
    y: &BufReader<R>,
)
    requires alike { R.alike (reader_inner x.now) (reader_inner y.now) }
    requires is_calm { R.is_calm (reader_inner x.now) }
    requires empty { (bytes_ahead x.now ≡ []) × (bytes_ahead y.now ≡ []) }
    requires capacity { (reader_capacity x.now ≡ 8192) × (reader_capacity y.now ≡ 8192) }
    ensures alike { ⟦<BufReader<R> as SteadyRead>⟧.alike x.now y.now }
    ensures is_calm { ⟦<BufReader<R> as CalmRead>⟧.is_calm x.now }
{}

/// Journals of readers that are alike are alike, and those of calm ones are calm.
pub fn journals_have_properties<R: SteadyRead + CalmRead + WriteSpec + Clone>(
    x: &Journal<R>,
    y: &Journal<R>,
)
    requires alike { R.alike x.now.stream y.now.stream }
    requires is_calm { R.is_calm x.now.stream }
    ensures alike { ⟦<Journal<R> as SteadyRead>⟧.alike x.now y.now }
    ensures is_calm { ⟦<Journal<R> as CalmRead>⟧.is_calm x.now }
{}

/// Readers with a budget each are alike over readers that are alike, whatever the budgets are.
pub fn budgets_are_alike<R: SteadyRead>(x: &R, y: &R, n: usize, m: usize)
    requires { R.alike x.now y.now }
    ensures { ⟦<Budgeted<R> as SteadyRead>⟧.alike (record { reader = x.now; budget = n; left = Some n })
        (record { reader = y.now; budget = m; left = Some m }) }
{}

/// Readers of bytes that are there: no call of one is pending, or asks for memory.
pub fn readers_alone<'a, T: BytesLike>(
    bytes: &'a [u8],
    cursor: &Cursor<T>,
    empty: &Empty,
    repeat: &Repeat,
)
    ensures bytes { TellsEach (⟦<&'a [u8] as AsyncRead>⟧.registers bytes.entry) × ⟦<&'a [u8] as SteadyRead>⟧.needs_none }
    ensures cursor { TellsEach (⟦<Cursor<T> as AsyncRead>⟧.registers cursor.now) × ⟦<Cursor<T> as SteadyRead>⟧.needs_none }
    ensures empty { TellsEach (⟦<Empty as AsyncRead>⟧.registers empty.now) × ⟦<Empty as SteadyRead>⟧.needs_none }
    ensures repeat { TellsEach (⟦<Repeat as AsyncRead>⟧.registers repeat.now) × ⟦<Repeat as SteadyRead>⟧.needs_none }
{}

/// Adapters of one reader, and a reader that is lent. A budget has registered a wake at its own pending, after which it has noted
/// no rest, and at any other pending what the reader does.
pub fn adapted<'a, R: SteadyRead>(
    lent: &&'a mut R,
    take: &Take<R>,
    buf_reader: &BufReader<R>,
    budgeted: &Budgeted<R>,
    rest: usize,
)
    ensures lent { TellsAll (R.registers lent.now.now) (⟦<&'a mut R as AsyncRead>⟧.registers lent.now)
        × (R.needs_none → ⟦<&'a mut R as SteadyRead>⟧.needs_none) }
    ensures take { TellsAll (R.registers (take_inner take.now)) (⟦<Take<R> as AsyncRead>⟧.registers take.now)
        × (R.needs_none → ⟦<Take<R> as SteadyRead>⟧.needs_none) }
    ensures buf_reader { TellsAll (R.registers (reader_inner buf_reader.now))
        (⟦<BufReader<R> as AsyncRead>⟧.registers buf_reader.now)
        × (R.needs_none → ⟦<BufReader<R> as SteadyRead>⟧.needs_none) }
    ensures budgeted { (noted_of budgeted.now ≡ None
        → TellsAll HoldsWoken (⟦<Budgeted<R> as AsyncRead>⟧.registers budgeted.now))
        × (noted_of budgeted.now ≡ Some rest
        → TellsAll (R.registers (budgeted_inner budgeted.now)) (⟦<Budgeted<R> as AsyncRead>⟧.registers budgeted.now))
        × (R.needs_none → ⟦<Budgeted<R> as SteadyRead>⟧.needs_none) }
{}

/// Two readers one after the other, of which the first is read until it has ended.
pub fn chained<R: SteadyRead, S: SteadyRead>(chain: &Chain<R, S>)
    ensures first { has_ended chain.now ≡ false
        → TellsAll (R.registers (first_of chain.now)) (⟦<Chain<R, S> as AsyncRead>⟧.registers chain.now) }
    ensures second { has_ended chain.now ≡ true
        → TellsAll (S.registers (second_of chain.now)) (⟦<Chain<R, S> as AsyncRead>⟧.registers chain.now) }
    ensures needs_none { R.needs_none → S.needs_none → ⟦<Chain<R, S> as SteadyRead>⟧.needs_none }
{}

/// A reader's bytes one by one: as a reader it has registered what that does. As a stream it has registered a wake at an
/// interruption, which it notes, and at any other pending what the reader does.
pub fn bytes_of<R: SteadyRead>(bytes: &Bytes<R>)
    ensures reader { TellsAll (R.registers bytes.now.inner) (⟦<Bytes<R> as AsyncRead>⟧.registers bytes.now)
        × (R.needs_none → ⟦<Bytes<R> as SteadyRead>⟧.needs_none) }
    ensures stream { (bytes.now.interrupted ≡ true → TellsAll HoldsWoken (⟦<Bytes<R> as Stream>⟧.registers bytes.now))
        × (bytes.now.interrupted ≡ false
        → TellsAll (R.registers bytes.now.inner) (⟦<Bytes<R> as Stream>⟧.registers bytes.now))
        × (R.needs_none → ⟦<Bytes<R> as SteadyStream>⟧.needs_none) }
{}

/// A journal of what is read: if its stream ran by the same marks, no call was refused memory, and then its run is ample.
pub fn journalled<R: SteadyRead + WriteSpec + Clone>(journal: &Journal<R>)
    ensures registers { TellsAll (R.registers journal.now.stream) (⟦<Journal<R> as AsyncRead>⟧.registers journal.now) }
    ensures ample { TakesNone R.reads R.ample → (a b : _) (marks : _) → ⟦<Journal<R> as ReadSpec>⟧.reads a marks b
        → R.reads a.stream marks b.stream → ⟦<Journal<R> as SteadyRead>⟧.ample a marks b }
{}

/// A reader, a writer and a seeker of std: no call of one is pending, and a run of the reader in which no read failed is ample.
pub fn asserted<R: Read, W: Write, S: Seek>(
    reader: &AssertAsync<R>,
    writer: &AssertAsync<W>,
    seeker: &AssertAsync<S>,
)
    ensures reader { TellsEach (⟦<AssertAsync<R> as AsyncRead>⟧.registers reader.now) }
    ensures writer { TellsEach (⟦<AssertAsync<W> as AsyncWrite>⟧.write_registers writer.now) }
    ensures seeker { TellsEach (⟦<AssertAsync<S> as AsyncSeek>⟧.seek_registers seeker.now) }
    ensures ample { AmpleWhere NoFault ⟦<AssertAsync<R> as ReadSpec>⟧.reads ⟦<AssertAsync<R> as SteadyRead>⟧.ample }
{}
