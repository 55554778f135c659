//! Writers, and futures of writes: two that are alike, and a calm one, of each type.
//! A call of a writer to memory is never pending, so it may be said to have registered every fact.
ghost use Rattle.std.specs.Prelude.{◌≡◌, [], Some, ◌<◌, length};
ghost use Rattle.lite_buffered.specs.Budgeted.{budgeted_inner};
ghost use Rattle.lite_buffered.specs.BufReader.{reader_inner as read_from, reader_inner};
ghost use Rattle.lite_buffered.specs.BufWriter.{buffered, writer_inner, unwritten};
ghost use Rattle.lite_write.specs.Copy.{held_of, source_of};
ghost use Rattle.lite_write.specs.WriteAll.{NoneFails};
ghost use Rattle.lite_write.specs.declared.copy.Phase.TheVariants.{Copying, Flushing};
ghost use Rattle.properties_met.specs.Registering.{TellsAll, TellsEach};

use lite_base::{CalmFuture, Future, SteadyFuture};
use lite_bridge::{AssertAsync, BytesLike, Cursor};
use lite_buffered::{Budgeted, BufReader, BufWriter};
use lite_halves::Journal;
use lite_io_base::{
    AsyncSeek, AsyncWrite, CalmWrite, CountedRead, IoSlice, ReadSpec, SteadyRead, SteadyWrite,
};
use lite_mock::Takes;
use lite_read::SeekFuture;
use lite_write::{
    CloseFuture, CopyFuture, FlushFuture, Sink, WriteAllFuture, WriteFuture, WriteVectoredFuture,
};

/// Writers of bytes are alike to themselves, and one that follows orders to one that took the same and has none left.
pub fn writers_are_alike<'a>(
    bytes: &Vec<u8>,
    lent: &&'a mut Vec<u8>,
    slice: &&'a mut [u8],
    place: u64,
    takes: &Takes,
)
    ensures vec { ⟦<Vec<u8> as SteadyWrite>⟧.alike bytes.now bytes.now }
    ensures sink { ⟦<Sink as SteadyWrite>⟧.alike (record {}) (record {}) }
    ensures takes { ⟦<Takes as SteadyWrite>⟧.alike takes.now (record takes.now { orders = [] }) }
    ensures cursor { ⟦<Cursor<Vec<u8>> as SteadyWrite>⟧.alike
        (record { inner = bytes.now; position = place }) (record { inner = bytes.now; position = place }) }
    ensures lent_cursor { ⟦<Cursor<&'a mut Vec<u8>> as SteadyWrite>⟧.alike
        (record { inner = lent.now; position = place }) (record { inner = lent.now; position = place }) }
    ensures slice_cursor { ⟦<Cursor<&'a mut [u8]> as SteadyWrite>⟧.alike
        (record { inner = slice.now; position = place }) (record { inner = slice.now; position = place }) }
    ensures asserted { ⟦<AssertAsync<Vec<u8>> as SteadyWrite>⟧.alike (record { inner = bytes.now }) (record { inner = bytes.now }) }
{}

/// Writers of bytes are calm, and so is one that has no orders left.
pub fn writers_are_calm<'a>(
    bytes: &Vec<u8>,
    lent: &&'a mut Vec<u8>,
    slice: &&'a mut [u8],
    place: u64,
    takes: &Takes,
)
    ensures vec { ⟦<Vec<u8> as CalmWrite>⟧.is_calm bytes.now }
    ensures sink { ⟦<Sink as CalmWrite>⟧.is_calm (record {}) }
    ensures takes { ⟦<Takes as CalmWrite>⟧.is_calm (record takes.now { orders = [] }) }
    ensures cursor { ⟦<Cursor<Vec<u8>> as CalmWrite>⟧.is_calm (record { inner = bytes.now; position = place }) }
    ensures lent_cursor { ⟦<Cursor<&'a mut Vec<u8>> as CalmWrite>⟧.is_calm (record { inner = lent.now; position = place }) }
    ensures slice_cursor { ⟦<Cursor<&'a mut [u8]> as CalmWrite>⟧.is_calm (record { inner = slice.now; position = place }) }
    ensures asserted { ⟦<AssertAsync<Vec<u8>> as CalmWrite>⟧.is_calm (record { inner = bytes.now }) }
{}

/// Adapters of writers, as `new` makes the buffered ones, are alike over writers that are alike, and calm over calm ones.
pub fn adapters_have_properties<'a, W>(
    x: &&'a mut W,
    y: &&'a mut W,
    v: &BufWriter<W>,
    w: &BufWriter<W>,
    r: &BufReader<W>,
    s: &BufReader<W>,
)
where
    W: SteadyWrite + CalmWrite,
    requires lent { W.alike x.now.now y.now.now }
    requires written { W.alike (writer_inner v.now) (writer_inner w.now) }
    requires empty { (buffered v.now ≡ []) × (buffered w.now ≡ []) }
    requires read { W.alike (read_from r.now) (read_from s.now) }
    requires calm_lent { W.is_calm x.now.now }
    requires calm_written { W.is_calm (writer_inner v.now) }
    requires calm_read { W.is_calm (read_from r.now) }
    ensures lent { ⟦<&'a mut W as SteadyWrite>⟧.alike x.now y.now }
    ensures buf_writer { ⟦<BufWriter<W> as SteadyWrite>⟧.alike v.now w.now }
    ensures buf_reader { ⟦<BufReader<W> as SteadyWrite>⟧.alike r.now s.now }
    ensures lent_calm { ⟦<&'a mut W as CalmWrite>⟧.is_calm x.now }
    ensures buf_writer_calm { ⟦<BufWriter<W> as CalmWrite>⟧.is_calm v.now }
    ensures buf_reader_calm { ⟦<BufReader<W> as CalmWrite>⟧.is_calm r.now }
{}

/// Futures of writes are alike, whatever their writers are, and calm over calm ones.
pub fn writes_have_properties<'a, W>(
    x: &&'a mut W,
    y: &&'a mut W,
    bytes: &'a [u8],
    bufs: &'a [IoSlice<'a>],
)
where
    W: AsyncWrite + CalmWrite,
    requires { W.is_calm x.now.now }
    ensures close { ⟦<CloseFuture<'a, W> as SteadyFuture>⟧.alike (record { writer = x.now }) (record { writer = y.now }) }
    ensures flush { ⟦<FlushFuture<'a, W> as SteadyFuture>⟧.alike (record { writer = x.now }) (record { writer = y.now }) }
    ensures write_all { ⟦<WriteAllFuture<'a, W> as SteadyFuture>⟧.alike
        (record { writer = x.now; buf = bytes.entry }) (record { writer = y.now; buf = bytes.entry }) }
    ensures close_calm { ⟦<CloseFuture<'a, W> as CalmFuture>⟧.is_calm (record { writer = x.now }) }
    ensures flush_calm { ⟦<FlushFuture<'a, W> as CalmFuture>⟧.is_calm (record { writer = x.now }) }
    ensures write_all_calm { ⟦<WriteAllFuture<'a, W> as CalmFuture>⟧.is_calm (record { writer = x.now; buf = bytes.entry }) }
    ensures write_calm { ⟦<WriteFuture<'a, W> as CalmFuture>⟧.is_calm (record { writer = x.now; buf = bytes.entry }) }
    ensures write_vectored { ⟦<WriteVectoredFuture<'a, W> as CalmFuture>⟧.is_calm (record { writer = x.now; bufs = bufs.entry }) }
{}

/// Writers behind a budget, which counts what is read, are alike over writers that are alike, and calm over calm ones.
pub fn budgets_have_properties<W: SteadyWrite + CalmWrite>(x: &W, y: &W, n: usize, m: usize)
    requires alike { W.alike x.now y.now }
    requires is_calm { W.is_calm x.now }
    ensures alike { ⟦<Budgeted<W> as SteadyWrite>⟧.alike (record { reader = x.now; budget = n; left = Some n })
        (record { reader = y.now; budget = m; left = Some m }) }
    ensures calm { ⟦<Budgeted<W> as CalmWrite>⟧.is_calm (record { reader = x.now; budget = n; left = Some n }) }
{}

/// Writers to memory, and a cursor that is moved: no call of one is pending.
pub fn writers_alone<'a, T: BytesLike>(
    bytes: &Vec<u8>,
    sink: &Sink,
    cursor: &Cursor<Vec<u8>>,
    lent_cursor: &Cursor<&'a mut Vec<u8>>,
    slice_cursor: &Cursor<&'a mut [u8]>,
    seeker: &Cursor<T>,
)
    ensures vec { TellsEach (⟦<Vec<u8> as AsyncWrite>⟧.write_registers bytes.now) }
    ensures sink { TellsEach (⟦<Sink as AsyncWrite>⟧.write_registers sink.now) }
    ensures cursor { TellsEach (⟦<Cursor<Vec<u8>> as AsyncWrite>⟧.write_registers cursor.now) }
    ensures lent_cursor { TellsEach (⟦<Cursor<&'a mut Vec<u8>> as AsyncWrite>⟧.write_registers lent_cursor.now) }
    ensures slice_cursor { TellsEach (⟦<Cursor<&'a mut [u8]> as AsyncWrite>⟧.write_registers slice_cursor.now) }
    ensures seeker { TellsEach (⟦<Cursor<T> as AsyncSeek>⟧.seek_registers seeker.now) }
{}

/// Journals of writers that are alike are alike, and those of calm ones are calm.
pub fn journals_write_with_properties<W: SteadyWrite + CalmWrite + ReadSpec + Clone>(
    x: &Journal<W>,
    y: &Journal<W>,
)
    requires alike { W.alike x.now.stream y.now.stream }
    requires is_calm { W.is_calm x.now.stream }
    ensures alike { ⟦<Journal<W> as SteadyWrite>⟧.alike x.now y.now }
    ensures is_calm { ⟦<Journal<W> as CalmWrite>⟧.is_calm x.now }
{}

/// Adapters of one writer, and a writer that is lent.
pub fn adapted<'a, W>(
    lent: &&'a mut W,
    buf_writer: &BufWriter<W>,
    buf_reader: &BufReader<W>,
    budgeted: &Budgeted<W>,
    journal: &Journal<W>,
)
where
    W: AsyncWrite + ReadSpec + Clone,
    ensures lent { TellsAll (W.write_registers lent.now.now) (⟦<&'a mut W as AsyncWrite>⟧.write_registers lent.now) }
    ensures buf_writer { TellsAll (W.write_registers (writer_inner buf_writer.now))
        (⟦<BufWriter<W> as AsyncWrite>⟧.write_registers buf_writer.now) }
    ensures buf_reader { TellsAll (W.write_registers (reader_inner buf_reader.now))
        (⟦<BufReader<W> as AsyncWrite>⟧.write_registers buf_reader.now) }
    ensures budgeted { TellsAll (W.write_registers (budgeted_inner budgeted.now))
        (⟦<Budgeted<W> as AsyncWrite>⟧.write_registers budgeted.now) }
    ensures journal { TellsAll (W.write_registers journal.now.stream)
        (⟦<Journal<W> as AsyncWrite>⟧.write_registers journal.now) }
{}

/// Seekers: a buffered writer seeks once nothing is left to be written.
pub fn sought<'a, S>(
    lent: &&'a mut S,
    buf_writer: &BufWriter<S>,
    buf_reader: &BufReader<S>,
    budgeted: &Budgeted<S>,
    future: &SeekFuture<'a, S>,
)
where
    S: AsyncSeek + AsyncWrite,
    ensures lent { TellsAll (S.seek_registers lent.now.now) (⟦<&'a mut S as AsyncSeek>⟧.seek_registers lent.now) }
    ensures seeks { unwritten buf_writer.now ≡ [] → TellsAll (S.seek_registers (writer_inner buf_writer.now))
        (⟦<BufWriter<S> as AsyncSeek>⟧.seek_registers buf_writer.now) }
    ensures writes { 0 < length (unwritten buf_writer.now) → TellsAll (S.write_registers (writer_inner buf_writer.now))
        (⟦<BufWriter<S> as AsyncSeek>⟧.seek_registers buf_writer.now) }
    ensures buf_reader { TellsAll (S.seek_registers (reader_inner buf_reader.now))
        (⟦<BufReader<S> as AsyncSeek>⟧.seek_registers buf_reader.now) }
    ensures budgeted { TellsAll (S.seek_registers (budgeted_inner budgeted.now))
        (⟦<Budgeted<S> as AsyncSeek>⟧.seek_registers budgeted.now) }
    ensures future { TellsAll (S.seek_registers future.now.seeker.now) (⟦<SeekFuture<'a, S> as Future>⟧.registers future.now) }
{}

/// Futures of writes: no poll asks for memory if no write of the writer fails.
pub fn written<'a, W>(
    write: &WriteFuture<'a, W>,
    write_vectored: &WriteVectoredFuture<'a, W>,
    write_all: &WriteAllFuture<'a, W>,
    flush: &FlushFuture<'a, W>,
    close: &CloseFuture<'a, W>,
)
where
    W: AsyncWrite,
    ensures write { TellsAll (W.write_registers write.now.writer.now) (⟦<WriteFuture<'a, W> as Future>⟧.registers write.now) }
    ensures write_vectored { TellsAll (W.write_registers write_vectored.now.writer.now)
        (⟦<WriteVectoredFuture<'a, W> as Future>⟧.registers write_vectored.now) }
    ensures write_all { TellsAll (W.write_registers write_all.now.writer.now)
        (⟦<WriteAllFuture<'a, W> as Future>⟧.registers write_all.now)
        × (NoneFails W.writes → ⟦<WriteAllFuture<'a, W> as SteadyFuture>⟧.needs_none) }
    ensures flush { TellsAll (W.write_registers flush.now.writer.now) (⟦<FlushFuture<'a, W> as Future>⟧.registers flush.now)
        × (NoneFails W.writes → ⟦<FlushFuture<'a, W> as SteadyFuture>⟧.needs_none) }
    ensures close { TellsAll (W.write_registers close.now.writer.now) (⟦<CloseFuture<'a, W> as Future>⟧.registers close.now)
        × (NoneFails W.writes → ⟦<CloseFuture<'a, W> as SteadyFuture>⟧.needs_none) }
{}

/// A copy: while it copies, the reader has registered if nothing is left to be written, and else the writer; while it flushes, the
/// writer.
pub fn copied<R, W>(copy: &CopyFuture<R, W>)
where
    R: CountedRead + SteadyRead,
    W: AsyncWrite,
    ensures reads { copy.now.phase ≡ Copying → held_of copy.now ≡ []
        → TellsAll (R.registers (source_of copy.now)) (⟦<CopyFuture<R, W> as Future>⟧.registers copy.now) }
    ensures writes { copy.now.phase ≡ Copying → 0 < length (held_of copy.now)
        → TellsAll (W.write_registers copy.now.writer) (⟦<CopyFuture<R, W> as Future>⟧.registers copy.now) }
    ensures flushes { copy.now.phase ≡ Flushing
        → TellsAll (W.write_registers copy.now.writer) (⟦<CopyFuture<R, W> as Future>⟧.registers copy.now) }
    ensures needs_none { R.needs_none → NoneFails W.writes → ⟦<CopyFuture<R, W> as SteadyFuture>⟧.needs_none }
{}
