//! What the lock of two journalled halves protects.
ghost use Rattle.std.specs.Prelude.{◌≡◌, ◌≤◌, [], length, IfOk, IfSome};
ghost use Rattle.lite_halves.specs.Uses.{IfReady, Keeps, count_of};
ghost use Rattle.lite_halves.specs.Counts.{AddsInside, CountsCall, booked_in, counted_in, nothing_counted};
ghost use Rattle.lite_halves.specs.Counts.{numbers_of};
ghost use Rattle.lite_halves.specs.declared.journalled.tally.Side.TheVariants.{Reading, Writing};
ghost use Rattle.lite_halves.specs.Entry.{done_note, read_note, write_note};

use super::counter_names::{CounterNames, Got, NewCounters, Reads, Taken, Writes};
use super::tally::{Shares, Side, SideBooks, Tally};
use crate::Journal;
use crate::entry::DoneCall;
use lite_base::{Context, Poll};
use lite_io_base::{AsyncRead, AsyncWrite, ReadSpec, WriteSpec};
use std::alloc::AllocError;
use std::io;

/// A journal, and the counters of its two sides. Each step is one call of the stream together with its entry.
///
/// The journal is put in after the lock is made. Each book of calls counts one for it, so anyone who has a
/// tally finds it there.
#[derive(Drop)]
pub(super) struct Locked<T: ReadSpec + WriteSpec + Clone, B: CounterNames> {
    journal: Option<Journal<T>>,
    reading: SideBooks<Reads<B>, Got<B>>,
    writing: SideBooks<Writes<B>, Taken<B>>,
    ghost reading_is: { reading ≡ booked_in Reading journal },
    ghost writing_is: { writing ≡ booked_in Writing journal },
}

impl<T: AsyncRead + WriteSpec + Clone, B: CounterNames> Locked<T, B> {
    /// Reads once, with an entry. `None` means that the memory for it was refused, and nothing was called.
    pub(super) fn read(
        &mut self,
        tally: &mut Tally<Reads<B>, Got<B>>,
        cx: &mut Context<'_>,
        buf: &mut [u8],
    ) -> Option<Poll<io::Result<usize>>>
        ensures added { IfSome result (λ r. AddsInside T.reads T.writes self.old.journal (read_note r buf.new) self.new.journal) }
        ensures counted { CountsCall count_of (λ r. read_note r buf.new) tally.old result tally.new }
        ensures bound { IfSome result (λ r. IfReady r (λ a. IfOk a (λ n. n ≤ length buf.new))) }
        ensures context { Keeps cx.old cx.new }
    {
        self.reading.audit(tally);
        let polled = self.journal.as_mut().unwrap().step_read(cx, buf)?;
        let entry = self.journal.as_ref().unwrap().latest();
        self.reading.count(tally, count(&polled), entry);
        Some(polled)
    }
}

impl<T: ReadSpec + AsyncWrite + Clone, B: CounterNames> Locked<T, B> {
    /// Writes once, with an entry. `None` means that the memory for it was refused, and nothing was called.
    pub(super) fn write(
        &mut self,
        tally: &mut Tally<Writes<B>, Taken<B>>,
        cx: &mut Context<'_>,
        buf: &[u8],
    ) -> Option<Poll<io::Result<usize>>>
        ensures added { IfSome result
            (λ r. AddsInside T.reads T.writes self.old.journal (write_note r buf.now) self.new.journal) }
        ensures counted { CountsCall count_of (λ r. write_note r buf.now) tally.old result tally.new }
        ensures bound { IfSome result (λ r. IfReady r (λ a. IfOk a (λ n. n ≤ length buf.now))) }
        ensures context { Keeps cx.old cx.new }
    {
        self.writing.audit(tally);
        let polled = self.journal.as_mut().unwrap().step_write(cx, buf)?;
        let entry = self.journal.as_ref().unwrap().latest();
        self.writing.count(tally, count(&polled), entry);
        Some(polled)
    }

    /// Flushes or closes once, with an entry. `None` means that the memory for it was refused, and nothing
    /// was called.
    pub(super) fn finish(
        &mut self,
        tally: &mut Tally<Writes<B>, Taken<B>>,
        cx: &mut Context<'_>,
        call: DoneCall,
    ) -> Option<Poll<io::Result<()>>>
        ensures added { IfSome result (λ r. AddsInside T.reads T.writes self.old.journal (done_note call r) self.new.journal) }
        ensures counted { CountsCall (λ _. 0) (done_note call) tally.old result tally.new }
        ensures context { Keeps cx.old cx.new }
    {
        self.writing.audit(tally);
        let polled = self.journal.as_mut().unwrap().step_done(cx, call)?;
        let entry = self.journal.as_ref().unwrap().latest();
        self.writing.count(tally, 0, entry);
        Some(polled)
    }
}

impl<T: ReadSpec + WriteSpec + Clone, B: CounterNames> Locked<T, B> {
    /// Returns a place without a journal yet, and all shares of its four ledgers.
    pub(super) fn open(
        counters: NewCounters,
    ) -> (
        Locked<T, B>,
        Shares<Reads<B>, Got<B>>,
        Shares<Writes<B>, Taken<B>>,
    )
        requires { counters ≡ B.names }
        ensures { (result.1 ≡ nothing_counted) × (result.2 ≡ nothing_counted) }
    {
        let NewCounters {
            reads,
            got,
            writes,
            taken,
        } = counters;
        let (reading, read_shares) = SideBooks::open(reads, got);
        let (writing, write_shares) = SideBooks::open(writes, taken);
        let locked = Locked {
            journal: None,
            reading,
            writing,
        };
        (locked, read_shares, write_shares)
    }

    /// Puts in a journal, and returns the counts of its entries for each side.
    pub(super) fn fill(
        &mut self,
        journal: Journal<T>,
        read_shares: Shares<Reads<B>, Got<B>>,
        write_shares: Shares<Writes<B>, Taken<B>>,
    ) -> (Tally<Reads<B>, Got<B>>, Tally<Writes<B>, Taken<B>>)
    where
        T: Drop,
        requires { (read_shares ≡ nothing_counted) × (write_shares ≡ nothing_counted) }
        ensures reads { (numbers_of result.0 ≡ counted_in Reading journal.notes) × (result.0.made ≡ []) }
        ensures writes { (numbers_of result.1 ≡ counted_in Writing journal.notes) × (result.1.made ≡ []) }
    {
        let entries = journal.entries();
        let reads = self.reading.fill(Side::Reading, entries, read_shares);
        let writes = self.writing.fill(Side::Writing, entries, write_shares);
        self.journal = Some(journal);
        (reads, writes)
    }

    /// Returns a clone of the journal so far, with as many calls and bytes as the two tallies count.
    pub(super) fn history(
        &mut self,
        reads: &mut Tally<Reads<B>, Got<B>>,
        writes: &mut Tally<Writes<B>, Taken<B>>,
    ) -> Result<Journal<T>, AllocError>
        ensures same { (reads.new ≡ reads.old) × (writes.new ≡ writes.old) }
        ensures reads { IfOk result (λ j. counted_in Reading j.notes ≡ numbers_of reads.old) }
        ensures writes { IfOk result (λ j. counted_in Writing j.notes ≡ numbers_of writes.old) }
    {
        self.reading.audit(reads);
        self.writing.audit(writes);
        self.journal.as_ref().unwrap().clone()
    }
}

// Returns how many bytes the call moved.
fn count(polled: &Poll<io::Result<usize>>) -> u64
    ensures { result ≡ count_of polled.now }
{
    match polled {
        Poll::Ready(Ok(n)) => *n as u64,
        Poll::Ready(Err(_)) | Poll::Pending => 0,
    }
}
