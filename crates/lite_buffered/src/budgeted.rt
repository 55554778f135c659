ghost use Rattle.std.specs.Prelude.{◌≡◌, ◌≤◌, ◌<◌, None, Ok, length, IfOk};
ghost use Rattle.lite_buffered.specs.Uses.{Lends, sem, IfReady, Keeps, Registered, HoldsWoken, fill_marks, read_marks, OnlyOkLends};

use lite_base::{Context, Poll, ready};
use lite_io_base::{
    AsyncBufRead, AsyncRead, AsyncSeek, AsyncWrite, CalmWrite, CountedRead, ReadSpec, SteadyRead,
    SteadyWrite, WriteSpec, fill,
};
use std::io;
use std::io::{IoSlice, SeekFrom};

/// A reader that returns `Pending` after so many bytes and errors in a row, so that another task can run.
///
/// Returned by [`with_budget`](crate::make::with_budget). It gives what its inner reader gives, in the same
/// order. After as many bytes and errors as its budget, with no `Pending` between them, it wakes the task and
/// returns `Pending` once. It does not poll the inner reader in that call. So it is
/// [`CountedRead`](lite_io_base::CountedRead) over any reader; its rank is how many bytes and errors are left
/// before that.
///
/// It writes and seeks as its inner reader does. Its buffer is that of the inner reader, up to what is left
/// of the budget.
#[derive(Debug, Drop)]
pub struct Budgeted<R> {
    reader: R,
    budget: usize,
    // How many bytes and errors may come before it returns `Pending` by itself. `None` after that `Pending`:
    // the budget is whole, and the buffer shown is empty.
    left: Option<usize>,
}

impl<R> Budgeted<R> {
    ghost use Rattle.lite_buffered.specs.contracts.budgeted.Budgeted.{the_row};
    ghost use Rattle.lite_buffered.specs.Budgeted.{budget_of, budgeted_inner, left_of};

    pub(crate) fn new(reader: R, budget: usize) -> Budgeted<R>
        ensures inner { budgeted_inner result ≡ reader }
        ensures budget { budget_of result ≡ budget }
        ensures whole { left_of result ≡ budget }
    {
        Budgeted {
            reader,
            budget,
            left: Some(budget),
        }
    }

    /// Borrows the inner reader.
    ///
    /// # Examples
    ///
    /// ```
    /// use futures_lite::{AsyncReadExt, future};
    ///
    /// let mut reader = b"hello".as_slice().with_budget(2);
    /// future::block_on(&rt, reader.read(&mut [0; 8]))??;
    /// assert_eq!(rt; *reader.get_ref(), b"llo".as_slice());
    /// ```
    pub fn get_ref(&self) -> &R
        ensures { result.now ≡ budgeted_inner self.now }
    {
        &self.reader
    }

    /// Borrows the inner reader mutably. What is read from it this way does not count towards the budget.
    ///
    /// # Examples
    ///
    /// ```
    /// use futures_lite::{AsyncReadExt, future};
    ///
    /// let mut reader = b"hello".as_slice().with_budget(2);
    /// let mut buf = [b'-'; 2];
    /// future::block_on(&rt, reader.get_mut().read(&mut buf))??;
    ///
    /// // The budget is whole: this read is ready at once.
    /// let ready = future::block_on(&rt, future::poll_once(reader.read(&mut buf)))?;
    /// assert!(rt; ready.is_some());
    /// assert_eq!(rt; buf, *b"ll");
    /// ```
    pub fn get_mut(&mut self) -> &mut R
        ensures value { result.now ≡ budgeted_inner self.old }
        ensures* writes_back { sem 𝓛 (Lends (the_row R.row) R.row self.entry result
            (λ w. record self.old { reader = w })) }
    {
        &mut self.reader
    }

    /// Returns the inner reader.
    ///
    /// # Examples
    ///
    /// ```
    /// use futures_lite::{AsyncReadExt, future};
    ///
    /// let mut reader = b"hello".as_slice().with_budget(2);
    /// future::block_on(&rt, reader.read(&mut [0; 8]))??;
    /// assert_eq!(rt; reader.into_inner(), b"llo".as_slice());
    /// ```
    pub fn into_inner(self) -> R
        ensures { result ≡ budgeted_inner self }
    {
        self.reader
    }

    // Wakes the task and returns `Pending`. After it the budget is whole again.
    fn pause<T>(&mut self, cx: &mut Context<'_>) -> Poll<T>
        ensures answer { result ≡ Poll.Pending }
        ensures anew { self.new ≡ record self.old { left = None } }
        ensures registered { Registered result HoldsWoken cx.new }
        ensures context { Keeps cx.old cx.new }
    {
        self.left = None;
        cx.yield_now()
    }

    // What is left of the budget.
    fn allowed(&self) -> usize
        ensures { result ≡ left_of self.now }
    {
        match self.left {
            Some(left) => left,
            None => self.budget,
        }
    }
}

impl<R: ReadSpec> ReadSpec for Budgeted<R> {
    ghost use Rattle.lite_buffered.specs.Budgeted.{BudgetsMarks};
    ghost use Rattle.lite_buffered.specs.Laws.Budgeted.{budgets_known, budgets_laws};

    ghost reads = { BudgetsMarks R.reads };

    ghost read_laws = { budgets_laws R.read_laws };

    ghost known = { budgets_known R.known };
}

impl<R: WriteSpec> WriteSpec for Budgeted<R> {
    ghost use Rattle.lite_buffered.specs.Budgeted.{WritesWithin};
    ghost use Rattle.lite_buffered.specs.Laws.Budgeted.{within_laws};

    ghost writes = { WritesWithin R.writes };

    ghost write_laws = { within_laws R.write_laws };
}

impl<R: AsyncRead> AsyncRead for Budgeted<R> {
    ghost use Rattle.lite_buffered.specs.Budgeted.{BudgetRegisters, BudgetsMarks, RegistersRest, budgeted_inner, left_of};

    ghost registers = { BudgetRegisters R.registers };

    fn poll_read(&mut self, cx: &mut Context<'_>, buf: &mut [u8]) -> Poll<io::Result<usize>>
        ensures bound { IfReady result (λ r. IfOk r (λ n. n ≤ length buf.new)) }
        ensures ran { BudgetsMarks R.reads self.old (read_marks result buf.new) self.new }
        ensures registered { Registered result (BudgetRegisters R.registers self.new) cx.new }
        ensures context { Keeps cx.old cx.new }

        // Without room nothing is polled.
        ensures idle { length buf.old ≡ 0 → (result ≡ Poll.Ready (Ok 0)) × (self.new ≡ self.old) }

        // At the inner reader's `Pending` all is registered that the reader registers.
        ensures registered_by { Registered result (RegistersRest (left_of self.old) (R.registers (budgeted_inner self.new))) cx.new }

        // If the budget is used up, the inner reader is not polled, and the task is woken.
        ensures pauses { 0 < length buf.old → left_of self.old ≡ 0
            → (result ≡ Poll.Pending) × (budgeted_inner self.new ≡ budgeted_inner self.old) × Registered result HoldsWoken cx.new }
    {
        if buf.is_empty() {
            return Poll::Ready(Ok(0));
        }
        let left = self.allowed();
        if left == 0 {
            return self.pause(cx);
        }
        let most = left.min(buf.len());
        let polled = self.reader.poll_read(cx, &mut buf[..most]);
        self.left = match &polled {
            Poll::Ready(Ok(n)) => Some(left - *n),
            Poll::Ready(Err(_)) => Some(left - 1),
            Poll::Pending => Some(self.budget),
        };
        polled
    }
}

impl<R: AsyncBufRead> Budgeted<R> {
    ghost use Rattle.lite_buffered.specs.Budgeted.{BudgetRegisters, BudgetsMarks, RegistersRest, budgeted_inner, budgeted_lent, left_of};

    fn show(&self) -> &[u8]
        ensures { result.now ≡ budgeted_lent R.buffer_of self.now }
    {
        let Some(left) = self.left else {
            return &[];
        };
        let all = self.reader.buffer();
        let most = left.min(all.len());
        &all[..most]
    }

    // Fills the buffer of the reader, or returns `Pending` if the budget is used up.
    fn fill(&mut self, cx: &mut Context<'_>) -> Poll<io::Result<()>>
        ensures ran { BudgetsMarks R.reads self.old (fill_marks result (budgeted_lent R.buffer_of self.new)) self.new }
        ensures lends { OnlyOkLends result (budgeted_lent R.buffer_of self.new) }
        ensures registered { Registered result (BudgetRegisters R.registers self.new) cx.new }
        ensures context { Keeps cx.old cx.new }
        ensures registered_by { Registered result (RegistersRest (left_of self.old) (R.registers (budgeted_inner self.new))) cx.new }
    {
        let allowed = self.allowed();
        if allowed == 0 {
            return self.pause(cx);
        }
        let polled = fill(&mut self.reader, cx);
        self.left = match &polled {
            Poll::Ready(Ok(())) => Some(allowed),
            Poll::Ready(Err(_)) => Some(allowed - 1),
            Poll::Pending => Some(self.budget),
        };
        polled
    }
}

impl<R: AsyncBufRead> AsyncBufRead for Budgeted<R> {
    ghost use Rattle.lite_buffered.specs.Budgeted.{budgeted_lent};
    ghost use Rattle.lite_buffered.specs.Laws.Budgeted.{budgets_show};

    ghost buffer_of = { budgeted_lent R.buffer_of };

    ghost shows = { budgets_show R.buffer_of R.shows };

    fn poll_fill_buf(&mut self, cx: &mut Context<'_>) -> Poll<io::Result<&[u8]>> {
        match ready!(self.fill(cx)) {
            Ok(()) => Poll::Ready(Ok(self.show())),
            Err(e) => Poll::Ready(Err(e)),
        }
    }

    fn buffer(&self) -> &[u8] {
        self.show()
    }

    fn consume(&mut self, amount: usize) {
        let Some(left) = self.left else {
            return;
        };
        self.reader.consume(amount);
        self.left = Some(left - amount);
    }
}

impl<R: AsyncWrite> AsyncWrite for Budgeted<R> {
    ghost use Rattle.lite_buffered.specs.Budgeted.{budgeted_inner};

    ghost write_registers = { λ x. R.write_registers (budgeted_inner x) };

    /// Writes to the inner writer.
    fn poll_write(&mut self, cx: &mut Context<'_>, buf: &[u8]) -> Poll<io::Result<usize>> {
        self.reader.poll_write(cx, buf)
    }

    /// Writes to the inner writer.
    fn poll_write_vectored(
        &mut self,
        cx: &mut Context<'_>,
        bufs: &[IoSlice<'_>],
    ) -> Poll<io::Result<usize>> {
        self.reader.poll_write_vectored(cx, bufs)
    }

    /// Flushes the inner writer.
    fn poll_flush(&mut self, cx: &mut Context<'_>) -> Poll<io::Result<()>> {
        self.reader.poll_flush(cx)
    }

    /// Closes the inner writer.
    fn poll_close(&mut self, cx: &mut Context<'_>) -> Poll<io::Result<()>> {
        self.reader.poll_close(cx)
    }
}

impl<R: AsyncSeek> AsyncSeek for Budgeted<R> {
    ghost use Rattle.lite_buffered.specs.Budgeted.{SeeksWithin, budgeted_inner};

    ghost seeks = { SeeksWithin R.seeks };

    ghost seek_registers = { λ x. R.seek_registers (budgeted_inner x) };

    /// Seeks the inner seeker.
    fn poll_seek(&mut self, cx: &mut Context<'_>, pos: SeekFrom) -> Poll<io::Result<u64>> {
        self.reader.poll_seek(cx, pos)
    }
}

impl<R: AsyncRead> CountedRead for Budgeted<R> {
    ghost use Rattle.lite_buffered.specs.Budgeted.{budgeted_ranks};
    ghost use Rattle.lite_buffered.specs.Laws.Budgeted.{budgets_counting};

    ghost ranks = { budgeted_ranks };

    ghost counting = { budgets_counting };
}

// Whatever the two budgets are.
impl<R: SteadyRead> SteadyRead for Budgeted<R> {
    ghost use Rattle.lite_buffered.specs.Budgeted.{BudgetsMarks};
    ghost use Rattle.lite_buffered.specs.Laws.Budgeted.{budgets_steady};

    ghost ample = { BudgetsMarks R.ample };

    ghost needs_none = { R.needs_none };

    ghost alike = { λ x y. R.alike x.reader y.reader };

    ghost steady = { budgets_steady R.steady };
}

impl<R: SteadyWrite> SteadyWrite for Budgeted<R> {
    ghost use Rattle.lite_buffered.specs.Laws.Budgeted.{within_steady};

    ghost alike = { λ x y. R.alike x.reader y.reader };

    ghost below = { λ x. R.below x.reader };

    ghost steady = { within_steady R.steady };
}

// As a writer; as a reader it is pending by itself.
impl<R: CalmWrite> CalmWrite for Budgeted<R> {
    ghost use Rattle.lite_buffered.specs.Laws.Budgeted.{within_calm};

    ghost is_calm = { λ x. R.is_calm x.reader };

    ghost calm = { within_calm R.calm };
}
