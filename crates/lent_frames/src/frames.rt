//! Frames that are lent from the bytes of a reader.
ghost use Rattle.std.specs.Prelude.{◌≡◌, ◌≤◌, ◌<◌, ◌==◌, ◌↔◌, ◌++◌, [], Err, IfOk, IsTrue, List, None, Some, drop, false, length, take, true, vec_capacity, ℕ};
ghost use Rattle.std.specs.IoError.{error_kind};
ghost use Rattle.futures.specs.Task.{Keeps};
ghost use Rattle.futures.specs.Poll.{IfReady};
ghost use Rattle.lite_base.specs.Registered.{Registered};
ghost use Rattle.lite_base.specs.Chain.{OneStep};
ghost use Rattle.lite_base.specs.Laws.Ranks.{Terminates-map};
ghost use Rattle.lite_io_base.specs.Marks.{fill_marks};
ghost use Rattle.lite_io_base.specs.Runs.{OnlyOkLends};
ghost use Rattle.lent_frames.specs.Uses.{Pending, Ready, bytes};
ghost use Rattle.lent_frames.specs.Cutting.{Undecided, CutFound, OpenUntil};
ghost use Rattle.lent_frames.specs.declared.frames_error.FramesError.TheVariants.{Reader};
ghost use Rattle.lent_frames.specs.Lending.{Advances, AdvancesInHand, Ends, IsUnfinished, IsResting, LooksBehind, LooksLoose, TakesShown, WaitsForMore};
ghost use Rattle.lent_frames.specs.Lending.{kept, lent_body, nowhere, untaken};
ghost use Rattle.lent_frames.specs.LendingLaws.{takes_given};

use crate::cut::{Cut, Span};
use crate::cutter::Cutter;
use crate::frames_error::FramesError;
use lite_base::{Context, Poll, PollSteps, drive};
use lite_io_base::{AsyncBufRead, CountedRead};
use std::alloc::Global;
use std::io;
use std::marker::Model;

// How many of the bytes shown are put behind an open frame at once, or as many as it needs at least.
const MOST_AT_ONCE: usize = 8 * 1024;

/// The frames of a reader, each of which is lent as a slice.
///
/// [`poll_advance`](Frames::poll_advance) finds the next frame, and [`frame`](Frames::frame) returns its body. If the frame
/// is whole in the reader's buffer, the slice is of that buffer, and no byte is copied. If the frame came in parts, the
/// bytes of its parts were copied behind one another first, each once. A search goes on behind the bytes that it has seen, so a
/// long line that comes byte by byte costs no more than its length.
///
/// The next call takes the bytes of the lent frame from the reader. No byte behind a frame is ever taken, so another
/// protocol can go on at the reader ([`into_parts`](Frames::into_parts)).
///
/// A poll returns `Pending` only if the reader did. After the end and after an error each call returns `Ready(None)`.
///
/// [`FramedRead`](crate::FramedRead) is a stream, so its items own their bytes and adapters take them. `Frames` has no
/// items of its own, and copies no byte of a frame that the reader shows whole.
///
/// # Errors
///
/// - [`FramesError::NoFrame`]: the bytes begin no frame, or the input ended within one.
/// - [`FramesError::OutOfMemory`]: memory was refused for a frame that came in parts. Its bytes are kept.
/// - [`FramesError::Reader`]: the reader returned an error ([`take_error`](Frames::take_error)).
///
/// # Examples
///
/// ```
/// use framed::{Frames, LineDelimited};
/// use futures::task::{Doorbell, Solo};
///
/// let reader = b"one\r\ntwo\n".as_slice();
/// let mut lines = Frames::new(rt.alloc(), reader, LineDelimited { max: 100 });
/// let solo = Solo::new(&rt, Doorbell::spinning())?;
/// let mut cx = solo.begin();
/// let mut lengths = [0, 0];
/// for length in &mut lengths {
///     if let Poll::Ready(Some(Ok(()))) = lines.poll_advance(&mut cx) {
///         *length = lines.frame().len();
///     }
/// }
/// let is_end = matches!(lines.poll_advance(&mut cx), Poll::Ready(None));
/// cx.cancel();
/// assert_eq!(rt; lengths, [3, 3]);
/// assert!(rt; is_end);
/// ```
#[derive(Drop)]
pub struct Frames<T: AsyncBufRead, C: Cutter> {
    reader: T,
    cutter: C,
    // The bytes of an open frame, or of a lent one that came in parts. They were taken from the reader.
    held: Vec<u8>,
    // Where the lent frame stands.
    span: Span,
    // No frame is whole before so many bytes are held.
    least: usize,
    is_over: bool,
    error: Option<io::Error>,
}

// What a call finds.
type Found<E> = Option<Result<(), FramesError<E>>>;

/// What [`Frames::into_parts`] returns, and [`Frames::from_parts`] takes.
///
/// # Examples
///
/// ```
/// use framed::{Frames, FramesParts, LengthDelimited};
///
/// let frames = Frames::new(rt.alloc(), b"\0\0".as_slice(), LengthDelimited { max: 100 });
/// let FramesParts { reader, held, .. } = frames.into_parts();
/// assert_eq!(rt; reader, b"\0\0".as_slice());
/// assert!(rt; held.is_empty());
/// ```
#[derive(Drop)]
pub struct FramesParts<T, C> {
    /// The reader. What it reads next follows the bytes in `held`.
    pub reader: T,
    /// The cutter.
    pub cutter: C,
    /// The bytes of an unfinished frame, which were taken from the reader.
    pub held: Vec<u8>,
}

impl<T: AsyncBufRead, C: Cutter> Model for Frames<T, C> {
    ghost use Rattle.lent_frames.specs.Lending.{InOrder, Lending};
    ghost use Rattle.std.specs.Prelude.{vec_capacity};

    ghost Value = { Lending T C };

    ghost view = { λ f. record {
      reader = f.reader;
      cutter = f.cutter;
      held = f.held.items;
      room = vec_capacity f.held;
      span = f.span;
      is_over = f.is_over;
      error = f.error;
    } };

    ghost invariant = { λ f. InOrder C.piece C.refuses f.cutter f.held.items (T.buffer_of f.reader) f.span f.least f.is_over };
}

impl<T: AsyncBufRead, C: Cutter> Frames<T, C> {
    /// Returns the frames of `reader`. It allocates nothing. What it holds of a frame that comes in parts grows by `alloc`.
    ///
    /// # Examples
    ///
    /// ```
    /// use framed::{Frames, LengthDelimited};
    ///
    /// let mut frames = Frames::new(rt.alloc(), b"\0\0\0\x02hi".as_slice(), LengthDelimited { max: 100 });
    /// assert!(rt; matches!(frames.advance_in_hand(), Poll::Ready(Some(Ok(())))));
    /// assert_eq!(rt; frames.frame(), b"hi".as_slice());
    /// ```
    pub fn new(alloc: Global, reader: T, cutter: C) -> Frames<T, C>
        ensures { result ≡ record { reader = reader; cutter = cutter; held = []; room = 0; span = nowhere; is_over = false; error = None } }
    {
        Frames {
            reader,
            cutter,
            held: Vec::new(alloc),
            span: Span::nowhere(),
            least: 0,
            is_over: false,
            error: None,
        }
    }

    /// Returns the body of the frame that the last call found. It is empty if that call found none.
    ///
    /// # Examples
    ///
    /// ```
    /// use framed::{Frames, LineDelimited};
    ///
    /// let mut lines = Frames::new(rt.alloc(), b"one\r\n".as_slice(), LineDelimited { max: 100 });
    /// assert!(rt; lines.frame().is_empty());
    /// assert!(rt; matches!(lines.advance_in_hand(), Poll::Ready(Some(Ok(())))));
    /// assert_eq!(rt; lines.frame(), b"one".as_slice());
    /// ```
    #[inline(always)]
    pub fn frame(&self) -> &[u8]
        ensures { result.now ≡ lent_body T.buffer_of self.now }
    {
        let Span { from, to, .. } = self.span;
        if self.held.is_empty() {
            &self.reader.buffer()[from..to]
        } else {
            &self.held[from..to]
        }
    }

    /// Lets the lent frame go, and finds the next frame or the error that is known without a read.
    ///
    /// `Ready(Some(Ok(())))`: [`frame`](Frames::frame) returns its body. `Ready(None)`: an earlier call returned the end or
    /// an error. `Pending`: no whole frame is in the bytes that were read, so a poll has to read. The bytes that the reader
    /// shows are taken then. A server that has written replies flushes them at `Pending`, because the next request may be
    /// late.
    ///
    /// # Errors
    ///
    /// [`FramesError::NoFrame`] if the bytes begin no frame, and [`FramesError::OutOfMemory`].
    ///
    /// # Examples
    ///
    /// ```
    /// use framed::{Frames, LengthDelimited};
    ///
    /// let reader = b"\0\0\0\x02hi\0\0".as_slice();
    /// let mut frames = Frames::new(rt.alloc(), reader, LengthDelimited { max: 100 });
    /// assert!(rt; matches!(frames.advance_in_hand(), Poll::Ready(Some(Ok(())))));
    /// assert!(rt; frames.advance_in_hand().is_pending());
    /// ```
    #[inline(always)]
    pub fn advance_in_hand(&mut self) -> Poll<Found<C::Error>>
        ensures { AdvancesInHand C.piece C.refuses C.cut_off T.reads T.buffer_of self.old result self.new }
    {
        if self.takes_shown() {
            return Poll::Ready(Some(Ok(())));
        }
        self.look()
    }

    /// Returns whether the input may go on: its end was not read, and no error was returned.
    ///
    /// # Examples
    ///
    /// ```
    /// use framed::{Frames, LineDelimited};
    ///
    /// let mut lines = Frames::new(rt.alloc(), b"too long".as_slice(), LineDelimited { max: 3 });
    /// assert!(rt; lines.is_reading());
    /// assert!(rt; matches!(lines.advance_in_hand(), Poll::Ready(Some(Err(_)))));
    /// assert!(rt; !lines.is_reading());
    /// ```
    pub fn is_reading(&self) -> bool
        ensures { IsTrue result ↔ (self.now.is_over ≡ false) }
    {
        !self.is_over
    }

    /// Returns the reader's error, if a call returned [`FramesError::Reader`]. It returns it once.
    ///
    /// # Examples
    ///
    /// ```
    /// use framed::{Frames, LineDelimited};
    ///
    /// let mut lines = Frames::new(rt.alloc(), b"one\n".as_slice(), LineDelimited { max: 100 });
    /// assert!(rt; matches!(lines.advance_in_hand(), Poll::Ready(Some(Ok(())))));
    /// assert!(rt; lines.take_error().is_none());
    /// ```
    pub fn take_error(&mut self) -> Option<io::Error>
        ensures error { result ≡ self.old.error }
        ensures value { self.new ≡ record self.old { error = None } }
    {
        self.error.take()
    }

    /// Lets the lent frame go, and returns the reader, the cutter and the bytes of an open frame.
    ///
    /// The bytes of the lent frame are taken, and no byte behind it. So another protocol can go on at the reader. After
    /// an error the bytes are those that had been taken from the reader for the frame that was not found.
    ///
    /// # Examples
    ///
    /// ```
    /// use framed::{Frames, LineDelimited};
    ///
    /// let mut lines = Frames::new(rt.alloc(), b"one\nand".as_slice(), LineDelimited { max: 100 });
    /// assert!(rt; matches!(lines.advance_in_hand(), Poll::Ready(Some(Ok(())))));
    /// let parts = lines.into_parts();
    /// assert_eq!(rt; parts.reader, b"and".as_slice());
    /// assert!(rt; parts.held.is_empty());
    /// ```
    pub fn into_parts(self) -> FramesParts<T, C>
        ensures reader { T.reads self.reader (bytes (untaken T.buffer_of self)) result.reader }
        ensures same { self.span ≡ nowhere → result.reader ≡ self.reader }
        ensures cutter { result.cutter ≡ self.cutter }
        ensures held { result.held.items ≡ kept self }
    {
        let mut frames = self;
        if frames.span.size > 0 {
            frames.let_go();
        }
        FramesParts {
            reader: frames.reader,
            cutter: frames.cutter,
            held: frames.held,
        }
    }

    /// Returns frames that go on with these parts, whatever bytes are held. It is the inverse of
    /// [`into_parts`](Frames::into_parts).
    ///
    /// So reading can go on after an error, for example if memory was refused.
    ///
    /// # Examples
    ///
    /// ```
    /// use framed::{Frames, FramesParts, LineDelimited};
    ///
    /// let mut held = Vec::new(rt.alloc());
    /// held.extend_from_slice(b"on")?;
    /// let parts = FramesParts { reader: b"e\ntwo\n".as_slice(), cutter: LineDelimited { max: 100 }, held };
    /// let mut lines = Frames::from_parts(parts);
    /// for expected in [b"one".as_slice(), b"two".as_slice()] {
    ///     assert!(rt; matches!(lines.advance_in_hand(), Poll::Ready(Some(Ok(())))));
    ///     assert_eq!(rt; lines.frame(), expected);
    /// }
    /// ```
    pub fn from_parts(parts: FramesParts<T, C>) -> Frames<T, C>
        ensures reader { result.reader ≡ parts.reader }
        ensures cutter { result.cutter ≡ parts.cutter }
        ensures held { result.held ≡ parts.held.items }
        ensures room { result.room ≡ vec_capacity parts.held }
        ensures rest { (result.span ≡ nowhere) × (result.is_over ≡ false) × (result.error ≡ None) }
    {
        let FramesParts {
            reader,
            cutter,
            held,
        } = parts;
        Frames {
            reader,
            cutter,
            held,
            span: Span::nowhere(),
            least: 0,
            is_over: false,
            error: None,
        }
    }

    // Lets the lent frame go and lends the next, if the reader shows both whole. Otherwise it changes nothing.
    #[inline(always)]
    fn takes_shown(&mut self) -> bool
        ensures { TakesShown C.piece C.refuses C.cut_off T.reads T.buffer_of self.old result self.new }
    {
        if self.is_over || !self.held.is_empty() {
            return false;
        }
        let lent = self.span.size;
        let Cut::Whole(span) = self.cutter.cut(&self.reader.buffer()[lent..], 0) else {
            return false;
        };
        self.reader.consume(lent);
        self.span = span;
        true
    }

    // Lets the lent frame go, and finds the next frame or the error that is known without a read.
    #[cold]
    #[inline(never)]
    fn look(&mut self) -> Poll<Found<C::Error>>
        ensures { AdvancesInHand C.piece C.refuses C.cut_off T.reads T.buffer_of self.old result self.new }
    {
        if self.is_over {
            return Poll::Ready(None);
        }
        self.let_go();
        if self.held.is_empty() {
            self.look_at_shown()
        } else {
            self.look_at_held()
        }
    }

    // Takes the bytes of the lent frame.
    #[inline(always)]
    fn let_go(&mut self)
        requires { self.old.is_over ≡ false }
        ensures held { self.new.held ≡ kept self.old }
        ensures ran { T.reads self.old.reader (bytes (untaken T.buffer_of self.old)) self.new.reader }
        ensures shown { T.buffer_of self.old.reader ≡ untaken T.buffer_of self.old ++ T.buffer_of self.new.reader }
        ensures rest { self.new ≡ record self.old { reader = self.new.reader; held = self.new.held; span = nowhere } }
    {
        let size = self.span.size;
        self.span = Span::nowhere();
        if self.held.is_empty() {
            self.reader.consume(size);
        } else if size > 0 {
            self.least = 0;
            drop_front(&mut self.held, size);
        }
    }

    // Looks for a frame in the bytes that the reader shows.
    #[inline(always)]
    fn look_at_shown(&mut self) -> Poll<Found<C::Error>>
        requires resting { IsResting self.old }
        requires none { self.old.held ≡ [] }
        ensures { AdvancesInHand C.piece C.refuses C.cut_off T.reads T.buffer_of self.old result self.new }
    {
        match self.cutter.cut(self.reader.buffer(), 0) {
            Cut::Whole(span) => {
                self.span = span;
                Poll::Ready(Some(Ok(())))
            }
            Cut::More(least) => self.take_shown(least),
            Cut::Refused(e) => Poll::Ready(self.stop(FramesError::NoFrame(e))),
        }
    }

    // Takes all bytes that the reader shows, in which no frame is whole before there are `least`.
    #[cold]
    #[inline(never)]
    fn take_shown(&mut self, least: usize) -> Poll<Found<C::Error>>
        requires resting { IsResting self.old }
        requires none { self.old.held ≡ [] }
        requires less { length (T.buffer_of self.old.reader) < least }
        requires undecided { OpenUntil C.piece C.refuses self.old.cutter least (T.buffer_of self.old.reader) }
        ensures { AdvancesInHand C.piece C.refuses C.cut_off T.reads T.buffer_of self.old result self.new }
    {
        let shown = self.reader.buffer();
        let amount = shown.len();
        if self.held.extend_from_slice(shown).is_err() {
            return Poll::Ready(self.stop(FramesError::OutOfMemory));
        }
        self.reader.consume(amount);
        self.least = least;
        Poll::Pending
    }

    // Looks for a frame in the bytes held, and then behind them in those that the reader shows.
    #[inline(never)]
    fn look_at_held(&mut self) -> Poll<Found<C::Error>>
        requires { IsResting self.old }
        ensures { AdvancesInHand C.piece C.refuses C.cut_off T.reads T.buffer_of self.old result self.new }
    {
        if let Poll::Ready(found) = self.look_loose() {
            return Poll::Ready(found);
        }
        'looks: loop {
            if self.reader.buffer().is_empty() {
                return Poll::Pending;
            }
            if let Poll::Ready(found) = self.look_behind() {
                return Poll::Ready(found);
            }
        }
    }

    // Looks for a frame in the bytes held, unless it is known that none is whole.
    fn look_loose(&mut self) -> Poll<Found<C::Error>>
        requires { IsResting self.old }
        ensures { LooksLoose C.piece C.refuses C.cut_off T.reads T.buffer_of self.old result self.new }
    {
        if self.held.len() < self.least {
            return Poll::Pending;
        }
        match self.cutter.cut(&self.held, 0) {
            Cut::Whole(span) => {
                self.span = span;
                Poll::Ready(Some(Ok(())))
            }
            Cut::More(least) => {
                self.least = least;
                Poll::Pending
            }
            Cut::Refused(e) => Poll::Ready(self.stop(FramesError::NoFrame(e))),
        }
    }

    // Puts bytes that the reader shows behind those held, in which no frame is whole, and looks for a frame.
    fn look_behind(&mut self) -> Poll<Found<C::Error>>
        requires waits { IsUnfinished C.piece C.refuses C.cut_off T.reads T.buffer_of self.old }
        requires some { 0 < length (T.buffer_of self.old.reader) }
        ensures { LooksBehind C.piece C.refuses C.cut_off T.reads T.buffer_of self.old result self.new }
    {
        let seen = self.held.len();
        let shown = self.reader.buffer();
        let taken = shown
            .len()
            .min(self.least.saturating_sub(seen).max(MOST_AT_ONCE));
        if self.held.extend_from_slice(&shown[..taken]).is_err() {
            return Poll::Ready(self.stop(FramesError::OutOfMemory));
        }
        match cut_behind(&self.cutter, &self.held, seen, self.least) {
            Cut::Whole(span) => {
                self.reader.consume(span.size - seen);
                self.held.truncate(span.size);
                self.span = span;
                self.least = 0;
                Poll::Ready(Some(Ok(())))
            }
            Cut::More(least) => {
                self.reader.consume(taken);
                self.least = least;
                Poll::Pending
            }
            Cut::Refused(e) => {
                self.held.truncate(seen);
                Poll::Ready(self.stop(FramesError::NoFrame(e)))
            }
        }
    }

    // What the end of the input says of the bytes held, in which no frame is whole.
    fn last(&mut self) -> Found<C::Error>
        requires { IsUnfinished C.piece C.refuses C.cut_off T.reads T.buffer_of self.old }
        ensures { Ends C.piece C.refuses C.cut_off T.reads T.buffer_of self.old result self.new }
    {
        if self.held.is_empty() {
            self.is_over = true;
            return None;
        }
        let error = self.cutter.at_end(&self.held);
        self.stop(FramesError::NoFrame(error))
    }

    // Fills the reader's buffer. Returns whether the input has ended.
    fn fill(&mut self, cx: &mut Context<'_>) -> Poll<io::Result<bool>>
        requires { IsResting self.old }
        ensures ran { T.reads self.old.reader (fill_marks result (T.buffer_of self.new.reader)) self.new.reader }
        ensures ended { IfReady result (λ r. IfOk r (λ ended. ended ≡ (length (T.buffer_of self.new.reader) == 0))) }
        ensures shown { OnlyOkLends result (T.buffer_of self.new.reader) }
        ensures rest { self.new ≡ record self.old { reader = self.new.reader } }
        ensures registered { Registered result (T.registers self.new.reader) cx.new }
        ensures context { Keeps cx.old cx.new }
    {
        match self.reader.poll_fill_buf(cx) {
            Poll::Ready(Ok(available)) => Poll::Ready(Ok(available.is_empty())),
            Poll::Ready(Err(e)) => Poll::Ready(Err(e)),
            Poll::Pending => Poll::Pending,
        }
    }

    fn fail(&mut self, error: io::Error) -> Found<C::Error>
        requires { IsResting self.old }
        ensures found { result ≡ Some (Err (Reader (error_kind error))) }
        ensures value { self.new ≡ record self.old { is_over = true; error = Some error } }
    {
        let kind = error.kind();
        self.error = Some(error);
        self.stop(FramesError::Reader(kind))
    }

    fn stop(&mut self, why: FramesError<C::Error>) -> Found<C::Error>
        requires { IsResting self.old }
        ensures found { result ≡ Some (Err why) }
        ensures value { self.new ≡ record self.old { is_over = true } }
    {
        self.is_over = true;
        Some(Err(why))
    }
}

// Looks for a frame in the bytes held, in the first `seen` of which none is whole, nor in all before there are `least`.
fn cut_behind<C: Cutter>(cutter: &C, held: &[u8], seen: usize, least: usize) -> Cut<C::Error>
    requires within { seen ≤ length held.now }
    requires undecided { Undecided C.piece C.refuses cutter.now (take seen held.now) }
    requires still { OpenUntil C.piece C.refuses cutter.now least held.now }
    ensures { CutFound C.piece C.refuses cutter.now held.now result }
{
    if held.len() < least {
        return Cut::More(least);
    }
    cutter.cut(held, seen)
}

// Drops the first `count` bytes.
fn drop_front(bytes: &mut Vec<u8>, count: usize)
    requires { count ≤ length bytes.old.items }
    ensures items { bytes.new.items ≡ drop count bytes.old.items }
    ensures room { vec_capacity bytes.new ≡ vec_capacity bytes.old }
{
    if count == bytes.len() {
        bytes.clear();
        return;
    }
    let left = bytes.len() - count;
    bytes.copy_within(count.., 0);
    bytes.truncate(left);
}

impl<T: AsyncBufRead + CountedRead, C: Cutter> PollSteps for Frames<T, C> {
    type Output = Option<Result<(), FramesError<C::Error>>>;

    ghost can_step = { λ x. T.ranks.counts x.reader };

    ghost step = { OneStep (WaitsForMore C.piece C.refuses C.cut_off T.reads T.buffer_of)
        (Advances C.piece C.refuses C.cut_off T.reads T.buffer_of) };

    ghost step_registers = { λ x. T.registers x.reader };

    ghost goes_on = { λ x y c h. T.counting.counts_on x.reader y.reader _ c h.took.ran };

    ghost finite = { λ x c. Terminates-map (λ y. y.reader) takes_given x (T.ends x.reader c) };

    fn poll_step(&mut self, cx: &mut Context<'_>) -> Option<Poll<Self::Output>> {
        if let Poll::Ready(found) = self.look() {
            return Some(Poll::Ready(found));
        }
        match self.fill(cx) {
            Poll::Ready(Ok(false)) => {}
            Poll::Ready(Ok(true)) => return Some(Poll::Ready(self.last())),
            Poll::Ready(Err(e)) => return Some(Poll::Ready(self.fail(e))),
            Poll::Pending => return Some(Poll::Pending),
        }
        match self.look() {
            Poll::Ready(found) => Some(Poll::Ready(found)),
            Poll::Pending => None,
        }
    }
}

impl<T: AsyncBufRead + CountedRead, C: Cutter> Frames<T, C> {
    /// Lets the lent frame go, and finds the next one. It reads until that is whole.
    ///
    /// `Ready(Some(Ok(())))`: [`frame`](Frames::frame) returns its body. `Ready(None)`: the input has ended, and no byte of a
    /// frame was left; or an earlier call returned an error. `Pending`: the reader returned `Pending`, and no frame is whole.
    /// What was read is kept.
    ///
    /// The caller guarantees that `ranks.counts` holds for the reader, so that the reads end.
    ///
    /// # Errors
    ///
    /// All of [`FramesError`]. Each is final.
    ///
    /// # Examples
    ///
    /// ```
    /// use framed::{Frames, FramesError, CutError, LineDelimited};
    /// use futures::task::{Doorbell, Solo};
    ///
    /// let mut lines = Frames::new(rt.alloc(), b"one\ntw".as_slice(), LineDelimited { max: 100 });
    /// let solo = Solo::new(&rt, Doorbell::spinning())?;
    /// let mut cx = solo.begin();
    /// let first = lines.poll_advance(&mut cx);
    /// let second = lines.poll_advance(&mut cx);
    /// cx.cancel();
    /// assert!(rt; matches!(first, Poll::Ready(Some(Ok(())))));
    /// assert!(rt; matches!(second, Poll::Ready(Some(Err(FramesError::NoFrame(CutError::CutOff))))));
    /// ```
    #[inline(always)]
    pub fn poll_advance(&mut self, cx: &mut Context<'_>) -> Poll<Found<C::Error>>
        requires { T.ranks.counts self.old.reader }
        ensures advanced { Advances C.piece C.refuses C.cut_off T.reads T.buffer_of self.old result self.new }
        ensures registered { Registered result (T.registers self.new.reader) cx.new }
        ensures context { Keeps cx.old cx.new }
        ensures again { T.ranks.counts self.new.reader }
    {
        if self.takes_shown() {
            return Poll::Ready(Some(Ok(())));
        }
        self.poll_beyond(cx)
    }

    // As `poll_advance`, for what the reader does not show whole.
    #[cold]
    #[inline(never)]
    fn poll_beyond(&mut self, cx: &mut Context<'_>) -> Poll<Found<C::Error>>
        requires { T.ranks.counts self.old.reader }
        ensures advanced { Advances C.piece C.refuses C.cut_off T.reads T.buffer_of self.old result self.new }
        ensures registered { Registered result (T.registers self.new.reader) cx.new }
        ensures context { Keeps cx.old cx.new }
    {
        if let Poll::Ready(found) = self.look() {
            return Poll::Ready(found);
        }
        self.poll_more(cx)
    }

    // Reads until the next frame is whole.
    #[inline(never)]
    fn poll_more(&mut self, cx: &mut Context<'_>) -> Poll<Found<C::Error>>
        requires { T.ranks.counts self.old.reader }
        ensures advanced { Advances C.piece C.refuses C.cut_off T.reads T.buffer_of self.old result self.new }
        ensures registered { Registered result (T.registers self.new.reader) cx.new }
        ensures context { Keeps cx.old cx.new }
    {
        drive(self, cx)
    }
}
