//! The future that serves the frames of a reader.
ghost use Rattle.std.specs.Prelude.{◌≡◌, ◌≤◌, ◌<◌, ◌↔◌, [], Err, IfSome, IsSome, IsTrue, None, Ok, Some, drop, false, length};
ghost use Rattle.std.specs.IoError.{error_kind};
ghost use Rattle.futures.specs.Task.{Keeps};
ghost use Rattle.lite_base.specs.Chain.{OneStep};
ghost use Rattle.lite_base.specs.FutureLaws.{PolledByCalls};
ghost use Rattle.lite_base.specs.Laws.FutureLaws.{polled_laws};
ghost use Rattle.lite_base.specs.Laws.Ranks.{Below-wf, Terminates-by};
ghost use Rattle.lite_base.specs.Ranks.{Below};
ghost use Rattle.lite_base.specs.Registered.{Registered};
ghost use Rattle.lite_io_base.specs.Marks.{bytes};
ghost use Rattle.lent_frames.specs.Lending.{kept, nowhere, untaken};
ghost use Rattle.serving.specs.Serving.{AllSent, MayTake, ServesPoll, ServingEnds, ServingRegisters};
ghost use Rattle.serving.specs.PendingLaws.{serving_arms, serving_calm};
ghost use Rattle.serving.specs.ServingLaws.{serves_counts};
ghost use Rattle.serving.specs.ServingSteps.{GoesAhead, PerformsFound, PutsOut, TakesByRead, TakesInHand, serving_rank};

use crate::responder::Responder;
use crate::serving_error::ServingError;
use crate::stop::Stop;
use framed::{Cutter, Frames, FramesError, FramesParts};
use lite_base::{ArmedFuture, CalmFuture, Context, Future, Poll, PollSteps, drive};
use lite_io_base::{
    ArmedRead, ArmedWrite, AsyncBufRead, AsyncWrite, CalmRead, CalmWrite, CountedRead,
};
use std::alloc::Global;
use std::io::{self, ErrorKind};
use std::marker::Model;

// How many bytes of replies wait before no more requests are taken, unless the caller names another number.
const MOST_WAITING: usize = 8 * 1024;

// How many bytes of room the buffer of replies keeps behind a large reply, or as many as may wait.
const MOST_KEPT: usize = 64 * 1024;

// What a call finds.
type Found<E> = Option<Result<(), FramesError<E>>>;

/// A future that serves the frames of a reader until the input or the responder ends.
///
/// It takes each frame as a request and lets the [`Responder`] push the replies. It writes them once no whole request is in
/// hand, or once more than `limit` bytes wait ([`with_limit`](Serving::with_limit), 8 KiB at first). It flushes the writer
/// before it reads, so no reply waits for the next request.
///
/// While the writer is pending, the server goes on reading and performing requests, as long as no more than `limit`
/// bytes wait. So a client that sends many requests before it reads a reply does not stall the server before that. At the
/// limit the server reads no more, until the client has read. Once a large reply is written, its memory is given back.
///
/// The value is `Ok` once the input has ended, or the responder has ended the session, and all replies are written and
/// flushed. A poll returns `Pending` only if the reader or the writer did.
///
/// # Errors
///
/// They are values of the future. No request is performed behind an error.
///
/// - [`ServingError::Input`]: the bytes begin no frame, the reader failed, or memory was refused for a frame.
/// - [`ServingError::Output`]: a write or a flush failed.
/// - [`ServingError::OutOfMemory`]: the responder was refused memory.
///
/// # Examples
///
/// ```
/// use framed::{CutError, FramesError, LineDelimited};
/// use futures_lite::future;
/// use serving::{Responder, Serving};
/// use std::alloc::AllocError;
///
/// /// Replies to each line with itself.
/// #[derive(Drop)]
/// struct Echo;
///
/// impl Responder for Echo {
///     ghost use Rattle.std.specs.Prelude.{[], true};
///     ghost use Rattle.framed.specs.Services.{RefusesBy, RepliesBy};
///
///     type Error = CutError;
///
///     ghost answers = { RepliesBy (λ line. (line, true)) };
///
///     ghost refuses = { RefusesBy (λ s. s) (λ _. []) };
///
///     fn answer(&mut self, line: &[u8], out: &mut Vec<u8>) -> Result<bool, AllocError> {
///         out.extend_from_slice(line)?;
///         Ok(true)
///     }
///
///     fn refuse(&mut self, _: &FramesError<CutError>, _: &mut Vec<u8>) -> Result<(), AllocError> {
///         Ok(())
///     }
/// }
///
/// let reader = b"one\ntwo\n".as_slice();
/// let (lines, replies) = (LineDelimited { max: 80 }, Vec::new(rt.alloc()));
/// let serving = Serving::new(rt.alloc(), reader, lines, replies, Echo);
/// let stopped = future::ready(Ok(()));
/// // A stop signal that is there at once; the server is polled first.
/// let value = future::block_on(&rt, future::or(serving, stopped))?;
/// assert!(rt; value.is_ok());
/// ```
#[derive(Drop)]
pub struct Serving<T: AsyncBufRead, C: Cutter, O, S> {
    requests: Frames<T, C>,
    replies: O,
    responder: S,
    // The replies. Those from `written` on were not taken by the writer.
    out: Vec<u8>,
    written: usize,
    limit: usize,
    is_flushed: bool,
    stop: Option<Stop<C::Error>>,
    error: Option<io::Error>,
}

impl<T: AsyncBufRead, C: Cutter, O, S> Model for Serving<T, C, O, S> {
    ghost use Rattle.std.specs.Prelude.{◌≤◌, drop, length};
    ghost use Rattle.lent_frames.specs.Lending.{StandsIn};
    ghost use Rattle.serving.specs.Turns.{Server};

    ghost Value = { Server T C O S C.Error };

    ghost view = { λ s. record {
      requests = s.requests;
      replies = s.replies;
      responder = s.responder;
      stop = s.stop;
      waiting = drop s.written s.out.items;
      is_flushed = s.is_flushed;
      limit = s.limit;
      error = s.error;
    } };

    ghost invariant = { λ s. (s.written ≤ length s.out.items)
        × StandsIn s.requests.span s.requests.held (T.buffer_of s.requests.reader) };
}

/// What [`Serving::into_parts`] returns.
///
/// # Examples
///
/// ```
/// use framed::{CutError, FramesError, LineDelimited};
/// use serving::{Responder, Serving, ServingParts};
/// use std::alloc::AllocError;
///
/// /// Replies to each line with itself.
/// #[derive(Drop)]
/// struct Echo;
///
/// impl Responder for Echo {
///     ghost use Rattle.std.specs.Prelude.{[], true};
///     ghost use Rattle.framed.specs.Services.{RefusesBy, RepliesBy};
///
///     type Error = CutError;
///
///     ghost answers = { RepliesBy (λ line. (line, true)) };
///
///     ghost refuses = { RefusesBy (λ s. s) (λ _. []) };
///
///     fn answer(&mut self, line: &[u8], out: &mut Vec<u8>) -> Result<bool, AllocError> {
///         out.extend_from_slice(line)?;
///         Ok(true)
///     }
///
///     fn refuse(&mut self, _: &FramesError<CutError>, _: &mut Vec<u8>) -> Result<(), AllocError> {
///         Ok(())
///     }
/// }
///
/// let reader = b"one\ntw".as_slice();
/// let (lines, replies) = (LineDelimited { max: 80 }, Vec::<u8>::new(rt.alloc()));
/// let serving = Serving::new(rt.alloc(), reader, lines, replies, Echo);
/// let ServingParts { requests, waiting, .. } = serving.into_parts();
/// assert_eq!(rt; requests.reader, b"one\ntw".as_slice());
/// assert!(rt; waiting.is_empty());
/// ```
#[derive(Drop)]
pub struct ServingParts<T, C, O, S> {
    /// The reader, the cutter, and the bytes of an unfinished frame. The bytes behind the last request are unread.
    pub requests: FramesParts<T, C>,
    /// The writer.
    pub replies: O,
    /// The responder.
    pub responder: S,
    /// The replies that the writer has not taken.
    pub waiting: Vec<u8>,
}

impl<T: AsyncBufRead, C: Cutter, O, S> Serving<T, C, O, S> {
    /// Returns a future that serves the frames of `reader`, which `cutter` finds, by `responder`, and writes its replies to
    /// `replies`. It allocates nothing yet. What it holds grows by `alloc`.
    ///
    /// # Examples
    ///
    /// ```
    /// use framed::{CutError, FramesError, LineDelimited};
    /// use futures_lite::future::BlockOn;
    /// use serving::{Responder, Serving, wait_serving};
    /// use std::alloc::AllocError;
    ///
    /// /// Replies to each line with itself.
    /// #[derive(Drop)]
    /// struct Echo;
    ///
    /// impl Responder for Echo {
    ///     ghost use Rattle.std.specs.Prelude.{[], true};
    ///     ghost use Rattle.framed.specs.Services.{RefusesBy, RepliesBy};
    ///
    ///     type Error = CutError;
    ///
    ///     ghost answers = { RepliesBy (λ line. (line, true)) };
    ///
    ///     ghost refuses = { RefusesBy (λ s. s) (λ _. []) };
    ///
    ///     fn answer(&mut self, line: &[u8], out: &mut Vec<u8>) -> Result<bool, AllocError> {
    ///         out.extend_from_slice(line)?;
    ///         Ok(true)
    ///     }
    ///
    ///     fn refuse(&mut self, _: &FramesError<CutError>, _: &mut Vec<u8>) -> Result<(), AllocError> {
    ///         Ok(())
    ///     }
    /// }
    ///
    /// let reader = b"one\ntwo".as_slice();
    /// let lines = LineDelimited { max: 80 };
    /// let mut serving = Serving::new(rt.alloc(), reader, lines, Vec::new(rt.alloc()), Echo);
    /// let mut on = BlockOn::new(&rt)?;
    /// // The input ends within a line.
    /// assert!(rt; wait_serving(&mut on, &rt, &mut serving).is_err());
    /// assert_eq!(rt; serving.into_parts().replies.as_slice(), b"one".as_slice());
    /// ```
    pub fn new(alloc: Global, reader: T, cutter: C, replies: O, responder: S) -> Serving<T, C, O, S>
        ensures requests { result.requests ≡ record { reader = reader; cutter = cutter; held = []; room = 0; span = nowhere; is_over = false; error = None } }
        ensures parts { (result.replies ≡ replies) × (result.responder ≡ responder) }
        ensures fresh { (result.waiting ≡ []) × (result.is_flushed ≡ false) × (result.stop ≡ None) × (result.error ≡ None) }
        ensures limit { result.limit ≡ 8192 }
    {
        Serving {
            requests: Frames::new(alloc, reader, cutter),
            replies,
            responder,
            out: Vec::new(alloc),
            written: 0,
            limit: MOST_WAITING,
            is_flushed: false,
            stop: None,
            error: None,
        }
    }

    /// Returns the same future, which takes no more requests while more than `limit` bytes of replies wait.
    ///
    /// With 0 it takes a request only once all replies before it are written.
    ///
    /// # Examples
    ///
    /// ```
    /// use framed::{CutError, FramesError, LineDelimited};
    /// use futures_lite::future::BlockOn;
    /// use serving::{Responder, Serving, wait_serving};
    /// use std::alloc::AllocError;
    ///
    /// /// Replies to each line with itself.
    /// #[derive(Drop)]
    /// struct Echo;
    ///
    /// impl Responder for Echo {
    ///     ghost use Rattle.std.specs.Prelude.{[], true};
    ///     ghost use Rattle.framed.specs.Services.{RefusesBy, RepliesBy};
    ///
    ///     type Error = CutError;
    ///
    ///     ghost answers = { RepliesBy (λ line. (line, true)) };
    ///
    ///     ghost refuses = { RefusesBy (λ s. s) (λ _. []) };
    ///
    ///     fn answer(&mut self, line: &[u8], out: &mut Vec<u8>) -> Result<bool, AllocError> {
    ///         out.extend_from_slice(line)?;
    ///         Ok(true)
    ///     }
    ///
    ///     fn refuse(&mut self, _: &FramesError<CutError>, _: &mut Vec<u8>) -> Result<(), AllocError> {
    ///         Ok(())
    ///     }
    /// }
    ///
    /// let reader = b"one\ntwo\n".as_slice();
    /// let lines = LineDelimited { max: 80 };
    /// let serving = Serving::new(rt.alloc(), reader, lines, Vec::new(rt.alloc()), Echo);
    /// let mut serving = serving.with_limit(0);
    /// let mut on = BlockOn::new(&rt)?;
    /// assert!(rt; wait_serving(&mut on, &rt, &mut serving).is_ok());
    /// ```
    pub fn with_limit(self, limit: usize) -> Serving<T, C, O, S>
        ensures { result ≡ record self { limit = limit } }
    {
        let mut serving = self;
        serving.limit = limit;
        serving
    }

    /// Returns the writer's error, if the value was [`ServingError::Output`]. It returns it once.
    ///
    /// # Examples
    ///
    /// ```
    /// use framed::{CutError, FramesError, LineDelimited};
    /// use futures_lite::future::BlockOn;
    /// use futures_lite::io::Cursor;
    /// use serving::{Responder, Serving, ServingError, wait_serving};
    /// use std::alloc::AllocError;
    /// use std::io::ErrorKind;
    ///
    /// /// Replies to each line with itself.
    /// #[derive(Drop)]
    /// struct Echo;
    ///
    /// impl Responder for Echo {
    ///     ghost use Rattle.std.specs.Prelude.{[], true};
    ///     ghost use Rattle.framed.specs.Services.{RefusesBy, RepliesBy};
    ///
    ///     type Error = CutError;
    ///
    ///     ghost answers = { RepliesBy (λ line. (line, true)) };
    ///
    ///     ghost refuses = { RefusesBy (λ s. s) (λ _. []) };
    ///
    ///     fn answer(&mut self, line: &[u8], out: &mut Vec<u8>) -> Result<bool, AllocError> {
    ///         out.extend_from_slice(line)?;
    ///         Ok(true)
    ///     }
    ///
    ///     fn refuse(&mut self, _: &FramesError<CutError>, _: &mut Vec<u8>) -> Result<(), AllocError> {
    ///         Ok(())
    ///     }
    /// }
    ///
    /// let reader = b"one\ntwo\n".as_slice();
    /// let lines = LineDelimited { max: 80 };
    /// let mut room = [0u8; 2];
    /// let mut serving = Serving::new(rt.alloc(), reader, lines, Cursor::new(room.as_mut_slice()), Echo);
    /// let mut on = BlockOn::new(&rt)?;
    /// let value = wait_serving(&mut on, &rt, &mut serving);
    /// assert_eq!(rt; value, Err(ServingError::Output(ErrorKind::WriteZero)));
    /// assert!(rt; serving.take_output_error().is_some());
    /// ```
    pub fn take_output_error(&mut self) -> Option<io::Error>
        ensures error { result ≡ self.old.error }
        ensures value { self.new ≡ record self.old { error = None } }
    {
        self.error.take()
    }

    /// Returns the parts, of which nothing is lost: the reader, the writer, the responder, and the replies that wait.
    ///
    /// The reader goes on behind the last request that was performed, so another protocol can go on there.
    ///
    /// # Examples
    ///
    /// ```
    /// use framed::{CutError, FramesError, LineDelimited};
    /// use futures_lite::future::BlockOn;
    /// use serving::{Responder, Serving, wait_serving};
    /// use std::alloc::AllocError;
    ///
    /// /// Replies to each line with itself.
    /// #[derive(Drop)]
    /// struct Echo;
    ///
    /// impl Responder for Echo {
    ///     ghost use Rattle.std.specs.Prelude.{[], true};
    ///     ghost use Rattle.framed.specs.Services.{RefusesBy, RepliesBy};
    ///
    ///     type Error = CutError;
    ///
    ///     ghost answers = { RepliesBy (λ line. (line, true)) };
    ///
    ///     ghost refuses = { RefusesBy (λ s. s) (λ _. []) };
    ///
    ///     fn answer(&mut self, line: &[u8], out: &mut Vec<u8>) -> Result<bool, AllocError> {
    ///         out.extend_from_slice(line)?;
    ///         Ok(true)
    ///     }
    ///
    ///     fn refuse(&mut self, _: &FramesError<CutError>, _: &mut Vec<u8>) -> Result<(), AllocError> {
    ///         Ok(())
    ///     }
    /// }
    ///
    /// let reader = b"one\ntwo\n".as_slice();
    /// let lines = LineDelimited { max: 80 };
    /// let mut serving = Serving::new(rt.alloc(), reader, lines, Vec::new(rt.alloc()), Echo);
    /// let mut on = BlockOn::new(&rt)?;
    /// assert!(rt; wait_serving(&mut on, &rt, &mut serving).is_ok());
    /// let parts = serving.into_parts();
    /// assert_eq!(rt; parts.replies.as_slice(), b"onetwo".as_slice());
    /// assert!(rt; parts.requests.reader.is_empty());
    /// ```
    pub fn into_parts(self) -> ServingParts<T, C, O, S>
        ensures reader { T.reads self.requests.reader (bytes (untaken T.buffer_of self.requests)) result.requests.reader }
        ensures held { result.requests.held.items ≡ kept self.requests }
        ensures cutter { result.requests.cutter ≡ self.requests.cutter }
        ensures parts { (result.replies ≡ self.replies) × (result.responder ≡ self.responder) }
        ensures waiting { result.waiting.items ≡ self.waiting }
    {
        let mut serving = self;
        drop_front(&mut serving.out, serving.written);
        ServingParts {
            requests: serving.requests.into_parts(),
            replies: serving.replies,
            responder: serving.responder,
            waiting: serving.out,
        }
    }
}

impl<T: AsyncBufRead, C: Cutter, O: AsyncWrite, S: Responder<Error = C::Error>> Serving<
    T,
    C,
    O,
    S,
> {
    // Whether another request may be taken.
    fn may_take(&self) -> bool
        ensures { IsTrue result ↔ MayTake self.now }
    {
        self.stop.is_none() && self.out.len() - self.written <= self.limit
    }

    // Lets the responder reply to what was found.
    #[inline(always)]
    fn perform(&mut self, found: Found<C::Error>)
        requires { self.old.stop ≡ None }
        ensures { PerformsFound T.buffer_of S.answers S.refuses self.old found self.new }
    {
        match found {
            Some(Ok(())) => self.answer(),
            Some(Err(error)) => self.refuse(error),
            None => self.end_by(Stop::Ended),
        }
    }

    // Lets the responder reply to the request that is lent. What it pushed is taken away if it was refused memory.
    #[inline(always)]
    fn answer(&mut self)
        requires { self.old.stop ≡ None }
        ensures { PerformsFound T.buffer_of S.answers S.refuses self.old (Some (Ok tt)) self.new }
    {
        let before = self.out.len();
        match self.responder.answer(self.requests.frame(), &mut self.out) {
            Ok(true) => {}
            Ok(false) => self.end_by(Stop::Answered),
            Err(_) => {
                self.out.truncate(before);
                self.end_by(Stop::Lacked);
            }
        }
    }

    // Lets the responder say its last words to an error of the input.
    #[inline(never)]
    fn refuse(&mut self, error: FramesError<C::Error>)
        requires { self.old.stop ≡ None }
        ensures { PerformsFound T.buffer_of S.answers S.refuses self.old (Some (Err error)) self.new }
    {
        let before = self.out.len();
        match self.responder.refuse(&error, &mut self.out) {
            Ok(()) => self.end_by(Stop::Refused(error)),
            Err(_) => {
                self.out.truncate(before);
                self.end_by(Stop::Lacked);
            }
        }
    }

    // No more turns are taken.
    #[inline(never)]
    fn end_by(&mut self, stop: Stop<C::Error>)
        requires { self.old.stop ≡ None }
        ensures { self.new ≡ record self.old { stop = Some stop } }
    {
        self.stop = Some(stop);
    }

    // Writes some of the replies that wait, or flushes the writer. `Ok(false)`: all is written and flushed.
    fn put_out(&mut self, cx: &mut Context<'_>) -> Poll<Result<bool, ErrorKind>>
        ensures put { PutsOut O.writes self.old result self.new }
        ensures registered { Registered result (O.write_registers self.new.replies) cx.new }
        ensures context { Keeps cx.old cx.new }
    {
        if self.written < self.out.len() {
            return self.write_some(cx);
        }
        if self.is_flushed {
            return Poll::Ready(Ok(false));
        }
        match self.replies.poll_flush(cx) {
            Poll::Ready(Ok(())) => {
                self.is_flushed = true;
                Poll::Ready(Ok(true))
            }
            Poll::Ready(Err(e)) => Poll::Ready(Err(self.fail(e))),
            Poll::Pending => Poll::Pending,
        }
    }

    // Writes some of the replies that wait.
    fn write_some(&mut self, cx: &mut Context<'_>) -> Poll<Result<bool, ErrorKind>>
        requires { 0 < length self.old.waiting }
        ensures put { PutsOut O.writes self.old result self.new }
        ensures registered { Registered result (O.write_registers self.new.replies) cx.new }
        ensures context { Keeps cx.old cx.new }
    {
        match self.replies.poll_write(cx, &self.out[self.written..]) {
            Poll::Ready(Ok(0)) => Poll::Ready(Err(self.fail(ErrorKind::WriteZero.into()))),
            Poll::Ready(Ok(n)) => {
                self.took(n);
                Poll::Ready(Ok(true))
            }
            Poll::Ready(Err(e)) => Poll::Ready(Err(self.fail(e))),
            Poll::Pending => Poll::Pending,
        }
    }

    // The writer took `count` of the bytes that wait. They are dropped once they are more than those that still wait, and then
    // the buffer gives back the memory of a large reply.
    fn took(&mut self, count: usize)
        requires { count ≤ length self.old.waiting }
        ensures { self.new ≡ record self.old { waiting = drop count self.old.waiting; is_flushed = false } }
    {
        self.is_flushed = false;
        self.written += count;
        if self.out.len() - self.written < self.written {
            drop_front(&mut self.out, self.written);
            self.written = 0;
            let kept = self.limit.max(MOST_KEPT);
            if self.out.capacity() / 2 > kept {
                self.out.shrink_to(kept);
            }
        }
    }

    fn fail(&mut self, error: io::Error) -> ErrorKind
        ensures kind { result ≡ error_kind error }
        ensures rest { self.new ≡ record self.old { error = Some error } }
    {
        let kind = error.kind();
        self.error = Some(error);
        kind
    }

    // The value, once all replies are written and flushed.
    fn value(&mut self) -> Result<(), ServingError<C::Error>>
        requires sent { AllSent self.old }
        requires stopped { IsSome self.old.stop }
        ensures { ServingEnds C.piece C.refuses C.cut_off T.reads T.buffer_of O.writes S.answers S.refuses self.old result self.new }
    {
        match self.stop.replace(Stop::Ended) {
            Some(stop) => stop.value(),
            None => unreachable!(),
        }
    }
}

impl<T, C, O, S> Serving<T, C, O, S>
where
    T: AsyncBufRead + CountedRead,
    C: Cutter,
    O: AsyncWrite,
    S: Responder<Error = C::Error>,
{
    // Takes a turn by what is in hand. Returns false if no request is whole, or none may be taken.
    #[inline(always)]
    fn take_in_hand(&mut self) -> bool
        requires { T.ranks.counts self.old.requests.reader }
        ensures { TakesInHand C.piece C.refuses C.cut_off T.reads T.buffer_of O.writes S.answers S.refuses T.ranks self.old result self.new }
    {
        if !self.may_take() {
            return false;
        }
        match self.requests.advance_in_hand() {
            Poll::Ready(found) => {
                self.perform(found);
                true
            }
            Poll::Pending => false,
        }
    }

    // Takes a turn, or returns the reader's `Pending`.
    fn take_by_read(
        &mut self,
        cx: &mut Context<'_>,
    ) -> Option<Poll<Result<(), ServingError<C::Error>>>>
        requires may { MayTake self.old }
        requires counts { T.ranks.counts self.old.requests.reader }
        ensures took { TakesByRead C.piece C.refuses C.cut_off T.reads T.buffer_of O.writes S.answers S.refuses T.ranks self.old result self.new }
        ensures registered { IfSome result (λ a. Registered a (T.registers self.new.requests.reader) cx.new) }
        ensures context { Keeps cx.old cx.new }
    {
        match self.requests.poll_advance(cx) {
            Poll::Ready(found) => {
                self.perform(found);
                None
            }
            Poll::Pending => Some(Poll::Pending),
        }
    }
}

impl<T, C, O, S> PollSteps for Serving<T, C, O, S>
where
    T: AsyncBufRead + CountedRead,
    C: Cutter,
    O: AsyncWrite,
    S: Responder<Error = C::Error>,
{
    type Output = Result<(), ServingError<C::Error>>;

    ghost can_step = { λ x. T.ranks.counts x.requests.reader };

    ghost step = { OneStep (GoesAhead C.piece C.refuses C.cut_off T.reads T.buffer_of O.writes S.answers S.refuses T.ranks)
        (ServesPoll C.piece C.refuses C.cut_off T.reads T.buffer_of O.writes S.answers S.refuses) };

    ghost step_registers = { ServingRegisters T.registers O.write_registers };

    ghost goes_on = { λ x y c h. h.counts };

    ghost finite = { λ x c. Terminates-by Below Below-wf (serving_rank T.ranks) (λ y z h. h.lower) x };

    #[inline(always)]
    fn poll_step(&mut self, cx: &mut Context<'_>) -> Option<Poll<Self::Output>> {
        if self.take_in_hand() {
            return None;
        }
        match self.put_out(cx) {
            Poll::Ready(Ok(true)) => None,
            Poll::Ready(Ok(false)) => {
                if self.may_take() {
                    return self.take_by_read(cx);
                }
                Some(Poll::Ready(self.value()))
            }
            Poll::Ready(Err(kind)) => Some(Poll::Ready(Err(ServingError::Output(kind)))),
            Poll::Pending => {
                if self.may_take() {
                    return self.take_by_read(cx);
                }
                Some(Poll::Pending)
            }
        }
    }
}

impl<T, C, O, S> Future for Serving<T, C, O, S>
where
    T: AsyncBufRead + CountedRead,
    C: Cutter,
    O: AsyncWrite,
    S: Responder<Error = C::Error>,
{
    type Output = Result<(), ServingError<C::Error>>;

    ghost can_poll = { λ x. T.ranks.counts x.requests.reader };

    ghost run = { PolledByCalls (ServesPoll C.piece C.refuses C.cut_off T.reads T.buffer_of O.writes S.answers S.refuses) };

    ghost registers = { ServingRegisters T.registers O.write_registers };

    ghost laws = { polled_laws (ServesPoll C.piece C.refuses C.cut_off T.reads T.buffer_of O.writes S.answers S.refuses)
        (λ x y c h. serves_counts T.counting c h.served) };

    fn poll(&mut self, cx: &mut Context<'_>) -> Poll<Self::Output> {
        drive(self, cx)
    }
}

// A server is pending only if its reader or its writer is.
impl<T, C, O, S> CalmFuture for Serving<T, C, O, S>
where
    T: AsyncBufRead + CountedRead + CalmRead,
    C: Cutter,
    O: CalmWrite,
    S: Responder<Error = C::Error>,
{
    ghost is_calm = { λ x. T.is_calm x.requests.reader × O.is_calm x.replies };

    ghost calm = { serving_calm C.piece C.refuses C.cut_off T.reads T.buffer_of O.writes S.answers S.refuses T.calm O.calm };
}

impl<T, C, O, S> ArmedFuture for Serving<T, C, O, S>
where
    T: AsyncBufRead + CountedRead + ArmedRead,
    C: Cutter,
    O: ArmedWrite,
    S: Responder<Error = C::Error>,
{
    ghost armed = { serving_arms C.piece C.refuses C.cut_off T.reads T.buffer_of O.writes S.answers S.refuses T.armed O.armed };
}

// Drops the first `count` bytes.
fn drop_front(bytes: &mut Vec<u8>, count: usize)
    requires { count ≤ length bytes.old.items }
    ensures { bytes.new.items ≡ drop count bytes.old.items }
{
    let left = bytes.len() - count;
    bytes.copy_within(count.., 0);
    bytes.truncate(left);
}
