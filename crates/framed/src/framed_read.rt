//! A stream of the frames that a decoder finds in a reader.
ghost use Rattle.std.specs.Prelude.{◌≡◌, ◌⊎◌, ◌==◌, ◌≤◌, ◌<◌, ◌↔◌, ◌++◌, [], Err, IfErr, IfOk, IsTrue, List, None, OnErr, Some, length, take, ℕ};
ghost use Rattle.std.specs.List.{FoldsTo};
ghost use Rattle.framed.specs.Uses.{IfReady, Keeps, Registered, bytes, fill_marks};
ghost use Rattle.lite_base.specs.Chain.{OneStep};
ghost use Rattle.lite_base.specs.Laws.Ranks.{Terminates-map};
ghost use Rattle.lite_base.specs.Laws.Streams.{stream_by_keeping_steps};
ghost use Rattle.lite_base.specs.Runs.{NoHint};
ghost use Rattle.tokio_util.specs.Codec.Next.{Resumes, decoded, partial};
ghost use Rattle.framed.specs.CalmFrames.{frames_calm};
ghost use Rattle.framed.specs.SteadyFrameLaws.{frames_steady};
ghost use Rattle.framed.specs.SteadyFrames.{AmpleFrames, FramesAlike};
ghost use Rattle.framed.specs.Frames.{FrameStep, InHand, Last, Looks, ended, ending, frame_ranks, held_at, reading};
ghost use Rattle.framed.specs.FrameLaws.{TakesMore, frame_counts, frames_counting, takes_given};

use crate::fill::fill;
use crate::held_frame::HeldFrame;
use crate::prompt_decoder::PromptDecoder;
use crate::steady_decoder::SteadyDecoder;
use bytes::BytesMut;
use lite_base::{CalmStream, Context, OkCounted, Poll, PollSteps, SteadyStream, Stream, drive};
use lite_io_base::{AsyncBufRead, CalmRead, CountedRead, SteadyRead};
use std::alloc::{AllocError, Global};
use std::io;
use std::marker::Model;

/// A stream of the frames that a decoder finds in the bytes of a reader.
///
/// An item is `Ok` with the next frame, or an error of the decoder's type. A poll returns `Pending` only if the
/// reader did, and then no whole frame is there. The stream is final: after an error, and after its end, every
/// poll returns `Ready(None)`. Size hint: `(0, None)`.
///
/// It takes no byte behind a frame from the reader. So the reader can be lent as `&mut reader`, and other calls
/// go on there behind the last frame. Each byte is copied into a buffer for the decoder, at most 8 KiB at a time, and a
/// frame that is longer is copied again when that buffer grows.
///
/// Before it reads, a poll asks the decoder about the bytes that the reader shows. If it shows none, the decoder gets
/// an empty buffer, also before the first read, so that a frame of no bytes comes without a read. The `FramedRead` of
/// `tokio_util` reads before it first asks.
///
/// # Errors
///
/// - An error of the decoder: the bytes are no frame. Bytes behind them that the reader showed may be taken, too.
/// - An error of the reader, as `D::Error::from` makes it.
/// - Memory was refused: an `io::Error` of the kind `OutOfMemory`, as `D::Error::from` makes it.
///
/// # Examples
///
/// ```
/// use framed::{FramedRead, LengthDelimited};
/// use futures_lite::{StreamExt, future};
///
/// let mut reader = b"\0\0\0\x02hi and a text".as_slice();
/// let mut frames = FramedRead::new(rt.alloc(), &mut reader, LengthDelimited { max: 100 });
/// match future::block_on(&rt, frames.next())? {
///     Some(Ok(frame)) => assert_eq!(rt; frame.as_slice(), b"hi".as_slice()),
///     _ => return Err(Fail::from("there is a frame")),
/// }
/// assert_eq!(rt; reader, b" and a text".as_slice());
/// ```
#[derive(Drop)]
pub struct FramedRead<T: AsyncBufRead, D: PromptDecoder> {
    reader: T,
    decoder: D,
    // The bytes of an open frame, or a copy of the first bytes that the reader shows.
    buffer: BytesMut,
    stage: Stage,
}

// How many bytes are copied at once for the decoder, or as many as it has of an open frame.
const MOST_AT_ONCE: usize = 8 * 1024;

/// Where a framed reader stands in its input.
#[derive(Clone, Copy)]
pub(crate) enum Stage {
    // No byte of the next frame was taken from the reader.
    Fresh,
    // The buffer has the first bytes of a frame, which were taken from the reader.
    Open,
    // The input has ended, and the last frames are being given.
    AtEnd,
    // The end or an error was given.
    Done,
}

/// What [`FramedRead::into_parts`] returns.
///
/// # Examples
///
/// ```
/// use framed::{FramedParts, FramedRead, LengthDelimited};
/// use futures_lite::{StreamExt, future};
///
/// let reader = b"\0\0\0\x02hi and a text".as_slice();
/// let mut frames = FramedRead::new(rt.alloc(), reader, LengthDelimited { max: 100 });
/// assert!(rt; matches!(future::block_on(&rt, frames.next())?, Some(Ok(_))));
/// let FramedParts { reader, held, .. } = frames.into_parts();
/// assert!(rt; held.is_empty());
/// assert_eq!(rt; reader, b" and a text".as_slice());
/// ```
#[derive(Drop)]
pub struct FramedParts<T, D> {
    /// The reader. What it reads next follows the bytes in `held`.
    pub reader: T,
    /// The decoder, as it was at the last poll.
    pub decoder: D,
    /// The bytes of an unfinished frame that the decoder has not consumed. Behind a frame there are none while the
    /// input may go on ([`is_reading`](FramedRead::is_reading)).
    pub held: BytesMut,
}

impl<T: AsyncBufRead, D: PromptDecoder> Model for FramedRead<T, D> {
    ghost use Rattle.framed.specs.Frames.{Framed, InStep, held_at, phase_of};

    ghost Value = { Framed T D };

    ghost view = { λ f. record {
      reader = f.reader;
      decoder = f.decoder;
      held = held_at f.stage f.buffer.items;
      phase = phase_of f.stage;
    } };

    ghost invariant = { λ f. InStep D.gives f.decoder f.stage f.buffer.items (T.buffer_of f.reader) };
}

impl<T: AsyncBufRead, D: PromptDecoder> FramedRead<T, D> {
    /// Returns a stream of the frames of `reader`. It allocates nothing, and its buffer grows by `alloc`.
    ///
    /// # Examples
    ///
    /// ```
    /// use framed::FramedRead;
    /// use futures_lite::{StreamExt, future};
    /// use tokio_util::codec::LinesCodec;
    ///
    /// let codec = LinesCodec::new_with_max_length(100);
    /// let mut lines = FramedRead::new(rt.alloc(), b"one\r\ntwo".as_slice(), codec);
    /// for expected in ["one", "two"] {
    ///     match future::block_on(&rt, lines.next())? {
    ///         Some(Ok(line)) => assert_eq!(rt; line.as_str(), expected),
    ///         _ => return Err(Fail::from("there is a line")),
    ///     }
    /// }
    /// assert!(rt; matches!(future::block_on(&rt, lines.next())?, None));
    /// ```
    pub fn new(alloc: Global, reader: T, decoder: D) -> FramedRead<T, D>
        ensures { result ≡ record { reader = reader; decoder = decoder; held = []; phase = reading } }
    {
        FramedRead {
            reader,
            decoder,
            buffer: BytesMut::new(alloc),
            stage: Stage::Fresh,
        }
    }

    /// Returns the reader, the decoder and the bytes of an open frame.
    ///
    /// Behind a frame no byte is held while the input may go on. So another protocol can go on at the reader.
    ///
    /// # Examples
    ///
    /// ```
    /// use framed::{FramedRead, LengthDelimited};
    /// use futures_lite::{StreamExt, future};
    ///
    /// let mut reader = b"\0\0\0\x02h".as_slice();
    /// let mut frames = FramedRead::new(rt.alloc(), &mut reader, LengthDelimited { max: 100 });
    /// assert!(rt; matches!(future::block_on(&rt, frames.next())?, Some(Err(_))));
    /// let parts = frames.into_parts();
    /// assert_eq!(rt; parts.held.as_slice(), b"\0\0\0\x02h".as_slice());
    /// ```
    pub fn into_parts(self) -> FramedParts<T, D>
        ensures reader { result.reader ≡ self.reader }
        ensures decoder { result.decoder ≡ self.decoder }
        ensures held { result.held.items ≡ self.held }
    {
        let mut held = self.buffer;
        if let Stage::Fresh = self.stage {
            held.clear();
        }
        FramedParts {
            reader: self.reader,
            decoder: self.decoder,
            held,
        }
    }

    /// Returns a stream that goes on from these parts. It is the inverse of [`into_parts`](FramedRead::into_parts).
    ///
    /// The bytes in `held` come before those that the reader gives. They may be any bytes: the decoder looks at them at
    /// once. The stream reads on, even if that from which the parts came was at its end or had returned an error. So a
    /// stream that was refused memory goes on without a loss.
    ///
    /// # Errors
    ///
    /// A whole frame is held, or bytes that the decoder refuses. The [`HeldFrame`] has what the decoder returned, and the
    /// parts behind it.
    ///
    /// # Examples
    ///
    /// ```
    /// use framed::{FramedParts, FramedRead, LengthDelimited, wait_frame};
    /// use futures_lite::future::BlockOn;
    ///
    /// let mut on = BlockOn::new(&rt)?;
    /// let reader = b"\0\0\0\x02h".as_slice();
    /// let mut frames = FramedRead::new(rt.alloc(), reader, LengthDelimited { max: 100 });
    /// assert!(rt; matches!(wait_frame(&mut on, &rt, &mut frames), Some(Err(_))));
    /// // The frame goes on in another file.
    /// let FramedParts { decoder, held, .. } = frames.into_parts();
    /// let reader = b"i".as_slice();
    /// let Ok(mut frames) = FramedRead::from_parts(FramedParts { reader, decoder, held }) else {
    ///     return Err(Fail::from("no whole frame is held"));
    /// };
    /// match wait_frame(&mut on, &rt, &mut frames) {
    ///     Some(Ok(frame)) => assert_eq!(rt; frame.as_slice(), b"hi".as_slice()),
    ///     _ => return Err(Fail::from("there is a frame")),
    /// }
    /// ```
    pub fn from_parts(parts: FramedParts<T, D>) -> Result<FramedRead<T, D>, HeldFrame<T, D>>
        ensures reading { IfOk result (λ f. (f.reader ≡ parts.reader) × (f.phase ≡ reading) × D.gives f.decoder f.held partial
            × Resumes D.gives parts.decoder parts.held.items f.decoder f.held) }
        ensures found { IfErr result (λ h. (h.parts.reader ≡ parts.reader)
            × D.gives parts.decoder parts.held.items (decoded h.frame h.parts.decoder h.parts.held.items)) }
    {
        let FramedParts {
            reader,
            mut decoder,
            mut held,
        } = parts;
        let frame = match decoder.decode(&mut held) {
            Ok(Some(frame)) => Ok(frame),
            Ok(None) => {
                return Ok(FramedRead {
                    reader,
                    decoder,
                    buffer: held,
                    stage: Stage::Open,
                });
            }
            Err(e) => Err(e),
        };
        let parts = FramedParts {
            reader,
            decoder,
            held,
        };
        Err(HeldFrame { frame, parts })
    }

    /// Returns whether the input may go on: its end was not read, and no error was returned.
    ///
    /// A decoder may give a last frame only because the input ends, as a line without its newline. Behind such a
    /// frame it returns `false`.
    ///
    /// # Examples
    ///
    /// ```
    /// use framed::{FramedRead, wait_frame};
    /// use futures_lite::future::BlockOn;
    /// use tokio_util::codec::LinesCodec;
    ///
    /// let mut on = BlockOn::new(&rt)?;
    /// let codec = LinesCodec::new_with_max_length(100);
    /// let mut lines = FramedRead::new(rt.alloc(), b"one\ntwo".as_slice(), codec);
    /// assert!(rt; matches!(wait_frame(&mut on, &rt, &mut lines), Some(Ok(_))));
    /// assert!(rt; lines.is_reading());
    /// assert!(rt; matches!(wait_frame(&mut on, &rt, &mut lines), Some(Ok(_))));
    /// assert!(rt; !lines.is_reading());
    /// ```
    pub fn is_reading(&self) -> bool
        ensures { IsTrue result ↔ (self.now.phase ≡ reading) }
    {
        matches!(self.stage, Stage::Fresh | Stage::Open)
    }

    /// Returns the next frame, the end or the error that is known without a read.
    ///
    /// `Pending`: no whole frame is in the bytes that were read, so a poll has to read. The bytes that the reader
    /// shows are taken then. A server that has written a reply flushes it at `Pending`, because the next request
    /// may be late.
    ///
    /// # Examples
    ///
    /// ```
    /// use framed::{FramedRead, LengthDelimited};
    ///
    /// let reader = b"\0\0\0\x02hi\0\0".as_slice();
    /// let mut frames = FramedRead::new(rt.alloc(), reader, LengthDelimited { max: 100 });
    /// assert!(rt; matches!(frames.in_hand(), Poll::Ready(Some(Ok(_)))));
    /// assert!(rt; frames.in_hand().is_pending());
    /// ```
    #[inline(always)]
    pub fn in_hand(&mut self) -> Poll<Option<Result<D::Item, D::Error>>>
        ensures { InHand D.gives D.Error.from_gives T.reads T.buffer_of self.old result self.new }
    {
        match self.stage {
            Stage::Fresh | Stage::Open => self.look(),
            Stage::AtEnd => Poll::Ready(self.last()),
            Stage::Done => Poll::Ready(None),
        }
    }

    // Looks for a frame in the bytes held and in those that the reader shows.
    #[inline(always)]
    fn look(&mut self) -> Poll<Option<Result<D::Item, D::Error>>>
        requires { self.old.phase ≡ reading }
        ensures { InHand D.gives D.Error.from_gives T.reads T.buffer_of self.old result self.new }
    {
        if matches!(self.stage, Stage::Open) && self.reader.buffer().is_empty() {
            return Poll::Pending;
        }
        'looks: loop {
            if let Poll::Ready(item) = self.look_once() {
                return Poll::Ready(item);
            }
            if self.reader.buffer().is_empty() {
                return Poll::Pending;
            }
        }
    }

    // The same, in as many of those that the reader shows as are copied at once.
    #[inline(always)]
    fn look_once(&mut self) -> Poll<Option<Result<D::Item, D::Error>>>
        requires { self.old.phase ≡ reading }
        ensures { Looks D.gives D.Error.from_gives T.reads T.buffer_of self.old result self.new }
    {
        let shown = self.reader.buffer();
        let taken = match append_shown(&mut self.buffer, self.stage, shown) {
            Ok(taken) => taken,
            Err(e) => {
                self.stage = Stage::Done;
                return Poll::Ready(Some(Err(D::Error::from(io::Error::from(e)))));
            }
        };
        match self.decoder.decode(&mut self.buffer) {
            Ok(Some(frame)) => {
                self.reader.consume(taken - self.buffer.len());
                self.stage = Stage::Fresh;
                Poll::Ready(Some(Ok(frame)))
            }
            Ok(None) => {
                self.reader.consume(taken);
                self.stage = Stage::Open;
                Poll::Pending
            }
            Err(e) => {
                self.reader.consume(taken);
                self.stage = Stage::Done;
                Poll::Ready(Some(Err(e)))
            }
        }
    }

    // What the end of the input says of the bytes held.
    fn last(&mut self) -> Option<Result<D::Item, D::Error>>
        requires { (self.old.phase ≡ ending) ⊎ (T.buffer_of self.old.reader ≡ []) }
        ensures item { Last D.gives self.old [] result self.new }
        ensures reader { self.new.reader ≡ self.old.reader }
    {
        match self.decoder.decode_eof(&mut self.buffer) {
            Ok(Some(frame)) => {
                self.stage = Stage::AtEnd;
                Some(Ok(frame))
            }
            Ok(None) => {
                self.stage = Stage::Done;
                None
            }
            Err(e) => {
                self.stage = Stage::Done;
                Some(Err(e))
            }
        }
    }

    // Fills the reader's buffer, which shows nothing. Returns whether the input has ended.
    fn fill(&mut self, cx: &mut Context<'_>) -> Poll<io::Result<bool>>
        requires { T.buffer_of self.old.reader ≡ [] }
        ensures ran { T.reads self.old.reader (fill_marks result (T.buffer_of self.new.reader)) self.new.reader }
        ensures ended { IfReady result (λ r. IfOk r (λ ended. ended ≡ (length (T.buffer_of self.new.reader) == 0))) }
        ensures rest { self.new ≡ record self.old { reader = self.new.reader } }
        ensures registered { Registered result (T.registers self.new.reader) cx.new }
        ensures context { Keeps cx.old cx.new }
    {
        fill(&mut self.reader, cx)
    }

    fn fail(&mut self, error: D::Error) -> Option<Result<D::Item, D::Error>>
        requires { self.old.phase ≡ reading }
        ensures item { result ≡ Some (Err error) }
        ensures value { self.new ≡ record self.old { phase = ended } }
    {
        if let Stage::Fresh = self.stage {
            self.buffer.clear();
        }
        self.stage = Stage::Done;
        Some(Err(error))
    }
}

// Puts the first bytes that the reader shows behind the bytes held, as many as are copied at once, and returns how many. Before a
// frame a copy that is there already serves. If memory is refused, the buffer has the bytes held.
#[inline(always)]
fn append_shown(buffer: &mut BytesMut, stage: Stage, shown: &[u8]) -> Result<usize, AllocError>
    requires { stage ≡ Stage.Fresh → (rest : List ℕ) × (shown.now ≡ buffer.old.items ++ rest) }
    ensures within { IfOk result (λ n. n ≤ length shown.now) }
    ensures some { IfOk result (λ n. n ≡ 0 → shown.now ≡ []) }
    ensures front { IfOk result (λ n. buffer.new.items ≡ held_at stage buffer.old.items ++ take n shown.now) }
    ensures refused { OnErr result (buffer.new.items ≡ held_at stage buffer.old.items) }
    ensures full { OnErr result (buffer.old.spare < length shown.now) }
{
    let held = buffer.len();
    if matches!(stage, Stage::Fresh) && held > 0 {
        return Ok(held);
    }
    let taken = shown.len().min(held.max(MOST_AT_ONCE));
    buffer.extend_from_slice(&shown[..taken])?;
    Ok(taken)
}

impl<T: AsyncBufRead + CountedRead, D: PromptDecoder> PollSteps for FramedRead<T, D> {
    type Output = Option<Result<D::Item, D::Error>>;

    ghost can_step = { λ x. T.ranks.counts x.reader };

    ghost step = { OneStep (TakesMore D.gives T.reads) (FrameStep D.gives D.Error.from_gives T.reads) };

    ghost step_registers = { λ x. T.registers x.reader };

    ghost goes_on = { λ x y c h. T.counting.counts_on x.reader y.reader (bytes h.taken) c h.came };

    ghost finite = { λ x c. Terminates-map (λ y. y.reader) takes_given x (T.ends x.reader c) };

    fn poll_step(&mut self, cx: &mut Context<'_>) -> Option<Poll<Self::Output>> {
        if let Poll::Ready(item) = self.in_hand() {
            return Some(Poll::Ready(item));
        }
        match self.fill(cx) {
            Poll::Ready(Ok(false)) => {}
            Poll::Ready(Ok(true)) => return Some(Poll::Ready(self.last())),
            Poll::Ready(Err(e)) => return Some(Poll::Ready(self.fail(D::Error::from(e)))),
            Poll::Pending => return Some(Poll::Pending),
        }
        match self.in_hand() {
            Poll::Ready(item) => Some(Poll::Ready(item)),
            Poll::Pending => None,
        }
    }
}

impl<T: AsyncBufRead + CountedRead, D: PromptDecoder> Stream for FramedRead<T, D> {
    type Item = Result<D::Item, D::Error>;

    ghost can_poll = { λ x. T.ranks.counts x.reader };

    ghost run = { FoldsTo (FrameStep D.gives D.Error.from_gives T.reads) };

    ghost registers = { λ x. T.registers x.reader };

    ghost hints = { NoHint };

    ghost laws = { stream_by_keeping_steps (FrameStep D.gives D.Error.from_gives T.reads)
        (frame_counts D.gives D.Error.from_gives T.reads T.counting) };

    fn poll_next(&mut self, cx: &mut Context<'_>) -> Poll<Option<Self::Item>> {
        drive(self, cx)
    }

    fn size_hint(&self) -> (usize, Option<usize>) {
        (0, None)
    }
}

impl<T: AsyncBufRead + CountedRead, D: PromptDecoder> OkCounted for FramedRead<T, D> {
    type Ok = D::Item;

    type Err = D::Error;

    ghost ok_ranks = { frame_ranks D.owes T.ranks };

    ghost ok_counting = { frames_counting D.gives D.owes D.prompt D.Error.from_gives T.reads T.counting };
}

// The buffer for the decoder allocates, so a run is ample if no item says that memory was refused.
impl<T: AsyncBufRead + CountedRead + SteadyRead, D: SteadyDecoder> SteadyStream
    for FramedRead<T, D> {
    ghost ample = { AmpleFrames D.gives D.Error.from_gives D.lacks T.ample };

    ghost needs_none = { ⊥ };

    ghost same = { D.same };

    ghost alike = { FramesAlike T.alike };

    ghost steady = { frames_steady D.one_outcome D.stable D.partial_has_no_frame T.steady };
}

impl<T: AsyncBufRead + CountedRead + CalmRead, D: PromptDecoder> CalmStream for FramedRead<T, D> {
    ghost is_calm = { λ x. T.is_calm x.reader };

    ghost calm = { frames_calm D.gives D.Error.from_gives T.calm };
}
