//! A server of frames.
ghost use Rattle.std.specs.Prelude.{◌≡◌, List, Ok};
ghost use Rattle.framed.specs.Serving.{NextEnds, Sent, ServeEnds, Session, StepEnds, TakesOrFails};

use crate::framed_read::FramedRead;
use crate::make::encode_all;
use crate::next_frame::frame_by;
use crate::prompt_decoder::PromptDecoder;
use crate::serve_error::ServeError;
use crate::service::Service;
use crate::waiting::{flush_by, hand};
use bytes::BytesMut;
use lite_base::Poll;
use lite_base::future::Waits;
use lite_base::future::block_on::BlockOn;
use lite_io_base::{AsyncBufRead, AsyncWrite, CountedRead};
use std::alloc::AllocGlobal;
use std::io;
use std::sync::Wait;
use tokio_util::codec::Encoder;

/// Serves each request of `requests` by `service`, and writes the frames of its replies to `replies`.
///
/// It serves one request after another, until the input or the service ends. For each one it calls
/// [`answer`](Service::answer), and writes the frames of all its replies in order. It flushes `replies` before
/// it reads, that is, if no whole request is in hand ([`in_hand`](FramedRead::in_hand)), and at the end. So no
/// reply waits behind a request that is not whole. Between two requests that are in hand it does not flush.
///
/// A client has to read while it sends, because the replies to a request are written to their end before the next
/// read. If it sends many requests and reads no reply, the buffers between the two fill, and both wait forever.
///
/// The call blocks this thread, by `on` and the runtime `rt`, and may wait forever. The caller guarantees that
/// `ranks.counts` holds for the reader below `requests`.
///
/// # Errors
///
/// Nothing is read or performed behind an error. Unless the output failed, all that was written before is
/// flushed. Close the connection then: part of a frame may have been written, or a request may have no reply. Before
/// you close a socket, read on for a while, or the client may lose the last words.
/// The [`ServeError`] says why serving stopped:
///
/// - `ServeError::Input`: `requests` returned this error. [`refuse`](Service::refuse) gave the last words to it,
///   and they were written and flushed.
/// - `ServeError::Output`: the writer failed, at a write or at a flush. It may be the flush behind another
///   error, which is lost then.
/// - `ServeError::Encode`: `encoder` refused a reply. Nothing of the replies to that request was written.
/// - `ServeError::Memory`: the service returned `Err`. Nothing of the replies to that request was written.
///
/// # Examples
///
/// ```
/// use framed::{Answer, FramedRead, Service, serve};
/// use futures_lite::future::BlockOn;
/// use std::alloc::{AllocError, Global};
/// use tokio_util::codec::{LinesCodec, LinesCodecError};
///
/// /// Replies to each line with itself.
/// #[derive(Drop)]
/// struct Echo;
///
/// impl Service for Echo {
///     ghost use Rattle.std.specs.Prelude.{◌∷◌, [], true};
///     ghost use Rattle.framed.specs.Services.{RefusesBy, RepliesBy};
///
///     type Request = String;
///     type Reply = String;
///     type Error = LinesCodecError;
///
///     ghost answers = { RepliesBy (λ line. (line ∷ [], true)) };
///
///     ghost refuses = { RefusesBy (λ s. s) (λ _. []) };
///
///     fn answer(&mut self, alloc: Global, line: String) -> Result<Answer<String>, AllocError> {
///         let replies = Vec::from_array(alloc, [line])?;
///         Ok(Answer { replies, goes_on: true })
///     }
///
///     fn refuse(&mut self, alloc: Global, _: &LinesCodecError) -> Result<Vec<String>, AllocError> {
///         Ok(Vec::new(alloc))
///     }
/// }
///
/// let mut on = BlockOn::new(&rt)?;
/// let mut reader = b"one\r\ntwo\n".as_slice();
/// let lines = LinesCodec::new_with_max_length(80);
/// let mut requests = FramedRead::new(rt.alloc(), &mut reader, lines);
/// let mut replies = Vec::new(rt.alloc());
/// let mut encoder = LinesCodec::new();
/// let served = serve(&mut on, &rt, &mut requests, &mut replies, &mut encoder, &mut Echo);
/// assert!(rt; served.is_ok());
/// assert_eq!(rt; replies.as_slice(), b"one\ntwo\n".as_slice());
/// ```
pub fn serve<R, T, D, O, E, S>(
    on: &mut BlockOn,
    rt: &R,
    requests: &mut FramedRead<T, D>,
    replies: &mut O,
    encoder: &mut E,
    service: &mut S,
) -> Result<(), ServeError<D::Error, E::Error>>
where
    R: Wait + AllocGlobal,
    T: AsyncBufRead + CountedRead,
    D: PromptDecoder<Item = S::Request, Error = S::Error>,
    O: AsyncWrite,
    E: Encoder<S::Reply>,
    S: Service<Request: Drop, Reply: Drop, Error: Drop>,
    requires { T.ranks.counts requests.old.reader }
    ensures served { ServeEnds D.gives S.Error.from_gives T.reads T.buffer_of O.writes E.encodes E.refuses S.answers S.refuses
        (record { requests = requests.old; replies = replies.old; encoder = encoder.old; service = service.old }) result
        (record { requests = requests.new; replies = replies.new; encoder = encoder.new; service = service.new }) }
    ensures again { T.ranks.counts requests.new.reader }
{
    let waits = &mut on.waits();
    let mut out = BytesMut::new(rt.alloc());
    for _ in rt.forever() {
        if !serve_next(waits, rt, requests, replies, encoder, service, &mut out)? {
            return Ok(());
        }
    }
    unreachable!()
}

/// Serves the next request. Returns whether to go on. If not, all that was written is flushed.
#[inline(always)]
fn serve_next<R, T, D, O, E, S>(
    waits: &mut Waits<'_>,
    rt: &R,
    requests: &mut FramedRead<T, D>,
    replies: &mut O,
    encoder: &mut E,
    service: &mut S,
    out: &mut BytesMut,
) -> Result<bool, ServeError<D::Error, E::Error>>
where
    R: Wait + AllocGlobal,
    T: AsyncBufRead + CountedRead,
    D: PromptDecoder<Item = S::Request, Error = S::Error>,
    O: AsyncWrite,
    E: Encoder<S::Reply>,
    S: Service<Request: Drop, Reply: Drop, Error: Drop>,
    requires { T.ranks.counts requests.old.reader }
    ensures served { NextEnds D.gives S.Error.from_gives T.reads T.buffer_of O.writes E.encodes E.refuses S.answers S.refuses
        (record { requests = requests.old; replies = replies.old; encoder = encoder.old; service = service.old }) result
        (record { requests = requests.new; replies = replies.new; encoder = encoder.new; service = service.new }) }
    ensures again { T.ranks.counts requests.new.reader }
{
    match serve_one(waits, rt, requests, replies, encoder, service, out) {
        Ok(Ok(true)) => Ok(true),
        Ok(Ok(false)) => match flush_by(waits, rt, replies) {
            Ok(()) => Ok(false),
            Err(e) => Err(ServeError::Output(e)),
        },
        // What was replied before is to arrive.
        Ok(Err(stopped)) => match flush_by(waits, rt, replies) {
            Ok(()) => Err(stopped),
            Err(e) => Err(ServeError::Output(e)),
        },
        Err(e) => Err(ServeError::Output(e)),
    }
}

/// The same, without the last flush. `Err`: the output failed.
#[inline(always)]
fn serve_one<R, T, D, O, E, S>(
    waits: &mut Waits<'_>,
    rt: &R,
    requests: &mut FramedRead<T, D>,
    replies: &mut O,
    encoder: &mut E,
    service: &mut S,
    out: &mut BytesMut,
) -> io::Result<Result<bool, ServeError<D::Error, E::Error>>>
where
    R: Wait + AllocGlobal,
    T: AsyncBufRead + CountedRead,
    D: PromptDecoder<Item = S::Request, Error = S::Error>,
    O: AsyncWrite,
    E: Encoder<S::Reply>,
    S: Service<Request: Drop, Reply: Drop, Error: Drop>,
    requires { T.ranks.counts requests.old.reader }
    ensures served { StepEnds D.gives S.Error.from_gives T.reads T.buffer_of O.writes E.encodes E.refuses S.answers S.refuses
        (record { requests = requests.old; replies = replies.old; encoder = encoder.old; service = service.old }) result
        (record { requests = requests.new; replies = replies.new; encoder = encoder.new; service = service.new }) }
    ensures again { T.ranks.counts requests.new.reader }
{
    match take(waits, rt, requests, replies)? {
        None => Ok(Ok(false)),
        Some(Ok(request)) => {
            let Ok(answer) = service.answer(rt.alloc(), request) else {
                return Ok(Err(ServeError::Memory));
            };
            match send_replies(waits, rt, replies, encoder, answer.replies, out) {
                Ok(Ok(())) => Ok(Ok(answer.goes_on)),
                Ok(Err(e)) => Err(e),
                Err(e) => Ok(Err(ServeError::Encode(e))),
            }
        }
        Some(Err(error)) => {
            let Ok(words) = service.refuse(rt.alloc(), &error) else {
                return Ok(Err(ServeError::Memory));
            };
            match send_replies(waits, rt, replies, encoder, words, out) {
                Ok(Ok(())) => Ok(Err(ServeError::Input(error))),
                Ok(Err(e)) => Err(e),
                Err(e) => Ok(Err(ServeError::Encode(e))),
            }
        }
    }
}

// Writes the frames of these replies. `Err`: one was not encoded, and nothing was written.
#[inline(always)]
fn send_replies<R, O, X, E>(
    waits: &mut Waits<'_>,
    rt: &R,
    writer: &mut O,
    encoder: &mut E,
    replies: Vec<X>,
    out: &mut BytesMut,
) -> Result<io::Result<()>, E::Error>
where
    R: Wait,
    O: AsyncWrite,
    X: Drop,
    E: Encoder<X>,
    ensures { Sent O.writes E.encodes E.refuses writer.old encoder.old replies.items result writer.new encoder.new }
{
    match encode_all(encoder, replies, out) {
        Ok(()) => Ok(hand(waits, rt, writer, out.as_slice())),
        Err(e) => Err(e),
    }
}

/// Takes the next item. If it has to be read, the writer is flushed before.
#[inline(always)]
fn take<R, T, D, O>(
    waits: &mut Waits<'_>,
    rt: &R,
    requests: &mut FramedRead<T, D>,
    replies: &mut O,
) -> io::Result<Option<Result<D::Item, D::Error>>>
where
    R: Wait,
    T: AsyncBufRead + CountedRead,
    D: PromptDecoder,
    O: AsyncWrite,
    requires { T.ranks.counts requests.old.reader }
    ensures taken { TakesOrFails D.gives D.Error.from_gives T.reads T.buffer_of O.writes requests.old replies.old result
        requests.new replies.new }
    ensures again { T.ranks.counts requests.new.reader }
{
    if let Poll::Ready(item) = requests.in_hand() {
        return Ok(item);
    }
    flush_by(waits, rt, replies)?;
    Ok(frame_by(waits, rt, requests))
}
