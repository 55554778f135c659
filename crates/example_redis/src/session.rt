//! A whole session.
ghost use Rattle.std.specs.Prelude.{IfErr, IfOk};
ghost use Rattle.example_redis.specs.Session.{Conversed, IsFresh, SessionEnds, SessionStops};

use crate::error::{ReplyError, RequestError};
use crate::reply::Replies;
use crate::requests::Requests;
use crate::store::Store;
use framed::{FramedRead, ServeError, serve};
use futures_lite::future::BlockOn;
use futures_lite::io::{AsyncBufRead, AsyncWrite, CountedRead};
use std::alloc::AllocGlobal;
use std::sync::Wait;

/// Answers the requests of a new stream by `store`, until the input ends or the client quits.
///
/// If it returns `Ok`, each request that was read was answered in turn, and the writer took exactly the replies, in
/// order. They were flushed.
///
/// # Errors
///
/// Those of [`serve`]. At an error of the input the requests before it were answered in turn. It is why no request came of
/// the bytes behind them, and the last words to it are written.
pub fn serve_session<R, T, O>(
    on: &mut BlockOn,
    rt: &R,
    requests: &mut FramedRead<T, Requests>,
    writer: &mut O,
    encoder: &mut Replies,
    store: &mut Store,
) -> Result<(), ServeError<RequestError, ReplyError>>
where
    R: Wait + AllocGlobal,
    T: AsyncBufRead + CountedRead,
    O: AsyncWrite,
    requires counts { T.ranks.counts requests.old.reader }
    requires fresh { IsFresh requests.old }
    ensures ends { SessionEnds T.reads T.buffer_of O.writes
        (record { requests = requests.old; replies = writer.old; encoder = encoder.old; service = store.old }) result
        (record { requests = requests.new; replies = writer.new; encoder = encoder.new; service = store.new }) }
    ensures whole { IfOk result (λ u. Conversed T.reads O.writes
        (record { requests = requests.old; replies = writer.old; encoder = encoder.old; service = store.old })
        (record { requests = requests.new; replies = writer.new; encoder = encoder.new; service = store.new })) }
    ensures stopped { IfErr result (λ e. SessionStops T.reads O.writes
        (record { requests = requests.old; replies = writer.old; encoder = encoder.old; service = store.old }) e
        (record { requests = requests.new; replies = writer.new; encoder = encoder.new; service = store.new })) }
{
    serve(on, rt, requests, writer, encoder, store)
}
