//! A whole session of a server over a new connection.
ghost use Rattle.std.specs.Prelude.{◌≡◌};
ghost use Rattle.futures_lite.specs.Readers.{ToldStripped};
ghost use Rattle.example_http.specs.Moving.{Moved};
ghost use Rattle.example_http.specs.Whole.{Conversation};

use crate::http_error::HttpError;
use crate::server::serve_http;
use futures_lite::future::Waits;
use futures_lite::io::{AsyncBufRead, AsyncWrite};
use http_server::{Config, Connection, Service};
use std::alloc::AllocGlobal;
use std::hash::RandomState;
use std::sync::Wait;

/// Answers the requests of `reader` by `service` to `writer`, until the client or an error ends the session.
///
/// The headers of a request are kept in a map with the keys `keys`, since the client chooses their names. `config` has
/// the limits. What is written are the responses to the requests that were read, in order, and nothing else.
///
/// # Errors
///
/// Those of [`serve_http`].
pub fn serve_session<R, T, O, S>(
    waits: &mut Waits<'_>,
    rt: &R,
    reader: &mut T,
    writer: &mut O,
    keys: RandomState,
    config: Config,
    service: &mut S,
) -> Result<(), HttpError>
where
    R: Wait + AllocGlobal,
    T: AsyncBufRead,
    O: AsyncWrite,
    S: Service,
    ensures { (moved : Moved) × ToldStripped T.reads reader.old moved.told reader.new
        × O.writes writer.old moved.took writer.new
        × Conversation config S.answers service.old moved result service.new }
{
    let mut connection = Connection::new(rt.alloc(), keys, config);
    serve_http(waits, rt, reader, writer, &mut connection, service)
}
