//! An HTTP/1.1 server over any reader and any writer.
ghost use Rattle.std.specs.Prelude.{◌≡◌};
ghost use Rattle.http_server.specs.Connection.{config_of, history};
ghost use Rattle.example_http.specs.Moving.{Moved};
ghost use Rattle.example_http.specs.Serving.{IsOutcome, Serves, HttpSession, HttpTurns};
ghost use Rattle.example_http.specs.Whole.{WholeSession};

use crate::http_error::HttpError;
use crate::moves::{flush, read_more, write_output};
use futures_lite::future::Waits;
use futures_lite::io::{AsyncBufRead, AsyncWrite};
use http_server::{Connection, Service, State};
use std::sync::Wait;

/// Answers the requests of `reader` by `service` to `writer`, until the connection is done.
///
/// The connection finds the requests in the bytes, calls the service and makes the responses. They are written in the
/// order of the requests. The writer is flushed before each wait for the reader, and at the end, also if memory was
/// refused. So no response is held back while the client waits for it. The call blocks this thread, by `on` and `rt`, and may wait for ever.
///
/// # Errors
///
/// The [`HttpError`] says which side failed. The connection then has in its history what was received, and which of its
/// responses were written. Drop it, and the reader and the writer with it.
pub fn serve_http<R, T, O, S>(
    waits: &mut Waits<'_>,
    rt: &R,
    reader: &mut T,
    writer: &mut O,
    connection: &mut Connection,
    service: &mut S,
) -> Result<(), HttpError>
where
    R: Wait,
    T: AsyncBufRead,
    O: AsyncWrite,
    S: Service,
    ensures served { Serves (config_of connection.old) T.reads T.buffer_of O.writes S.answers
        (record { reader = reader.old; writer = writer.old; service = service.old; history = history connection.old }) result
        (record { reader = reader.new; writer = writer.new; service = service.new; history = history connection.new }) }
    ensures whole { (moved : Moved) × WholeSession (config_of connection.old) T.reads O.writes S.answers
        (record { reader = reader.old; writer = writer.old; service = service.old; history = history connection.old }) moved result
        (record { reader = reader.new; writer = writer.new; service = service.new; history = history connection.new }) }
    ensures config { config_of connection.new ≡ config_of connection.old }
{
    for _ in rt.forever() {
        if !turn(waits, rt, reader, writer, connection, service)? {
            return outcome(connection);
        }
    }
    unreachable!()
}

/// Returns how a connection that is done has ended.
fn outcome(connection: &Connection) -> Result<(), HttpError>
    ensures { IsOutcome (history connection.now) result }
{
    match connection.state() {
        State::Aborted => Err(HttpError::Memory),
        _ => Ok(()),
    }
}

/// Answers what was received. Then it writes what waits, or reads more if nothing does. Returns whether to go on.
fn turn<R, T, O, S>(
    waits: &mut Waits<'_>,
    rt: &R,
    reader: &mut T,
    writer: &mut O,
    connection: &mut Connection,
    service: &mut S,
) -> Result<bool, HttpError>
where
    R: Wait,
    T: AsyncBufRead,
    O: AsyncWrite,
    S: Service,
    ensures turned { (moved : Moved) × HttpTurns (config_of connection.old) T.reads T.buffer_of O.writes S.answers
        (record { reader = reader.old; writer = writer.old; service = service.old; history = history connection.old }) moved result
        (record { reader = reader.new; writer = writer.new; service = service.new; history = history connection.new }) }
    ensures config { config_of connection.new ≡ config_of connection.old }
{
    connection.advance(service);
    if connection.wants_write() {
        return match write_output(waits, rt, writer, connection) {
            Ok(()) => Ok(true),
            Err(e) => Err(HttpError::Output(e)),
        };
    }
    if connection.is_done() {
        return match flush(waits, rt, writer) {
            Ok(()) => Ok(false),
            Err(e) => Err(HttpError::Output(e)),
        };
    }
    read_more(waits, rt, reader, writer, connection)?;
    Ok(true)
}
