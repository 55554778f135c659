//! How bytes move between a connection and its reader and writer.
ghost use Rattle.std.specs.Prelude.{◌≡◌, ◌≢◌, ◌<◌, List, [], IsFalse, length};
ghost use Rattle.http_server.specs.Connection.{config_of, history};
ghost use Rattle.futures_lite.specs.Marks.{WriteMark};
ghost use Rattle.example_http.specs.Moving.{FlushesOutput, Moved, ReceivesBytes, Refills, TakesInput, WritesOutput};

use crate::filling::wait_fill;
use crate::http_error::HttpError;
use futures_lite::future::Waits;
use futures_lite::io::{AsyncBufRead, AsyncWrite, wait_flush, wait_write_all};
use http_server::Connection;
use std::io;
use std::sync::Wait;

/// Writes what waits in the connection, or a first part of it.
pub fn write_output<R: Wait, O: AsyncWrite>(
    waits: &mut Waits<'_>,
    rt: &R,
    writer: &mut O,
    connection: &mut Connection,
) -> io::Result<()>
    requires { 0 < length (history connection.old).pending }
    ensures wrote { (took : List WriteMark)
        × WritesOutput O.writes writer.old (history connection.old) took result writer.new (history connection.new) }
    ensures config { config_of connection.new ≡ config_of connection.old }
{
    let output = connection.output();
    let count = output.len();
    match wait_write_all(waits, rt, writer, output) {
        Ok(Ok(())) => {}
        Ok(Err(e)) => return Err(e),
        Err(_) => unreachable!(),
    }
    connection.sent(count);
    Ok(())
}

/// Flushes the writer.
pub fn flush<R: Wait, O: AsyncWrite>(
    waits: &mut Waits<'_>,
    rt: &R,
    writer: &mut O,
) -> io::Result<()>
    ensures { (took : List WriteMark) × FlushesOutput O.writes writer.old took result writer.new }
{
    match wait_flush(waits, rt, writer) {
        Ok(flushed) => flushed,
        Err(_) => unreachable!(),
    }
}

/// Moves more of the reader's bytes to the connection. If the reader shows none, it waits until it does, and flushes the
/// writer before. At end of file the connection gets the end of its input.
///
/// At `Input` and `Memory` the writer was flushed, too.
pub fn read_more<R, T, O>(
    waits: &mut Waits<'_>,
    rt: &R,
    reader: &mut T,
    writer: &mut O,
    connection: &mut Connection,
) -> Result<(), HttpError>
where
    R: Wait,
    T: AsyncBufRead,
    O: AsyncWrite,
    requires { IsFalse (history connection.old).ended }
    ensures received { (moved : Moved) × ReceivesBytes T.reads T.buffer_of O.writes reader.old writer.old (history connection.old)
        moved result reader.new writer.new (history connection.new) }
    ensures config { config_of connection.new ≡ config_of connection.old }
{
    if !reader.buffer().is_empty() {
        return take_shown(waits, rt, reader, writer, connection);
    }
    refill(waits, rt, reader, writer)?;
    take_in(reader, connection)
}

/// Moves bytes that the reader shows to the connection. If memory for them is refused, it flushes the writer.
fn take_shown<R, T, O>(
    waits: &mut Waits<'_>,
    rt: &R,
    reader: &mut T,
    writer: &mut O,
    connection: &mut Connection,
) -> Result<(), HttpError>
where
    R: Wait,
    T: AsyncBufRead,
    O: AsyncWrite,
    requires going { IsFalse (history connection.old).ended }
    requires shown { T.buffer_of reader.old ≢ [] }
    ensures received { (moved : Moved) × ReceivesBytes T.reads T.buffer_of O.writes reader.old writer.old (history connection.old)
        moved result reader.new writer.new (history connection.new) }
    ensures config { config_of connection.new ≡ config_of connection.old }
{
    match take_in(reader, connection) {
        Ok(()) => Ok(()),
        Err(refused) => match flush(waits, rt, writer) {
            Ok(()) => Err(refused),
            Err(e) => Err(HttpError::Output(e)),
        },
    }
}

/// Flushes the writer, and then waits until the reader shows bytes or is at end of file.
fn refill<R, T, O>(
    waits: &mut Waits<'_>,
    rt: &R,
    reader: &mut T,
    writer: &mut O,
) -> Result<(), HttpError>
where
    R: Wait,
    T: AsyncBufRead,
    O: AsyncWrite,
    ensures { (moved : Moved) × Refills T.reads T.buffer_of O.writes reader.old writer.old moved result reader.new writer.new }
{
    if let Err(e) = flush(waits, rt, writer) {
        return Err(HttpError::Output(e));
    }
    match wait_fill(waits, rt, reader) {
        Ok(()) => Ok(()),
        Err(e) => Err(HttpError::Input(e)),
    }
}

/// Moves bytes that the reader shows to the connection. If it shows none, the connection gets the end of its input.
fn take_in<T: AsyncBufRead>(reader: &mut T, connection: &mut Connection) -> Result<(), HttpError>
    requires { IsFalse (history connection.old).ended }
    ensures taken { TakesInput T.reads T.buffer_of reader.old (history connection.old) result reader.new (history connection.new) }
    ensures config { config_of connection.new ≡ config_of connection.old }
{
    let mut shown = reader.buffer();
    let Ok(count) = connection.read_from(&mut shown) else {
        return Err(HttpError::Memory);
    };
    reader.consume(count);
    Ok(())
}
