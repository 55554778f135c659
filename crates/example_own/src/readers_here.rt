//! Three readers and a writer of one's own, used on this thread.
use crate::dots::Dots;
use crate::table::Table;
use crate::tally::Tally;
use crate::upper::Upper;
use futures_lite::future::block_on;
use futures_lite::io::BufReader;
use futures_lite::{AsyncBufReadExt, AsyncReadExt, AsyncWriteExt, StreamExt};
use std::alloc::AllocGlobal;
use std::io;
use std::io::ErrorKind;
use std::random::RandomSource;
use std::sync::Wait;

/// Reads by each reader, writes to the writer, and prints what came.
pub fn show<R>(rt: &R) -> io::Result<()>
where
    R: Wait + RandomSource + AllocGlobal + Print,
{
    let mut text = Vec::new(rt.alloc());
    let read = block_on(rt, Dots { left: 3 }.read_to_end(&mut text))??;
    println!(rt; "{read} bytes: {text:?}")?;
    let mut tally = Tally { bytes: 0 };
    block_on(rt, tally.write_all(&text))??;
    println!(rt; "{} bytes were written", tally.bytes)?;
    let table = Table {
        bytes: Vec::from_array(rt.alloc(), *b"one\ntwo\n")?,
        at: 0,
    };
    let Ok(reader) = BufReader::with_capacity(rt.alloc(), 4, table) else {
        return Err(io::Error::from(ErrorKind::OutOfMemory));
    };
    let mut lines = reader.lines(rt.alloc());
    for _ in 0..3 {
        match block_on(rt, lines.next())? {
            Some(line) => println!(rt; "{}", line?)?,
            None => println!(rt; "end")?,
        }
    }
    let inner = Table {
        bytes: Vec::from_array(rt.alloc(), *b"in three")?,
        at: 3,
    };
    let mut loud = Vec::new(rt.alloc());
    block_on(rt, Upper { inner }.read_to_end(&mut loud))??;
    println!(rt; "{loud:?}")
}
