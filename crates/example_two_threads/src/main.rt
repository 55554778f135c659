//! `example_two_threads` reads and writes one journal in two threads, and prints what its history has of both.
#![tactic(auto)]

ghost use Rattle.std.specs.Prelude.{◌≡◌};

mod twice;

use crate::twice::{read_twice, write_twice};
use futures_lite::io::{
    CounterNames, Cursor, Journal, JournalReadHalf, JournalWriteHalf, NewCounters, ReadSpec,
    WriteSpec, history, split_journalled,
};
use futures_lite::{AsyncRead, AsyncWrite};
use programs::{end, without_words};
use std::alloc::AllocGlobal;
use std::io::ErrorKind;
use std::marker::Brand;
use std::process::ExitCode;
use std::random::RandomSource;
use std::sync::Wait;
use std::thread::Threads;
use std::{io, thread};

/// The name of the program.
const NAME: &str = "example_two_threads";

fn main(rt: HostRuntime) -> ExitCode {
    match without_words(&rt, NAME) {
        Ok(()) => end(&rt, NAME, print(rt)),
        Err(status) => status,
    }
}

/// Uses a journal in two threads, and prints what its history has of both.
fn print<R>(rt: R) -> io::Result<()>
where
    R: Threads + Wait + RandomSource + AllocGlobal + Print + Copy + Send + Sync,
{
    let cursor = Cursor::new(Vec::from_slice(rt.alloc(), b"abcdefgh")?);
    let Ok(journal) = Journal::new(rt.alloc(), cursor) else {
        return Err(ErrorKind::OutOfMemory.into());
    };
    // The proof of this call picks the counters: `proofs/print/Invariants.antt`.
    let told = in_two_threads::<R, Brand>(rt, journal, NewCounters::new())?;
    println!(rt; "{told}")
}

/// Each half is used in a thread of its own; then they tell their calls, which are those of the history.
fn in_two_threads<R, B>(
    rt: R,
    journal: Journal<Cursor<Vec<u8>>>,
    counters: NewCounters,
) -> io::Result<String>
where
    R: Threads + Wait + RandomSource + AllocGlobal + Copy + Send + Sync,
    B: CounterNames + Send + Sync,
    requires { counters ≡ B.names }
{
    let Ok((mut reader, mut writer)) = split_journalled::<R, Cursor<Vec<u8>>, B>(
        rt, journal, counters,
    ) else {
        return Err(ErrorKind::OutOfMemory.into());
    };
    use_both(&rt, &mut reader, &mut writer)?;
    tell(&rt, &mut reader, &mut writer)
}

/// Uses each half in a thread of its own.
fn use_both<R, A, B>(rt: &R, reader: &mut A, writer: &mut B) -> io::Result<()>
where
    R: Threads + Wait + RandomSource + AllocGlobal + Sync,
    A: AsyncRead + Send,
    B: AsyncWrite + Send,
{
    let (read, written) = thread::join(rt, || read_twice(rt, reader), || write_twice(rt, writer));
    read?;
    written
}

/// What the halves and their history tell.
fn tell<R, T, B>(
    rt: &R,
    reader: &mut JournalReadHalf<R, T, B>,
    writer: &mut JournalWriteHalf<R, T, B>,
) -> io::Result<String>
where
    R: Wait + AllocGlobal,
    T: ReadSpec + WriteSpec + Clone,
    B: CounterNames,
{
    let entries = history(reader, writer)?.entries().len();
    let (reads, got) = (reader.calls(), reader.bytes());
    let (writes, taken) = (writer.calls(), writer.bytes());
    Ok(format!(in rt.alloc();
        "{entries} entries: {reads} reads of {got} bytes, {writes} writes of {taken} bytes"
    )?)
}
