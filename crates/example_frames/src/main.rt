//! Frames on any reader and writer: a length in four bytes, the highest first, and then so many bytes.
//!
//! It writes what standard input has to memory, a frame for each line. It reads the frames back through a small
//! buffer, and prints them. Then it prints what reading says of a frame that is cut off, and of one that is too long.
//! It sends texts there and back, as frames and as netstrings. Last it lists an archive whose entries have a name in a
//! line and a body behind it.
#![tactic(auto)]

mod entries;
mod fault;
mod framing;
mod netstring;

use bytes::BytesMut;
use entries::read_entries;
use fault::Fault;
use framed::{FrameError, FramedRead, Frames, LengthDelimited, collect_frames, wait_send_all};
use framing::{read_all, send_and_read, write_frame};
use futures_lite::Poll;
use futures_lite::future::BlockOn;
use futures_lite::io::{BufReader, Cursor};
use netstring::Netstring;
use programs::{end, without_words};
use std::alloc::AllocGlobal;
use std::io::BufRead;
use std::process::ExitCode;
use std::random::RandomSource;
use std::sync::Wait;

/// The name of the program.
const NAME: &str = "example_frames";

/// Frames have at most so many bytes.
const LIMIT: u32 = 1 << 16;

fn main(rt: HostRuntime) -> ExitCode {
    match without_words(&rt, NAME) {
        Ok(()) => end(&rt, NAME, there_and_back(&rt, &rt)),
        Err(status) => status,
    }
}

/// Writes the lines as frames, and prints what is read of them. `rt` is the host as one that may wait.
fn there_and_back<R>(host: &HostRuntime, rt: &R) -> Result<(), Fault>
where
    R: Wait + RandomSource + AllocGlobal,
{
    let mut on = BlockOn::new(rt)?;
    let mut sent = Cursor::new(Vec::new(rt.alloc()));
    let mut codec = LengthDelimited { max: LIMIT };
    for line in std::io::BufReader::new(rt.alloc(), host.stdin())?.lines(rt.alloc()) {
        write_frame(
            &mut on,
            rt,
            &mut sent,
            &mut codec,
            line.map_err(Fault::Input)?.as_str(),
        )?;
    }
    show(host, rt, &mut on, &sent.into_inner())?;
    let long = (2 * LIMIT).to_be_bytes();
    for bytes in [b"\0\0\0\x05cut".as_slice(), long.as_slice()] {
        match show(host, rt, &mut on, bytes) {
            Err(Fault::Frame(FrameError::CutOff)) => println!(host; "it ended within a frame")?,
            Err(Fault::Frame(FrameError::TooLong(length))) => {
                println!(host; "a frame of {length} bytes")?
            }
            shown => shown?,
        }
    }
    let Ok(texts) = vec![in rt.alloc(); "four", "", "eleven"] else {
        return Err(Fault::Memory);
    };
    for frame in send_and_read(&mut on, rt, codec, texts, 3)? {
        println!(host; "{} bytes", frame.len())?;
    }
    let Ok(texts) = vec![in rt.alloc(); "", "eleven"] else {
        return Err(Fault::Memory);
    };
    send_strings(host, rt, &mut on, texts)?;
    list(host, rt, &mut on, b"one\n\0\0\0\x03abctwo\n\0\0\0\0")
}

/// Sends the texts to memory as netstrings, and prints these and what is read of them, first with a copy and then lent.
fn send_strings<R>(
    host: &HostRuntime,
    rt: &R,
    on: &mut BlockOn,
    texts: Vec<&str>,
) -> Result<(), Fault>
where
    R: Wait + RandomSource + AllocGlobal,
{
    let mut codec = Netstring { max: 100 };
    let (mut sent, mut out) = (Vec::new(rt.alloc()), BytesMut::new(rt.alloc()));
    wait_send_all(on, rt, &mut sent, &mut codec, texts, &mut out)?;
    println!(host; "{}", String::from_utf8_lossy(rt.alloc(), sent.as_slice())?)?;
    let mut strings = FramedRead::new(rt.alloc(), sent.as_slice(), codec);
    let mut read = Vec::new(rt.alloc());
    collect_frames(&mut on.waits(), rt, &mut strings, &mut read)?;
    for string in read {
        println!(host; "{} bytes", string.len())?;
    }
    let mut lent = Frames::new(rt.alloc(), sent.as_slice(), codec);
    for _ in 0..2 {
        if let Poll::Ready(Some(Ok(()))) = lent.advance_in_hand() {
            println!(host; "{} bytes, lent", lent.frame().len())?;
        }
    }
    Ok(())
}

/// Prints the names of an archive's entries, and how long their bodies are. The bytes come three at a time.
fn list<R>(host: &HostRuntime, rt: &R, on: &mut BlockOn, bytes: &[u8]) -> Result<(), Fault>
where
    R: Wait + RandomSource + AllocGlobal,
{
    let Ok(reader) = BufReader::with_capacity(rt.alloc(), 3, bytes) else {
        return Err(Fault::Memory);
    };
    let (entries, _) = read_entries(on, rt, reader);
    for entry in entries? {
        println!(host; "{}: {} bytes", entry.name, entry.body.len())?;
    }
    Ok(())
}

/// Prints each frame of the bytes, which come three at a time.
fn show<R>(host: &HostRuntime, rt: &R, on: &mut BlockOn, bytes: &[u8]) -> Result<(), Fault>
where
    R: Wait + RandomSource + AllocGlobal,
{
    let Ok(reader) = BufReader::with_capacity(rt.alloc(), 3, bytes) else {
        return Err(Fault::Memory);
    };
    let mut frames = FramedRead::new(rt.alloc(), reader, LengthDelimited { max: LIMIT });
    let mut all = Vec::new(rt.alloc());
    read_all(on, rt, &mut frames, &mut all)?;
    for frame in all {
        println!(host;
            "{}",
            String::from_utf8_lossy(rt.alloc(), frame.as_slice())?
        )?;
    }
    Ok(())
}
