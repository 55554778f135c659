//! A server of keys and values by the protocol of Redis (RESP2). It reads requests from standard input, and writes replies
//! to standard output.
//!
//! Its commands are `PING`, `ECHO`, `SET`, `GET`, `DEL`, `DBSIZE`, `SELECT 0`, `COMMAND`, `CONFIG GET`, `CLIENT SETNAME`,
//! `CLIENT SETINFO` and `QUIT`. A request is an array of bulk strings, or a line of words. One that is malformed or too large
//! is answered with an error, and ends the session. `*-1` is malformed here. Quotes in a line are bytes as any others, so
//! send words with blanks as bulk strings. `HELLO` is an unknown command, after which clients go on with RESP2.
//!
//! Transactions are refused: `MULTI` is answered with an error, and so is each command behind it, which is not performed.
//! `EXEC` is answered with `EXECABORT`, and it or `DISCARD` ends the transaction. So a client's pipeline that is a
//! transaction, as that of `redis-py` is by default, performs nothing.
//!
//! All keys and values have 1 GiB at most, each entry with 96 bytes more. A `SET` beyond that is answered with `OOM`, and the
//! session goes on. If an allocation fails, the session ends.
//!
//! A request whose first word is `POST` or `Host:` ends the session, as in Redis. A web page can send such lines to this port
//! through its visitor's browser, and the lines of the page's own that follow them must not be performed.
//!
//! An error is one line on standard error, and the status 1.
//!
//! This line serves the port 6379 of this machine. Each connection has a process and a store of its own:
//!
//! ```sh
//! socat TCP-LISTEN:6379,bind=127.0.0.1,reuseaddr,backlog=1024,max-children=100,fork,nodelay EXEC:out/example_redis,nofork
//! ```
//!
//! `nofork` hands the program the socket itself. Without it `socat` drops the replies that it still holds when the program
//! ends with the status 1.
#![tactic(auto)]

mod commands;
mod connection;
mod error;
mod fault;
mod front;
mod limits;
mod number;
mod reply;
mod requests;
mod service;
mod session;
mod store;
mod verb;
mod word;

use fault::Fault;
use framed::FramedRead;
use futures_lite::AsyncReadExt;
use futures_lite::future::BlockOn;
use futures_lite::io::{AssertAsync, BufReader, BufWriter};
use limits::Limits;
use programs::{end, without_words};
use reply::Replies;
use requests::Requests;
use session::serve_session;
use std::alloc::AllocGlobal;
use std::process::ExitCode;
use std::random::RandomSource;
use std::sync::Wait;
use store::Store;

/// The name of the program.
const NAME: &str = "example_redis";

/// How many bytes are read in a row before the program yields.
const BYTES: usize = 1 << 16;

/// How many bytes keys and values have in all at most, each entry with 96 bytes more.
const MOST_BYTES: usize = 1 << 30;

/// How deep replies are nested.
const DEPTH: usize = 8;

fn main(rt: HostRuntime) -> ExitCode {
    match without_words(&rt, NAME) {
        Ok(()) => end(&rt, NAME, serve_standard(&rt, &rt)),
        Err(status) => status,
    }
}

/// Serves standard input. `rt` is the host as one that may wait.
fn serve_standard<R>(host: &HostRuntime, rt: &R) -> Result<(), Fault>
where
    R: Wait + RandomSource + AllocGlobal,
{
    let Ok(mut on) = BlockOn::new(rt) else {
        return Err(Fault::Memory);
    };
    let input = AssertAsync::new(host.stdin()).with_budget(BYTES);
    let Ok(reader) = BufReader::new(rt.alloc(), input) else {
        return Err(Fault::Memory);
    };
    let Ok(mut writer) = BufWriter::new(rt.alloc(), AssertAsync::new(host.stdout())) else {
        return Err(Fault::Memory);
    };
    let decoder = Requests::new(rt.alloc(), Limits::USUAL);
    let mut requests = FramedRead::new(rt.alloc(), reader, decoder);
    let mut store = Store::new(rt.alloc(), MOST_BYTES);
    let mut encoder = Replies { depth: DEPTH };
    match serve_session(
        &mut on,
        rt,
        &mut requests,
        &mut writer,
        &mut encoder,
        &mut store,
    ) {
        Ok(()) => Ok(()),
        Err(e) => Err(Fault::Served(e)),
    }
}
