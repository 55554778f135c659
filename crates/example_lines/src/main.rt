//! A server of keys and values: each line of standard input is answered by a line of standard output.
//!
//! Its requests are `SET key value`, `GET key`, `DEL key`, `COUNT` and `QUIT`. A line that is cut off by the end of the input
//! is not performed. That, or a line that is too long, is answered with an error, and ends the session.
//!
//! A line that begins with `POST ` or `Host:` ends the session too, as Redis does it. A web page can send such lines to this
//! port through its visitor's browser, and the lines of the page's own that follow them must not be performed.
//!
//! An error is one line on standard error, and the status 1.
//!
//! This line serves the port 7000 of this machine. Each connection has a process and a store of its own:
//!
//! ```sh
//! socat TCP-LISTEN:7000,bind=127.0.0.1,reuseaddr,backlog=1024,max-children=100,fork,nodelay EXEC:out/example_lines,nofork
//! ```
//!
//! `nofork` hands the program the socket itself. Without it `socat` drops the replies that it still holds when the program
//! ends with the status 1.
#![tactic(auto)]

mod fault;
mod request;
mod session;
mod store;

use fault::Fault;
use framed::{FramedRead, LineDelimited};
use futures_lite::AsyncReadExt;
use futures_lite::future::BlockOn;
use futures_lite::io::{AssertAsync, BufReader, BufWriter};
use programs::{end, without_words};
use session::serve_session;
use std::alloc::AllocGlobal;
use std::process::ExitCode;
use std::random::RandomSource;
use std::sync::Wait;

/// The name of the program.
const NAME: &str = "example_lines";

/// How many bytes are read in a row before the program yields.
const BYTES: usize = 1 << 16;

/// How many bytes a line has at most.
const LIMIT: usize = 1 << 16;

fn main(rt: HostRuntime) -> ExitCode {
    match without_words(&rt, NAME) {
        Ok(()) => end(&rt, NAME, serve_standard(&rt, &rt)),
        Err(status) => status,
    }
}

/// Serves standard input. `rt` is the host as one that may wait.
fn serve_standard<R>(host: &HostRuntime, rt: &R) -> Result<(), Fault>
where
    R: Wait + RandomSource + AllocGlobal,
{
    let Ok(mut on) = BlockOn::new(rt) else {
        return Err(Fault::Memory);
    };
    let input = AssertAsync::new(host.stdin()).with_budget(BYTES);
    let Ok(reader) = BufReader::new(rt.alloc(), input) else {
        return Err(Fault::Memory);
    };
    let Ok(mut writer) = BufWriter::new(rt.alloc(), AssertAsync::new(host.stdout())) else {
        return Err(Fault::Memory);
    };
    let mut requests = FramedRead::new(rt.alloc(), reader, LineDelimited { max: LIMIT });
    match serve_session(&mut on, rt, &mut requests, &mut writer) {
        Ok(()) => Ok(()),
        Err(e) => Err(Fault::Served(e)),
    }
}
