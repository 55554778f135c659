//! An HTTP/1.1 server of one connection. It reads requests from standard input, and writes responses to standard output.
//!
//! `POST /echo` returns the body of the request, with its content type. `GET /count` returns how many requests this process
//! has answered. Each other path is answered with 404, and each other method with 405 and the methods that are allowed.
//! Connections stay open, requests may be pipelined, a body may be chunked, and `Expect: 100-continue` is answered. A
//! request that cannot be read, has more than 1 MiB of body or more than 16 KiB of head is refused, and ends the connection.
//! A client that still sends then may get a reset in place of the response, because its input is left unread. The crate
//! `http_server` of the toolchain refuses versions above HTTP/1.1 with 400, and gives a response no `Date`.
//!
//! An error is one line on standard error, and the status 1.
//!
//! This line serves the port 8080 of this machine. Each connection has a process of its own:
//!
//! ```sh
//! socat TCP-LISTEN:8080,bind=127.0.0.1,reuseaddr,backlog=1024,max-children=100,fork,nodelay EXEC:out/example_http,nofork
//! ```
//!
//! `nofork` hands the program the socket itself. Without it `socat` drops the responses that it still holds when the program
//! ends with the status 1.
//!
//! `server.rt` is for any reader, writer and service. Its contract says that the server makes whole steps. In each, the
//! requests that were received are answered, and then bytes move one way. `session.rt` says of a whole session that what
//! was written answers what was read.
#![tactic(auto)]

mod echo;
mod fault;
mod filling;
mod http_error;
mod moves;
mod server;
mod session;

use echo::Echo;
use fault::ProgramError;
use futures_lite::AsyncReadExt;
use futures_lite::future::BlockOn;
use futures_lite::io::{AssertAsync, BufReader, BufWriter};
use http_server::Config;
use programs::{end, without_words};
use session::serve_session;
use std::alloc::AllocGlobal;
use std::hash::RandomState;
use std::process::ExitCode;
use std::random::RandomSource;
use std::sync::Wait;

/// The name of the program.
const NAME: &str = "example_http";

/// How many bytes are read in a row before the program yields.
const BYTES: usize = 1 << 16;

fn main(rt: HostRuntime) -> ExitCode {
    match without_words(&rt, NAME) {
        Ok(()) => end(&rt, NAME, serve_standard(&rt, &rt)),
        Err(status) => status,
    }
}

/// Serves standard input. `rt` is the host as one that may wait.
fn serve_standard<R>(host: &HostRuntime, rt: &R) -> Result<(), ProgramError>
where
    R: Wait + RandomSource + AllocGlobal,
{
    let Ok(mut on) = BlockOn::new(rt) else {
        return Err(ProgramError::Memory);
    };
    let input = AssertAsync::new(host.stdin()).with_budget(BYTES);
    let Ok(mut reader) = BufReader::new(rt.alloc(), input) else {
        return Err(ProgramError::Memory);
    };
    let Ok(mut writer) = BufWriter::new(rt.alloc(), AssertAsync::new(host.stdout())) else {
        return Err(ProgramError::Memory);
    };
    let keys = match RandomState::new(rt) {
        Ok(keys) => keys,
        Err(e) => return Err(ProgramError::Keys(e)),
    };
    let served = serve_session(
        &mut on.waits(),
        rt,
        &mut reader,
        &mut writer,
        keys,
        Config::default(),
        &mut Echo::new(),
    );
    Ok(served?)
}
