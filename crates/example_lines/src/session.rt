//! A whole session of the server.
ghost use Rattle.std.specs.Prelude.{◌≡◌, []};
ghost use Rattle.framed.specs.Frames.{reading};
ghost use Rattle.example_lines.specs.Session.{LineSessionEnds, LinesServed};

use crate::store::Store;
use framed::{FrameError, FramedRead, LineDelimited, ServeError, serve};
use futures_lite::future::BlockOn;
use futures_lite::io::{AsyncBufRead, AsyncWrite, CountedRead};
use std::alloc::AllocGlobal;
use std::sync::Wait;

/// Answers each line of `requests`, from a store that holds nothing at first.
///
/// The replies depend on the lines alone, however their bytes come. No line without its newline is performed.
///
/// # Errors
///
/// Those of [`serve`]. At an error of the input the lines before it were answered, and the last words to it are written.
pub fn serve_session<R, T, O>(
    on: &mut BlockOn,
    rt: &R,
    requests: &mut FramedRead<T, LineDelimited>,
    replies: &mut O,
) -> Result<(), ServeError<FrameError, FrameError>>
where
    R: Wait + AllocGlobal,
    T: AsyncBufRead + CountedRead,
    O: AsyncWrite,
    requires counts { T.ranks.counts requests.old.reader }
    requires fresh { (requests.old.phase ≡ reading) × (requests.old.held ≡ []) }
    ensures ends { LinesServed T.reads T.buffer_of O.writes requests.old replies.old requests.new replies.new result }
    ensures said { LineSessionEnds T.reads O.writes requests.old replies.old requests.new replies.new result }
{
    let mut store = Store::new(rt.alloc());
    let mut encoder = LineDelimited { max: usize::MAX };
    serve(on, rt, requests, replies, &mut encoder, &mut store)
}
