//! Waiting until a reader shows bytes.
ghost use Rattle.std.specs.Prelude.{◌≡◌, List};
ghost use Rattle.futures_lite.specs.Marks.{ReadMark};
ghost use Rattle.futures_lite.specs.Own.{StepsToValue, future_by_steps};
ghost use Rattle.futures_lite.specs.Readers.{ToldStripped};
ghost use Rattle.example_http.specs.Filling.{FillStep, FilledUp};

use futures_lite::future::Waits;
use futures_lite::io::{AsyncBufRead, fill};
use futures_lite::{Context, Future, Poll};
use std::io;
use std::sync::Wait;

/// A future that is done once the reader shows bytes, or is at end of file.
#[derive(Drop)]
struct Filling<'a, T> {
    reader: &'a mut T,
}

impl<T: AsyncBufRead> Future for Filling<'_, T> {
    type Output = io::Result<()>;

    ghost run = { StepsToValue (FillStep T.reads T.buffer_of) };

    ghost registers = { λ x. T.registers x.reader.now };

    ghost laws = { future_by_steps (FillStep T.reads T.buffer_of) };

    fn poll(&mut self, cx: &mut Context<'_>) -> Poll<io::Result<()>> {
        fill(self.reader, cx)
    }
}

/// Blocks this thread, by `waits`, until the reader shows bytes. At end of file it shows none.
pub fn wait_fill<R: Wait, T: AsyncBufRead>(
    waits: &mut Waits<'_>,
    rt: &R,
    reader: &mut T,
) -> io::Result<()>
    ensures { (told : List ReadMark) × ToldStripped T.reads reader.old told reader.new
        × FilledUp told (T.buffer_of reader.new) result }
{
    waits.wait_for(rt, &mut Filling { reader })
}
