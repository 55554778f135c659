//! A reader that hands on what another reads.
ghost use Rattle.std.specs.Prelude.{◌≡◌, map};
ghost use Rattle.std.specs.Char.{to_ascii_uppercase};
ghost use Rattle.futures_lite.specs.Own.{HandsOn, handing_counting, reader_handing};
ghost use Rattle.futures_lite.specs.Ranks.{ranks_of};
ghost use Rattle.example_own.specs.Upper.{upper_inner};

use futures_lite::io::{AsyncRead, CountedRead, ReadSpec};
use futures_lite::{Context, Poll};
use std::io;

/// Reads what `inner` reads, in upper case.
#[derive(Drop)]
pub struct Upper<R> {
    pub inner: R,
}

impl<R: ReadSpec> ReadSpec for Upper<R> {
    ghost reads = { HandsOn upper_inner to_ascii_uppercase R.reads };

    ghost read_laws = { reader_handing R.read_laws };
}

impl<R: AsyncRead> AsyncRead for Upper<R> {
    ghost registers = { λ x. R.registers x.inner };

    #[tactic(auto, using(futures_lite::specs::Own::hands_read))]
    fn poll_read(&mut self, cx: &mut Context<'_>, buf: &mut [u8]) -> Poll<io::Result<usize>> {
        match self.inner.poll_read(cx, buf) {
            Poll::Ready(Ok(n)) => {
                make_upper(&mut buf[..n]);
                Poll::Ready(Ok(n))
            }
            Poll::Ready(Err(e)) => Poll::Ready(Err(e)),
            Poll::Pending => Poll::Pending,
        }
    }
}

// Its rank is the inner reader's, since as many bytes and errors go out as came in.
impl<R: CountedRead> CountedRead for Upper<R> {
    ghost ranks = { ranks_of upper_inner R.ranks };

    ghost counting = { handing_counting R.counting };
}

fn make_upper(bytes: &mut [u8])
    ensures { bytes.new ≡ map to_ascii_uppercase bytes.old }
{
    bytes.make_ascii_uppercase();
}
