ghost use Rattle.lite_read.specs.Uses.{ranks_of, NoHint, Sameness, SameByKind};
ghost use Rattle.lite_io_base.specs.Laws.Runs.{idle_laws};
ghost use Rattle.lite_io_base.specs.Runs.{Idle};
ghost use Rattle.lite_read.specs.Bytes.{BytesRegister, GivesBytes};
ghost use Rattle.lite_read.specs.Laws.Bytes.{bytes_counting, bytes_laws, inner_calm, inner_counting, inner_laws, inner_steady, bytes_steady};
ghost use Rattle.lite_io_base.specs.Laws.Armed.{arms_marks_part};
ghost use Rattle.lite_read.specs.Laws.Armed.{bytes_arms};

use lite_base::{ArmedStream, Context, Counted, OkCounted, Poll, SteadyStream, Stream};
use lite_io_base::{ArmedRead, AsyncRead, CalmRead, CountedRead, ReadSpec, SteadyRead, WriteSpec};
use std::io::{ErrorKind, IoSliceMut};
use std::{fmt, io};

/// A stream of the bytes of a reader.
///
/// Returned by [`bytes`](crate::make::bytes). Each poll reads one byte. An error of the reader is an `Err`
/// item, after which the stream may be polled again. An error of the kind `Interrupted` is not an item: it
/// wakes the task and returns `Pending`. The stream ends when the reader does. It is a reader too, which
/// reads as the inner reader does. Size hint: `(0, None)`.
#[derive(Drop)]
pub struct Bytes<R> {
    pub(crate) inner: R,
    // Whether the last `Pending` was an interruption, so that it woke the task.
    pub(crate) interrupted: bool,
}

impl<R: fmt::Debug> fmt::Debug for Bytes<R> {
    fn fmt<W: fmt::Write>(&self, f: &mut fmt::Formatter<W>) -> fmt::Result {
        f.debug_struct("Bytes").field("inner", &self.inner).finish()
    }
}

impl<R: AsyncRead> Stream for Bytes<R> {
    type Item = io::Result<u8>;

    ghost run = { GivesBytes R.reads };

    ghost registers = { BytesRegister R.registers };

    ghost hints = { NoHint };

    ghost laws = { bytes_laws R.read_laws };

    fn poll_next(&mut self, cx: &mut Context<'_>) -> Poll<Option<io::Result<u8>>> {
        let mut byte = [0];
        match self.inner.poll_read(cx, &mut byte) {
            Poll::Ready(Ok(0)) => Poll::Ready(None),
            Poll::Ready(Ok(_)) => Poll::Ready(Some(Ok(byte[0]))),
            Poll::Ready(Err(e)) => match e.kind() {
                ErrorKind::Interrupted => {
                    self.interrupted = true;
                    cx.yield_now()
                }
                _ => Poll::Ready(Some(Err(e))),
            },
            Poll::Pending => {
                self.interrupted = false;
                Poll::Pending
            }
        }
    }

    fn size_hint(&self) -> (usize, Option<usize>) {
        (0, None)
    }
}

impl<R: CountedRead> Counted for Bytes<R> {
    ghost ranks = { ranks_of (λ x. x.inner) R.ranks };

    ghost counting = { bytes_counting R.counting };
}

impl<R: CountedRead> OkCounted for Bytes<R> {
    ghost use Rattle.lite_base.specs.Laws.Ranks.{ok_counting};

    type Ok = u8;

    type Err = io::Error;

    ghost ok_ranks = { ranks_of (λ x. x.inner) R.ranks };

    ghost ok_counting = { ok_counting (bytes_counting R.counting) };
}

impl<R: SteadyRead> SteadyStream for Bytes<R> {
    ghost ample = { GivesBytes R.ample };

    ghost needs_none = { R.needs_none };

    ghost same = { Sameness.by SameByKind };

    ghost alike = { λ x y. R.alike x.inner y.inner };

    ghost steady = { bytes_steady R.steady };
}

impl<R: ArmedRead> ArmedStream for Bytes<R> {
    ghost armed = { bytes_arms R.armed };
}

impl<R: ReadSpec> ReadSpec for Bytes<R> {
    ghost reads = { λ x l y. R.reads x.inner l y.inner };

    ghost read_laws = { inner_laws R.read_laws };
}

// It is not written to.
impl<R> WriteSpec for Bytes<R> {
    ghost writes = { Idle };

    ghost write_laws = { idle_laws };
}

impl<R: AsyncRead> AsyncRead for Bytes<R> {
    ghost registers = { λ x. R.registers x.inner };

    fn poll_read(&mut self, cx: &mut Context<'_>, buf: &mut [u8]) -> Poll<io::Result<usize>> {
        self.inner.poll_read(cx, buf)
    }

    fn poll_read_vectored(
        &mut self,
        cx: &mut Context<'_>,
        bufs: &mut [IoSliceMut<'_>],
    ) -> Poll<io::Result<usize>> {
        self.inner.poll_read_vectored(cx, bufs)
    }
}

impl<R: CountedRead> CountedRead for Bytes<R> {
    ghost ranks = { ranks_of (λ x. x.inner) R.ranks };

    ghost counting = { inner_counting R.counting };
}

// As a reader.
impl<R: SteadyRead> SteadyRead for Bytes<R> {
    ghost ample = { λ x l y. R.ample x.inner l y.inner };

    ghost needs_none = { R.needs_none };

    ghost alike = { λ x y. R.alike x.inner y.inner };

    ghost steady = { inner_steady R.steady };
}

// As a reader.
impl<R: CalmRead> CalmRead for Bytes<R> {
    ghost is_calm = { λ x. R.is_calm x.inner };

    ghost calm = { inner_calm R.calm };
}

impl<R: ArmedRead> ArmedRead for Bytes<R> {
    ghost armed = { arms_marks_part (λ x. x.inner) (λ x y l h. h) R.armed };
}
