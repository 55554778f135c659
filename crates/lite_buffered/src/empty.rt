ghost use Rattle.std.specs.Prelude.{[], ◌≡◌, ⊤};
ghost use Rattle.lite_buffered.specs.Uses.{Idle, idle_laws, strip_marks};
ghost use Rattle.lite_base.specs.Ranks.{number_ranks};
ghost use Rattle.lite_io_base.specs.Laws.Counting.{number_counting};
ghost use Rattle.lite_io_base.specs.Laws.Known.{told_known, told_falls, told_laws};
ghost use Rattle.lite_io_base.specs.Laws.Steady.{told_calm, told_steady};
ghost use Rattle.lite_io_base.specs.Known.{ReadsScript};
ghost use Rattle.lite_io_base.specs.Laws.Armed.{arms_marks_always};

use lite_base::{Context, Poll};
use lite_io_base::{
    ArmedRead, AsyncBufRead, AsyncRead, CalmRead, CountedRead, ReadSpec, SteadyRead, WriteSpec,
};
use std::{fmt, io};

/// A reader that is always at end of file.
///
/// Returned by [`empty`](crate::make::empty).
#[derive(Clone, Copy)]
pub struct Empty {}

impl fmt::Debug for Empty {
    fn fmt<W: fmt::Write>(&self, f: &mut fmt::Formatter<W>) -> fmt::Result {
        f.debug_struct("Empty").finish_non_exhaustive()
    }
}

impl Empty {
    pub(crate) fn new() -> Empty {
        Empty {}
    }
}

impl ReadSpec for Empty {
    ghost reads = { λ x l y. ReadsScript [] l [] };

    ghost read_laws = { told_laws (λ x. []) };

    ghost known = { told_known (λ x. []) };
}

// It is not written to.
impl WriteSpec for Empty {
    ghost writes = { Idle };

    ghost write_laws = { idle_laws };
}

impl AsyncRead for Empty {
    // It is never pending.
    ghost registers = { λ _ _. ⊤ };

    fn poll_read(&mut self, _cx: &mut Context<'_>, _buf: &mut [u8]) -> Poll<io::Result<usize>> {
        Poll::Ready(Ok(0))
    }
}

impl AsyncBufRead for Empty {
    ghost buffer_of = { λ x. [] };

    ghost shows = { λ x y l h. tt };

    fn poll_fill_buf(&mut self, _cx: &mut Context<'_>) -> Poll<io::Result<&[u8]>> {
        Poll::Ready(Ok(&[]))
    }

    fn buffer(&self) -> &[u8] {
        &[]
    }

    fn consume(&mut self, _amount: usize) {}
}

impl CountedRead for Empty {
    ghost ranks = { number_ranks (λ x. 0) };

    ghost counting = { number_counting (λ x y. told_falls [] []) };
}

impl SteadyRead for Empty {
    ghost ample = { λ x l y. ReadsScript [] l [] };

    ghost alike = { λ x y. strip_marks [] ≡ strip_marks [] };

    ghost steady = { told_steady (λ x. []) };
}

// It is never pending.
impl CalmRead for Empty {
    ghost is_calm = { λ _. ⊤ };

    ghost calm = { told_calm (λ x. []) };
}

impl ArmedRead for Empty {
    ghost armed = { arms_marks_always };
}
