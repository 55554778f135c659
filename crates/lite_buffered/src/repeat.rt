ghost use Rattle.std.specs.Prelude.{◌≡◌, ◌≤◌, ⊤, Ok, length, IfOk};
ghost use Rattle.lite_buffered.specs.Uses.{IfReady, Keeps, read_marks, Idle, idle_laws, Registered};
ghost use Rattle.lite_buffered.specs.Repeat.{RepeatsByte, byte_of};
ghost use Rattle.lite_buffered.specs.Laws.Repeat.{repeats_laws, repeat_calm, repeat_steady};
ghost use Rattle.lite_io_base.specs.Laws.Armed.{arms_marks_always};

use lite_base::{Context, Poll};
use lite_io_base::{ArmedRead, AsyncRead, CalmRead, ReadSpec, SteadyRead, WriteSpec};
use std::io;

/// A reader that gives one byte for ever: each read fills its whole buffer.
///
/// Returned by [`repeat`](crate::make::repeat).
#[derive(Clone, Copy, Debug)]
pub struct Repeat {
    byte: u8,
}

impl Repeat {
    pub(crate) fn new(byte: u8) -> Repeat
        ensures { byte_of result ≡ byte }
    {
        Repeat { byte }
    }
}

impl ReadSpec for Repeat {
    ghost reads = { RepeatsByte };

    ghost read_laws = { repeats_laws };
}

// It is not written to.
impl WriteSpec for Repeat {
    ghost writes = { Idle };

    ghost write_laws = { idle_laws };
}

impl AsyncRead for Repeat {
    // It is never pending.
    ghost registers = { λ _ _. ⊤ };

    fn poll_read(&mut self, _cx: &mut Context<'_>, buf: &mut [u8]) -> Poll<io::Result<usize>>
        ensures bound { IfReady result (λ r. IfOk r (λ n. n ≤ length buf.new)) }
        ensures ran { RepeatsByte self.old (read_marks result buf.new) self.new }
        ensures full { result ≡ Poll.Ready (Ok (length buf.old)) }
        ensures registered { Registered result (λ _. ⊤) _cx.new }
        ensures context { Keeps _cx.old _cx.new }
    {
        buf.fill(self.byte);
        Poll::Ready(Ok(buf.len()))
    }
}

impl SteadyRead for Repeat {
    ghost ample = { RepeatsByte };

    ghost alike = { λ x y. x.byte ≡ y.byte };

    ghost steady = { repeat_steady };
}

// It is never pending.
impl CalmRead for Repeat {
    ghost is_calm = { λ _. ⊤ };

    ghost calm = { repeat_calm };
}

impl ArmedRead for Repeat {
    ghost armed = { arms_marks_always };
}
