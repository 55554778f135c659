//! What polls of a future answer, in a task of their own.
ghost use Rattle.std.specs.Prelude.{IfOk};
ghost use Rattle.lite_mock.specs.Polled.{PolledUpTo};

use futures::task::{Doorbell, Solo};
use lite_base::{Future, Poll};
use std::alloc::AllocGlobal;
use std::io;
use std::random::RandomSource;

/// What the polls of a future answer, up to its value and at most `polls` of them, in a task of its own. An error is the
/// system's: no memory, or no random bytes for the task's name; what was polled before it is not told then.
pub fn polled<R, F>(rt: &R, future: &mut F, polls: usize) -> io::Result<Vec<Poll<F::Output>>>
where
    R: RandomSource + AllocGlobal,
    F: Future<Output: Drop>,
    requires { F.can_poll future.old }
    ensures { IfOk result (λ out. F.run future.old out.items future.new × PolledUpTo polls out.items) }
{
    let solo = Solo::new(rt, Doorbell::spinning())?;
    let mut out = Vec::new(rt.alloc());
    for _ in 0..polls {
        out.reserve(1)?;
        let mut cx = solo.begin();
        let answer = future.poll(&mut cx);
        cx.cancel();
        match answer {
            Poll::Pending => out.push_reserved(Poll::Pending),
            Poll::Ready(value) => {
                out.push_reserved(Poll::Ready(value));
                return Ok(out);
            }
        }
    }
    Ok(out)
}
