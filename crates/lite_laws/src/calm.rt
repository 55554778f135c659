ghost use Rattle.std.specs.Prelude.{◌≡◌, ◌+◌, ◌<◌, ◌++◌, List, length, vec_capacity, vec_len, IfOk, IfErr};
ghost use Rattle.lite_laws.specs.Uses.{Keeps, Answer};
ghost use Rattle.lite_base.specs.Calm.{NoPending};

use crate::polls::run;
use lite_base::{CalmStream, Context, Poll};
use std::alloc::AllocError;

/// Polls a stream `polls` times and appends each result to `out`. None of them is `Pending`.
///
/// The caller guarantees that the stream is in a calm state, as [`CalmStream`] defines it, and may be polled.
/// It is in a calm state afterwards. `Ok` and `AllocError` are those of [`run`](crate::run).
///
/// # Examples
///
/// ```
/// use futures_lite::{Doorbell, Poll, Solo, laws, stream};
///
/// let mut numbers = stream::iter(1u8..3);
/// let solo = Solo::new(&rt, Doorbell::spinning())?;
/// let mut answers = Vec::new(rt.alloc());
///
/// let mut cx = solo.begin();
/// let ran = laws::run_calm(&mut numbers, &mut cx, 3, &mut answers);
/// cx.cancel();
///
/// ran?;
/// let expected = [Poll::Ready(Some(1)), Poll::Ready(Some(2)), Poll::Ready(None)];
/// assert_eq!(rt; answers.as_slice(), expected.as_slice());
/// ```
pub fn run_calm<S: CalmStream>(
    s: &mut S,
    cx: &mut Context<'_>,
    polls: usize,
    out: &mut Vec<Poll<Option<S::Item>>>,
) -> Result<(), AllocError>
    requires can { S.can_poll s.old }
    requires calm { S.is_calm s.old }
    ensures no_pending { (l : List (Answer S.Item)) × (out.new.items ≡ out.old.items ++ l) × S.run s.old l s.new × NoPending l
        × IfOk result (λ _. length l ≡ polls) × IfErr result (λ _. length l < polls) }
    ensures full { IfErr result (λ _. vec_capacity out.old < vec_len out.old + polls) }
    ensures again { S.can_poll s.new × S.is_calm s.new }
    ensures context { Keeps cx.old cx.new }
{
    run(s, cx, polls, out)
}
