ghost use Rattle.std.specs.Prelude.{◌≡◌, ◌+◌, ◌<◌, ◌⊎◌, ◌++◌, List, length, vec_capacity, vec_len, IfOk, IfErr};
ghost use Rattle.lite_laws.specs.Uses.{Keeps, Answer};
ghost use Rattle.lite_laws.specs.Both.{Agreed, Fewer};
ghost use Rattle.lite_laws.specs.Waits.{HoldsEach, IfWaits};

use crate::polls::run;
use lite_base::{Context, Poll, SteadyStream};
use std::alloc::AllocError;

/// Polls two streams, and appends what each returns to a list of its own.
///
/// The first is polled `polls` times, and the second `more` times. The caller guarantees that the two are
/// alike, as [`SteadyStream`] defines it, and that both may be polled. Then one of the two lists begins the
/// other, apart from `Pending`, unless memory was refused. Items are compared with the stream's `same`, which
/// is equality by default.
///
/// If the last result of a run is `Pending`, the context holds what that stream registered. On `Ok` all
/// results were appended. `AllocError` means that there was no room for one more result. Then either the
/// first list is short, and the second stream was not polled, or the second list alone is short. It does not
/// occur if both lists have room. Each stream can be polled again afterwards.
///
/// # Examples
///
/// ```
/// use futures_lite::{Doorbell, Poll, Solo, laws, stream};
///
/// let mut plain = stream::script(vec![in rt.alloc(); Poll::Ready(Some(1u8))]?);
/// let mut late = stream::script(vec![in rt.alloc(); Poll::Pending, Poll::Ready(Some(1u8))]?);
/// let solo = Solo::new(&rt, Doorbell::spinning())?;
/// let (mut first, mut second) = (Vec::new(rt.alloc()), Vec::new(rt.alloc()));
///
/// let mut cx = solo.begin();
/// let ran = laws::run_both(&mut plain, &mut late, &mut cx, 2, 2, &mut first, &mut second);
/// cx.cancel();
///
/// ran?;
/// assert_eq!(rt; first.as_slice(), [Poll::Ready(Some(1)), Poll::Ready(None)].as_slice());
/// assert_eq!(rt; second.as_slice(), [Poll::Pending, Poll::Ready(Some(1))].as_slice());
/// ```
pub fn run_both<S: SteadyStream>(
    x: &mut S,
    y: &mut S,
    cx: &mut Context<'_>,
    polls: usize,
    more: usize,
    out: &mut Vec<Poll<Option<S::Item>>>,
    out_more: &mut Vec<Poll<Option<S::Item>>>,
) -> Result<(), AllocError>
    requires first { S.can_poll x.old }
    requires second { S.can_poll y.old }
    requires alike { S.alike x.old y.old }
    ensures agree { (l m : List (Answer S.Item)) × (out.new.items ≡ out.old.items ++ l)
        × (out_more.new.items ≡ out_more.old.items ++ m)
        × Agreed S.same S.run S.ample S.needs_none x.old l x.new y.old m y.new
        × IfOk result (λ _. (length l ≡ polls) × (length m ≡ more))
        × IfWaits l (HoldsEach (S.registers x.new) cx.new) × IfWaits m (HoldsEach (S.registers y.new) cx.new)
        × IfErr result (λ _. Fewer l m polls more) }
    ensures full { IfErr result
        (λ _. (vec_capacity out.old < vec_len out.old + polls)
        ⊎ (vec_capacity out_more.old < vec_len out_more.old + more)) }
    ensures again { S.can_poll x.new × S.can_poll y.new }
    ensures context { Keeps cx.old cx.new }
{
    run(x, cx, polls, out)?;
    run(y, cx, more, out_more)
}
