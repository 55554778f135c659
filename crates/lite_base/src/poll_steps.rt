ghost use Rattle.std.specs.Prelude.{◌≡◌, None, Option, Some, IfSome, IsSome, MatchOption, true, false};
ghost use Rattle.lite_base.specs.Uses.{Poll, Keeps, Lasting};
ghost use Rattle.lite_base.specs.Chain.{NextStep, Reaches};
ghost use Rattle.lite_base.specs.Ranks.{Terminates};
ghost use Rattle.lite_base.specs.Registered.{Registered};

use futures::task::{Context, Poll};
use std::mem;

/// A poll that is made of steps. Each step returns a poll result, or `None` to make another step.
///
/// It is how a poll loops without a count. A type defines what one step does, and why no chain of steps is
/// endless. [`drive`] makes the steps.
pub trait PollSteps {
    /// The type of the value in a `Ready` result.
    type Output;

    /// One step, and what it returned. After `None` there is another step.
    ghost step: { Self → Option (Poll Self.Output) → Self → Type 0 };

    /// The values at which a step may be made.
    ghost can_step: { Self → Type 0 };

    /// What a step that returned `Pending` and left this value has registered in its context.
    ghost step_registers: { Self → Lasting → Type 0 } = { λ _ _. ⊥ };

    /// Makes one step. `Some(result)` is the result of the poll; after `None` another step has to be made.
    fn poll_step(&mut self, cx: &mut Context<'_>) -> Option<Poll<Self::Output>>
        requires { can_step self.old }
        ensures stepped { step self.old result self.new }
        ensures registered { IfSome result (λ answer. Registered answer (step_registers self.new) cx.new) }
        ensures context { Keeps cx.old cx.new };

    /// After a step that returned `None` another may be made.
    ghost goes_on: { (x y : Self) → can_step x → step x None y → can_step y };

    /// No chain of steps that return `None` is endless.
    ghost finite: { (x : Self) → can_step x → Terminates (NextStep step) x };
}

/// Makes steps until one returns a poll result, and returns that. It is the one loop of the library that has
/// no count.
#[inline]
pub fn drive<T: PollSteps>(t: &mut T, cx: &mut Context<'_>) -> Poll<T::Output>
    requires { T.can_step t.old }
    ensures stepped { (mid : T) × Reaches (NextStep T.step) t.old mid × T.step mid (Some result) t.new }
    ensures registered { Registered result (T.step_registers t.new) cx.new }
    ensures context { Keeps cx.old cx.new }
{
    let mut out = None;
    drive_into(t, cx, &mut out);
    match out {
        Some(answer) => answer,
        None => unreachable!(),
    }
}

/// Makes steps until one returns a poll result, and puts that into `out`.
#[inline]
fn drive_into<T: PollSteps>(t: &mut T, cx: &mut Context<'_>, out: &mut Option<Poll<T::Output>>)
    requires step { T.can_step t.old }
    requires empty { out.old ≡ None }
    ensures told { IsSome out.new }
    ensures stepped { IfSome out.new (λ answer. (mid : T) × Reaches (NextStep T.step) t.old mid × T.step mid (Some answer) t.new) }
    ensures registered { IfSome out.new (λ answer. Registered answer (T.step_registers t.new) cx.new) }
    ensures context { Keeps cx.old cx.new }
{
    loop {
        if step_into(t, cx, out) {
            return;
        }
    }
}

/// Makes one step, and puts its poll result into `out`, if there is one.
#[inline]
fn step_into<T: PollSteps>(
    t: &mut T,
    cx: &mut Context<'_>,
    out: &mut Option<Poll<T::Output>>,
) -> bool
    requires step { T.can_step t.old }
    requires empty { out.old ≡ None }
    ensures stepped { T.step t.old out.new t.new }
    ensures told { MatchOption out.new (result ≡ false) (λ _. result ≡ true) }
    ensures registered { IfSome out.new (λ answer. Registered answer (T.step_registers t.new) cx.new) }
    ensures context { Keeps cx.old cx.new }
{
    let Some(answer) = t.poll_step(cx) else {
        return false;
    };
    match mem::replace(out, Some(answer)) {
        None => true,
        Some(_answer) => unreachable!(),
    }
}
