//! A small executor, on this thread.
ghost use Rattle.std.specs.List.{AllByRecursion};
ghost use Rattle.std.specs.Prelude.{◌≡◌, ◌+◌, ◌<◌, IfErr, OnOk};
ghost use Rattle.example_executor.specs.Tasks.{EachRan, MayRun, StopsWhere, TaskRan};
ghost use Rattle.example_executor.specs.Tasks.{finished, one_if_some, one_more_if};

use crate::fault::RunError;
use crate::task::Task;
use futures::task::{Doorbell, Queue};
use futures_lite::laws::ArmedFuture;
use futures_lite::{Context, Poll, future};
use std::alloc::AllocGlobal;
use std::random::RandomSource;
use std::sync::Wait;

/// Polls the futures until so many more of them have their values: each new one, and then each one whose context was
/// woken. The thread sleeps while there is none, and forever if nothing wakes those that are left. Each value is one
/// that the task's own future gave. [`RunError`] says what an error leaves.
pub fn run<R, F>(rt: &R, tasks: &mut [Task<F, F::Output>], wanted: usize) -> Result<(), RunError>
where
    R: Wait + RandomSource + AllocGlobal,
    F: ArmedFuture<Output: Drop>,
    requires { AllByRecursion (MayRun F.can_poll) tasks.old }
    ensures ran { EachRan F.run tasks.old tasks.new }
    ensures came { OnOk result (finished tasks.new ≡ wanted + finished tasks.old) }
    ensures stopped { IfErr result (λ e. StopsWhere e (finished tasks.new < wanted + finished tasks.old) (tasks.new ≡ tasks.old)) }
{
    let queue = match Queue::new(rt, Doorbell::parking()) {
        Ok(queue) => queue,
        Err(e) => return Err(RunError::Queue(e)),
    };
    for _ in 0..tasks.len() {
        let Ok(place) = queue.add() else {
            return Err(RunError::Memory);
        };
        place.schedule();
    }
    let mut left = wanted;
    for _ in rt.forever() {
        if left == 0 {
            return Ok(());
        }
        let Some(cx) = queue.next(rt) else {
            return Err(RunError::TooFew);
        };
        if poll_at(tasks, cx) {
            left -= 1;
        }
    }
    unreachable!()
}

/// Polls the task of this context, and says whether it has its value now.
fn poll_at<F: ArmedFuture<Output: Drop>>(tasks: &mut [Task<F, F::Output>], cx: Context<'_>) -> bool
    requires { AllByRecursion (MayRun F.can_poll) tasks.old }
    ensures ran { EachRan F.run tasks.old tasks.new }
    ensures came { finished tasks.new ≡ one_more_if result (finished tasks.old) }
    ensures again { AllByRecursion (MayRun F.can_poll) tasks.new }
{
    let at = cx.task();
    if at < tasks.len() {
        return poll_one(&mut tasks[at], cx);
    }
    cx.cancel();
    false
}

/// Polls a task that has no value yet, and ends or parks it; says whether it has its value now.
fn poll_one<F: ArmedFuture<Output: Drop>>(
    task: &mut Task<F, F::Output>,
    mut cx: Context<'_>,
) -> bool
    requires { MayRun F.can_poll task.old }
    ensures ran { TaskRan F.run task.old task.new }
    ensures came { one_if_some task.new.value ≡ one_more_if result (one_if_some task.old.value) }
    ensures again { MayRun F.can_poll task.new }
{
    if task.value.is_some() {
        cx.cancel();
        return false;
    }
    match future::poll_armed(&mut task.future, &mut cx) {
        Poll::Ready(value) => {
            task.value = Some(value);
            cx.cancel();
            true
        }
        Poll::Pending => {
            cx.park();
            false
        }
    }
}
