//! What becomes of each task of a list.
ghost use Rattle.std.specs.List.{AllByRecursion, filter_map};
ghost use Rattle.std.specs.Prelude.{◌≡◌, ◌+◌, ◌<◌, ◌≤◌, ◌++◌, IfErr, IfOk, length, map, vec_capacity, vec_len, ⊤};
ghost use Rattle.example_executor.specs.Outcomes.{EachOutcome, task_within};
ghost use Rattle.example_executor.specs.Tasks.{StopsWhere};

use crate::executor::run;
use crate::fault::RunError;
use crate::task::Task;
use futures_lite::future::{Exhausted, PollLimited};
use futures_lite::laws::ArmedFuture;
use futures_lite::{Future, FutureExt};
use std::alloc::{AllocError, AllocGlobal, Global};
use std::random::RandomSource;
use std::sync::Wait;

/// Polls each of the futures until it has its value, or until it was polled `polls` times. Returns their outcomes in
/// the order of the futures. The thread sleeps while no future is new or woken, and forever if nothing wakes one.
///
/// # Errors
///
/// `Memory` or `Queue`: no future was polled, and all are dropped. `TooFew` does not come, since as many values are
/// wanted as there are futures. No clause says that, since `Queue::next` has none.
pub fn run_each<R, F>(
    rt: &R,
    futures: Vec<F>,
    polls: usize,
) -> Result<Vec<Result<F::Output, Exhausted>>, RunError>
where
    R: Wait + RandomSource + AllocGlobal,
    F: ArmedFuture<Output: Drop> + Drop,
    requires { AllByRecursion F.can_poll futures.items }
    ensures each { IfOk result (λ outcomes. EachOutcome F.run polls futures.items outcomes.items) }
    ensures stopped { IfErr result (λ e. StopsWhere e (0 < length futures.items) ⊤) }
{
    let wanted = futures.len();
    // Asked for now, since the outcomes would be lost without it.
    let mut outcomes = Vec::with_capacity(rt.alloc(), wanted)?;
    let mut tasks = tasks_within(rt.alloc(), futures, polls)?;
    run(rt, &mut tasks, wanted)?;
    append_values(&mut outcomes, tasks);
    Ok(outcomes)
}

/// Makes a task of each future, with a poll limit.
fn tasks_within<F: Future + Drop>(
    alloc: Global,
    futures: Vec<F>,
    polls: usize,
) -> Result<Vec<Task<PollLimited<F>, Result<F::Output, Exhausted>>>, AllocError>
where
    F::Output: Drop,
    ensures { IfOk result (λ tasks. tasks.items ≡ map (task_within polls) futures.items) }
{
    futures
        .into_iter()
        .map(|future| Task::new(future.with_poll_limit(polls)))
        .collect(alloc)
}

/// Appends the values of the tasks that have one, in order. There is room for them.
fn append_values<F: Drop, A: Drop>(values: &mut Vec<A>, tasks: Vec<Task<F, A>>)
    requires { vec_len values.old + length tasks.items ≤ vec_capacity values.old }
    ensures { values.new.items ≡ values.old.items ++ filter_map (λ task. task.value) tasks.items }
{
    for task in tasks {
        if let Some(value) = task.into_value() {
            values.push_reserved(value);
        }
    }
}
