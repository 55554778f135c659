//! What is collected of two scripts that are merged.
ghost use Rattle.std.specs.Prelude.{IfOk, IfSome, List, Ok, Result};
ghost use Rattle.futures.specs.declared.task.Poll.{Poll};
ghost use Rattle.lite_base.specs.Answers.{Gives};
ghost use Rattle.lite_theorems.specs.Interleaving.{Interleaves, items_given};

use futures_lite::laws::{collect_or, collect_race};
use futures_lite::stream::script;
use futures_lite::{Future, Poll};
use lite_mock::polled;
use rand_core::Rng;
use std::alloc::AllocGlobal;
use std::io;
use std::random::RandomSource;

/// Collects `or` of the scripts of these answers by at most `polls` polls. What was collected is an interleaving of the
/// items of `first` before its first end and of those of `second` before its first end.
///
/// `None` says that the polls were too few, or that there was no memory for an item. An error is the system's: no memory, or
/// no random bytes for the name of the task.
pub fn or_collected<R>(
    rt: &R,
    first: Vec<Poll<Option<u8>>>,
    second: Vec<Poll<Option<u8>>>,
    polls: usize,
) -> io::Result<Option<Vec<u8>>>
where
    R: RandomSource + AllocGlobal,
    ensures { IfOk result
        (λ given. IfSome given (λ v. Interleaves (items_given first.items) (items_given second.items) v.items)) }
{
    let collection = collect_or(script(first), script(second), rt.alloc());
    given(rt, collection, polls)
}

/// The same of `race`, whatever the words of `rng` are.
pub fn race_collected<R, G>(
    rt: &R,
    first: Vec<Poll<Option<u8>>>,
    second: Vec<Poll<Option<u8>>>,
    rng: G,
    polls: usize,
) -> io::Result<Option<Vec<u8>>>
where
    R: RandomSource + AllocGlobal,
    G: Rng + Drop,
    ensures { IfOk result
        (λ given. IfSome given (λ v. Interleaves (items_given first.items) (items_given second.items) v.items)) }
{
    let collection = collect_race(script(first), script(second), rng, rt.alloc());
    given(rt, collection, polls)
}

// The value of a future that is polled at most so often, where it is no error.
fn given<R, F, V, E>(rt: &R, future: F, polls: usize) -> io::Result<Option<V>>
where
    R: RandomSource + AllocGlobal,
    F: Future<Output = Result<V, E>> + Drop,
    V: Drop,
    E: Drop,
    requires { F.can_poll future }
    ensures { IfOk result (λ given. IfSome given
        (λ v. (l : List (Poll (Result V E))) × (last : F) × F.run future l last × Gives l (Ok v))) }
{
    let mut future = future;
    let mut answers = polled(rt, &mut future, polls)?;
    match answers.pop() {
        Some(Poll::Ready(Ok(value))) => Ok(Some(value)),
        _ => Ok(None),
    }
}
