ghost use Rattle.std.specs.Prelude.{◌≡◌, IfOk, List, None, length};
ghost use Rattle.lite_source.specs.Uses.{AllZip, ok_counting, number_ranks, number_counting, NoHint, strip, steady_always, NoPending};
ghost use Rattle.lite_source.specs.Laws.Script.{gives_calm, gives_lowers, gives_steady, script_laws};
ghost use Rattle.lite_source.specs.Script.{GivesScript, IsCloneBy};

use lite_base::{CalmStream, Context, Counted, OkCounted, Poll, SteadyStream, Stream};
use std::alloc::AllocError;
use std::collections::VecDeque;
use std::marker::Model;

/// A stream whose polls return given results in order, and after them `Ready(None)` for ever.
///
/// Returned by [`script`](crate::make::script). A contract sees it as the list of the results that are left.
#[derive(Debug, Drop)]
pub struct Script<T> {
    answers: VecDeque<Poll<Option<T>>>,
}

impl<T> Model for Script<T> {
    ghost use Rattle.std.specs.Prelude.{List};
    ghost use Rattle.lite_source.specs.Uses.{Answer};

    ghost Value = { List (Answer T) };

    ghost view = { λ s. s.answers.items };
}

impl<T> Script<T> {
    pub(crate) fn new(answers: Vec<Poll<Option<T>>>) -> Script<T>
        ensures { result ≡ answers.items }
    {
        Script {
            answers: VecDeque::from(answers),
        }
    }
}

fn clone_answer<T: Clone>(answer: &Poll<Option<T>>) -> Result<Poll<Option<T>>, AllocError>
    ensures { IfOk result (IsCloneBy T.is_clone answer.now) }
{
    match answer {
        Poll::Pending => Ok(Poll::Pending),
        Poll::Ready(None) => Ok(Poll::Ready(None)),
        Poll::Ready(Some(item)) => Ok(Poll::Ready(Some(item.clone()?))),
    }
}

impl<T: Clone> Clone for Script<T> {
    ghost is_clone = { AllZip (IsCloneBy T.is_clone) };

    fn clone(&self) -> Result<Script<T>, AllocError> {
        let mut answers = Vec::with_capacity(*self.answers.allocator(), self.answers.len())?;
        for answer in &self.answers {
            answers.push(clone_answer(answer)?)?;
        }
        Ok(Script::new(answers))
    }
}

impl<T> Stream for Script<T> {
    type Item = T;

    ghost run = { GivesScript };

    ghost hints = { NoHint };

    ghost laws = { script_laws };

    fn poll_next(&mut self, _cx: &mut Context<'_>) -> Poll<Option<T>> {
        match self.answers.pop_front() {
            Some(answer) => answer,
            None => Poll::Ready(None),
        }
    }

    fn size_hint(&self) -> (usize, Option<usize>) {
        (0, None)
    }
}

impl<T> Counted for Script<T> {
    ghost ranks = { number_ranks length };

    ghost counting = { number_counting gives_lowers };
}

impl<T, E> OkCounted for Script<Result<T, E>> {
    type Ok = T;

    type Err = E;

    ghost ok_ranks = { number_ranks length };

    ghost ok_counting = { ok_counting (number_counting gives_lowers) };
}

impl<T> SteadyStream for Script<T> {
    ghost ample = { GivesScript };

    ghost alike = { λ x y. strip x ≡ strip y };

    ghost steady = { steady_always script_laws gives_steady };
}

impl<T> CalmStream for Script<T> {
    ghost is_calm = { NoPending };

    ghost calm = { gives_calm };
}
