//! A stream of a caller's own.
ghost use Rattle.std.specs.Prelude.{⊤, ◌≡◌, None};
ghost use Rattle.std.specs.List.{FoldsTo};
ghost use Rattle.lite_base.specs.Laws.Steady.{steady_always};
ghost use Rattle.lite_base.specs.Runs.{NoHint};
ghost use Rattle.nests_agree.specs.Paced.{PacedStep, paced_alike};
ghost use Rattle.lite_source.specs.Laws.Folds.{folds_laws};
ghost use Rattle.nests_agree.specs.Both.{Begins, BothAppended};

use crate::both::{TwoRuns, both_appended};
use lite_base::{Context, Poll, SteadyStream, Stream};
use std::alloc::AllocError;

/// Gives one item for ever, and is pending before each. It does not see to being polled again.
#[derive(Drop)]
pub struct Paced {
    pub item: u8,
    /// The next poll is pending.
    pub waits: bool,
}

impl Stream for Paced {
    type Item = u8;

    ghost run = { FoldsTo PacedStep };

    ghost hints = { NoHint };

    ghost laws = { folds_laws (λ x. x) PacedStep (λ x y e. e) 0 (λ x y l c h. tt) };

    fn poll_next(&mut self, _cx: &mut Context<'_>) -> Poll<Option<u8>> {
        if self.waits {
            self.waits = false;
            return Poll::Pending;
        }
        self.waits = true;
        Poll::Ready(Some(self.item))
    }

    fn size_hint(&self) -> (usize, Option<usize>) {
        (0, None)
    }
}

impl SteadyStream for Paced {
    ghost ample = { FoldsTo PacedStep };

    ghost alike = { λ x y. y.item ≡ x.item };

    ghost steady = { steady_always (folds_laws (λ x. x) PacedStep (λ x y e. e) {can_poll = λ _. ⊤} 0 (λ x y l c h. tt)) paced_alike };
}

/// Runs two such streams of one item, whether the next poll of each is pending or not. The answers of the two runs are
/// the same, pendings aside, as far as both go. `Err` where memory for an answer is refused: then fewer were appended.
pub fn paces_agree(
    x: &mut Paced,
    y: &mut Paced,
    cx: &mut Context<'_>,
    runs: &mut TwoRuns<u8>,
) -> Result<(), AllocError>
    requires { y.old.item ≡ x.old.item }
    ensures { BothAppended Begins runs.old runs.new result }
{
    both_appended(x, y, cx, runs)
}
