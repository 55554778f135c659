//! A loop over `Ok` items, as a caller's own poll makes it.
ghost use Rattle.std.specs.Prelude.{◌≡◌, []};
ghost use Rattle.futures.specs.Task.{Keeps};
ghost use Rattle.lite_base.specs.Laws.Ranks.{Terminates-map};
ghost use Rattle.nests_polled.specs.TryCount.{CountsUntil, TrySteps};

use lite_base::{Context, OkCounted, Poll, PollSteps, Stream, drive};

/// Counts the `Ok` items of a stream until there is an error or an end.
#[derive(Drop)]
pub struct TryCount<S> {
    pub(crate) stream: S,
    pub(crate) n: u64,
}

impl<S> TryCount<S> {
    /// Counts from 0.
    pub fn new(stream: S) -> TryCount<S>
        ensures { result ≡ record { stream = stream; n = 0 } }
    {
        TryCount { stream, n: 0 }
    }
}

impl<S: OkCounted<Ok: Drop>> PollSteps for TryCount<S> {
    type Output = Result<u64, S::Err>;

    ghost can_step = { λ m. S.can_poll m.stream × S.ok_ranks.counts m.stream };

    ghost step = { TrySteps S.run (λ s. S.can_poll s × S.ok_ranks.counts s) };

    ghost step_registers = { λ m. S.registers m.stream };

    ghost goes_on = { λ x y c h. h.0 };

    ghost finite = { λ x c. Terminates-map (λ m. m.stream) (λ m n h. (h.1.0, [], h.1.1)) x (S.ok_ends x.stream c.1) };

    fn poll_step(&mut self, cx: &mut Context<'_>) -> Option<Poll<Result<u64, S::Err>>> {
        match self.stream.poll_next(cx) {
            Poll::Ready(Some(Ok(_))) => {
                self.n = self.n.wrapping_add(1);
                None
            }
            Poll::Ready(Some(Err(error))) => Some(Poll::Ready(Err(error))),
            Poll::Ready(None) => Some(Poll::Ready(Ok(self.n))),
            Poll::Pending => Some(Poll::Pending),
        }
    }
}

/// Goes on over `Ok` items until there is an error, which it answers, an end, at which it answers how many `Ok` items
/// there were, or a pending.
pub fn poll_count<S: OkCounted<Ok: Drop>>(
    count: &mut TryCount<S>,
    cx: &mut Context<'_>,
) -> Poll<Result<u64, S::Err>>
    requires can_poll { S.can_poll count.old.stream }
    requires counts { S.ok_ranks.counts count.old.stream }
    ensures counted { CountsUntil S.run count.old result count.new }
    ensures again { S.can_poll count.new.stream × S.ok_ranks.counts count.new.stream }
    ensures context { Keeps cx.old cx.new }
{
    drive(count, cx)
}
