//! Blocking waits for a future.
ghost use Rattle.std.specs.Prelude.{◌≡◌, IfOk, IsOk, List, OnErr};
ghost use Rattle.lite_base.specs.Uses.{Poll};
ghost use Rattle.lite_base.specs.Answers.{Gives};
ghost use Rattle.lite_base.specs.Spent.{Finishes};

use super::{Future, Waiter, Waits};
use crate::Poll;
use futures::task::{Doorbell, Queue, Source, Waker};
use std::alloc::{AllocError, AllocGlobal};
use std::fmt;
use std::io::ErrorKind;
use std::random::RandomSource;
use std::sync::Wait;

/// Blocks this thread until `future` is ready, and returns its value.
pub fn block_on<R, F>(rt: &R, future: F) -> Result<F::Output, AllocError>
where
    R: Wait + RandomSource + AllocGlobal,
    F: Future + Drop,
    requires { F.can_poll future }
    ensures { IfOk result (λ value. (ins : List (Poll F.Output)) × Finishes F.run future ins value) }
{
    BlockOn::new(rt)?.block_on(rt, future)
}

/// What a thread sleeps on while it waits for a future.
///
/// It serves any number of futures, one after another. It allocates when it is made, and not for each wait.
/// Unlike futures-lite, which caches this for each thread, the caller keeps it.
///
/// # Examples
///
/// ```
/// use futures_lite::future::{self, BlockOn};
///
/// let mut on = BlockOn::new(&rt)?;
/// for number in 0..3u8 {
///     on.block_on(&rt, future::yield_now())?;
///     assert_eq!(rt; on.block_on(&rt, future::ready(number))?, number);
/// }
/// ```
#[derive(Drop)]
pub struct BlockOn {
    // It has one task, which is queued between two calls. A queue that gets its first task rings its doorbell, and a ring
    // that nobody sleeps for stays there: with a task for each call a later sleep would end once for each of them.
    queue: Queue,
    // Each task waits here too, so that it may be parked after any pending poll.
    source: Source,
    slot: Option<Waker>,
}

impl fmt::Debug for BlockOn {
    fn fmt<W: fmt::Write>(&self, f: &mut fmt::Formatter<W>) -> fmt::Result {
        f.debug_struct("BlockOn").finish_non_exhaustive()
    }
}

impl BlockOn {
    /// Returns a `BlockOn`, and allocates all that its waits need.
    ///
    /// It needs random bytes for the queue's name, and retries until the system supplies them. If the system
    /// never does, the call never returns. `AllocError` is an allocation failure.
    ///
    /// # Examples
    ///
    /// ```
    /// use futures_lite::future::{self, BlockOn};
    ///
    /// let mut on = BlockOn::new(&rt)?;
    /// assert_eq!(rt; on.block_on(&rt, future::ready(7u8))?, 7);
    /// ```
    pub fn new<R>(rt: &R) -> Result<BlockOn, AllocError>
    where
        R: Wait + RandomSource + AllocGlobal,
    {
        let queue = named_queue(rt)?;
        queue.add()?.schedule();
        Ok(BlockOn {
            queue,
            source: Source::new(),
            slot: None,
        })
    }

    /// Blocks this thread until `future` is ready, and returns its value.
    ///
    /// It may wait for ever. The call is [`wait_for`](BlockOn::wait_for), and drops the future afterwards. It
    /// never returns `Err`. The caller guarantees that `future` may be polled.
    ///
    /// # Examples
    ///
    /// ```
    /// use futures_lite::future::{self, BlockOn};
    ///
    /// let mut on = BlockOn::new(&rt)?;
    /// let both = future::zip(future::yield_now(), future::ready(7u8));
    /// assert_eq!(rt; on.block_on(&rt, both)?, ((), 7));
    /// ```
    pub fn block_on<R: Wait, F: Future + Drop>(
        &mut self,
        rt: &R,
        mut future: F,
    ) -> Result<F::Output, AllocError>
        requires { F.can_poll future }
        ensures gave { IfOk result (λ value. (ins : List (Poll F.Output)) × Finishes F.run future ins value) }
        ensures waited { IsOk result }
    {
        self.wait_for(rt, &mut future)
    }

    /// Blocks this thread until `future` is ready, and returns its value. The future stays with the caller.
    ///
    /// After a poll that returns `Pending` the thread sleeps until the context of that poll is woken. If
    /// nothing wakes it, it sleeps for ever. The call never returns `Err`, because [`new`](BlockOn::new)
    /// allocated what a wait needs. The caller guarantees that `future` may be polled.
    ///
    /// # Examples
    ///
    /// ```
    /// use futures_lite::future::{self, BlockOn};
    ///
    /// let mut on = BlockOn::new(&rt)?;
    /// let mut fused = future::fuse(future::ready(7u8));
    /// assert_eq!(rt; on.wait_for(&rt, &mut fused)?, 7);
    /// assert_eq!(rt; on.block_on(&rt, future::poll_once(fused))?, None);
    /// ```
    #[inline(always)]
    pub fn wait_for<R: Wait, F: Future>(
        &mut self,
        rt: &R,
        future: &mut F,
    ) -> Result<F::Output, AllocError>
        requires { F.can_poll future.old }
        ensures gave { IfOk result (λ value. (ins : _) × Gives ins value × F.run future.old ins future.new) }
        ensures unchanged { OnErr result (future.new ≡ future.old) }
        ensures waited { IsOk result }
    {
        'polls: for _ in rt.forever() {
            let Some(mut cx) = self.queue.next(rt) else {
                // There is no answer without a task, and the task is there until the future is ready.
                continue;
            };
            match future.poll(&mut cx) {
                Poll::Ready(value) => {
                    // The task stays, and is queued for the next future.
                    let _: Poll<()> = cx.yield_now();
                    cx.park();
                    return Ok(value);
                }
                Poll::Pending => {
                    let _: Poll<()> = cx.register(&self.source, &mut self.slot);
                    cx.park();
                }
            }
        }
        unreachable!()
    }

    /// Begins waits that follow one another.
    ///
    /// Each [`wait_for`](BlockOn::wait_for) makes a context, and ends it. The waits of a [`Waits`] share one,
    /// as long as no future is pending.
    ///
    /// # Examples
    ///
    /// ```
    /// use futures_lite::future::BlockOn;
    /// use futures_lite::{StreamExt, stream};
    ///
    /// let mut numbers = stream::iter(1u32..4);
    /// let mut on = BlockOn::new(&rt)?;
    /// let mut waits = on.waits();
    /// let mut sum = 0;
    /// while let Some(number) = waits.wait_for(&rt, &mut numbers.next()) {
    ///     sum += number;
    /// }
    /// assert_eq!(rt; sum, 6);
    /// ```
    pub fn waits(&mut self) -> Waits<'_> {
        Waits::new(&self.queue, &self.source, &mut self.slot)
    }
}

impl Waiter for BlockOn {
    #[inline(always)]
    fn wait<R: Wait, F: Future>(&mut self, rt: &R, future: &mut F) -> F::Output {
        self.waits().wait_for(rt, future)
    }
}

/// Returns a queue with a random name of its own. `Err` is an allocation failure. The call retries until the
/// system supplies random bytes.
fn named_queue<R>(rt: &R) -> Result<Queue, AllocError>
where
    R: Wait + RandomSource + AllocGlobal,
{
    for _ in rt.forever() {
        match Queue::new(rt, Doorbell::parking()) {
            Ok(queue) => return Ok(queue),
            Err(e) => {
                if e.kind() == ErrorKind::OutOfMemory {
                    return Err(AllocError);
                }
            }
        }
    }
    unreachable!()
}
