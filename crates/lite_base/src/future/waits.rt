//! Waits that share one context.
ghost use Rattle.lite_base.specs.Answers.{Gives};

use super::{Future, Waiter};
use crate::Poll;
use futures::task::{Context, Queue, Source, Waker};
use std::sync::Wait;
use std::{fmt, mem};

/// Waits that follow one another, for one future at a time.
///
/// Returned by [`BlockOn::waits`](crate::future::block_on::BlockOn::waits). Drop it, and the `BlockOn` can wait
/// again. If it is forgotten (`mem::forget`), no later wait of that `BlockOn` returns.
///
/// # Examples
///
/// ```
/// use futures_lite::future::{self, BlockOn, Waits};
///
/// let mut on = BlockOn::new(&rt)?;
/// let mut waits: Waits<'_> = on.waits();
/// waits.wait_for(&rt, &mut future::yield_now());
/// assert_eq!(rt; waits.wait_for(&rt, &mut future::ready(7u8)), 7);
/// ```
pub struct Waits<'a> {
    queue: &'a Queue,
    // That of the last poll, if its future was ready.
    cx: Option<Context<'a>>,
    source: &'a Source,
    slot: &'a mut Option<Waker>,
}

impl<'a> Waits<'a> {
    /// Returns waits for futures that `queue` has one task for. That task is queued, and waits at `source` too.
    pub(super) fn new(
        queue: &'a Queue,
        source: &'a Source,
        slot: &'a mut Option<Waker>,
    ) -> Waits<'a> {
        Waits {
            queue,
            cx: None,
            source,
            slot,
        }
    }

    /// Blocks this thread until `future` is ready, and returns its value. The future stays with the caller.
    ///
    /// After a poll that returns `Pending` the thread sleeps until the context of that poll is woken. If
    /// nothing wakes it, it sleeps for ever. A wake that was meant for an earlier future of these waits ends
    /// the sleep too, and then `future` is polled once more. The caller guarantees that `future` may be polled.
    ///
    /// # Examples
    ///
    /// ```
    /// use futures_lite::AsyncReadExt;
    /// use futures_lite::future::BlockOn;
    ///
    /// let mut reader = b"hello".as_slice();
    /// let mut on = BlockOn::new(&rt)?;
    /// let mut waits = on.waits();
    /// let mut buf = [0; 4];
    /// assert_eq!(rt; waits.wait_for(&rt, &mut reader.read(&mut buf))?, 4);
    /// assert_eq!(rt; waits.wait_for(&rt, &mut reader.read(&mut buf))?, 1);
    /// assert_eq!(rt; buf, *b"oell");
    /// ```
    #[inline(always)]
    pub fn wait_for<R: Wait, F: Future>(&mut self, rt: &R, future: &mut F) -> F::Output
        requires { F.can_poll future.old }
        ensures { (ins : _) × Gives ins result × F.run future.old ins future.new }
    {
        'polls: for _ in rt.forever() {
            let Some(cx) = self.context(rt) else {
                // There is no answer without a task, and the task is there until the `BlockOn` is dropped.
                continue;
            };
            match future.poll(cx) {
                Poll::Ready(value) => return value,
                Poll::Pending => self.park(),
            }
        }
        unreachable!()
    }

    // The context that was kept, or one once the task is woken.
    #[inline(always)]
    fn context<R: Wait>(&mut self, rt: &R) -> Option<&mut Context<'a>> {
        if self.cx.is_none() {
            self.renew(rt);
        }
        self.cx.as_mut()
    }

    fn renew<R: Wait>(&mut self, rt: &R) {
        let next = self.queue.next(rt);
        if let Some(other) = mem::replace(&mut self.cx, next) {
            requeue(other);
        }
    }

    // Ends a poll that was pending.
    #[inline(always)]
    fn park(&mut self) {
        if let Some(mut cx) = self.cx.take() {
            let _: Poll<()> = cx.register(self.source, self.slot);
            cx.park();
        }
    }
}

impl Waiter for Waits<'_> {
    #[inline(always)]
    fn wait<R: Wait, F: Future>(&mut self, rt: &R, future: &mut F) -> F::Output {
        self.wait_for(rt, future)
    }
}

impl fmt::Debug for Waits<'_> {
    fn fmt<W: fmt::Write>(&self, f: &mut fmt::Formatter<W>) -> fmt::Result {
        f.debug_struct("Waits").finish_non_exhaustive()
    }
}

impl Drop for Waits<'_> {
    fn drop(self) {
        let Waits {
            queue: _,
            cx,
            source: _,
            slot: _,
        } = self;
        if let Some(cx) = cx {
            requeue(cx);
        }
    }
}

// Ends the poll of a future that was ready. The task stays, and is queued for the next future.
fn requeue(mut cx: Context<'_>) {
    let _: Poll<()> = cx.yield_now();
    cx.park();
}
