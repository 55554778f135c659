//! What waits for a future.
ghost use Rattle.lite_base.specs.Answers.{Gives};

use super::Future;
use std::sync::Wait;

/// What waits for a future: a [`BlockOn`](crate::future::block_on::BlockOn), or the [`Waits`](crate::future::Waits)
/// that it began.
///
/// A call that takes a `Waiter` makes a context for itself with a `BlockOn`, and shares one with a `Waits`. So a program
/// that waits more than once begins a `Waits` and hands it to each call.
///
/// # Examples
///
/// ```
/// use futures_lite::future::{self, BlockOn, Waiter};
/// use std::sync::Wait;
///
/// fn sum<R: Wait, W: Waiter>(on: &mut W, rt: &R) -> u8 {
///     on.wait(rt, &mut future::ready(7u8)) + on.wait(rt, &mut future::ready(8u8))
/// }
///
/// let mut on = BlockOn::new(&rt)?;
/// assert_eq!(rt; sum(&mut on, &rt), 15);
/// assert_eq!(rt; sum(&mut on.waits(), &rt), 15);
/// ```
pub trait Waiter {
    /// Blocks this thread until `future` is ready, and returns its value. The future stays with the caller.
    ///
    /// After a poll that returns `Pending` the thread sleeps until the context of that poll is woken. If
    /// nothing wakes it, it sleeps for ever. The caller guarantees that `future` may be polled.
    ///
    /// # Examples
    ///
    /// ```
    /// use futures_lite::future::{self, BlockOn, Waiter};
    ///
    /// let mut on = BlockOn::new(&rt)?;
    /// assert_eq!(rt; on.wait(&rt, &mut future::ready(7u8)), 7);
    /// assert_eq!(rt; on.waits().wait(&rt, &mut future::ready(8u8)), 8);
    /// ```
    fn wait<R: Wait, F: Future>(&mut self, rt: &R, future: &mut F) -> F::Output
        requires { F.can_poll future.old }
        ensures { (ins : _) × Gives ins result × F.run future.old ins future.new };
}
