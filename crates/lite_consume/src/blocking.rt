//! What a blocking stream or a blocking reader waits by.
ghost use Rattle.std.specs.Prelude.{◌≡◌, IfOk, None, OnErr, OnOk};
ghost use Rattle.lite_base.specs.Answers.{Gives};

use lite_base::Future;
use lite_base::future::Waiter;
use lite_base::future::block_on::BlockOn;
use std::alloc::{AllocError, AllocGlobal};
use std::fmt;
use std::random::RandomSource;
use std::sync::Wait;

/// What a blocking stream or a blocking reader waits by: [`ByRuntime`] or [`ByWaiter`].
///
/// # Examples
///
/// ```
/// use futures_lite::future::{self, Blocking, ByRuntime};
/// use std::alloc::AllocError;
///
/// fn seven<K: Blocking>(by: &mut K) -> Result<u8, AllocError> {
///     by.wait_for(&mut future::ready(7u8))
/// }
///
/// assert_eq!(rt; seven(&mut ByRuntime::new(rt))?, 7);
/// ```
pub trait Blocking {
    /// The runtime that this waits with.
    type Runtime: Wait;

    /// There was no wait yet, so the first one has to allocate, and fails if that allocation does.
    ghost is_unused: { Self → Type 0 };

    /// Blocks this thread until `future` is ready, and returns its value. The future stays with the caller.
    ///
    /// `Err` means that the allocation for the first wait failed. The future was not polled then. The caller
    /// guarantees that `future` may be polled.
    ///
    /// # Examples
    ///
    /// ```
    /// use futures_lite::future::{self, BlockOn, Blocking, ByRuntime, ByWaiter};
    /// use std::alloc::AllocError;
    ///
    /// fn seven<K: Blocking>(by: &mut K) -> Result<u8, AllocError> {
    ///     by.wait_for(&mut future::yield_now())?;
    ///     by.wait_for(&mut future::ready(7u8))
    /// }
    ///
    /// let mut on = BlockOn::new(&rt)?;
    /// assert_eq!(rt; seven(&mut ByRuntime::new(rt))?, 7);
    /// assert_eq!(rt; seven(&mut ByWaiter::new(&mut on.waits(), rt))?, 7);
    /// ```
    fn wait_for<F: Future>(&mut self, future: &mut F) -> Result<F::Output, AllocError>
        requires { F.can_poll future.old }
        ensures gave { IfOk result (λ value. (ins : _) × Gives ins value × F.run future.old ins future.new) }
        ensures unchanged { OnErr result (future.new ≡ future.old) }
        ensures first { OnErr result (is_unused self.old) }
        ensures used { OnOk result (is_unused self.new → ⊥) };
}

/// Waits by a runtime. The first wait makes a [`BlockOn`], and the later ones use it.
///
/// Each wait makes a context of its own. The waits of [`ByWaiter`] may share one.
///
/// # Examples
///
/// ```
/// use futures_lite::future::{self, Blocking, ByRuntime};
///
/// let mut by: ByRuntime<_> = ByRuntime::new(rt);
/// by.wait_for(&mut future::yield_now())?;
/// ```
#[derive(Drop)]
pub struct ByRuntime<R> {
    pub(crate) rt: R,
    // Made at the first wait, and kept for the others.
    pub(crate) on: Option<BlockOn>,
}

impl<R> ByRuntime<R> {
    /// Returns what waits by `rt`. Nothing is allocated before the first wait.
    ///
    /// # Examples
    ///
    /// ```
    /// use futures_lite::future::{self, Blocking, ByRuntime};
    ///
    /// let mut by = ByRuntime::new(rt);
    /// assert_eq!(rt; by.wait_for(&mut future::ready(7u8))?, 7);
    /// ```
    pub fn new(rt: R) -> ByRuntime<R>
        ensures { result ≡ record { rt = rt; on = None } }
    {
        ByRuntime { rt, on: None }
    }
}

impl<R> fmt::Debug for ByRuntime<R> {
    fn fmt<W: fmt::Write>(&self, f: &mut fmt::Formatter<W>) -> fmt::Result {
        f.debug_struct("ByRuntime").finish_non_exhaustive()
    }
}

impl<R: Wait + RandomSource + AllocGlobal> Blocking for ByRuntime<R> {
    type Runtime = R;

    ghost is_unused = { λ by. by.on ≡ None };

    #[inline(always)]
    fn wait_for<F: Future>(&mut self, future: &mut F) -> Result<F::Output, AllocError> {
        if self.on.is_none() {
            self.on = Some(BlockOn::new(&self.rt)?);
        }
        self.on.as_mut().unwrap().wait_for(&self.rt, future)
    }
}

/// Waits by a [`Waiter`] that is lent, and by the runtime with which that waits. It allocates nothing.
///
/// If the waiter is a `Waits`, the waits share one context.
///
/// # Examples
///
/// ```
/// use futures_lite::future::{self, BlockOn, Blocking, ByWaiter};
///
/// let mut on = BlockOn::new(&rt)?;
/// let mut waits = on.waits();
/// let mut by: ByWaiter<'_, _, _> = ByWaiter::new(&mut waits, rt);
/// by.wait_for(&mut future::yield_now())?;
/// ```
#[derive(Drop)]
pub struct ByWaiter<'w, R, W> {
    pub(crate) rt: R,
    pub(crate) waiter: &'w mut W,
}

impl<'w, R, W> ByWaiter<'w, R, W> {
    /// Returns what waits by `waiter` and `rt`.
    ///
    /// # Examples
    ///
    /// ```
    /// use futures_lite::future::{self, BlockOn, Blocking, ByWaiter};
    ///
    /// let mut on = BlockOn::new(&rt)?;
    /// let mut waits = on.waits();
    /// let mut by = ByWaiter::new(&mut waits, rt);
    /// assert_eq!(rt; by.wait_for(&mut future::ready(7u8))?, 7);
    /// ```
    pub fn new(waiter: &'w mut W, rt: R) -> ByWaiter<'w, R, W>
        ensures { result ≡ record { rt = rt; waiter = waiter.entry } }
    {
        ByWaiter { rt, waiter }
    }
}

impl<R, W> fmt::Debug for ByWaiter<'_, R, W> {
    fn fmt<F: fmt::Write>(&self, f: &mut fmt::Formatter<F>) -> fmt::Result {
        f.debug_struct("ByWaiter").finish_non_exhaustive()
    }
}

impl<R: Wait, W: Waiter> Blocking for ByWaiter<'_, R, W> {
    type Runtime = R;

    ghost is_unused = { λ _. ⊥ };

    #[inline(always)]
    fn wait_for<F: Future>(&mut self, future: &mut F) -> Result<F::Output, AllocError> {
        Ok(self.waiter.wait(&self.rt, future))
    }
}
