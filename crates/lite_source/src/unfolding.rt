ghost use Rattle.std.specs.Prelude.{◌≡◌};
ghost use Rattle.lite_source.specs.Uses.{MakesAlways};
ghost use Rattle.futures.specs.Task.{Keeps};
ghost use Rattle.lite_base.specs.Registered.{Registered};
ghost use Rattle.lite_source.specs.Unfolding.{Current, HeldStep, Holding, IfHeldFuture, IsMade, UnfoldRegisters, UnfoldStep};

use lite_base::{Context, Future, Poll, ready};
use std::fmt;
use std::marker::Model;

/// What an unfolding stream holds between two polls: the seed of the next future, a future that was pending,
/// or nothing. With nothing the stream is at an end for ever.
#[derive(Drop)]
pub struct Unfolding<T, Fut> {
    // Each has a place of its own, so that a poll moves neither; a future that is held beside a seed is of no account.
    seed: Option<T>,
    future: Option<Fut>,
}

impl<T, Fut> Model for Unfolding<T, Fut> {
    ghost use Rattle.lite_source.specs.Unfolding.{Holding, holding};

    ghost Value = { Holding T Fut };

    ghost view = { λ u. holding u.seed u.future };
}

impl<T, Fut> Unfolding<T, Fut> {
    /// Returns the state before the first future, which is made of `seed`.
    pub(crate) fn new(seed: T) -> Unfolding<T, Fut>
        ensures { result ≡ Holding.Seed seed }
    {
        Unfolding {
            seed: Some(seed),
            future: None,
        }
    }
}

impl<T: Drop, Fut: Future + Drop> Unfolding<T, Fut> {
    /// Polls the future, and drops it once it is ready. If there is a seed, `f` makes the future first.
    /// `Ready(None)` means that there is neither.
    pub(crate) fn poll<F: FnMut(T) -> Fut>(
        &mut self,
        f: &mut F,
        cx: &mut Context<'_>,
    ) -> Poll<Option<Fut::Output>>
        requires callable { F.IsAlwaysCallable f.old }
        requires makes { MakesAlways F.FnMut Fut.can_poll f.old }
        requires asked { IfHeldFuture self.old Fut.can_poll }
        ensures ran { UnfoldStep F.FnMut Fut.run f.old self.old result f.new self.new }
        ensures callable { F.IsAlwaysCallable f.new }
        ensures makes { MakesAlways F.FnMut Fut.can_poll f.new }
        ensures asked { IfHeldFuture self.new Fut.can_poll }
        ensures registered { Registered result (UnfoldRegisters Fut.registers self.new) cx.new }
        ensures context { Keeps cx.old cx.new }
    {
        self.make_future(f);
        self.poll_future(cx)
    }

    // Makes the future of the seed, if there is one.
    #[inline(always)]
    fn make_future<F: FnMut(T) -> Fut>(&mut self, f: &mut F)
        requires callable { F.IsAlwaysCallable f.old }
        requires makes { MakesAlways F.FnMut Fut.can_poll f.old }
        requires asked { IfHeldFuture self.old Fut.can_poll }
        ensures current { Current F.FnMut f.old self.old f.new self.new }
        ensures callable { F.IsAlwaysCallable f.new }
        ensures makes { MakesAlways F.FnMut Fut.can_poll f.new }
        ensures asked { IfHeldFuture self.new Fut.can_poll }
    {
        if let Some(seed) = self.seed.take() {
            self.future = Some(f(seed));
        }
    }

    // Polls the future that is held, and drops it once it is ready.
    #[inline(always)]
    fn poll_future(&mut self, cx: &mut Context<'_>) -> Poll<Option<Fut::Output>>
        requires made { IsMade self.old }
        requires asked { IfHeldFuture self.old Fut.can_poll }
        ensures ran { HeldStep Fut.run self.old result self.new }
        ensures asked { IfHeldFuture self.new Fut.can_poll }
        ensures registered { Registered result (UnfoldRegisters Fut.registers self.new) cx.new }
        ensures context { Keeps cx.old cx.new }
    {
        let Some(future) = &mut self.future else {
            return Poll::Ready(None);
        };
        let value = ready!(future.poll(cx));
        self.future = None;
        Poll::Ready(Some(value))
    }

    /// Keeps `seed` for the next future.
    pub(crate) fn go_on(&mut self, seed: T)
        ensures { self.new ≡ Holding.Seed seed }
    {
        self.seed = Some(seed);
    }
}

impl<T: fmt::Debug, Fut: fmt::Debug> Unfolding<T, Fut> {
    /// Writes the state as a struct of this name, with the field names of futures-lite.
    pub(crate) fn show<W: fmt::Write>(&self, name: &str, f: &mut fmt::Formatter<W>) -> fmt::Result {
        f.debug_struct(name)
            .field("state", &self.seed)
            .field("fut", &self.future)
            .finish()
    }
}
