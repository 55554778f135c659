ghost use Rattle.std.specs.Prelude.{◌≡◌, ◌∷◌, [], IfSome, Some};
ghost use Rattle.lite_future.specs.Uses.{Keeps, OptionBy, Registered};
ghost use Rattle.lite_future.specs.Fuse.{FutureFuses};
ghost use Rattle.lite_future.specs.Laws.Fuse.{fuses_laws, fuses_steady};

use lite_base::{Context, Future, Poll, SteadyFuture};

/// A future that drops its inner future in the poll that returns the value, and returns `Pending` for ever
/// after that.
///
/// Returned by [`fuse`](crate::make::fuse). It may be polled after its value too.
#[derive(Debug, Drop)]
pub struct Fuse<F> {
    pub(crate) inner: Option<F>,
}

impl<F: Future + Drop> Future for Fuse<F> {
    type Output = F::Output;

    ghost can_poll = { λ x. IfSome x.inner F.can_poll };

    ghost run = { FutureFuses F.run };

    ghost registers = { λ x fact. (f : F) × (x.inner ≡ Some f) × F.registers f fact };

    ghost laws = { fuses_laws F.run F.laws };

    fn poll(&mut self, cx: &mut Context<'_>) -> Poll<F::Output>
        requires { IfSome self.old.inner F.can_poll }
        ensures ran { FutureFuses F.run self.old (result ∷ []) self.new }
        ensures again { IfSome self.new.inner F.can_poll }
        ensures registered { Registered result (λ fact. (f : F) × (self.new.inner ≡ Some f) × F.registers f fact) cx.new }
        ensures context { Keeps cx.old cx.new }
    {
        let Some(future) = &mut self.inner else {
            return Poll::Pending;
        };
        match future.poll(cx) {
            Poll::Ready(x) => {
                self.inner = None;
                Poll::Ready(x)
            }
            Poll::Pending => Poll::Pending,
        }
    }
}

impl<F: SteadyFuture + Drop> SteadyFuture for Fuse<F> {
    ghost ample = { FutureFuses F.ample };

    ghost needs_none = { F.needs_none };

    ghost same = { F.same };

    ghost alike = { λ x y. OptionBy F.alike x.inner y.inner };

    ghost steady = { fuses_steady F.steady };
}
