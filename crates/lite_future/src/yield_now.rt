ghost use Rattle.std.specs.Prelude.{⊤, ◌≡◌, true};
ghost use Rattle.lite_future.specs.YieldNow.{YieldsOnce};
ghost use Rattle.lite_future.specs.Laws.YieldNow.{yields_calm, yields_laws, yields_steady, yields_arms};
ghost use Rattle.lite_base.specs.Registered.{HoldsWoken};

use lite_base::{ArmedFuture, CalmFuture, Context, Future, Poll, SteadyFuture};

/// A future that wakes its context and returns `Pending` once, and then is ready.
///
/// Returned by [`yield_now`](crate::make::yield_now).
#[derive(Debug, Drop)]
pub struct YieldNow {
    pub(crate) yielded: bool,
}

impl Future for YieldNow {
    type Output = ();

    ghost run = { λ x l y. YieldsOnce x.yielded l y.yielded };

    ghost registers = { λ x. HoldsWoken };

    ghost laws = { yields_laws };

    fn poll(&mut self, cx: &mut Context<'_>) -> Poll<()> {
        if self.yielded {
            return Poll::Ready(());
        }
        self.yielded = true;
        cx.yield_now()
    }
}

impl SteadyFuture for YieldNow {
    ghost ample = { λ x l y. YieldsOnce x.yielded l y.yielded };

    ghost alike = { λ _ _. ⊤ };

    ghost steady = { yields_steady };
}

// Once it has yielded.
impl CalmFuture for YieldNow {
    ghost is_calm = { λ x. x.yielded ≡ true };

    ghost calm = { yields_calm };
}

impl ArmedFuture for YieldNow {
    ghost armed = { yields_arms };
}
