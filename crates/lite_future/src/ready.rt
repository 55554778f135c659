ghost use Rattle.std.specs.Prelude.{◌≡◌, ⊤, IsSome};
ghost use Rattle.lite_future.specs.Ready.{GivesHeld};
ghost use Rattle.lite_future.specs.Laws.Ready.{held_calm, held_laws, held_steady};
ghost use Rattle.lite_base.specs.Laws.Armed.{arms_always};

use lite_base::{ArmedFuture, CalmFuture, Context, Future, Poll, SteadyFuture};

/// A future that is ready at the first poll.
///
/// Returned by [`ready`](crate::make::ready). It may be polled only while it holds its value.
#[derive(Clone, Debug, Drop)]
pub struct Ready<T> {
    pub(crate) value: Option<T>,
}

impl<T> Future for Ready<T> {
    type Output = T;

    ghost can_poll = { λ x. IsSome x.value };

    ghost run = { λ x l y. GivesHeld x.value l y.value };

    // It is never pending.
    ghost registers = { λ _ _. ⊤ };

    ghost laws = { held_laws };

    fn poll(&mut self, _cx: &mut Context<'_>) -> Poll<T> {
        Poll::Ready(self.value.take().unwrap())
    }
}

impl<T> SteadyFuture for Ready<T> {
    ghost ample = { λ x l y. GivesHeld x.value l y.value };

    ghost alike = { λ x y. y.value ≡ x.value };

    ghost steady = { held_steady };
}

impl<T> CalmFuture for Ready<T> {
    ghost is_calm = { λ _. ⊤ };

    ghost calm = { held_calm };
}

impl<T> ArmedFuture for Ready<T> {
    ghost armed = { arms_always };
}
