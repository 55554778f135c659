ghost use Rattle.std.specs.Prelude.{◌≡◌, IfSome, None, Some};
ghost use Rattle.lite_source.specs.Uses.{ok_counting, NoHint, OptionBy};
ghost use Rattle.lite_source.specs.Laws.OnceFuture.{once_future_calm, once_future_counting, once_future_laws, once_future_steady, once_future_arms};
ghost use Rattle.lite_source.specs.OnceFuture.{GivesFuture, once_future_ranks};

use lite_base::{
    ArmedFuture, ArmedStream, CalmFuture, CalmStream, Context, Counted, Future, OkCounted, Poll,
    SteadyFuture, SteadyStream, Stream, ready,
};

/// A stream that yields the value of a future, and then is at an end for ever.
///
/// Returned by [`once_future`](crate::make::once_future). It returns `Pending` while the future does, and
/// drops the future in the poll that yields its value.
#[derive(Debug, Drop)]
pub struct OnceFuture<F> {
    pub(crate) future: Option<F>,
}

impl<F: Future + Drop> Stream for OnceFuture<F> {
    type Item = F::Output;

    ghost can_poll = { λ x. IfSome x.future F.can_poll };

    ghost run = { GivesFuture F.run };

    ghost registers = { λ x fact. (f : F) × (x.future ≡ Some f) × F.registers f fact };

    ghost hints = { NoHint };

    ghost laws = { once_future_laws F.run F.laws };

    fn poll_next(&mut self, cx: &mut Context<'_>) -> Poll<Option<F::Output>> {
        let Some(future) = &mut self.future else {
            return Poll::Ready(None);
        };
        let value = ready!(future.poll(cx));
        self.future = None;
        Poll::Ready(Some(value))
    }

    fn size_hint(&self) -> (usize, Option<usize>) {
        (0, None)
    }
}

impl<F: Future + Drop> Counted for OnceFuture<F> {
    ghost ranks = { once_future_ranks };

    ghost counting = { once_future_counting F.run };
}

impl<T, E, F: Future<Output = Result<T, E>> + Drop> OkCounted for OnceFuture<F> {
    type Ok = T;

    type Err = E;

    ghost ok_ranks = { once_future_ranks };

    ghost ok_counting = { ok_counting (once_future_counting F.run) };
}

impl<F: SteadyFuture + Drop> SteadyStream for OnceFuture<F> {
    ghost ample = { GivesFuture F.ample };

    ghost needs_none = { F.needs_none };

    ghost same = { F.same };

    ghost alike = { λ x y. OptionBy F.alike x.future y.future };

    ghost steady = { once_future_steady F.same F.steady };
}

impl<F: CalmFuture + Drop> CalmStream for OnceFuture<F> {
    ghost is_calm = { λ x. IfSome x.future F.is_calm };

    ghost calm = { once_future_calm F.calm };
}

impl<F: ArmedFuture + Drop> ArmedStream for OnceFuture<F> {
    ghost armed = { once_future_arms F.armed };
}
