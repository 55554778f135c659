ghost use Rattle.std.specs.Prelude.{◌≡◌, ◌-◌, ◌^◌, ⊤, None};
ghost use Rattle.lite_source.specs.Uses.{Alike, FoldsTo, ap};
ghost use Rattle.lite_source.specs.Laws.Folds.{calls_on, folds_calm, folds_laws, folds_steady};
ghost use Rattle.lite_source.specs.RepeatWith.{Call, RepeatsWith};
ghost use Rattle.lite_base.specs.Laws.Armed.{arms_always};

use lite_base::{ArmedStream, CalmStream, Context, Poll, SteadyStream, Stream};

/// A stream that yields what a closure returns, one call a poll, and never ends.
///
/// Returned by [`repeat_with`](crate::make::repeat_with).
#[derive(Debug, Drop)]
pub struct RepeatWith<F> {
    pub(crate) f: F,
}

impl<T, F: FnMut() -> T> Stream for RepeatWith<F> {
    type Item = T;

    ghost can_poll = { λ x. F.IsAlwaysCallable x.f };

    ghost run = { λ x l y. RepeatsWith F.FnMut x.f l y.f };

    // It is never pending.
    ghost registers = { λ _ _. ⊤ };

    ghost hints = { λ x hint. hint ≡ (2 ^ 64 - 1, None) };

    ghost laws = { folds_laws (λ x. x.f) (Call F.FnMut) (λ x y. ap (λ v. record x { f = v })) (2 ^ 64 - 1)
        (λ x y. calls_on F.FnMut x.f y.f) };

    fn poll_next(&mut self, _cx: &mut Context<'_>) -> Poll<Option<T>> {
        Poll::Ready(Some((self.f)()))
    }

    fn size_hint(&self) -> (usize, Option<usize>) {
        (usize::MAX, None)
    }
}

impl<T, F: FnMut() -> T> SteadyStream for RepeatWith<F> {
    ghost ample = { λ x l y. FoldsTo (Call F.FnMut) x.f l y.f };

    ghost alike = { λ x y. Alike (FoldsTo (Call F.FnMut)) x.f y.f };

    ghost steady = { folds_steady (λ x. x.f) (Call F.FnMut) (λ x y. ap (λ v. record x { f = v })) };
}

impl<T, F: FnMut() -> T> CalmStream for RepeatWith<F> {
    ghost is_calm = { λ _. ⊤ };

    ghost calm = { folds_calm (λ x. x.f) (Call F.FnMut) (λ p q h. cc h.1) };
}

impl<T, F: FnMut() -> T> ArmedStream for RepeatWith<F> {
    ghost armed = { arms_always };
}
