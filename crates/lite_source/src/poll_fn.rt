ghost use Rattle.std.specs.Prelude.{⊤, None};
ghost use Rattle.lite_source.specs.Uses.{FoldsTo, ap, AlwaysObeys, CallAnswers, NoHint, Alike, NeverPends};
ghost use Rattle.lite_base.specs.Pollers.{CallRegisters};
ghost use Rattle.lite_source.specs.Laws.Folds.{folds_laws, folds_steady, obeys_still};
ghost use Rattle.lite_source.specs.Laws.PollFn.{poll_fn_calm};

use lite_base::{CalmStream, Context, Poll, SteadyStream, Stream};
use std::fmt;

/// A stream that calls a closure at each poll, and returns the result.
///
/// Returned by [`poll_fn`](crate::make::poll_fn).
#[derive(Drop)]
pub struct PollFn<F> {
    pub(crate) f: F,
}

impl<F> fmt::Debug for PollFn<F> {
    fn fmt<W: fmt::Write>(&self, f: &mut fmt::Formatter<W>) -> fmt::Result {
        f.debug_struct("PollFn").finish()
    }
}

impl<T, F: FnMut(&mut Context<'_>) -> Poll<Option<T>>> Stream for PollFn<F> {
    type Item = T;

    ghost can_poll = { λ x. AlwaysObeys F.FnMut (λ _. ⊤) x.f };

    ghost run = { λ x l y. FoldsTo (CallAnswers F.FnMut) x.f l y.f };

    ghost registers = { λ x. CallRegisters F.FnMut x.f };

    ghost hints = { NoHint };

    ghost laws = { folds_laws (λ x. x.f) (CallAnswers F.FnMut) (λ x y. ap (λ v. record x { f = v })) 0
        (λ x y. obeys_still F.FnMut x.f y.f) };

    fn poll_next(&mut self, cx: &mut Context<'_>) -> Poll<Option<T>> {
        (self.f)(cx)
    }

    fn size_hint(&self) -> (usize, Option<usize>) {
        (0, None)
    }
}

impl<T, F: FnMut(&mut Context<'_>) -> Poll<Option<T>>> SteadyStream for PollFn<F> {
    ghost ample = { λ x l y. FoldsTo (CallAnswers F.FnMut) x.f l y.f };

    ghost alike = { λ x y. Alike (FoldsTo (CallAnswers F.FnMut)) x.f y.f };

    ghost steady = { folds_steady (λ x. x.f) (CallAnswers F.FnMut) (λ x y. ap (λ v. record x { f = v })) };
}

impl<T, F: FnMut(&mut Context<'_>) -> Poll<Option<T>>> CalmStream for PollFn<F> {
    ghost is_calm = { λ x. NeverPends F.FnMut x.f };

    ghost calm = { poll_fn_calm F.FnMut };
}
