//! Which of two streams have ended.
ghost use Rattle.std.specs.Prelude.{◌≡◌, ◌↔◌, IsTrue};
ghost use Rattle.lite_reshape.specs.Ended.Turn.{Done, First, Second};

use std::marker::Model;

/// Which of two streams that follow one another have ended. A contract sees the stream whose turn it is.
#[derive(Clone, Debug, Drop)]
pub(crate) struct Ended {
    first: bool,
    second: bool,
}

impl Model for Ended {
    ghost use Rattle.std.specs.Prelude.{◌≡◌, true};
    ghost use Rattle.lite_reshape.specs.Ended.{Turn, turn_of};

    ghost Value = { Turn };

    ghost view = { λ e. turn_of e.first e.second };

    ghost invariant = { λ e. e.second ≡ true → e.first ≡ true };
}

impl Ended {
    /// Returns the state in which neither stream has ended.
    pub(crate) fn none() -> Ended
        ensures { result ≡ First }
    {
        Ended {
            first: false,
            second: false,
        }
    }

    /// Returns whether the first stream has ended.
    #[inline(always)]
    pub(crate) fn has_first(&self) -> bool
        ensures { IsTrue result ↔ (self.now ≡ First → ⊥) }
    {
        self.first
    }

    /// Returns whether both streams have ended.
    #[inline(always)]
    pub(crate) fn has_both(&self) -> bool
        ensures { IsTrue result ↔ (self.now ≡ Done) }
    {
        self.second
    }

    /// Notes that the first stream has ended, and the second has not.
    #[inline(always)]
    pub(crate) fn end_first(&mut self)
        requires { self.old ≡ First }
        ensures { self.new ≡ Second }
    {
        self.first = true;
    }

    /// Notes that the second stream has ended too.
    #[inline(always)]
    pub(crate) fn end_second(&mut self)
        requires { self.old ≡ Second }
        ensures { self.new ≡ Done }
    {
        self.second = true;
    }
}
