//! The calls that a half made, as contracts see them.
ghost use Rattle.std.specs.Prelude.{◌≡◌, ◌++◌, ◌∷◌, []};
ghost use Rattle.lite_halves.specs.Entry.{note_of};

use crate::Entry;
use std::marker::Model;
use std::snapshot::Snapshot;

/// The calls that a half made, in order, each with its answer. Only contracts see them; it takes one byte.
#[cycle(made)]
#[derive(Drop)]
pub(super) struct Made {
    last: Link,
}

/// The last call, and those before it.
#[cycle(made)]
#[derive(Drop)]
enum Link {
    Nothing,
    More(Snapshot<Made>, Snapshot<Entry>),
}

impl Model for Made {
    ghost use Rattle.std.specs.Prelude.{List, length};
    ghost use Rattle.lite_halves.specs.Uses.{arith, length-append};
    ghost use Rattle.lite_halves.specs.Entry.{Note};

    ghost Value = { List Note };

    ghost use Rattle.lite_halves.specs.Made.{notes_to};

    ghost view = { λ m. notes_to m.last };

    ghost size = { length };

    ghost size_decreases = { λ a h. Prim.grind (arith, length-append) };
}

impl Made {
    /// Returns no calls.
    pub(super) fn new() -> Made
        ensures { result ≡ [] }
    {
        Made {
            last: Link::Nothing,
        }
    }

    /// Returns these calls, and then that of the entry.
    pub(super) fn more(&self, entry: Snapshot<Entry>) -> Made
        ensures { result ≡ self.now ++ note_of entry.value ∷ [] }
    {
        Made {
            last: Link::More(Snapshot::of(self), entry),
        }
    }
}
