//! Journals of streams whose clones equal their originals: each is a run from its start.
ghost use Rattle.std.specs.Prelude.{◌≡◌, List, ℕ};
ghost use Rattle.lite_bridge.specs.Cursor.{CursorReads, CursorWrites};
ghost use Rattle.lite_io_base.specs.Parts.{PartsInOrder};
ghost use Rattle.lite_io_base.specs.Runs.{Idle};
ghost use Rattle.lite_io_base.specs.Known.{ReadsScript};
ghost use Rattle.lite_halves.specs.Entry.{parts_in};

use futures_lite::io::{BytesLike, Cursor, Journal};
use lite_mock::Marks;
use std::alloc::AllocError;
use std::marker::Model;

/// Bytes that a contract sees as a list, and whose clones are proved to equal them.
#[derive(Drop)]
pub struct Plain {
    pub bytes: Vec<u8>,
}

impl Model for Plain {
    ghost use Rattle.std.specs.Prelude.{List, ℕ};

    ghost Value = { List ℕ };

    ghost view = { λ p. p.bytes.items };
}

impl Clone for Plain {
    ghost is_clone = { λ a b. b ≡ a };

    fn clone(&self) -> Result<Plain, AllocError> {
        let bytes = self.bytes.clone()?;
        Ok(Plain { bytes })
    }
}

impl BytesLike for Plain {
    ghost bytes = { λ p. p };

    fn as_bytes(&self) -> &[u8] {
        self.bytes.as_slice()
    }
}

/// How many entries there are. By its contract they lead a reader that is told from the start to what it is now.
pub fn entries_of_marks(journal: &Journal<Marks>) -> usize
    ensures { PartsInOrder ReadsScript Idle journal.now.start (parts_in journal.now.notes) journal.now.stream }
{
    journal.entries().len()
}

/// How many entries there are. By its contract they lead a cursor on such bytes from the start to what it is now.
pub fn entries_of_cursor(journal: &Journal<Cursor<Plain>>) -> usize
    ensures { PartsInOrder (CursorReads (λ p. p)) (CursorWrites (λ _ _ _ _. ⊥) (λ _ _. ⊥)) journal.now.start
        (parts_in journal.now.notes) journal.now.stream }
{
    journal.entries().len()
}
