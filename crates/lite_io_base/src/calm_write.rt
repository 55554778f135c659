ghost use Rattle.lite_io_base.specs.Steady.{CalmWriteLaws};

use crate::async_write::AsyncWrite;

/// A writer with states from which it never returns `Pending`.
pub trait CalmWrite: AsyncWrite {
    /// The values that never return `Pending` from now on.
    ghost is_calm: { Self → Type 0 };

    /// Does nothing. The trait is its law.
    fn is_calm_write(&self) {}

    ghost calm: { CalmWriteLaws Self.writes is_calm };
}
