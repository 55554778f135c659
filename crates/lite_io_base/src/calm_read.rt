ghost use Rattle.lite_io_base.specs.Steady.{CalmReadLaws};

use crate::async_read::AsyncRead;

/// A reader with states from which it never returns `Pending`.
pub trait CalmRead: AsyncRead {
    /// The values that never return `Pending` from now on.
    ghost is_calm: { Self → Type 0 };

    /// Does nothing. The trait is its law.
    fn is_calm_read(&self) {}

    ghost calm: { CalmReadLaws Self.reads is_calm };
}
