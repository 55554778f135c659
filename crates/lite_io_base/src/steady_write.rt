ghost use Rattle.std.specs.Prelude.{ℕ, List};
ghost use Rattle.lite_io_base.specs.Steady.{SteadyWriteLaws};

use crate::async_write::AsyncWrite;

/// A writer that leaves the same bytes however often it returns `Pending`, if no inner writer returns an
/// error.
pub trait SteadyWrite: AsyncWrite {
    /// The values that leave the same bytes in the innermost writer, if the same bytes are written.
    ghost alike: { Self → Self → Type 0 };

    /// The bytes that are in the innermost writer once everything is flushed.
    ghost below: { Self → List ℕ };

    /// Does nothing. The trait is its law.
    fn is_steady_write(&self) {}

    ghost steady: { SteadyWriteLaws Self.writes alike below };
}
