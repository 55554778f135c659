ghost use Rattle.std.specs.Prelude.{⊤};
ghost use Rattle.lite_io_base.specs.Uses.{Runs};
ghost use Rattle.lite_io_base.specs.Marks.{ReadMark};
ghost use Rattle.lite_io_base.specs.Steady.{SteadyReadLaws};

use crate::async_read::AsyncRead;

/// A reader whose bytes, errors and ends of file do not depend on when it returns `Pending`, if no memory is
/// refused.
pub trait SteadyRead: AsyncRead {
    /// The runs in which no memory was refused.
    ghost ample: { Runs ReadMark Self };

    /// No call allocates. Then each run is ample.
    ghost needs_none: { Type 0 } = { ⊤ };

    /// The values that have the same specification, apart from `Pending`.
    ghost alike: { Self → Self → Type 0 };

    /// Does nothing. The trait is its law.
    fn is_steady_read(&self) {}

    ghost steady: { SteadyReadLaws Self.reads ample needs_none alike };
}
