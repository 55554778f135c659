ghost use Rattle.std.specs.Prelude.{⊤};
ghost use Rattle.lite_base.specs.Alike.{Sameness};
ghost use Rattle.lite_base.specs.Answers.{Answer};
ghost use Rattle.lite_base.specs.Steady.{SteadyLawsBy};
ghost use Rattle.lite_base.specs.Runs.{Runs};

use crate::stream::Stream;

/// A stream whose items and ends do not depend on when it was pending, unless memory was refused.
pub trait SteadyStream: Stream {
    /// The runs in which no memory was refused.
    ghost ample: { Runs (Answer Self.Item) Self };

    /// No poll allocates. Then each run is ample.
    ghost needs_none: { Type 0 } = { ⊤ };

    /// When two items are the same. By default they are if they are equal.
    ghost same: { Sameness Self.Item } = { Sameness.equal };

    /// The values that yield the same, apart from `Pending`.
    ghost alike: { Self → Self → Type 0 };

    /// Does nothing. The trait exists for its law.
    fn is_steady_stream(&self) {}

    ghost steady: { SteadyLawsBy same Self.run ample needs_none alike };
}
