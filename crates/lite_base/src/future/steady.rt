ghost use Rattle.std.specs.Prelude.{⊤};
ghost use Rattle.lite_base.specs.Uses.{Poll};
ghost use Rattle.lite_base.specs.Alike.{Sameness};
ghost use Rattle.lite_base.specs.Runs.{Runs};
ghost use Rattle.lite_base.specs.Steady.{FutureSteadyLawsBy};

use super::Future;
use crate::Poll;

/// A future whose value does not depend on when it was pending, unless memory was refused.
pub trait SteadyFuture: Future {
    /// The runs in which no memory was refused.
    ghost ample: { Runs (Poll Self.Output) Self };

    /// No poll allocates. Then each run is ample.
    ghost needs_none: { Type 0 } = { ⊤ };

    /// When two values that it returns are the same. By default they are if they are equal.
    ghost same: { Sameness Self.Output } = { Sameness.equal };

    /// The futures whose values are the same.
    ghost alike: { Self → Self → Type 0 };

    /// Does nothing. The trait exists for its law.
    fn is_steady_future(&self) {}

    ghost steady: { FutureSteadyLawsBy same Self.run ample needs_none alike };
}
