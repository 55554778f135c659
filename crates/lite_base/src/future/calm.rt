ghost use Rattle.lite_base.specs.Calm.{CalmLaws};

use super::Future;

/// A future with states from which it never returns `Pending`.
pub trait CalmFuture: Future {
    /// The values that never return `Pending`, from now on.
    ghost is_calm: { Self → Type 0 };

    /// Does nothing. The trait exists for its law.
    fn is_calm_future(&self) {}

    ghost calm: { CalmLaws Self.run is_calm };
}
