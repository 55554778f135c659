//! The sums of windows of three numbers.
ghost use Rattle.std.specs.Prelude.{◌≡◌, ◌++◌, ◌∷◌, [], List, IfErr, IfOk, option_to_list, ℕ};
ghost use Rattle.example_pipeline.specs.Pipeline.{HoldsWindow, SumPasses, full_sums, last_sums};
ghost use Rattle.example_pipeline.specs.declared.fault.Cause.TheVariants.{Overflow};

use crate::fault::Cause;

/// How many numbers a window has, except the last, which may have fewer.
const WINDOW: usize = 3;

/// The window that is not full yet.
#[derive(Drop)]
pub struct Sums {
    /// How many numbers it has.
    count: usize,
    /// Their sum.
    part: u64,
}

impl Sums {
    /// Returns the window before the first number.
    pub fn new() -> Sums
        ensures { HoldsWindow result [] }
    {
        Sums { count: 0, part: 0 }
    }

    /// Adds a number, and returns the sum of the window if that fills it. The error is that the sum passes 64 bits.
    #[tactic(auto, using(crate::specs::Laws::window_steps))]
    pub fn add(&mut self, item: u64) -> Result<Option<u64>, Cause>
        ensures added { IfOk result (λ sum. (l : List ℕ) → HoldsWindow self.old l
            → HoldsWindow self.new (l ++ item ∷ []) × (full_sums (l ++ item ∷ []) ≡ full_sums l ++ option_to_list sum)) }
        ensures large { IfErr result (λ e. (e ≡ Overflow) × ((l : List ℕ) → HoldsWindow self.old l → SumPasses l item)) }
    {
        let Some(sum) = self.part.checked_add(item) else {
            return Err(Cause::Overflow);
        };
        if self.count < WINDOW - 1 {
            self.count += 1;
            self.part = sum;
            return Ok(None);
        }
        self.count = 0;
        self.part = 0;
        Ok(Some(sum))
    }

    /// Returns the sum of the last window, if it has a number and is not full.
    #[tactic(auto, using(crate::specs::Laws::window_ends))]
    pub fn last(&self) -> Option<u64>
        ensures { (l : List ℕ) → HoldsWindow self.now l → option_to_list result ≡ last_sums l }
    {
        if self.count > 0 {
            Some(self.part)
        } else {
            None
        }
    }
}
