//! A collection of one's own, which a stream is collected into.
ghost use Rattle.std.specs.Prelude.{◌≡◌, IfOk};
ghost use Rattle.std.specs.List.{sum};

use futures_lite::StreamExt;
use futures_lite::future::block_on;
use futures_lite::stream::{Gather, iter_vec};
use std::alloc::{AllocError, AllocGlobal, Global};
use std::random::RandomSource;
use std::sync::Wait;

/// The sum of numbers. It refuses a number with which the sum would pass 64 bits.
#[derive(Debug, Drop)]
pub struct Total {
    /// The sum so far.
    pub sum: u64,
}

impl Gather<u64> for Total {
    type Alloc = Global;

    ghost holds = { λ total items. total.sum ≡ sum items };

    fn empty(_alloc: Global) -> Total {
        Total { sum: 0 }
    }

    fn take_in(&mut self, item: u64) -> Result<(), u64> {
        let Some(sum) = self.sum.checked_add(item) else {
            return Err(item);
        };
        self.sum = sum;
        Ok(())
    }
}

/// Returns the sum of the numbers. The error means that it passes 64 bits, or that memory was refused.
pub fn sum_of<R>(rt: &R, numbers: Vec<u64>) -> Result<u64, AllocError>
where
    R: Wait + RandomSource + AllocGlobal,
    ensures { IfOk result (λ n. n ≡ sum numbers.items) }
{
    match block_on(rt, iter_vec(numbers).collect::<Total>(rt.alloc()))? {
        Ok(total) => Ok(total.sum),
        Err(_) => Err(AllocError),
    }
}
