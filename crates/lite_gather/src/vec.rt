ghost use Rattle.std.specs.Prelude.{◌≡◌, ◌<◌, vec_capacity, vec_len};

use crate::gather::Gather;
use std::alloc::Allocator;

/// Items go to the back.
impl<T, A: Allocator> Gather<T> for Vec<T, A> {
    type Alloc = A;

    ghost holds = { λ c l. c.items ≡ l };

    ghost has_room = { λ c _. vec_len c < vec_capacity c };

    ghost unallocated = { λ c. vec_capacity c ≡ 0 };

    fn empty(alloc: A) -> Vec<T, A> {
        Vec::new(alloc)
    }

    fn take_in(&mut self, item: T) -> Result<(), T> {
        match self.push(item) {
            Ok(()) => Ok(()),
            Err(refused) => Err(refused.value),
        }
    }
}
