ghost use Rattle.std.specs.Prelude.{◌≡◌, ◌<◌};
ghost use Rattle.std.specs.VecDeque.{deque_capacity, deque_len};

use crate::gather::Gather;
use std::alloc::Allocator;
use std::collections::VecDeque;

/// Items go to the back.
impl<T, A: Allocator> Gather<T> for VecDeque<T, A> {
    type Alloc = A;

    ghost holds = { λ c l. c.items ≡ l };

    ghost has_room = { λ c _. deque_len c < deque_capacity c };

    ghost unallocated = { λ c. deque_capacity c ≡ 0 };

    fn empty(alloc: A) -> VecDeque<T, A> {
        // `VecDeque::new` doesn't tell the capacity.
        VecDeque::from_vec(Vec::new(alloc))
    }

    fn take_in(&mut self, item: T) -> Result<(), T> {
        match self.push_back(item) {
            Ok(()) => Ok(()),
            Err(refused) => Err(refused.value),
        }
    }
}
