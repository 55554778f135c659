ghost use Rattle.theorems_at_types.specs.Few.{HoldsItems, TallHolds};

use futures_lite::stream::Gather;
use std::alloc::Global;

/// How many items a collection has room for, and what it takes its memory from.
#[derive(Clone, Copy)]
pub struct Room {
    pub alloc: Global,
    pub items: usize,
}

/// A user's own collection, which refuses each item for which it has no room.
#[derive(Debug, PartialEq, Drop)]
pub struct Few<T> {
    pub items: Vec<T>,
    pub room: usize,
}

impl<T> Gather<T> for Few<T> {
    type Alloc = Room;

    ghost holds = { HoldsItems };

    fn empty(alloc: Room) -> Few<T> {
        Few {
            items: Vec::new(alloc.alloc),
            room: alloc.items,
        }
    }

    fn take_in(&mut self, item: T) -> Result<(), T> {
        if self.items.len() >= self.room {
            return Err(item);
        }
        match self.items.push(item) {
            Ok(()) => Ok(()),
            Err(refused) => Err(refused.value),
        }
    }
}

/// One that has room for every item, as far as memory goes.
#[derive(Debug, PartialEq, Drop)]
pub struct Tall<T> {
    pub items: Vec<T>,
}

impl<T> Gather<T> for Tall<T> {
    type Alloc = Room;

    ghost holds = { TallHolds };

    fn empty(alloc: Room) -> Tall<T> {
        Tall {
            items: Vec::new(alloc.alloc),
        }
    }

    fn take_in(&mut self, item: T) -> Result<(), T> {
        self.items.take_in(item)
    }
}
