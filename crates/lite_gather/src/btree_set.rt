ghost use Rattle.std.specs.Prelude.{◌≡◌, IsTrue, []};
ghost use Rattle.lite_gather.specs.Uses.{fold};
ghost use Rattle.std.specs.BTreeSet.{contains, insert_key};

use crate::gather::Gather;
use std::alloc::Allocator;
use std::collections::BTreeSet;

/// Puts an item in its place. One that is present stays, which takes no memory.
impl<T: Ord + Drop, A: Allocator + Clone> Gather<T> for BTreeSet<T, A> {
    type Alloc = A;

    ghost holds = { λ c l. c.keys ≡ fold (λ ks key. insert_key T.cmp ks key) [] l };

    ghost has_room = { λ c item. IsTrue (contains T.cmp c item) };

    fn empty(alloc: A) -> BTreeSet<T, A> {
        BTreeSet::new(alloc)
    }

    fn take_in(&mut self, item: T) -> Result<(), T> {
        match self.insert(item) {
            Ok(_is_new) => Ok(()),
            Err(refused) => Err(refused.value),
        }
    }
}
