ghost use Rattle.std.specs.Prelude.{◌≡◌, []};
ghost use Rattle.lite_gather.specs.Uses.{fold};
ghost use Rattle.std.specs.BTreeMap.{ContainsKey, insert_entry};

use crate::gather::Gather;
use std::alloc::Allocator;
use std::collections::BTreeMap;

/// Puts a pair at its key. A key that is present stays and its value is replaced, which takes no memory.
impl<K: Ord + Drop, V: Drop, A: Allocator + Clone> Gather<(K, V)> for BTreeMap<K, V, A> {
    type Alloc = A;

    ghost holds = { λ c l. c.entries ≡ fold (λ es pair. insert_entry K.cmp es pair.0 pair.1) [] l };

    ghost has_room = { λ c item. ContainsKey K.cmp c item.0 };

    fn empty(alloc: A) -> BTreeMap<K, V, A> {
        BTreeMap::new(alloc)
    }

    fn take_in(&mut self, item: (K, V)) -> Result<(), (K, V)> {
        let (key, value) = item;
        match self.insert(key, value) {
            Ok(_old) => Ok(()),
            Err(refused) => Err(refused.value),
        }
    }
}
