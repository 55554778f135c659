ghost use Rattle.std.specs.Prelude.{◌≡◌, IfErr, IsOk, List, OnOk, [], ⊤};
ghost use Rattle.lite_gather.specs.Gathering.{Kept, Took};

/// A collection that takes items one after the other, each of which it may refuse for lack of memory.
///
/// Contracts see a collection as the list of the items that it took so far. Unlike futures-lite, which
/// collects through `Default` and `Extend`, a collection here returns an item if it finds no memory for it.
///
/// A collection of your own may refuse an item for a reason of its own. Then `Refused`,
/// `TryCollectError::Memory` and `UnzipRefused` mean that it refused the item, and not that memory was
/// missing.
pub trait Gather<T> {
    /// The type of the allocator that it gets its memory from.
    type Alloc;

    /// The collection is what an empty one becomes if these items are added to it in order.
    ghost holds: { Self → List T → Type 0 };

    /// It has room for the item, so it may not refuse it. If an impl does not define this, it is never known.
    ghost has_room: { Self → T → Type 0 } = { λ _ _. ⊥ };

    /// It owns no memory. If an impl does not define this, nothing is known.
    ghost unallocated: { Self → Type 0 } = { λ _. ⊤ };

    /// Returns an empty collection, which will allocate from `alloc`. The call does not allocate.
    ///
    /// # Examples
    ///
    /// ```
    /// use futures_lite::stream::Gather;
    ///
    /// let list: Vec<u8> = Gather::empty(rt.alloc());
    /// assert_eq!(rt; list.len(), 0);
    /// assert_eq!(rt; list.capacity(), 0);
    /// ```
    fn empty(alloc: Self::Alloc) -> Self
        ensures held { holds result [] }
        ensures unallocated { unallocated result };

    /// Adds an item to the collection. `Err` returns an item for which there was no room, and the collection
    /// is unchanged.
    ///
    /// # Examples
    ///
    /// ```
    /// use futures_lite::stream::Gather;
    ///
    /// let mut text: String = Gather::empty(rt.alloc());
    /// assert_eq!(rt; text.take_in('a'), Ok(()));
    /// assert_eq!(rt; text.take_in('b'), Ok(()));
    /// assert_eq!(rt; text.as_str(), "ab");
    /// ```
    fn take_in(&mut self, item: T) -> Result<(), T>
        ensures took { OnOk result (Took holds self.old item self.new) }
        ensures fits { has_room self.old item → IsOk result }
        ensures unchanged { IfErr result (λ back. (back ≡ item) × Kept holds self.old self.new) };
}
