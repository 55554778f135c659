ghost use Rattle.std.specs.Prelude.{IfOk};

use futures_lite::stream::Gather;

/// A collection that took in `items`, one after the other, by the trait's contract alone. `Err` is the item that it refused.
pub fn gather_all<T: Drop, C: Gather<T> + Drop>(alloc: C::Alloc, items: Vec<T>) -> Result<C, T>
    ensures { IfOk result (λ all. C.holds all items.items) }
{
    let mut all = C::empty(alloc);
    for item in items {
        all.take_in(item)?;
    }
    Ok(all)
}
