/// What `collect` and `partition` return if a collection refused an item.
///
/// # Examples
///
/// ```
/// use futures_lite::stream::{self, Gather, Refused};
/// use futures_lite::{StreamExt, future};
/// use std::alloc::Global;
///
/// /// Takes two items.
/// #[derive(Debug, Drop)]
/// struct Two {
///     items: Vec<u8>,
/// }
///
/// impl Gather<u8> for Two {
///     type Alloc = Global;
///
///     ghost use Rattle.std.specs.Prelude.{◌≡◌};
///
///     ghost holds = { λ c l. c.items.items ≡ l };
///
///     fn empty(alloc: Global) -> Two {
///         Two { items: Vec::new(alloc) }
///     }
///
///     fn take_in(&mut self, item: u8) -> Result<(), u8> {
///         if self.items.len() == 2 {
///             return Err(item);
///         }
///         self.items.take_in(item)
///     }
/// }
///
/// let collecting = stream::iter(1u8..5).collect::<Two>(rt.alloc());
/// let Err(Refused { collected, item }) = future::block_on(&rt, collecting)? else {
///     return Err(Fail::from("it takes two items"));
/// };
/// assert_eq!(rt; collected.items.as_slice(), [1, 2].as_slice());
/// assert_eq!(rt; item, 3);
/// ```
#[derive(Debug, PartialEq, Eq, Drop)]
pub struct Refused<C, T> {
    /// What was collected: all items before the refused one.
    pub collected: C,
    /// The refused item.
    pub item: T,
}

/// Why `try_collect` stopped before the end.
///
/// # Examples
///
/// ```
/// use futures_lite::stream::{self, TryCollectError};
/// use futures_lite::{StreamExt, future};
///
/// let results = stream::iter_array([Ok(1u8), Err("bad"), Ok(3)]);
/// match future::block_on(&rt, results.try_collect::<_, _, Vec<u8>>(rt.alloc()))? {
///     Ok(_) => return Err(Fail::from("the second item is an error")),
///     Err(TryCollectError::Source(e)) => assert_eq!(rt; e, "bad"),
///     Err(TryCollectError::Memory(_)) => return Err(Fail::from("no memory for an item")),
/// }
/// ```
#[derive(Debug, PartialEq, Eq, Drop)]
pub enum TryCollectError<C, T, E> {
    /// An item was this error. What was collected is dropped with the future.
    Source(E),
    /// The collection refused the value in an item.
    Memory(Refused<C, T>),
}

/// What `unzip` returns if a collection refused a part of an item.
///
/// # Examples
///
/// ```
/// use futures_lite::stream::{self, Gather, UnzipRefused};
/// use futures_lite::{StreamExt, future};
/// use std::alloc::Global;
///
/// /// Takes one item.
/// #[derive(Debug, Drop)]
/// struct One {
///     items: Vec<u8>,
/// }
///
/// impl Gather<u8> for One {
///     type Alloc = Global;
///
///     ghost use Rattle.std.specs.Prelude.{◌≡◌};
///
///     ghost holds = { λ c l. c.items.items ≡ l };
///
///     fn empty(alloc: Global) -> One {
///         One { items: Vec::new(alloc) }
///     }
///
///     fn take_in(&mut self, item: u8) -> Result<(), u8> {
///         if self.items.len() == 1 {
///             return Err(item);
///         }
///         self.items.take_in(item)
///     }
/// }
///
/// let pairs = stream::iter_array([(1u8, 2u8), (3, 4)]);
/// let parting = pairs.unzip::<_, _, Vec<u8>, One>(rt.alloc());
/// let Err(UnzipRefused::Right { collected, item }) = future::block_on(&rt, parting)? else {
///     return Err(Fail::from("the second collection takes one item"));
/// };
/// assert_eq!(rt; collected.0.as_slice(), [1, 3].as_slice());
/// assert_eq!(rt; collected.1.items.as_slice(), [2].as_slice());
/// assert_eq!(rt; item, 4);
/// ```
#[derive(Debug, PartialEq, Eq, Drop)]
pub enum UnzipRefused<FA, FB, A, B> {
    /// The first collection refused its part. Neither part was collected.
    Left {
        /// What was collected: the parts of all items before this one.
        collected: (FA, FB),
        /// Both parts of the item.
        item: (A, B),
    },
    /// The second collection refused its part. The first part is in its collection.
    Right {
        /// What was collected: the parts of all items before this one, and the first part of this one.
        collected: (FA, FB),
        /// The second part of the item.
        item: B,
    },
}
