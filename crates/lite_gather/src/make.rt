//! Functions that make the futures.
ghost use Rattle.std.specs.Prelude.{◌≡◌, [], IsSome, IfSome};

use crate::collect::{Collect, CollectFuture};
use crate::gather::Gather;
use crate::partition::{Partition, PartitionFuture};
use crate::try_collect::{TryCollect, TryCollectFuture};
use crate::unzip::{Unzip, UnzipFuture};
use lite_base::Stream;
use lite_consume::Consume;
use lite_consume::make::consume;

/// Returns a future that collects the items of `stream` into a collection that allocates from `alloc`.
pub fn collect<S: Stream, C: Gather<S::Item>>(stream: S, alloc: C::Alloc) -> CollectFuture<S, C>
    ensures stream { result.stream ≡ stream }
    ensures open { IsSome result.folder.collection }
    ensures empty { IfSome result.folder.collection (λ c. C.holds c []) }
{
    let collection = Some(C::empty(alloc));
    consume(stream, Collect { collection })
}

/// Returns a future that collects the values in the `Ok` items of `stream`, up to the first error. The
/// collection allocates from `alloc`.
pub fn try_collect<T, E, S: Stream<Item = Result<T, E>>, C: Gather<T>>(
    stream: S,
    alloc: C::Alloc,
) -> TryCollectFuture<S, C>
    ensures stream { result.stream ≡ stream }
    ensures open { IsSome result.folder.items }
    ensures empty { IfSome result.folder.items (λ c. C.holds c []) }
{
    let items = Some(C::empty(alloc));
    consume(stream, TryCollect { items })
}

/// Returns a future that collects the items of `stream` for which `predicate` returns true, and the others.
/// Both collections allocate from `alloc`.
pub fn partition<S: Stream, P, B: Gather<S::Item, Alloc: Copy>>(
    stream: S,
    alloc: B::Alloc,
    predicate: P,
) -> PartitionFuture<S, P, B>
    ensures stream { result.stream ≡ stream }
    ensures predicate { result.folder.predicate ≡ predicate }
    ensures open { IsSome result.folder.res }
    ensures empty { IfSome result.folder.res (λ c. B.holds c.0 [] × B.holds c.1 []) }
{
    let res = Some((B::empty(alloc), B::empty(alloc)));
    consume(stream, Partition { predicate, res })
}

/// Returns a future that collects the first and the second parts of the items of `stream`. Both collections
/// allocate from `alloc`.
pub fn unzip<A, B, S, FromA, FromB>(stream: S, alloc: FromA::Alloc) -> UnzipFuture<S, FromA, FromB>
where
    S: Stream<Item = (A, B)>,
    FromA: Gather<A, Alloc: Copy>,
    FromB: Gather<B, Alloc = FromA::Alloc>,
    ensures stream { result.stream ≡ stream }
    ensures open { IsSome result.folder.res }
    ensures empty { IfSome result.folder.res (λ c. FromA.holds c.0 [] × FromB.holds c.1 []) }
{
    let res = Some((FromA::empty(alloc), FromB::empty(alloc)));
    consume(stream, Unzip { res })
}
