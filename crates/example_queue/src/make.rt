//! The function that makes a transfer.
ghost use Rattle.std.specs.Prelude.{◌≡◌, IfOk, false};
ghost use Rattle.std.specs.declared.alloc.AllocError.{AllocError};
ghost use Rattle.futures_lite.specs.Lists.{OfItems, ValueHolds};
ghost use Rattle.futures_lite.specs.Own.{StepsToValue};
ghost use Rattle.example_queue.specs.Transfer.{TransferStep};

use crate::queue::Queue;
use crate::receiver::Receiver;
use crate::sender::Sender;
use crate::transfer::Transfer;
use futures_lite::Stream;
use std::alloc::Global;

/// Returns a future that moves the items of `source` through a queue for `bound` items.
///
/// The caller guarantees that `source` may be polled. If the items of the source are known, the contract says that they
/// are the value, in their order. With a bound of 0 no item moves, and the future is pending for ever.
pub fn transfer<T: Drop, S: Stream<Item = T>>(
    alloc: Global,
    source: S,
    bound: usize,
) -> Transfer<S, T>
where
    ensures source { result.sender.source ≡ source }
    ensures open { result.queue.is_closed ≡ false }
    ensures value { OfItems S.run source (λ xs. ValueHolds AllocError (StepsToValue (TransferStep S.run)) result
        (λ r. IfOk r (λ v. v.items ≡ xs))) }
{
    Transfer {
        sender: Sender { source, held: None },
        queue: Queue::new(alloc, bound),
        receiver: Receiver {
            received: Vec::new(alloc),
        },
    }
}
