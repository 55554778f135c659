//! Why an item was not sent.

/// Why a send was refused. Each variant holds the item.
#[derive(Debug, Drop)]
pub enum SendError<T> {
    /// The queue is closed.
    Closed(T),
    /// The queue holds as many items as it may.
    Full(T),
    /// There was no memory for the item.
    Memory(T),
}
