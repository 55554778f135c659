//! Calls that are made again after an interruption.

/// How many interruptions in a row are retried after.
pub(crate) const MOST_INTERRUPTIONS: usize = 16;

/// Returns from the enclosing function: makes the call, and makes it again after an error of the kind
/// `Interrupted`, up to 16 times in a row. A 17th interruption is returned, and so is any other error. Unlike
/// in futures-lite, there is this bound.
macro_rules! insist {
    ($call:expr) => {{
        for _ in 0..MOST_INTERRUPTIONS {
            match $call {
                Err(e) if e.kind() == ErrorKind::Interrupted => {}
                answer => return Poll::Ready(answer),
            }
        }
        Poll::Ready($call)
    }};
}

pub(crate) use insist;
