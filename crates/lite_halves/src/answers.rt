//! Answers of polls, as an entry records them.
ghost use Rattle.std.specs.Prelude.{◌≡◌, ◌≤◌, [], length, vec_capacity, IfOk, MatchOption};
ghost use Rattle.lite_halves.specs.Uses.{IfReady};
ghost use Rattle.lite_halves.specs.Counts.{IsOutOfMemory};
ghost use Rattle.lite_halves.specs.Entry.{told_of, told_of_done, told_of_read, told_of_write};

use crate::entry::Answer;
use lite_base::Poll;
use std::io;
use std::io::ErrorKind;

/// Returns the answer of a read into the whole of `buf`, with `buf` cut to what was read.
pub fn buffer_answer(polled: &Poll<io::Result<usize>>, mut buf: Vec<u8>) -> Answer
    requires { IfReady polled.now (λ r. IfOk r (λ n. n ≤ length buf.items)) }
    ensures { told_of result ≡ told_of_read polled.now buf.items }
{
    match polled {
        Poll::Pending => Answer::Pending,
        Poll::Ready(Ok(n)) => {
            buf.truncate(*n);
            buf.shrink_to_fit();
            Answer::Read(buf)
        }
        Poll::Ready(Err(e)) => Answer::Fault(e.kind()),
    }
}

/// Returns the answer of a read, with its bytes in `bytes`, which has the room; the unused room is given
/// back.
pub(crate) fn read_answer(
    polled: &Poll<io::Result<usize>>,
    mut bytes: Vec<u8>,
    buf: &[u8],
) -> Answer
    requires empty { bytes.items ≡ [] }
    requires room { length buf.now ≤ vec_capacity bytes }
    requires bound { IfReady polled.now (λ r. IfOk r (λ n. n ≤ length buf.now)) }
    ensures { told_of result ≡ told_of_read polled.now buf.now }
{
    match polled {
        Poll::Pending => Answer::Pending,
        Poll::Ready(Ok(n)) => {
            let Ok(()) = bytes.extend_from_slice(&buf[..*n]) else {
                unreachable!()
            };
            bytes.shrink_to_fit();
            Answer::Read(bytes)
        }
        Poll::Ready(Err(e)) => Answer::Fault(e.kind()),
    }
}

/// Returns the answer of a write.
pub fn write_answer(polled: &Poll<io::Result<usize>>) -> Answer
    ensures { told_of result ≡ told_of_write polled.now }
{
    match polled {
        Poll::Pending => Answer::Pending,
        Poll::Ready(Ok(n)) => Answer::Wrote(*n),
        Poll::Ready(Err(e)) => Answer::Fault(e.kind()),
    }
}

/// Returns the answer of a flush or of a close.
pub fn done_answer(polled: &Poll<io::Result<()>>) -> Answer
    ensures { told_of result ≡ told_of_done polled.now }
{
    match polled {
        Poll::Pending => Answer::Pending,
        Poll::Ready(Ok(())) => Answer::Done,
        Poll::Ready(Err(e)) => Answer::Fault(e.kind()),
    }
}

/// Returns the result of the poll, or an error of the kind `OutOfMemory` for `None`.
pub(crate) fn or_refused<T>(polled: Option<Poll<io::Result<T>>>) -> Poll<io::Result<T>>
    ensures { MatchOption polled (IsOutOfMemory result) (λ answer. result ≡ answer) }
{
    match polled {
        Some(answer) => answer,
        None => Poll::Ready(Err(io::Error::from(ErrorKind::OutOfMemory))),
    }
}
