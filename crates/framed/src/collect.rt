//! All frames of a reader.
ghost use Rattle.std.specs.Prelude.{◌≡◌, ◌≤◌, ◌++◌, List, length, vec_capacity};
ghost use Rattle.framed.specs.Uses.{ReadMark, ToldStripped};
ghost use Rattle.framed.specs.Frames.{ended, ending, reading};
ghost use Rattle.framed.specs.Whole.{Collects, CollectsLast, CollectsNone, IfNoRoom};

use crate::collect_error::CollectError;
use crate::framed_read::FramedRead;
use crate::next_frame::frame_by;
use crate::prompt_decoder::PromptDecoder;
use lite_base::future::Waiter;
use lite_io_base::{AsyncBufRead, CountedRead};
use std::sync::Wait;

/// Blocks this thread, by `on` and the runtime `rt`, until the input ends, and appends all frames to `out`.
///
/// They are the frames that the decoder finds in all bytes up to the end of file, whatever the chunks in which
/// the bytes came. If the end was read before, they are the frames that are left. The call may wait forever. The
/// caller guarantees that `ranks.counts` holds for the reader. A `BlockOn` or a `Waits` serves as `on`; the call begins
/// one wait for each frame, so with a `BlockOn` lend `&mut on.waits()`.
///
/// # Errors
///
/// The frames before an error are in `out`, so nothing that was read is lost.
///
/// - `CollectError::Input`: the first error that the stream returns ([`FramedRead`]).
/// - `CollectError::Memory`: memory for the vector was refused. The error has the frame for which there was no room.
///   The stream can be polled again.
///
/// # Examples
///
/// ```
/// use framed::{FramedRead, LengthDelimited, collect_frames};
/// use futures_lite::future::BlockOn;
///
/// let mut on = BlockOn::new(&rt)?;
/// let reader = b"\0\0\0\x02hi\0\0\0\x05there\0\0".as_slice();
/// let mut frames = FramedRead::new(rt.alloc(), reader, LengthDelimited { max: 100 });
/// let mut out = Vec::new(rt.alloc());
/// let collected = collect_frames(&mut on.waits(), &rt, &mut frames, &mut out);
/// // The input ends within the third frame. The two before it are there.
/// assert!(rt; collected.is_err());
/// assert_eq!(rt; out.len(), 2);
/// assert_eq!(rt; out[1].as_slice(), b"there".as_slice());
/// ```
pub fn collect_frames<R, W, T, D>(
    on: &mut W,
    rt: &R,
    framed: &mut FramedRead<T, D>,
    out: &mut Vec<D::Item>,
) -> Result<(), CollectError<D::Item, D::Error>>
where
    R: Wait,
    W: Waiter,
    T: AsyncBufRead + CountedRead,
    D: PromptDecoder,
    requires { T.ranks.counts framed.old.reader }
    ensures told { framed.old.phase ≡ reading
        → (l : List ReadMark) × (frames : List D.Item) × ToldStripped T.reads framed.old.reader l framed.new.reader
        × (out.new.items ≡ out.old.items ++ frames)
        × Collects D.gives D.Error.from_gives framed.old.decoder framed.old.held l frames result }
    ensures rest { framed.old.phase ≡ ending → (frames : List D.Item) × (framed.new.reader ≡ framed.old.reader)
        × (out.new.items ≡ out.old.items ++ frames)
        × CollectsLast D.gives D.Error.from_gives framed.old.decoder framed.old.held frames result }
    ensures over { framed.old.phase ≡ ended → (frames : List D.Item) × (framed.new ≡ framed.old)
        × (out.new.items ≡ out.old.items ++ frames) × CollectsNone frames result }
    ensures full { IfNoRoom result (vec_capacity out.old ≤ length out.new.items) }
    ensures again { T.ranks.counts framed.new.reader }
{
    for _ in rt.forever() {
        match frame_by(on, rt, framed) {
            Some(Ok(frame)) => {
                if let Err(refused) = out.push(frame) {
                    return Err(CollectError::Memory(refused.value));
                }
            }
            Some(Err(e)) => return Err(CollectError::Input(e)),
            None => return Ok(()),
        }
    }
    unreachable!()
}
