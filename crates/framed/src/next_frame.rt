//! Waiting for the next frame.
ghost use Rattle.std.specs.Prelude.{◌≡◌};
ghost use Rattle.framed.specs.Uses.{Ready, ToldStripped};
ghost use Rattle.framed.specs.Frames.{FrameStep};

use crate::framed_read::FramedRead;
use crate::prompt_decoder::PromptDecoder;
use lite_base::future::Waiter;
use lite_consume::make::next;
use lite_io_base::{AsyncBufRead, CountedRead};
use std::sync::Wait;

/// Blocks this thread, by `on` and the runtime `rt`, until the next frame is known, and returns it.
///
/// It returns what the stream returns in one poll that is not pending: a frame, the end or an error
/// ([`FramedRead`]). The call may wait forever. The caller guarantees that `ranks.counts` holds for the
/// reader, and it holds after the call.
///
/// # Examples
///
/// ```
/// use framed::{FramedRead, LengthDelimited, wait_frame};
/// use futures_lite::future::BlockOn;
///
/// let mut on = BlockOn::new(&rt)?;
/// let reader = b"\0\0\0\x02hi".as_slice();
/// let mut frames = FramedRead::new(rt.alloc(), reader, LengthDelimited { max: 100 });
/// match wait_frame(&mut on, &rt, &mut frames) {
///     Some(Ok(frame)) => assert_eq!(rt; frame.as_slice(), b"hi".as_slice()),
///     _ => return Err(Fail::from("there is a frame")),
/// }
/// assert!(rt; matches!(wait_frame(&mut on, &rt, &mut frames), None));
/// ```
pub fn wait_frame<R, W, T, D>(
    on: &mut W,
    rt: &R,
    framed: &mut FramedRead<T, D>,
) -> Option<Result<D::Item, D::Error>>
where
    R: Wait,
    W: Waiter,
    T: AsyncBufRead + CountedRead,
    D: PromptDecoder,
    requires { T.ranks.counts framed.old.reader }
    ensures told { FrameStep D.gives D.Error.from_gives (ToldStripped T.reads) framed.old (Ready result) framed.new }
    ensures again { T.ranks.counts framed.new.reader }
{
    frame_by(on, rt, framed)
}

// As `wait_frame`, for waits that share a context.
#[inline(always)]
pub(crate) fn frame_by<R, W, T, D>(
    waits: &mut W,
    rt: &R,
    framed: &mut FramedRead<T, D>,
) -> Option<Result<D::Item, D::Error>>
where
    R: Wait,
    W: Waiter,
    T: AsyncBufRead + CountedRead,
    D: PromptDecoder,
    requires { T.ranks.counts framed.old.reader }
    ensures told { FrameStep D.gives D.Error.from_gives (ToldStripped T.reads) framed.old (Ready result) framed.new }
    ensures again { T.ranks.counts framed.new.reader }
{
    waits.wait(rt, &mut next(framed))
}
