//! Waiting for a server.
ghost use Rattle.serving.specs.Serving.{ServingEnds};

use crate::responder::Responder;
use crate::serving::Serving;
use crate::serving_error::ServingError;
use framed::Cutter;
use lite_base::future::Waiter;
use lite_io_base::{AsyncBufRead, AsyncWrite, CountedRead};
use std::sync::Wait;

/// Blocks this thread, by `on` and the runtime `rt`, until the server has ended, and returns its value.
///
/// The parts stay in `serving` ([`into_parts`](Serving::into_parts)). The call may wait forever. The caller guarantees that
/// `ranks.counts` holds for the reader of the requests.
///
/// # Errors
///
/// Those of [`Serving`]. Each is final.
///
/// # Examples
///
/// ```
/// use framed::{CutError, FramesError, LineDelimited};
/// use futures_lite::future::BlockOn;
/// use serving::{Responder, Serving, wait_serving};
/// use std::alloc::AllocError;
///
/// /// Replies to each line with itself and `!`. Its last words are `?`.
/// #[derive(Drop)]
/// struct Loud;
///
/// impl Responder for Loud {
///     ghost use Rattle.std.specs.Prelude.{◌∷◌, [], ◌++◌, true};
///     ghost use Rattle.framed.specs.Services.{RefusesBy, RepliesBy};
///
///     type Error = CutError;
///
///     ghost answers = { RepliesBy (λ line. (line ++ 33 ∷ [], true)) };
///
///     ghost refuses = { RefusesBy (λ s. s) (λ _. 63 ∷ []) };
///
///     fn answer(&mut self, line: &[u8], out: &mut Vec<u8>) -> Result<bool, AllocError> {
///         out.extend_from_slice(line)?;
///         out.push(b'!')?;
///         Ok(true)
///     }
///
///     fn refuse(&mut self, _: &FramesError<CutError>, out: &mut Vec<u8>) -> Result<(), AllocError> {
///         Ok(out.push(b'?')?)
///     }
/// }
///
/// let reader = b"one\r\ntwo\n".as_slice();
/// let lines = LineDelimited { max: 80 };
/// let mut serving = Serving::new(rt.alloc(), reader, lines, Vec::new(rt.alloc()), Loud);
/// let mut on = BlockOn::new(&rt)?;
/// assert_eq!(rt; wait_serving(&mut on, &rt, &mut serving), Ok(()));
/// assert_eq!(rt; serving.into_parts().replies.as_slice(), b"one!two!".as_slice());
/// ```
pub fn wait_serving<R, W, T, C, O, S>(
    on: &mut W,
    rt: &R,
    serving: &mut Serving<T, C, O, S>,
) -> Result<(), ServingError<C::Error>>
where
    R: Wait,
    W: Waiter,
    T: AsyncBufRead + CountedRead,
    C: Cutter,
    O: AsyncWrite,
    S: Responder<Error = C::Error>,
    requires { T.ranks.counts serving.old.requests.reader }
    ensures { ServingEnds C.piece C.refuses C.cut_off T.reads T.buffer_of O.writes S.answers S.refuses serving.old result serving.new }
{
    on.wait(rt, serving)
}
