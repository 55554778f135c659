//! What a server of lent frames does with requests.
ghost use Rattle.std.specs.Prelude.{List, ℕ};
ghost use Rattle.framed.specs.Services.{LastWords, ServiceStep};
ghost use Rattle.lent_frames.specs.declared.frames_error.FramesError.{FramesError};
ghost use Rattle.serving.specs.Responding.{Pushes, PushesWords};

use framed::FramesError;
use std::alloc::AllocError;

/// What [`Serving`](crate::Serving) does with requests. It may have a state, such as a map.
///
/// A request is the body of a frame, which is lent. The replies are pushed behind the bytes of a buffer, so that no
/// vector is made for a reply.
///
/// # Examples
///
/// ```
/// use framed::FramesError;
/// use serving::Responder;
/// use std::alloc::AllocError;
///
/// /// Replies to each request with itself and a line feed.
/// #[derive(Drop)]
/// struct Echo;
///
/// impl Responder for Echo {
///     ghost use Rattle.std.specs.Prelude.{◌∷◌, [], ◌++◌, true};
///     ghost use Rattle.framed.specs.Services.{RefusesBy, RepliesBy};
///
///     type Error = ();
///
///     ghost answers = { RepliesBy (λ request. (request ++ 10 ∷ [], true)) };
///
///     ghost refuses = { RefusesBy (λ s. s) (λ _. []) };
///
///     fn answer(&mut self, request: &[u8], out: &mut Vec<u8>) -> Result<bool, AllocError> {
///         out.extend_from_slice(request)?;
///         out.push(b'\n')?;
///         Ok(true)
///     }
///
///     fn refuse(&mut self, _: &FramesError<()>, _: &mut Vec<u8>) -> Result<(), AllocError> {
///         Ok(())
///     }
/// }
///
/// let mut out = Vec::new(rt.alloc());
/// assert!(rt; Echo.answer(b"hi", &mut out)?);
/// assert_eq!(rt; out.as_slice(), b"hi\n".as_slice());
/// ```
pub trait Responder {
    /// The error of the cutter, at bytes that begin no frame.
    type Error;

    /// A step: in a state the responder gives the bytes of the replies to a request, says whether it goes on, and goes to a
    /// state. `None` in place of the replies says that memory was refused.
    ///
    /// A responder whose replies depend on the request alone has `RepliesBy` of a function. One with a state has
    /// `ServesBy` of what the state holds, and of a function from that and the request.
    ghost answers: { ServiceStep Self (List ℕ) ℕ };

    /// The last words to an error of the input. `None` in their place says that memory was refused.
    ghost refuses: { LastWords Self (FramesError Self.Error) ℕ };

    /// Pushes the replies to `request` behind the bytes of `out`, and returns whether the session goes on. If not, the
    /// server writes and flushes the replies, and ends.
    ///
    /// # Errors
    ///
    /// Memory was refused. The server takes what was pushed to this request away again, so that no part of a reply is
    /// written.
    ///
    /// # Examples
    ///
    /// ```
    /// use framed::{CutError, FramesError};
    /// use serving::Responder;
    /// use std::alloc::AllocError;
    ///
    /// /// Replies to each line with itself.
    /// #[derive(Drop)]
    /// struct Echo;
    ///
    /// impl Responder for Echo {
    ///     ghost use Rattle.std.specs.Prelude.{[], true};
    ///     ghost use Rattle.framed.specs.Services.{RefusesBy, RepliesBy};
    ///
    ///     type Error = CutError;
    ///
    ///     ghost answers = { RepliesBy (λ line. (line, true)) };
    ///
    ///     ghost refuses = { RefusesBy (λ s. s) (λ _. []) };
    ///
    ///     fn answer(&mut self, line: &[u8], out: &mut Vec<u8>) -> Result<bool, AllocError> {
    ///         out.extend_from_slice(line)?;
    ///         Ok(true)
    ///     }
    ///
    ///     fn refuse(&mut self, _: &FramesError<CutError>, _: &mut Vec<u8>) -> Result<(), AllocError> {
    ///         Ok(())
    ///     }
    /// }
    ///
    /// let mut out = Vec::new(rt.alloc());
    /// assert!(rt; Echo.answer(b"hi", &mut out)?);
    /// assert_eq!(rt; out.as_slice(), b"hi".as_slice());
    /// ```
    fn answer(&mut self, request: &[u8], out: &mut Vec<u8>) -> Result<bool, AllocError>
        ensures { Pushes (answers self.old request.now) out.old.items result out.new.items self.new };

    /// Pushes the last words to an error of the input behind the bytes of `out`. The server writes and flushes them, and
    /// ends.
    ///
    /// # Errors
    ///
    /// Memory was refused. The server takes what was pushed away again.
    ///
    /// # Examples
    ///
    /// ```
    /// use framed::{CutError, FramesError};
    /// use serving::Responder;
    /// use std::alloc::AllocError;
    ///
    /// /// Replies to each line with itself.
    /// #[derive(Drop)]
    /// struct Echo;
    ///
    /// impl Responder for Echo {
    ///     ghost use Rattle.std.specs.Prelude.{[], true};
    ///     ghost use Rattle.framed.specs.Services.{RefusesBy, RepliesBy};
    ///
    ///     type Error = CutError;
    ///
    ///     ghost answers = { RepliesBy (λ line. (line, true)) };
    ///
    ///     ghost refuses = { RefusesBy (λ s. s) (λ _. []) };
    ///
    ///     fn answer(&mut self, line: &[u8], out: &mut Vec<u8>) -> Result<bool, AllocError> {
    ///         out.extend_from_slice(line)?;
    ///         Ok(true)
    ///     }
    ///
    ///     fn refuse(&mut self, _: &FramesError<CutError>, _: &mut Vec<u8>) -> Result<(), AllocError> {
    ///         Ok(())
    ///     }
    /// }
    ///
    /// let mut out = Vec::new(rt.alloc());
    /// assert!(rt; Echo.refuse(&FramesError::NoFrame(CutError::CutOff), &mut out).is_ok());
    /// assert!(rt; out.is_empty());
    /// ```
    fn refuse(
        &mut self,
        error: &FramesError<Self::Error>,
        out: &mut Vec<u8>,
    ) -> Result<(), AllocError>
        ensures { PushesWords (refuses self.old error.now) out.old.items result out.new.items self.new };
}
