//! What a server does with requests.
ghost use Rattle.framed.specs.Services.{LastWords, ServiceStep, last_words, outcome};

use std::alloc::{AllocError, Global};

/// What a service answers to a request.
///
/// # Examples
///
/// ```
/// use framed::Answer;
///
/// let replies = Vec::from_array(rt.alloc(), [1u8, 2])?;
/// let answer = Answer { replies, goes_on: false };
/// assert_eq!(rt; answer.replies.len(), 2);
/// ```
#[derive(Debug, Drop)]
pub struct Answer<R> {
    /// The replies, in order. There may be none.
    pub replies: Vec<R>,
    /// Whether the server serves the next request. If not, it flushes the replies and ends.
    pub goes_on: bool,
}

/// A service that answers requests, for [`serve`](crate::serve). It may have a state, such as a map.
pub trait Service {
    /// The type of the requests.
    type Request;

    /// The type of the replies.
    type Reply;

    /// The error of the stream of requests: of a malformed request, of the reader, or of memory that was refused
    /// for a request.
    type Error;

    /// A step: in a state the service gives replies to a request, says whether it goes on, and goes to a state.
    /// `None` in place of the replies says that memory was refused.
    ///
    /// A service whose answer depends on the request alone has `RepliesBy` of a function. One with a state has
    /// `ServesBy` of what the state holds, and of a function from that and the request.
    ghost answers: { ServiceStep Self Self.Request Self.Reply };

    /// The last words to an error of the stream of requests. `None` in their place says that memory was refused.
    ///
    /// Those that depend on the error alone, and leave the state, are `RefusesBy` of what the state holds and of a
    /// function.
    ghost refuses: { LastWords Self Self.Error Self.Reply };

    /// Answers a request, with memory from `alloc`. `Err` means that memory was refused.
    ///
    /// # Examples
    ///
    /// ```
    /// use framed::{Answer, Service};
    /// use std::alloc::{AllocError, Global};
    ///
    /// /// Replies nothing, and ends at once. Its last words are a 7.
    /// #[derive(Drop)]
    /// struct Silent;
    ///
    /// impl Service for Silent {
    ///     ghost use Rattle.std.specs.Prelude.{◌∷◌, [], false};
    ///     ghost use Rattle.framed.specs.Services.{RefusesBy, RepliesBy};
    ///
    ///     type Request = u8;
    ///     type Reply = u8;
    ///     type Error = ();
    ///
    ///     ghost answers = { RepliesBy (λ _. ([], false)) };
    ///
    ///     ghost refuses = { RefusesBy (λ s. s) (λ _. 7 ∷ []) };
    ///
    ///     fn answer(&mut self, alloc: Global, _: u8) -> Result<Answer<u8>, AllocError> {
    ///         Ok(Answer { replies: Vec::new(alloc), goes_on: false })
    ///     }
    ///
    ///     fn refuse(&mut self, alloc: Global, _: &()) -> Result<Vec<u8>, AllocError> {
    ///         Ok(Vec::from_array(alloc, [7u8])?)
    ///     }
    /// }
    ///
    /// assert!(rt; !Silent.answer(rt.alloc(), 1)?.goes_on);
    /// ```
    fn answer(
        &mut self,
        alloc: Global,
        request: Self::Request,
    ) -> Result<Answer<Self::Reply>, AllocError>
        ensures { answers self.old request (outcome result) self.new };

    /// Returns the last words to an error of the stream of requests. The server writes and flushes them, and ends.
    /// `Err` means that memory was refused.
    ///
    /// # Examples
    ///
    /// ```
    /// use framed::{Answer, Service};
    /// use std::alloc::{AllocError, Global};
    ///
    /// /// Replies nothing, and ends at once. Its last words are a 7.
    /// #[derive(Drop)]
    /// struct Silent;
    ///
    /// impl Service for Silent {
    ///     ghost use Rattle.std.specs.Prelude.{◌∷◌, [], false};
    ///     ghost use Rattle.framed.specs.Services.{RefusesBy, RepliesBy};
    ///
    ///     type Request = u8;
    ///     type Reply = u8;
    ///     type Error = ();
    ///
    ///     ghost answers = { RepliesBy (λ _. ([], false)) };
    ///
    ///     ghost refuses = { RefusesBy (λ s. s) (λ _. 7 ∷ []) };
    ///
    ///     fn answer(&mut self, alloc: Global, _: u8) -> Result<Answer<u8>, AllocError> {
    ///         Ok(Answer { replies: Vec::new(alloc), goes_on: false })
    ///     }
    ///
    ///     fn refuse(&mut self, alloc: Global, _: &()) -> Result<Vec<u8>, AllocError> {
    ///         Ok(Vec::from_array(alloc, [7u8])?)
    ///     }
    /// }
    ///
    /// assert!(rt; Silent.refuse(rt.alloc(), &())?.len() == 1);
    /// ```
    fn refuse(&mut self, alloc: Global, error: &Self::Error) -> Result<Vec<Self::Reply>, AllocError>
        ensures { refuses self.old error.now (last_words result) self.new };
}
