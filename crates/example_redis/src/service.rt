//! How the server answers a request.
ghost use Rattle.std.specs.Prelude.{Some};
ghost use Rattle.framed.specs.Services.{ServesAs};
ghost use Rattle.example_redis.specs.Commands.{said, texts};
ghost use Rattle.example_redis.specs.Service.{Complains, LastSaid, last_said, step};
ghost use Rattle.example_redis.specs.Store.{held};

use crate::commands::Outcome;
use crate::error::RequestError;
use crate::reply::Reply;
use crate::requests::Request;
use crate::store::Store;
use framed::{Answer, Service};
use std::alloc::{AllocError, Global};

impl Service for Store {
    type Request = Request;

    type Reply = Reply;

    type Error = RequestError;

    ghost answers = { ServesAs (λ request. texts request.words.items) (λ reply. said (Some reply)) held step };

    ghost refuses = { LastSaid };

    fn answer(&mut self, alloc: Global, request: Request) -> Result<Answer<Reply>, AllocError> {
        // A change that was made has to be replied to, so there is room for the reply first.
        let mut replies = Vec::with_capacity(alloc, 1)?;
        let Outcome { reply, goes_on } = self.perform(&request.words)?;
        match reply {
            Some(reply) => replies.push_reserved(reply),
            None => {}
        }
        Ok(Answer { replies, goes_on })
    }

    fn refuse(&mut self, alloc: Global, error: &RequestError) -> Result<Vec<Reply>, AllocError> {
        let mut replies = Vec::with_capacity(alloc, 1)?;
        let text = complaint(error);
        if !text.is_empty() {
            replies.push_reserved(Reply::Error(Vec::from_slice(alloc, text)?));
        }
        Ok(replies)
    }
}

/// Returns what is said of a request that is refused; nothing if the reader failed or memory was refused.
fn complaint(error: &RequestError) -> &'static [u8]
    ensures { Complains (last_said error.now) result.now }
{
    match error {
        RequestError::Malformed => b"ERR Protocol error: malformed request",
        RequestError::TooManyWords => b"ERR Protocol error: too many words",
        RequestError::LongWord => b"ERR Protocol error: a word is too long",
        RequestError::LongRequest => b"ERR Protocol error: the request is too long",
        RequestError::LongLine => b"ERR Protocol error: the line is too long",
        RequestError::Cut | RequestError::Io(_) | RequestError::Memory => b"",
    }
}
