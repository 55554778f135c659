//! How the server answers a line.
ghost use Rattle.std.specs.Prelude.{◌≡◌, ◌++◌, ◌∷◌, [], IfOk, false, map, true};
ghost use Rattle.framed.specs.Services.{ServesAs};
ghost use Rattle.example_lines.specs.Request.{bytes_of};
ghost use Rattle.example_lines.specs.Service.{HasReplied, SaysLast, deletion, line_step, reply_to};
ghost use Rattle.example_lines.specs.Store.{KeyValues, stored};

use super::Store;
use crate::request::{Request, parse};
use bytes::BytesMut;
use framed::{Answer, FrameError, Service};
use itoa::Buffer;
use std::alloc::{AllocError, Global};

impl Service for Store {
    type Request = BytesMut;

    type Reply = Vec<u8>;

    type Error = FrameError;

    ghost answers = { ServesAs (λ line. line.items) (λ reply. reply.items) stored line_step };

    ghost refuses = { SaysLast };

    fn answer(&mut self, alloc: Global, line: BytesMut) -> Result<Answer<Vec<u8>>, AllocError> {
        self.perform(alloc, parse(line.as_slice()))
    }

    fn refuse(&mut self, alloc: Global, error: &FrameError) -> Result<Vec<Vec<u8>>, AllocError> {
        match error {
            FrameError::TooLong(_) => one_line(alloc, b"error: the line is too long", b""),
            FrameError::CutOff => one_line(alloc, b"error: the last line has no newline", b""),
            FrameError::Malformed
            | FrameError::HasNewline(_)
            | FrameError::EndsInReturn
            | FrameError::Io(_) => { Ok(Vec::new(alloc)) }
        }
    }
}

impl Store {
    // Does what a line asks for.
    fn perform(
        &mut self,
        alloc: Global,
        request: Request<&[u8]>,
    ) -> Result<Answer<Vec<u8>>, AllocError>
        ensures { HasReplied (stored self.old) (reply_to (stored self.old) (bytes_of request.entry)) result (stored self.new) }
    {
        match request {
            Request::Set(key, value) => {
                // A change that was made has to be replied to, so the reply is made first.
                let answer = say(alloc, b"stored", b"")?;
                self.set(key, value)?;
                Ok(answer)
            }
            Request::Get(key) => match self.get(key) {
                Some(value) => say(alloc, b"value ", value),
                None => say(alloc, b"no value", b""),
            },
            Request::Delete(key) => {
                let answer = self.say_deletion(alloc, key)?;
                self.delete(key);
                Ok(answer)
            }
            Request::Count => say(
                alloc,
                b"count ",
                Buffer::new().format(self.len()).as_bytes(),
            ),
            Request::Quit => say_last(alloc, b"bye"),
            Request::Web => say_last(alloc, b"error: this is no web server"),
            Request::Malformed => say(alloc, b"error: SET takes a key and a value", b""),
            Request::Unknown => say(alloc, b"error: unknown request", b""),
        }
    }

    // Replies whether there is a value to delete.
    fn say_deletion(&self, alloc: Global, key: &[u8]) -> Result<Answer<Vec<u8>>, AllocError>
        ensures { (h : KeyValues) → HasReplied h (deletion ((stored self.now).at key.now), true, h) result h }
    {
        match self.get(key) {
            Some(_) => say(alloc, b"deleted", b""),
            None => say(alloc, b"no value", b""),
        }
    }
}

// Replies one line, of these texts, after which the session goes on.
fn say(alloc: Global, text: &[u8], more: &[u8]) -> Result<Answer<Vec<u8>>, AllocError>
    ensures { (h : KeyValues) → HasReplied h (text.now ++ more.now, true, h) result h }
{
    Ok(Answer {
        replies: one_line(alloc, text, more)?,
        goes_on: true,
    })
}

// Replies one line, after which the session ends.
fn say_last(alloc: Global, text: &[u8]) -> Result<Answer<Vec<u8>>, AllocError>
    ensures { (h : KeyValues) → HasReplied h (text.now, false, h) result h }
{
    Ok(Answer {
        replies: one_line(alloc, text, b"")?,
        goes_on: false,
    })
}

// Returns one line, of these texts.
fn one_line(alloc: Global, text: &[u8], more: &[u8]) -> Result<Vec<Vec<u8>>, AllocError>
    ensures { IfOk result (λ v. map (λ r. r.items) v.items ≡ (text.now ++ more.now) ∷ []) }
{
    let mut line = Vec::with_capacity(alloc, text.len() + more.len())?;
    line.extend_from_slice(text)?;
    line.extend_from_slice(more)?;
    Ok(Vec::from_array(alloc, [line])?)
}
