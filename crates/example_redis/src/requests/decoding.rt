//! The decoder of requests.
ghost use Rattle.std.specs.Prelude.{◌≡◌, ◌≢◌, ◌<◌, ◌++◌, ◌↔◌, ℕ, List, [], IsFalse, IsTrue, Ok, length, slice_index};
ghost use Rattle.tokio_util.specs.Codec.Next.{at_end, decoded};
ghost use Rattle.example_redis.specs.Requests.{IsIdle, gives_requests};
ghost use Rattle.example_redis.specs.Taking.{TakesRequest, TakesWord, whole_front, whole_room};
ghost use Rattle.example_redis.specs.Laws.Requests.{requests_end, requests_partial, requests_stable};

use super::{Request, Requests};
use crate::error::RequestError;
use crate::front::read_front;
use crate::limits::Limits;
use crate::word::read_word;
use bytes::BytesMut;
use std::alloc::Global;
use std::mem;
use tokio_util::codec::Decoder;

impl Requests {
    /// Returns a decoder of requests within these limits.
    pub fn new(alloc: Global, limits: Limits) -> Requests
        ensures { IsIdle limits result }
    {
        Requests {
            alloc,
            limits,
            words: Vec::new(alloc),
            missing: 0,
            room: 0,
            line: Vec::new(alloc),
        }
    }

    // Returns whether no request is open.
    fn is_idle(&self) -> bool
        ensures { IsTrue result ↔ (self.now.missing ≡ 0 × length self.now.line.items ≡ 0) }
    {
        self.missing == 0 && self.line.is_empty()
    }

    // Returns whether these bytes begin an array.
    fn is_array(&self, bytes: &[u8]) -> bool
        ensures array { IsTrue result → (length self.now.line.items ≡ 0) × (0 < length bytes.now) × (slice_index bytes.now 0 ≡ 42) }
        ensures line { IsFalse result → slice_index (self.now.line.items ++ bytes.now) 0 ≢ 42 }
    {
        self.line.is_empty() && !bytes.is_empty() && bytes[0] == b'*'
    }

    // Takes the missing words that are whole.
    fn take_words(&mut self, src: &mut BytesMut) -> Result<Option<Request>, RequestError>
        requires { length self.old.line.items ≡ 0 }
        ensures { TakesRequest self.old.limits (whole_room self.old) (whole_front self.old ++ src.old.items) result self.new src.new.items }
    {
        while self.missing > 0 {
            if !self.take_word(src)? {
                return Ok(None);
            }
        }
        let words = mem::replace(&mut self.words, Vec::new(self.alloc));
        Ok(Some(Request { words }))
    }

    // Takes the next word, and returns whether it is whole.
    fn take_word(&mut self, src: &mut BytesMut) -> Result<bool, RequestError>
        requires { 0 < self.old.missing }
        ensures { TakesWord self.old src.old.items result self.new src.new.items }
    {
        let Some(place) = read_word(src.as_slice(), self.limits, self.room)? else {
            return Ok(false);
        };
        let end = place.start + place.len;
        let word = Vec::from_slice(self.alloc, &src.as_slice()[place.start..end])?;
        self.words.push(word)?;
        self.missing -= 1;
        self.room -= end + 2;
        src.advance(end + 2);
        Ok(true)
    }
}

impl Decoder for Requests {
    type Item = Request;

    type Error = RequestError;

    ghost gives = { gives_requests };

    ghost stable = { requests_stable };

    ghost partial_has_no_frame = { requests_partial };

    ghost end_is_partial = { requests_end };

    /// Takes the request at the front of `src`. `None` says that it is not whole; what came of it may be taken.
    ///
    /// # Errors
    ///
    /// The bytes are no request, or one above a limit, or memory was refused. A further call goes on with the same bytes.
    fn decode(&mut self, src: &mut BytesMut) -> Result<Option<Request>, RequestError> {
        if self.missing == 0 {
            if !self.is_array(src.as_slice()) {
                return self.take_line(src);
            }
            let Some(front) = read_front(src.as_slice(), self.limits)? else {
                return Ok(None);
            };
            src.advance(front.size);
            self.words = Vec::new(self.alloc);
            self.missing = front.words;
            self.room = self.limits.request as usize;
        }
        self.take_words(src)
    }

    /// The same at the end of the input. `None` says that no byte is left.
    ///
    /// # Errors
    ///
    /// Those of `decode`, and `Cut` for a request that is not whole.
    fn decode_eof(&mut self, src: &mut BytesMut) -> Result<Option<Request>, RequestError> {
        match self.decode(src)? {
            Some(request) => Ok(Some(request)),
            None if self.is_idle() && src.is_empty() => Ok(None),
            None => Err(RequestError::Cut),
        }
    }
}

/// Two laws of the decoder. A request takes at least a byte, and is known at its last byte. None is given at the end of the
/// input alone.
pub fn takes_bytes()
    ensures whole { (s : Requests) (xs : List ℕ) (v : Request) (t : Requests) (ys : List ℕ) → gives_requests s xs (decoded (Ok v) t ys)
        → (used : List ℕ) × (0 < length used) × (xs ≡ used ++ ys) × gives_requests s used (decoded (Ok v) t []) }
    ensures last { (s : Requests) (xs : List ℕ) (v : Request) (t : Requests) (ys : List ℕ) → gives_requests s xs (at_end (Ok (Some v)) t ys)
        → length ys < length xs }
{}
