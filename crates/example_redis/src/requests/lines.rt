//! Requests that are written as a line.
ghost use Rattle.std.specs.Prelude.{◌≡◌, ◌≢◌, ◌<◌, ◌≤◌, ◌++◌, All, IfOk, length, map, slice_index, take};
ghost use Rattle.example_redis.specs.Bytes.{line_words};
ghost use Rattle.example_redis.specs.Taking.{TakesRequest, TakesText};

use super::{Request, Requests};
use crate::error::RequestError;
use bytes::BytesMut;
use memchr::memchr;
use std::alloc::{AllocError, Global};

impl Requests {
    // Takes a line that is whole.
    pub(super) fn take_line(&mut self, src: &mut BytesMut) -> Result<Option<Request>, RequestError>
        requires closed { self.old.missing ≡ 0 }
        requires other { slice_index (self.old.line.items ++ src.old.items) 0 ≢ 42 }
        ensures { TakesRequest self.old.limits self.old.limits.request (self.old.line.items ++ src.old.items) result self.new src.new.items }
    {
        if !self.take_text(src)? {
            return Ok(None);
        }
        let words = copy_words(self.alloc, self.line.as_slice())?;
        src.advance(1);
        self.line.clear();
        Ok(Some(Request { words }))
    }

    // Takes the bytes of a line, and returns whether its line feed is next.
    fn take_text(&mut self, src: &mut BytesMut) -> Result<bool, RequestError>
        requires closed { self.old.missing ≡ 0 }
        requires other { slice_index (self.old.line.items ++ src.old.items) 0 ≢ 42 }
        ensures { TakesText self.old src.old.items result self.new src.new.items }
    {
        let amount = line_length(src.as_slice());
        if self.line.len() + amount > self.limits.line as usize {
            return Err(RequestError::LongLine);
        }
        self.line.extend_from_slice(&src.as_slice()[..amount])?;
        src.advance(amount);
        Ok(!src.is_empty())
    }
}

// Returns how many bytes are before the first line feed, or all.
fn line_length(bytes: &[u8]) -> usize
    ensures within { result ≤ length bytes.now }
    ensures one_line { All (λ b. b ≢ 10) (take result bytes.now) }
    ensures feed { result < length bytes.now → slice_index bytes.now result ≡ 10 }
{
    match memchr(b'\n', bytes) {
        Some(place) => place,
        None => bytes.len(),
    }
}

// Copies the words of a line.
fn copy_words(alloc: Global, line: &[u8]) -> Result<Vec<Vec<u8>>, AllocError>
    ensures { IfOk result (λ v. map (λ w. w.items) v.items ≡ line_words line.now) }
{
    let parts = split_words(alloc, line)?;
    let mut words = Vec::new(alloc);
    for part in &parts {
        words.push(Vec::from_slice(alloc, part)?)?;
    }
    Ok(words)
}

// Splits a line at its blanks.
fn split_words(alloc: Global, line: &[u8]) -> Result<Vec<&[u8]>, AllocError>
    ensures { IfOk result (λ v. map (λ p. p.now) v.items ≡ line_words line.now) }
{
    line.split(|byte| byte.is_ascii_whitespace())
        .filter(|part| !part.is_empty())
        .collect(alloc)
}
