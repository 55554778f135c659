//! Replies, and their encoder.
ghost use Rattle.std.specs.Prelude.{◌≡◌, ◌++◌, MatchResult, OnOk, length, take};
ghost use Rattle.example_redis.specs.Replies.{IsEncodable, IsOneLine, IsRefused, encodes_replies, line_bytes, refuses_replies, reply_bytes};
ghost use Rattle.example_redis.specs.declared.error.ReplyError.TheVariants.{LineBreak};

use crate::error::ReplyError;
use bytes::BytesMut;
use itoa::Buffer;
use memchr::memchr2;
use std::alloc::AllocError;
use tokio_util::codec::Encoder;

/// A reply of the Redis protocol.
#[derive(Debug, Drop)]
pub enum Reply {
    /// A line that says that all is well. It has no carriage return and no line feed.
    Simple(&'static str),
    /// A line that says what is wrong. It has no carriage return and no line feed.
    Error(Vec<u8>),
    /// A number.
    Integer(i64),
    /// Any bytes.
    Bulk(Vec<u8>),
    /// No value.
    Null,
    /// Replies in a row.
    Array(Vec<Reply>),
}

/// The encoder of replies.
#[derive(Debug, Clone, Copy, PartialEq, Eq)]
pub struct Replies {
    /// How deep arrays may be nested.
    pub depth: usize,
}

impl Replies {
    /// The encoder of a server that is not told another depth.
    pub const USUAL: Replies = Replies { depth: 8 };
}

impl Encoder<Reply> for Replies {
    type Error = ReplyError;

    ghost encodes = { encodes_replies };

    ghost refuses = { refuses_replies };

    /// Appends the bytes of a reply.
    ///
    /// # Errors
    ///
    /// The reply is nested too deep, has a line with a line break, or memory was refused. `dst` is as it was.
    fn encode(&mut self, item: Reply, dst: &mut BytesMut) -> Result<(), ReplyError> {
        check(&item, self.depth)?;
        let before = dst.len();
        match append(&item, dst) {
            Ok(()) => Ok(()),
            Err(_) => {
                dst.truncate(before);
                Err(ReplyError::Memory)
            }
        }
    }
}

// Checks the lines of a reply, and how deep its arrays are nested.
fn check(item: &Reply, depth: usize) -> Result<(), ReplyError>
    ensures { MatchResult result (λ u. IsEncodable depth item.now) (IsRefused depth item.now) }
{
    match item {
        Reply::Simple(text) => check_line(text.as_bytes()),
        Reply::Error(text) => check_line(text),
        Reply::Array(items) => {
            if depth == 0 {
                return Err(ReplyError::Nested);
            }
            for inner in items {
                check(inner, depth - 1)?;
            }
            Ok(())
        }
        _ => Ok(()),
    }
}

// Checks that a text is one line.
fn check_line(text: &[u8]) -> Result<(), ReplyError>
    ensures { MatchResult result (λ u. IsOneLine text.now) (λ e. (e ≡ LineBreak) × (IsOneLine text.now → ⊥)) }
{
    if memchr2(b'\r', b'\n', text).is_some() {
        return Err(ReplyError::LineBreak);
    }
    Ok(())
}

// Appends the bytes of a reply.
fn append(item: &Reply, dst: &mut BytesMut) -> Result<(), AllocError>
    ensures ok { OnOk result (dst.new.items ≡ dst.old.items ++ reply_bytes item.now) }
    ensures kept { take (length dst.old.items) dst.new.items ≡ dst.old.items }
{
    match item {
        Reply::Simple(text) => append_line(b"+", text.as_bytes(), dst),
        Reply::Error(text) => append_line(b"-", text, dst),
        Reply::Integer(number) => append_line(b":", Buffer::new().format(*number).as_bytes(), dst),
        Reply::Bulk(bytes) => {
            append_line(b"$", Buffer::new().format(bytes.len()).as_bytes(), dst)?;
            append_line(b"", bytes, dst)
        }
        Reply::Null => append_line(b"$-1", b"", dst),
        Reply::Array(items) => {
            append_line(b"*", Buffer::new().format(items.len()).as_bytes(), dst)?;
            for inner in items {
                append(inner, dst)?;
            }
            Ok(())
        }
    }
}

// Appends a line, with its kind before it.
fn append_line(kind: &[u8], text: &[u8], dst: &mut BytesMut) -> Result<(), AllocError>
    ensures ok { OnOk result (dst.new.items ≡ dst.old.items ++ line_bytes kind.now text.now) }
    ensures kept { take (length dst.old.items) dst.new.items ≡ dst.old.items }
{
    dst.extend_from_slice(kind)?;
    dst.extend_from_slice(text)?;
    dst.extend_from_slice(b"\r\n")
}
