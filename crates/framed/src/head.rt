//! Parts of decoders for frames whose head says how many bytes follow.
ghost use Rattle.framed.specs.Heads.{CutsBody, ReadsDecimal, StripsReturn, TakesBody};

use crate::cut_error::CutError;
use crate::frame_error::FrameError;
use bytes::BytesMut;
use lent_frames::{Cut, Span};
use std::str;

/// Returns the number that a text is, in decimal digits.
///
/// `None` says that the text is no number of a `usize`, or is not written as that number is: it has a `+` or a `0` too
/// many before its digits.
///
/// # Examples
///
/// ```
/// use framed::read_decimal;
///
/// assert_eq!(rt; read_decimal(b"120"), Some(120));
/// assert_eq!(rt; read_decimal(b"0"), Some(0));
/// assert_eq!(rt; read_decimal(b"007"), None);
/// assert_eq!(rt; read_decimal(b"+7"), None);
/// assert_eq!(rt; read_decimal(b""), None);
/// ```
pub fn read_decimal(text: &[u8]) -> Option<usize>
    ensures { ReadsDecimal text.now result }
{
    match text.first() {
        Some(b'+') => None,
        Some(b'0') if text.len() > 1 => None,
        _ => str::from_utf8(text).ok()?.parse().ok(),
    }
}

/// Returns a head without the `\r` that ends it, or `None` if it does not end in `\r`.
///
/// It is for heads that end in `\r\n`: find the `\n` by [`find_delimiter`](crate::find_delimiter), and give this what
/// stands before it.
///
/// # Examples
///
/// ```
/// use framed::strip_return;
///
/// assert_eq!(rt; strip_return(b"1f\r"), Some(b"1f".as_slice()));
/// assert_eq!(rt; strip_return(b"1f"), None);
/// ```
pub fn strip_return(head: &[u8]) -> Option<&[u8]>
    ensures { StripsReturn head.now result }
{
    head.strip_suffix(b"\r")
}

/// Takes a frame's body: `start` bytes stand before it, it has `length` bytes, and behind it stands `tail`.
///
/// It returns the body, and takes from `src` all bytes up to the end of the tail. It returns `None` and takes nothing if
/// there are fewer bytes. So a decoder finds the head, reads the length of the body in it, and calls this.
///
/// # Errors
///
/// `Malformed`: as many bytes as the tail has stand behind the body, and are not the tail. `Io` with the kind
/// `OutOfMemory`: memory was refused for a frame that is whole. Nothing is taken at an error.
///
/// # Examples
///
/// ```
/// use bytes::BytesMut;
/// use framed::{take_body, FrameError};
///
/// let mut src = BytesMut::copy_from_slice(rt.alloc(), b"2:hi,3:a")?;
/// match take_body(&mut src, 2, 2, b",") {
///     Ok(Some(body)) => assert_eq!(rt; body.as_slice(), b"hi".as_slice()),
///     _ => return Err(Fail::from("there is a body")),
/// }
/// assert!(rt; matches!(take_body(&mut src, 2, 3, b","), Ok(None)));
/// assert!(rt; matches!(take_body(&mut src, 2, 1, b":"), Ok(None)));
/// assert!(rt; matches!(take_body(&mut src, 1, 1, b":"), Err(FrameError::Malformed)));
/// assert_eq!(rt; src.as_slice(), b"3:a".as_slice());
/// ```
pub fn take_body(
    src: &mut BytesMut,
    start: usize,
    length: usize,
    tail: &[u8],
) -> Result<Option<BytesMut>, FrameError>
    ensures { TakesBody start length tail.now src.old.items result src.new.items }
{
    let there = src.as_slice();
    let Some(end) = start.checked_add(length) else {
        return Ok(None);
    };
    let Some(size) = end.checked_add(tail.len()) else {
        return Ok(None);
    };
    if there.len() < size {
        return Ok(None);
    }
    if &there[end..size] != tail {
        return Err(FrameError::Malformed);
    }
    let mut body = src.split_to(size)?;
    body.truncate(end);
    body.advance(start);
    Ok(Some(body))
}

/// Finds a frame's body, for a [`Cutter`](crate::Cutter): `start` bytes stand before it, it has `length` bytes, and behind it
/// stands `tail`.
///
/// It returns `Whole` with where the body and the frame stand, or `More` with how many bytes are needed.
///
/// # Errors
///
/// `Refused(Malformed)`: as many bytes as the tail has stand behind the body, and are not the tail.
///
/// # Examples
///
/// ```
/// use framed::{Cut, CutError, Span, cut_body};
///
/// assert_eq!(rt; cut_body(b"2:hi,3:a", 2, 2, b","), Cut::Whole(Span { from: 2, to: 4, size: 5 }));
/// assert_eq!(rt; cut_body(b"3:a", 2, 3, b","), Cut::More(6));
/// assert_eq!(rt; cut_body(b"1:ab", 2, 1, b","), Cut::Refused(CutError::Malformed));
/// ```
pub fn cut_body(bytes: &[u8], start: usize, length: usize, tail: &[u8]) -> Cut<CutError>
    ensures { CutsBody start length tail.now bytes.now result }
{
    let Some(end) = start.checked_add(length) else {
        return Cut::More(usize::MAX);
    };
    let Some(size) = end.checked_add(tail.len()) else {
        return Cut::More(usize::MAX);
    };
    if bytes.len() < size {
        return Cut::More(size);
    }
    if &bytes[end..size] != tail {
        return Cut::Refused(CutError::Malformed);
    }
    Cut::Whole(Span {
        from: start,
        to: end,
        size,
    })
}
