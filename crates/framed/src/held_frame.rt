//! A frame in the bytes that were held.
use crate::framed_read::FramedParts;
use crate::prompt_decoder::PromptDecoder;

/// Why [`FramedRead::from_parts`](crate::FramedRead::from_parts) made no stream: a whole frame is held, or bytes that the
/// decoder refuses.
///
/// # Examples
///
/// ```
/// use bytes::BytesMut;
/// use framed::{FramedParts, FramedRead, HeldFrame, LengthDelimited};
///
/// let held = BytesMut::copy_from_slice(rt.alloc(), b"\0\0\0\x02hi\0")?;
/// let (reader, decoder) = (b"\0\0\0".as_slice(), LengthDelimited { max: 100 });
/// match FramedRead::from_parts(FramedParts { reader, decoder, held }) {
///     Ok(_) => return Err(Fail::from("a frame is held")),
///     Err(HeldFrame { frame, parts }) => {
///         assert!(rt; matches!(frame, Ok(frame) if frame.as_slice() == b"hi".as_slice()));
///         assert_eq!(rt; parts.held.as_slice(), b"\0".as_slice());
///         assert!(rt; FramedRead::from_parts(parts).is_ok());
///     }
/// }
/// ```
#[derive(Drop)]
pub struct HeldFrame<T, D: PromptDecoder> {
    /// The frame, or why the decoder refuses the bytes.
    pub frame: Result<D::Item, D::Error>,
    /// The parts behind it.
    pub parts: FramedParts<T, D>,
}
