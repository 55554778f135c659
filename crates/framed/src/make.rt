//! The functions that make futures which send frames.
ghost use Rattle.std.specs.Prelude.{◌≡◌, ◌+◌, length};
ghost use Rattle.framed.specs.RoundTrip.{ComesBack};
ghost use Rattle.framed.specs.Sending.{EncodesItem, EncodesItems};

use crate::round_trip::RoundTrip;
use crate::send_future::SendFuture;
use bytes::BytesMut;
use lite_write::make::write_all;
use tokio_util::codec::Encoder;

/// Encodes `item` into `out`, and returns a future that writes its frame to `writer`.
///
/// The frame is put into `out` at once, in place of what is there, so that one buffer serves many frames. The future
/// borrows `out` and the writer. The encoder is free again, because nothing more is encoded. If the value of the future
/// is `Ok`, the writer took exactly a frame that the encoder may give for the item. It may still be buffered there: the
/// writer is not flushed ([`FlushFuture`](lite_write::FlushFuture)).
///
/// # Errors
///
/// They are values of the future.
///
/// - An error of the encoder: it refused the item. Nothing is written, and the encoder is as it was.
/// - An error of the writer, as `E::Error::from` makes it: the writer took a front of the frame.
///
/// # Examples
///
/// A request is written while the reply is read, so that neither side waits for the other to read.
///
/// ```
/// use bytes::BytesMut;
/// use framed::{FramedRead, send};
/// use futures_lite::{StreamExt, future};
/// use tokio_util::codec::LinesCodec;
///
/// let (mut written, mut out) = (Vec::new(rt.alloc()), BytesMut::new(rt.alloc()));
/// let codec = LinesCodec::new_with_max_length(100);
/// let mut replies = FramedRead::new(rt.alloc(), b"pong\n".as_slice(), codec);
/// let request = send(&mut written, &mut LinesCodec::new(), "ping", &mut out);
/// let (sent, reply) = future::block_on(&rt, future::zip(request, replies.next()))?;
/// assert!(rt; sent.is_ok());
/// assert!(rt; matches!(reply, Some(Ok(line)) if line.as_str() == "pong"));
/// assert_eq!(rt; written.as_slice(), b"ping\n".as_slice());
/// ```
pub fn send<'a, O, X, E>(
    writer: &'a mut O,
    encoder: &mut E,
    item: X,
    out: &'a mut BytesMut,
) -> SendFuture<'a, O, E::Error>
where
    E: Encoder<X>,
    ensures writer { result.writing.writer ≡ writer.entry }
    ensures encoded { EncodesItem E.encodes E.refuses encoder.old item (length out.old.items + out.old.spare) result.encoded
        result.writing.buf.now encoder.new }
{
    let encoded = encode_one(encoder, item, out);
    SendFuture {
        writing: write_all(writer, out.as_slice()),
        encoded,
    }
}

/// Encodes `items` into `out`, and returns a future that writes their frames to `writer`, in order.
///
/// The frames are put into `out` at once, in place of what is there. The future borrows `out` and the writer. If its
/// value is `Ok`, the writer took exactly these frames. It is not flushed. A decoder that reads these bytes, however they
/// are cut, gives these items again, or says that memory was refused ([`RoundTrip`]).
///
/// # Errors
///
/// They are values of the future.
///
/// - An error of the encoder: it refused an item. Nothing is written. The encoder is as the items before it left it.
/// - An error of the writer, as `E::Error::from` makes it: the writer took a front of the frames.
///
/// # Examples
///
/// Many requests are written while their replies are read. If both were done one behind the other, a server that
/// replies at once could fill the buffers between the two, and then both would wait for ever.
///
/// ```
/// use bytes::BytesMut;
/// use framed::{FramedRead, LengthDelimited, send_all};
/// use futures_lite::{StreamExt, future};
///
/// let (mut written, mut out) = (Vec::new(rt.alloc()), BytesMut::new(rt.alloc()));
/// let codec = LengthDelimited { max: 100 };
/// let replies = FramedRead::new(rt.alloc(), b"\0\0\0\x01a\0\0\0\x01b".as_slice(), codec);
/// let texts = Vec::from_array(rt.alloc(), ["hi", "there"])?;
/// let requests = send_all(&mut written, &mut LengthDelimited { max: 100 }, texts, &mut out);
/// let both = future::zip(requests, replies.take(2).count());
/// let (sent, count) = future::block_on(&rt, both)?;
/// assert!(rt; sent.is_ok());
/// assert_eq!(rt; count, 2);
/// assert_eq!(rt; written.as_slice(), b"\0\0\0\x02hi\0\0\0\x05there".as_slice());
/// ```
pub fn send_all<'a, O, X, E>(
    writer: &'a mut O,
    encoder: &mut E,
    items: Vec<X>,
    out: &'a mut BytesMut,
) -> SendFuture<'a, O, E::Error>
where
    X: Drop,
    E: RoundTrip<X>,
    ensures writer { result.writing.writer ≡ writer.entry }
    ensures encoded { EncodesItems E.encodes E.refuses encoder.old items.items (length out.old.items + out.old.spare) result.encoded
        result.writing.buf.now encoder.new }
    ensures back { ComesBack E.encodes E.Decoder.gives E.Decoder.Error.from_gives E.readable E.means encoder.old items.items
        encoder.new }
{
    let encoded = encode_all(encoder, items, out);
    SendFuture {
        writing: write_all(writer, out.as_slice()),
        encoded,
    }
}

// Puts the frame of this item into `out`, in place of what is there. `Err`: it was not encoded, and `out` is empty.
#[inline(always)]
pub(crate) fn encode_one<X, E: Encoder<X>>(
    encoder: &mut E,
    item: X,
    out: &mut BytesMut,
) -> Result<(), E::Error>
    ensures { EncodesItem E.encodes E.refuses encoder.old item (length out.old.items + out.old.spare) result out.new.items encoder.new }
{
    out.clear();
    encoder.encode(item, out)
}

/// Puts the frames of `items` into `out`, in order, in place of what is there.
///
/// It is the first part of [`send_all`], for a contract that says what a writer was given: after a `SendFuture` has ended,
/// a contract knows nothing of its writer, and after a `write_all` of these bytes it does.
///
/// # Errors
///
/// The encoder's error: it refused an item. `out` is empty then, and the encoder is as the items before it left it.
///
/// # Examples
///
/// ```
/// use bytes::BytesMut;
/// use framed::{LengthDelimited, encode_all};
/// use futures_lite::future;
/// use futures_lite::io::AsyncWriteExt;
///
/// let (mut written, mut out) = (Vec::new(rt.alloc()), BytesMut::new(rt.alloc()));
/// let texts = Vec::from_array(rt.alloc(), ["hi", "there"])?;
/// assert!(rt; encode_all(&mut LengthDelimited { max: 100 }, texts, &mut out).is_ok());
/// future::block_on(&rt, written.write_all(out.as_slice()))??;
/// assert_eq!(rt; written.as_slice(), b"\0\0\0\x02hi\0\0\0\x05there".as_slice());
/// ```
#[inline(always)]
pub fn encode_all<X, E>(encoder: &mut E, items: Vec<X>, out: &mut BytesMut) -> Result<(), E::Error>
where
    X: Drop,
    E: Encoder<X>,
    ensures { EncodesItems E.encodes E.refuses encoder.old items.items (length out.old.items + out.old.spare) result out.new.items
        encoder.new }
{
    out.clear();
    for item in items {
        if let Err(e) = encoder.encode(item, out) {
            out.clear();
            return Err(e);
        }
    }
    Ok(())
}
