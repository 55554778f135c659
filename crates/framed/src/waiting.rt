//! Blocking waits that send frames.
ghost use Rattle.std.specs.Prelude.{◌+◌, length};
ghost use Rattle.framed.specs.RoundTrip.{ComesBack};
ghost use Rattle.framed.specs.Sending.{FlushesOnce, HandsBytes, SendsItems, SendsOne, SentIfEncoded};

use crate::make::{encode_all, encode_one};
use crate::round_trip::RoundTrip;
use bytes::BytesMut;
use lite_base::future::Waiter;
use lite_io_base::AsyncWrite;
use lite_write::make::{flush, write_all};
use std::io;
use std::sync::Wait;
use tokio_util::codec::Encoder;

/// Blocks this thread, by `on` and the runtime `rt`, until `writer` has taken the frame of `item`.
///
/// The frame is put into `out`, in place of what is there, so that one buffer serves many frames. If the call
/// returns `Ok`, the writer took exactly a frame that the encoder may give for the item. It may still be
/// buffered there: the writer is not flushed. The call may wait forever.
///
/// # Errors
///
/// - An error of the encoder: it refused the item. Nothing was written, `out` is empty, and the encoder is as it was.
/// - An error of the writer, as `E::Error::from` makes it: the writer took a front of the frame.
///
/// # Examples
///
/// ```
/// use bytes::BytesMut;
/// use framed::wait_send;
/// use futures_lite::future::BlockOn;
/// use tokio_util::codec::LinesCodec;
///
/// let mut on = BlockOn::new(&rt)?;
/// let (mut written, mut out) = (Vec::new(rt.alloc()), BytesMut::new(rt.alloc()));
/// let mut lines = LinesCodec::new();
/// let sent = wait_send(&mut on, &rt, &mut written, &mut lines, "one", &mut out);
/// assert!(rt; sent.is_ok());
/// assert_eq!(rt; written.as_slice(), b"one\n".as_slice());
/// ```
pub fn wait_send<R, W, O, X, E>(
    on: &mut W,
    rt: &R,
    writer: &mut O,
    encoder: &mut E,
    item: X,
    out: &mut BytesMut,
) -> Result<(), E::Error>
where
    R: Wait,
    W: Waiter,
    O: AsyncWrite,
    E: Encoder<X>,
    ensures { SendsOne E.encodes E.refuses O.writes E.Error.from_gives writer.old encoder.old item
        (length out.old.items + out.old.spare) result writer.new encoder.new out.new.items }
{
    let encoded = encode_one(encoder, item, out);
    send_encoded(on, rt, writer, out, encoded)
}

/// Blocks this thread, by `on` and the runtime `rt`, until `writer` has taken the frames of all `items`, in order.
///
/// The frames are put into `out`, in place of what is there. If the call returns `Ok`, the writer took exactly
/// these frames. It is not flushed. A decoder that reads these bytes, however they are cut, gives these items
/// again, or says that memory was refused ([`RoundTrip`]). The call may wait forever.
///
/// # Errors
///
/// - An error of the encoder: it refused an item. Nothing was written, and `out` is empty. The encoder is as the
///   items before it left it.
/// - An error of the writer, as `E::Error::from` makes it: the writer took a front of the frames.
///
/// # Examples
///
/// ```
/// use bytes::BytesMut;
/// use framed::{LengthDelimited, wait_send_all};
/// use futures_lite::future::BlockOn;
///
/// let mut on = BlockOn::new(&rt)?;
/// let (mut written, mut out) = (Vec::new(rt.alloc()), BytesMut::new(rt.alloc()));
/// let mut codec = LengthDelimited { max: 100 };
/// let texts = Vec::from_array(rt.alloc(), ["hi", "there"])?;
/// let sent = wait_send_all(&mut on, &rt, &mut written, &mut codec, texts, &mut out);
/// assert!(rt; sent.is_ok());
/// assert_eq!(rt; written.as_slice(), b"\0\0\0\x02hi\0\0\0\x05there".as_slice());
/// ```
pub fn wait_send_all<R, W, O, X, E>(
    on: &mut W,
    rt: &R,
    writer: &mut O,
    encoder: &mut E,
    items: Vec<X>,
    out: &mut BytesMut,
) -> Result<(), E::Error>
where
    R: Wait,
    W: Waiter,
    O: AsyncWrite,
    X: Drop,
    E: RoundTrip<X>,
    ensures sent { SendsItems E.encodes E.refuses O.writes E.Error.from_gives writer.old encoder.old items.items
        (length out.old.items + out.old.spare) result writer.new encoder.new out.new.items }
    ensures back { ComesBack E.encodes E.Decoder.gives E.Decoder.Error.from_gives E.readable E.means encoder.old items.items
        encoder.new }
{
    let encoded = encode_all(encoder, items, out);
    send_encoded(on, rt, writer, out, encoded)
}

// Writes what is in `out`, or returns why it was not encoded.
#[inline(always)]
fn send_encoded<R: Wait, W: Waiter, O: AsyncWrite, E: From<io::Error>>(
    on: &mut W,
    rt: &R,
    writer: &mut O,
    out: &BytesMut,
    encoded: Result<(), E>,
) -> Result<(), E>
    ensures { SentIfEncoded O.writes E.from_gives encoded out.now.items writer.old result writer.new }
{
    if let Err(e) = encoded {
        return Err(e);
    }
    match hand(on, rt, writer, out.as_slice()) {
        Ok(()) => Ok(()),
        Err(e) => Err(E::from(e)),
    }
}

// Writes these bytes.
#[inline(always)]
pub(crate) fn hand<R: Wait, W: Waiter, O: AsyncWrite>(
    waits: &mut W,
    rt: &R,
    writer: &mut O,
    bytes: &[u8],
) -> io::Result<()>
    ensures { HandsBytes O.writes writer.old bytes.now result writer.new }
{
    waits.wait(rt, &mut write_all(writer, bytes))
}

// Flushes the writer.
#[inline(always)]
pub(crate) fn flush_by<R: Wait, W: Waiter, O: AsyncWrite>(
    waits: &mut W,
    rt: &R,
    writer: &mut O,
) -> io::Result<()>
    ensures { FlushesOnce O.writes writer.old result writer.new }
{
    waits.wait(rt, &mut flush(writer))
}
