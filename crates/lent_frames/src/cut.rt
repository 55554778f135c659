//! Where frames stand in bytes.
ghost use Rattle.std.specs.Prelude.{◌≡◌};

/// Where a frame stands at the front of some bytes, and its body in it.
///
/// # Examples
///
/// ```
/// use framed::Span;
///
/// let span = Span { from: 1, to: 3, size: 4 };
/// let bytes = b"<hi><a";
/// assert_eq!(rt; &bytes[span.from..span.to], b"hi".as_slice());
/// assert_eq!(rt; &bytes[span.size..], b"<a".as_slice());
/// ```
#[derive(Debug, Clone, Copy, PartialEq, Eq)]
pub struct Span {
    /// The index of the body's first byte.
    pub from: usize,
    /// The index behind the body's last byte.
    pub to: usize,
    /// How many bytes the frame has.
    pub size: usize,
}

impl Span {
    // Where no frame stands.
    #[inline(always)]
    pub(crate) fn nowhere() -> Span
        ensures { result ≡ record { from = 0; to = 0; size = 0 } }
    {
        Span {
            from: 0,
            to: 0,
            size: 0,
        }
    }
}

/// What a [`Cutter`](crate::Cutter) finds at the front of some bytes.
///
/// # Examples
///
/// ```
/// use framed::{Cut, Cutter, LengthDelimited, Span};
///
/// let codec = LengthDelimited { max: 100 };
/// let whole = codec.cut(b"\0\0\0\x02hi and more", 0);
/// assert_eq!(rt; whole, Cut::Whole(Span { from: 4, to: 6, size: 6 }));
/// assert_eq!(rt; codec.cut(b"\0\0\0\x02h", 0), Cut::More(6));
/// ```
#[derive(Debug, Clone, Copy, PartialEq, Eq)]
pub enum Cut<E> {
    /// A frame, which stands there.
    Whole(Span),
    /// No frame is whole, and none will be before there are so many bytes.
    More(usize),
    /// The bytes begin no frame.
    Refused(E),
}
