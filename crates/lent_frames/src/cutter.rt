//! What finds frames in bytes.
ghost use Rattle.std.specs.Prelude.{◌≤◌, ◌<◌, List, length, take, ℕ};
ghost use Rattle.lent_frames.specs.Cutting.{CutFound, NoneEmpty, OneFrame};
ghost use Rattle.lent_frames.specs.Cutting.{Undecided};

use crate::cut::Cut;

/// Finds frames in bytes. It takes no bytes and keeps nothing, so it is asked again when there are more.
///
/// Its ghost member `piece` says which bytes are a frame, and what its body is. `refuses` says which bytes begin no
/// frame, and `cut_off` which error it is if the input ends within a frame. Its two laws:
///
/// - `one`: two frames at the front of the same bytes are one.
/// - `some`: no frame is empty.
///
/// # Examples
///
/// ```
/// use framed::{Cut, Cutter, LineDelimited, Span};
///
/// let lines = LineDelimited { max: 100 };
/// assert_eq!(rt; lines.cut(b"hello", 0), Cut::More(6));
/// // The search goes on behind the first five bytes.
/// let whole = lines.cut(b"hello there\nand", 5);
/// assert_eq!(rt; whole, Cut::Whole(Span { from: 0, to: 11, size: 12 }));
/// ```
pub trait Cutter {
    /// The error for bytes that begin no frame. A small one costs less, because each look at the bytes returns it.
    type Error: Drop;

    /// The bytes of a body, and all bytes of its frame.
    ghost piece: { Self → List ℕ → List ℕ → Type 0 };

    /// The error at bytes that begin no frame.
    ghost refuses: { Self → List ℕ → Self.Error → Type 0 };

    /// The error if the input ends behind these bytes, which begin a frame.
    ghost cut_off: { Self → List ℕ → Self.Error → Type 0 };

    /// Returns where the first frame of `bytes` stands, how many bytes are needed, or why they begin no frame.
    ///
    /// The caller guarantees that there is no whole frame in the first `seen` bytes, and that they are not refused. So a
    /// search may go on behind them.
    ///
    /// # Examples
    ///
    /// ```
    /// use framed::{Cut, CutError, Cutter, LengthDelimited};
    ///
    /// let codec = LengthDelimited { max: 9 };
    /// assert_eq!(rt; codec.cut(b"\0\0", 0), Cut::More(4));
    /// assert_eq!(rt; codec.cut(b"\0\0\0\x05", 2), Cut::More(9));
    /// assert_eq!(rt; codec.cut(b"\0\0\0\x0a", 2), Cut::Refused(CutError::TooLong(10)));
    /// ```
    fn cut(&self, bytes: &[u8], seen: usize) -> Cut<Self::Error>
        requires within { seen ≤ length bytes.now }
        requires undecided { 0 < seen → Undecided piece refuses self.now (take seen bytes.now) }
        ensures { CutFound piece refuses self.now bytes.now result };

    /// Returns the error if the input ends behind `bytes`, in which no frame is whole.
    ///
    /// # Examples
    ///
    /// ```
    /// use framed::{CutError, Cutter, LineDelimited};
    ///
    /// assert_eq!(rt; (LineDelimited { max: 100 }).at_end(b"hel"), CutError::CutOff);
    /// ```
    fn at_end(&self, bytes: &[u8]) -> Self::Error
        ensures { cut_off self.now bytes.now result };

    ghost one: { OneFrame piece };

    ghost some: { NoneEmpty piece };
}
