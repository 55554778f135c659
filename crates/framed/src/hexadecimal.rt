//! Numbers in hexadecimal digits.
ghost use Rattle.std.specs.Prelude.{◌≡◌, ◌<◌, ◌≤◌, ℕ, List, drop, false};
ghost use Rattle.std.specs.Fmt.{digit_glyph};
ghost use Rattle.framed.specs.Hexadecimal.{ReadsHexadecimal, hexadecimal};

use std::marker::Model;
use std::str;

/// The longest number of a `usize` has so many digits.
const DIGITS: usize = 16;

/// Returns the number that a text is, in hexadecimal digits.
///
/// The digits may be in upper or in lower case, and zeros may stand before them. `None` says that the text has another
/// byte, no byte at all, or a number above those of a `usize`.
///
/// # Examples
///
/// ```
/// use framed::read_hexadecimal;
///
/// assert_eq!(rt; read_hexadecimal(b"1f"), Some(31));
/// assert_eq!(rt; read_hexadecimal(b"001F"), Some(31));
/// assert_eq!(rt; read_hexadecimal(b"+1f"), None);
/// assert_eq!(rt; read_hexadecimal(b"0x1f"), None);
/// assert_eq!(rt; read_hexadecimal(b""), None);
/// ```
pub fn read_hexadecimal(text: &[u8]) -> Option<usize>
    ensures { ReadsHexadecimal text.now result }
{
    match text.first() {
        Some(b'+') => None,
        _ => usize::from_str_radix(str::from_utf8(text).ok()?, 16).ok(),
    }
}

/// The hexadecimal digits of a number, in lower case and without a zero before them.
///
/// # Examples
///
/// ```
/// use framed::Hexadecimal;
///
/// assert_eq!(rt; Hexadecimal::new(31).as_bytes(), b"1f".as_slice());
/// assert_eq!(rt; Hexadecimal::new(0).as_bytes(), b"0".as_slice());
/// ```
#[derive(Debug, Drop)]
pub struct Hexadecimal {
    digits: [u8; DIGITS],
    // Where the first one is.
    start: usize,
}

impl Model for Hexadecimal {
    ghost Value = { List ℕ };

    ghost view = { λ h. drop h.start h.digits };

    ghost invariant = { λ h. h.start ≤ 16 };
}

impl Hexadecimal {
    /// Writes `number` in hexadecimal digits.
    ///
    /// # Examples
    ///
    /// ```
    /// use framed::Hexadecimal;
    ///
    /// assert_eq!(rt; Hexadecimal::new(4096).as_bytes(), b"1000".as_slice());
    /// ```
    pub fn new(number: usize) -> Hexadecimal
        ensures { result ≡ hexadecimal number }
    {
        let mut digits = [0; DIGITS];
        let mut start = DIGITS;
        let mut left = number;
        while left >= 16 {
            start -= 1;
            digits[start] = digit(left % 16);
            left /= 16;
        }
        start -= 1;
        digits[start] = digit(left);
        Hexadecimal { digits, start }
    }

    /// Returns the digits, 16 at most.
    ///
    /// # Examples
    ///
    /// ```
    /// use framed::Hexadecimal;
    ///
    /// assert_eq!(rt; Hexadecimal::new(usize::MAX).as_bytes().len(), 16);
    /// ```
    pub fn as_bytes(&self) -> &[u8]
        ensures { result.now ≡ self.now }
    {
        &self.digits[self.start..]
    }
}

// Returns the digit of a number below 16.
fn digit(number: usize) -> u8
    requires { number < 16 }
    ensures { result ≡ digit_glyph false number }
{
    let number = number as u8;
    if number < 10 {
        b'0' + number
    } else {
        b'a' + (number - 10)
    }
}
