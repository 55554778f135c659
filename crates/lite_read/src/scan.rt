//! The search for the end of a line.
ghost use Rattle.std.specs.Prelude.{◌≡◌, ◌+◌, ◌≤◌, length, take, drop, position, IsTrue};
ghost use Rattle.lite_read.specs.Uses.{is_ascii, before_first, list_all, position_or_len, prefix_len};
ghost use Rattle.lite_read.specs.Scan.{IsPlain, LineGoesOn, first_set, is_newline};

use std::simd::prelude::*;

const NEWLINE: u8 = b'\n';

/// How many bytes are looked at together.
const LANES: usize = 32;

/// How many of a long line are.
const LONG: usize = 64;

/// The position of the first newline in a slice, and whether the line before it is ASCII.
///
/// It is what [`scan_line`] returns.
///
/// # Examples
///
/// ```
/// use futures_lite::io::{LineScan, scan_line};
///
/// let LineScan { newline, ascii } = scan_line(b"hello\nhi");
/// assert_eq!(rt; newline, Some(5));
/// assert!(rt; ascii);
/// ```
#[derive(Clone, Copy, Debug, PartialEq, Eq)]
pub struct LineScan {
    /// The position of the first newline (0x0A), or `None` if there is none.
    pub newline: Option<usize>,
    /// Whether each byte before the newline is below 0x80. If there is no newline, whether each byte is.
    pub ascii: bool,
}

/// Returns the position of the first newline (0x0A) in `bytes`, and whether all bytes before it are ASCII.
///
/// It does not allocate. It reads at most 63 bytes after the newline.
///
/// # Examples
///
/// ```
/// use futures_lite::io::scan_line;
///
/// let line = scan_line(b"na\xc3\xafve\nhi");
/// assert_eq!(rt; line.newline, Some(6));
/// assert!(rt; !line.ascii);
/// let last = scan_line(b"hi");
/// assert_eq!(rt; last.newline, None);
/// assert!(rt; last.ascii);
/// ```
pub fn scan_line(bytes: &[u8]) -> LineScan
    ensures newline { result.newline ≡ position is_newline bytes.now }
    ensures ascii { result.ascii ≡ list_all is_ascii (before_first is_newline bytes.now) }
{
    let mut ascii = true;
    let mut at = 0;
    while bytes.len() - at >= LANES {
        let line = line_run(bytes, at);
        ascii &= line <= ascii_run(bytes, at);
        if line < LANES {
            return LineScan {
                newline: Some(at + line),
                ascii,
            };
        }
        at += LANES;
        if ascii {
            at = past_plain(bytes, at);
        }
    }
    scan_rest(bytes, at, ascii)
}

// The place past the 64s of bytes, from `at` on, that are ASCII and no newline. Those before `at` are too.
fn past_plain(bytes: &[u8], mut at: usize) -> usize
    requires { IsPlain at bytes.now }
    ensures more { at ≤ result }
    ensures plain { IsPlain result bytes.now }
{
    while bytes.len() - at >= LONG && is_plain(bytes, at) {
        at += LONG;
    }
    at
}

// The bytes from `at` on. Before them is no newline, and `ascii` says whether they are ASCII.
fn scan_rest(bytes: &[u8], at: usize, mut ascii: bool) -> LineScan
    requires { LineGoesOn at ascii bytes.now }
    ensures newline { result.newline ≡ position is_newline bytes.now }
    ensures ascii { result.ascii ≡ list_all is_ascii (before_first is_newline bytes.now) }
{
    for i in at..bytes.len() {
        if bytes[i] == NEWLINE {
            return LineScan {
                newline: Some(i),
                ascii,
            };
        }
        ascii &= bytes[i].is_ascii();
    }
    LineScan {
        newline: None,
        ascii,
    }
}

// Whether the 64 bytes from `at` on are ASCII and no newline. Both are tested at once.
#[inline(always)]
fn is_plain(bytes: &[u8], at: usize) -> bool
    requires { at + 64 ≤ length bytes.now }
    ensures { IsTrue result → IsPlain 64 (drop at bytes.now) }
{
    let lanes = u8x64::from_slice(&bytes[at..]);
    let newlines = lanes.simd_eq(u8x64::splat(NEWLINE)).to_bitmask();
    let others = lanes.simd_ge(u8x64::splat(0x80)).to_bitmask();
    (newlines == 0) & (others == 0)
}

// How many of the 32 bytes from `at` on, from the first, are no newline.
#[inline(always)]
fn line_run(bytes: &[u8], at: usize) -> usize
    requires { at + 32 ≤ length bytes.now }
    ensures { result ≡ position_or_len is_newline (take 32 (drop at bytes.now)) }
{
    let newlines = u8x32::from_slice(&bytes[at..]).simd_eq(u8x32::splat(NEWLINE));
    first_set(newlines.to_bitmask())
}

// How many are ASCII.
#[inline(always)]
fn ascii_run(bytes: &[u8], at: usize) -> usize
    requires { at + 32 ≤ length bytes.now }
    ensures { result ≡ prefix_len is_ascii (take 32 (drop at bytes.now)) }
{
    let others = u8x32::from_slice(&bytes[at..]).simd_ge(u8x32::splat(0x80));
    first_set(others.to_bitmask())
}

// The place of the lowest bit that is set, or 32.
#[inline(always)]
fn first_set(mask: u64) -> usize
    ensures { result ≡ first_set mask }
{
    if mask == 0 {
        LANES
    } else {
        mask.trailing_zeros() as usize
    }
}
