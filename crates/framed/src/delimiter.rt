//! Where the first delimiter is.
ghost use Rattle.std.specs.Prelude.{◌≡◌, ◌≤◌, ◌<◌, length, take};
ghost use Rattle.framed.specs.Heads.{FindsDelimiter, FirstAt, HasNo};
ghost use Rattle.framed.specs.declared.delimiter.Delimiter.TheVariants.{Missing, TooFar};

use memchr::memchr;

/// What `find_delimiter` found.
///
/// # Examples
///
/// ```
/// use framed::{find_delimiter, Delimiter};
///
/// match find_delimiter(b"GET a\n", b'\n', 100) {
///     Delimiter::At(end) => assert_eq!(rt; end, 5),
///     Delimiter::Missing => return Err(Fail::from("there is a newline")),
///     Delimiter::TooFar => return Err(Fail::from("five bytes are allowed")),
/// }
/// ```
#[derive(Debug, Clone, Copy, PartialEq, Eq)]
pub enum Delimiter {
    /// The first delimiter is behind so many bytes, which are at most the limit.
    At(usize),
    /// There is no delimiter yet, and no byte above the limit.
    Missing,
    /// More bytes than the limit come before the first delimiter.
    TooFar,
}

/// Returns where the first byte `delimiter` is, if at most `max` bytes are before it.
///
/// It looks at no more than `max + 1` bytes, by one `memchr`. So a decoder knows a head or a line that is too long as
/// soon as one byte too many is there.
///
/// # Examples
///
/// ```
/// use framed::{find_delimiter, Delimiter};
///
/// assert_eq!(rt; find_delimiter(b"12:abc", b':', 3), Delimiter::At(2));
/// assert_eq!(rt; find_delimiter(b"12", b':', 3), Delimiter::Missing);
/// assert_eq!(rt; find_delimiter(b"1234:", b':', 3), Delimiter::TooFar);
/// ```
#[inline(always)]
pub fn find_delimiter(bytes: &[u8], delimiter: u8, max: usize) -> Delimiter
    ensures { FindsDelimiter delimiter max bytes.now result }
{
    find_delimiter_behind(bytes, delimiter, max, 0)
}

/// Returns the same as [`find_delimiter`], and looks only at the bytes behind the first `seen`.
///
/// The caller guarantees that no delimiter is in the first `seen` bytes. So a search that waits for more bytes goes on
/// where it stopped, and a line that comes byte by byte is looked at once.
///
/// # Examples
///
/// ```
/// use framed::{find_delimiter_behind, Delimiter};
///
/// assert_eq!(rt; find_delimiter_behind(b"120", b':', 20, 0), Delimiter::Missing);
/// assert_eq!(rt; find_delimiter_behind(b"120:abc", b':', 20, 3), Delimiter::At(3));
/// ```
#[inline(always)]
pub fn find_delimiter_behind(bytes: &[u8], delimiter: u8, max: usize, seen: usize) -> Delimiter
    requires within { seen ≤ length bytes.now }
    requires none { HasNo delimiter (take seen bytes.now) }
    ensures { FindsDelimiter delimiter max bytes.now result }
{
    // A delimiter behind these bytes is too far.
    let searched = bytes.len().min(max.saturating_add(1));
    let seen = seen.min(searched);
    match first_at(&bytes[seen..searched], delimiter) {
        Some(at) => Delimiter::At(seen + at),
        None => not_among(searched, max),
    }
}

// Returns what it means that there is no delimiter among the bytes searched. It is a call of its own so that a caller
// which finds one branches once.
#[cold]
#[inline(never)]
fn not_among(searched: usize, max: usize) -> Delimiter
    ensures too_far { max < searched → result ≡ TooFar }
    ensures missing { searched ≤ max → result ≡ Missing }
{
    if searched > max {
        Delimiter::TooFar
    } else {
        Delimiter::Missing
    }
}

// Returns how many bytes are before the first such byte.
#[inline(always)]
pub(crate) fn first_at(bytes: &[u8], byte: u8) -> Option<usize>
    ensures { FirstAt byte bytes.now result }
{
    memchr(byte, bytes)
}
