//! What a line asks for.
ghost use Rattle.std.specs.Prelude.{◌≡◌};
ghost use Rattle.std.specs.List.{after_first, before_first, position};
ghost use Rattle.example_lines.specs.Request.{request_of, asked_to_set, bytes_of, is_of_web, is_space};

/// What a line asks for, with its texts.
#[derive(Debug, PartialEq, Eq, Drop)]
pub enum Request<T> {
    /// `SET key value`: that the key has this value. The value is the rest of the line.
    Set(T, T),
    /// `GET key`: the value of the key, which is the rest of the line.
    Get(T),
    /// `DEL key`: that the key has no value.
    Delete(T),
    /// `COUNT`: how many keys have a value.
    Count,
    /// `QUIT`: that the session ends.
    Quit,
    /// A line of a web page's request, which begins with `POST ` or `Host:`. The session ends.
    Web,
    /// A `SET` without a key or a value, or with a value that no line can end with.
    Malformed,
    /// Any other line.
    Unknown,
}

/// Returns what a line asks for.
pub fn parse(line: &[u8]) -> Request<&[u8]>
    ensures { bytes_of result ≡ request_of line.now }
{
    if let Some(rest) = line.strip_prefix(b"SET ") {
        return parse_set(rest);
    }
    if let Some(key) = line.strip_prefix(b"GET ") {
        return Request::Get(key);
    }
    if let Some(key) = line.strip_prefix(b"DEL ") {
        return Request::Delete(key);
    }
    if line == b"COUNT".as_slice() {
        return Request::Count;
    }
    if line == b"QUIT".as_slice() {
        return Request::Quit;
    }
    if is_web(line) {
        return Request::Web;
    }
    Request::Unknown
}

// Returns whether a line is one of a web page's request.
fn is_web(line: &[u8]) -> bool
    ensures { result ≡ is_of_web line.now }
{
    line.strip_prefix(b"POST ").is_some() || line.strip_prefix(b"Host:").is_some()
}

// Returns what `SET` asks for, with this text behind it.
fn parse_set(text: &[u8]) -> Request<&[u8]>
    ensures { bytes_of result ≡ asked_to_set (before_first is_space text.now) (after_first is_space text.now) }
{
    let (key, value) = split_at_space(text);
    if key.is_empty() || value.is_empty() || value[value.len() - 1] == b'\r' {
        return Request::Malformed;
    }
    Request::Set(key, value)
}

// Returns what is before the first space, and what is behind it. If there is no space, that is all, and nothing.
fn split_at_space(text: &[u8]) -> (&[u8], &[u8])
    ensures before { result.0.now ≡ before_first is_space text.now }
    ensures after { result.1.now ≡ after_first is_space text.now }
{
    match first_space(text) {
        Some(at) => (&text[..at], &text[at + 1..]),
        None => (text, &[]),
    }
}

// Returns the index of the first space.
fn first_space(text: &[u8]) -> Option<usize>
    ensures { result ≡ position is_space text.now }
{
    text.iter().position(|byte| *byte == b' ')
}
