//! How large a request may be.

/// The limits of a request. An array has the first three, and a line the last.
#[derive(Debug, Clone, Copy, PartialEq, Eq)]
pub struct Limits {
    /// How many words an array has at most.
    pub words: u32,
    /// How many bytes a word has at most.
    pub word: u32,
    /// How many bytes the words of an array have at most, each with its first line and its end.
    pub request: u32,
    /// How many bytes a line has at most, without its line feed.
    pub line: u32,
}

impl Limits {
    /// The limits of a server that is not told others: 1,024 words of 1 MiB, 4 MiB in all, and lines of 64 KiB.
    pub const USUAL: Limits = Limits {
        words: 1024,
        word: 1 << 20,
        request: 1 << 22,
        line: 1 << 16,
    };
}
