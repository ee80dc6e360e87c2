//! Words and the faults of cutting.

/// A word's kind.
#[derive(Clone, Copy, Debug, PartialEq, Eq)]
pub enum WordKind {
    /// A plain name or a locative.
    Name,
    /// A listed word that starts with a letter or a digit: a letter's run or a number's, with its
    /// points and colons.
    Inflected,
    /// Numbers that stand next to each other.
    Number,
    /// A quoted text, its quotes among its bytes.
    Text,
    /// A listed word that starts with a symbol.
    Graphic,
    /// A comment up to the end of the line.
    Comment,
}

/// A word: its kind, and its bytes from `start` up to `end`, which is not among them.
#[derive(Clone, Copy, Debug, PartialEq, Eq)]
pub struct Word {
    pub kind: WordKind,
    pub start: u32,
    pub end: u32,
}

/// Why a line isn't cut into words: the first fault from the left, with its place.
#[derive(Clone, Copy, Debug, PartialEq, Eq)]
pub enum WordFault {
    /// A quoted text has no closing quote; the place is that of its opening quote.
    OpenQuote { at: u32 },
    /// What starts at the place is no word of the language.
    Spelling { at: u32 },
    /// The run that starts at the place is no number within 64 signed bits.
    IllFormed { at: u32 },
    /// The allocator refused to give more memory.
    NoMemory,
}

/// Why a text isn't cut by monadic `;:`.
#[derive(Clone, Copy, Debug, PartialEq, Eq)]
pub enum SpanFault {
    /// A quoted text has no closing quote; the place is that of its opening quote.
    OpenQuote { at: u32 },
    /// The allocator refused to give more memory.
    NoMemory,
}
