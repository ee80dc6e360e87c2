use crate::kind::Kind;

/// What a word does to the parting of its line.
#[derive(Clone, Copy, Debug)]
pub enum Role {
    Control(Kind),
    /// `{{`
    Open,
    /// `}}`
    Close,
    Comment,
    Other,
}

/// A control word or a sentence of a body: its line, and its words, from the one place among those of the line up to
/// before the other.
#[derive(Clone, Copy, Debug)]
pub struct Stretch {
    pub kind: Kind,
    pub line: usize,
    pub from: usize,
    pub to: usize,
}

/// The stretch in which a word stands: how many pairs are open round the word, the place where the stretch begins, and
/// whether a word other than a comment stands in it already.
#[derive(Clone, Copy, Debug)]
pub struct Begun {
    pub depth: usize,
    pub from: usize,
    pub full: bool,
}
