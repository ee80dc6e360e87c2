//! Parts of speech.
ghost use Rattle.std.specs.Prelude.{◌≡◌};
ghost use Rattle.jterm.specs.Speeches.{speech_of};

use crate::term::Term;

/// The part of speech of a term.
#[derive(Clone, Copy, Debug, PartialEq, Eq)]
pub enum Speech {
    Noun,
    /// A number word with `_`, which few modifiers take.
    Ranks,
    Verb,
    Adverb,
    Conjunction,
}

impl Term {
    pub fn speech(&self) -> Speech
        ensures { result ≡ speech_of self.now }
    {
        match self {
            Term::Noun(_) => Speech::Noun,
            Term::Ranks(_) => Speech::Ranks,
            Term::Adverb(_) => Speech::Adverb,
            Term::Conj(_) => Speech::Conjunction,
            _ => Speech::Verb,
        }
    }
}
