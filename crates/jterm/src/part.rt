//! Parts of a sentence.

use crate::datum::Datum;
use crate::term::{Locative, RankList, Term};
use crate::words::{Adv, Con};

/// A part of a sentence (J Dictionary, "Parsing and Execution").
#[derive(Debug, Drop)]
pub enum Part {
    /// Stands before the first word.
    Mark,
    /// `=.` or `=:`.
    Copula {
        local: bool,
    },
    /// `(`
    Left,
    /// `)`
    Right,
    /// A name in front of a copula.
    Target(Locative),
    Noun(Datum),
    /// A number word with `_` in it.
    Ranks(RankList),
    Verb {
        term: Term,
        /// Whether it had a value when it was moved, where it is a reference.
        found: bool,
    },
    Adverb(Adv),
    Conj(Con),
}
