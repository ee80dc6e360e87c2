//! How deep terms are.
ghost use Rattle.std.specs.Prelude.{◌≡◌, nat_le};
ghost use Rattle.jterm.specs.Levels.{levels};

use crate::term::Term;

/// The most levels of a term.
pub const MOST_LEVELS: u8 = 200;

impl Term {
    /// Whether it has at most so many levels.
    #[tactic(auto, using(crate::proofs::Deep::levels_of))]
    pub fn fits(&self, most: u8) -> bool
        ensures { result ≡ nat_le (levels self.now) most }
    {
        if most == 0 {
            return false;
        }
        match self {
            Term::With1 { word: _, left } => left.get().fits(most - 1),
            Term::With2 {
                word: _,
                left,
                right,
            } => left.get().fits(most - 1) && right.get().fits(most - 1),
            Term::Hook { left, right } => left.get().fits(most - 1) && right.get().fits(most - 1),
            Term::Fork { left, mid, right } => {
                left.get().fits(most - 1) && mid.get().fits(most - 1) && right.get().fits(most - 1)
            }
            Term::Noun(_) => true,
            Term::Ranks(_) => true,
            Term::Verb(_) => true,
            Term::Const(_) => true,
            Term::Adverb(_) => true,
            Term::Conj(_) => true,
            Term::Name(_) => true,
        }
    }
}
