//! Which verbs have an obverse.
ghost use Rattle.std.specs.Prelude.{◌≡◌};
ghost use Rattle.jterm.specs.Obverses as obverses;

use crate::term::Term;
use crate::words::Con;
use jdata::Primitive;

#[tactic(auto, unfolding(crate::specs::Obverses::is_undone))]
fn is_undone(verb: Primitive) -> bool
    ensures { result ≡ obverses.is_undone verb }
{
    match verb {
        Primitive::Less | Primitive::Greater => true,
        Primitive::PlusColon | Primitive::MinusColon => true,
        Primitive::LessColon | Primitive::GreaterColon => true,
        Primitive::TimesColon | Primitive::DivideColon => true,
        Primitive::HashDot | Primitive::HashColon => true,
        Primitive::Minus | Primitive::Divide | Primitive::MinusDot => true,
        Primitive::BarDot | Primitive::BarColon => true,
        Primitive::LeftBracket | Primitive::RightBracket => true,
        _ => false,
    }
}

fn is_undone_bonded_left(verb: Primitive) -> bool
    ensures { result ≡ obverses.is_undone_bonded_left verb }
{
    matches!(verb, Primitive::Plus | Primitive::Minus | Primitive::Times)
}

fn is_undone_bonded_right(verb: Primitive) -> bool
    ensures { result ≡ obverses.is_undone_bonded_right verb }
{
    matches!(
        verb,
        Primitive::Plus | Primitive::Minus | Primitive::Times | Primitive::Divide
    )
}

fn is_undone_bond(left: &Term, right: &Term) -> bool
    ensures { result ≡ obverses.is_undone_bond left.now right.now }
{
    match (left, right) {
        (Term::Noun(_), Term::Verb(verb)) => is_undone_bonded_left(*verb),
        (Term::Verb(verb), Term::Noun(_)) => is_undone_bonded_right(*verb),
        _ => false,
    }
}

impl Term {
    /// Whether a verb has an obverse.

    #[tactic(auto, using(crate::proofs::Undoing::has_obverse_of))]
    pub fn has_obverse(&self) -> bool
        ensures { result ≡ obverses.has_obverse self.now }
    {
        match self {
            Term::Verb(verb) => is_undone(*verb),
            Term::With2 { word, left, right } => {
                let (left, right) = (left.get(), right.get());
                match word {
                    Con::At | Con::AtColon | Con::AmpersandColon => {
                        left.has_obverse() && right.has_obverse()
                    }
                    Con::Ampersand => {
                        is_undone_bond(left, right) || left.has_obverse() && right.has_obverse()
                    }
                    Con::Quote | Con::PowerColon | Con::AmpersandDot => false,
                    Con::AmpersandDotColon | Con::Colon | Con::ColonColon => false,
                    Con::SemicolonDot | Con::BangColon | Con::TDot => false,
                }
            }
            Term::With1 { .. } => false,
            Term::Hook { .. } => false,
            Term::Fork { .. } => false,
            Term::Noun(_) => false,
            Term::Ranks(_) => false,
            Term::Const(_) => false,
            Term::Adverb(_) => false,
            Term::Conj(_) => false,
            Term::Name(_) => false,
        }
    }
}
