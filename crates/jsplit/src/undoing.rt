//! Obverses: verbs that undo verbs.

ghost use Rattle.std.specs.Prelude.{◌≡◌, ◌≤◌, Err, IfOk, Result};
ghost use Rattle.jdata.specs.Answers.{Answers};
ghost use Rattle.jdata.specs.declared.fault.Fault as fault;
ghost use Rattle.jdata.specs.declared.fault.Fault.TheVariants as cause;
ghost use Rattle.jdata.specs.declared.fault.Trouble.TheVariants as trouble;
ghost use Rattle.jterm.specs.Acts.{obverse_fault};
ghost use Rattle.jterm.specs.Levels.{levels, most_levels};
ghost use Rattle.jterm.specs.Obverses.{has_obverse};
ghost use Rattle.jterm.specs.Speeches.{speech_of};
ghost use Rattle.jterm.specs.Validity.{IsValid};
ghost use Rattle.jterm.specs.declared.speech.Speech.TheVariants as speech;
ghost use Rattle.jterm.specs.declared.term.Term as term;
ghost use Rattle.jsplit.specs.Undoing as meant;

use crate::bond::{Bond, bonded, left_undone_by, right_undone_by};
use jdata::{Fault, Primitive, Tree, Trouble};
use jterm::{Con, Term, conj};
use std::alloc::Global;

/// The verb that undoes a verb, which is as deep as it. Its only fault for a term within its limits
/// is Domain, exactly where `Term::has_obverse` says no. A deeper term meets Limit.
pub fn obverse(alloc: Global, of: &Term) -> Result<Term, Trouble>
    ensures value { Answers (meant.obverse of.now) result }
    ensures exact { levels of.now ≤ most_levels → meant.refusal (meant.obverse of.now) ≡ obverse_fault (has_obverse of.now) }
    ensures valid { IfOk result IsValid }
    ensures levels { IfOk result (λ t. levels t ≡ levels of.now) }
    ensures verb { IfOk result (λ t. speech_of t ≡ speech.Verb) }
{
    undone(alloc, of)
}

#[tactic(auto, using(crate::proofs::Undone::undone_is))]
fn undone(alloc: Global, of: &Term) -> Result<Term, Trouble>
    ensures value { Answers (meant.obverse of.now) result }
    ensures valid { IfOk result IsValid }
{
    match of {
        Term::Verb(verb) => verb_undone(*verb),
        Term::With2 { word, left, right } => {
            let (left, right) = (left.get(), right.get());
            match word {
                Con::At | Con::AtColon | Con::AmpersandColon => {
                    in_turn(alloc, undone(alloc, left), undone(alloc, right))
                }
                Con::Ampersand => {
                    let both = in_turn(alloc, undone(alloc, left), undone(alloc, right));
                    unbonded(alloc, left, right, both)
                }
                Con::Quote | Con::PowerColon | Con::AmpersandDot => no_obverse(),
                Con::AmpersandDotColon | Con::Colon | Con::ColonColon => no_obverse(),
                Con::SemicolonDot | Con::BangColon | Con::TDot => no_obverse(),
            }
        }
        Term::With1 { .. } => no_obverse(),
        Term::Hook { .. } => no_obverse(),
        Term::Fork { .. } => no_obverse(),
        Term::Noun(_) => no_obverse(),
        Term::Ranks(_) => no_obverse(),
        Term::Const(_) => no_obverse(),
        Term::Adverb(_) => no_obverse(),
        Term::Conj(_) => no_obverse(),
        Term::Name(_) => no_obverse(),
    }
}

fn no_obverse() -> Result<Term, Trouble>
    ensures { result ≡ Err (trouble.Fault cause.Domain) }
{
    Err(Trouble::Fault(Fault::Domain))
}

fn verb_undone(verb: Primitive) -> Result<Term, Trouble>
    ensures value { Answers (meant.verb_or_fault (meant.undone_by verb)) result }
    ensures valid { IfOk result IsValid }
{
    match undone_by(verb) {
        Some(verb) => Ok(Term::Verb(verb)),
        None => no_obverse(),
    }
}

#[tactic(auto, unfolding(crate::specs::Undoing::undone_by))]
fn undone_by(verb: Primitive) -> Option<Primitive>
    ensures { result ≡ meant.undone_by verb }
{
    match verb {
        Primitive::Less => Some(Primitive::Greater),
        Primitive::Greater => Some(Primitive::Less),
        Primitive::PlusColon => Some(Primitive::MinusColon),
        Primitive::MinusColon => Some(Primitive::PlusColon),
        Primitive::LessColon => Some(Primitive::GreaterColon),
        Primitive::GreaterColon => Some(Primitive::LessColon),
        Primitive::TimesColon => Some(Primitive::DivideColon),
        Primitive::DivideColon => Some(Primitive::TimesColon),
        Primitive::HashDot => Some(Primitive::HashColon),
        Primitive::HashColon => Some(Primitive::HashDot),
        Primitive::Minus | Primitive::Divide | Primitive::MinusDot => Some(verb),
        Primitive::BarDot | Primitive::BarColon => Some(verb),
        Primitive::LeftBracket | Primitive::RightBracket => Some(verb),
        _ => None,
    }
}

/// The one after the other, of the obverses of two verbs.
fn in_turn(
    alloc: Global,
    left: Result<Term, Trouble>,
    right: Result<Term, Trouble>,
) -> Result<Term, Trouble>
    requires left { IfOk left IsValid }
    requires right { IfOk right IsValid }
    ensures value { (l r : Result term.Term fault.Fault) → Answers l left → Answers r right → Answers (meant.undone_in_turn l r) result }
    ensures valid { IfOk result IsValid }
{
    match (left, right) {
        (Err(trouble), _) => Err(trouble),
        (Ok(_), Err(trouble)) => Err(trouble),
        (Ok(left), Ok(right)) => conj(alloc, Con::AtColon, right, left),
    }
}

/// What undoes a verb bonded with a noun, or what else there is.
fn unbonded(
    alloc: Global,
    left: &Term,
    right: &Term,
    other: Result<Term, Trouble>,
) -> Result<Term, Trouble>
    requires { IfOk other IsValid }
    ensures value { (o : Result term.Term fault.Fault) → Answers o other → Answers (meant.unbonded left.now right.now o) result }
    ensures valid { IfOk result IsValid }
{
    match (left, right) {
        (Term::Noun(noun), Term::Verb(verb)) => {
            bond_or(alloc, left_undone_by(*verb), noun, other)
        }
        (Term::Verb(verb), Term::Noun(noun)) => {
            bond_or(alloc, right_undone_by(*verb), noun, other)
        }
        _ => other,
    }
}

fn bond_or(
    alloc: Global,
    bond: Option<Bond>,
    noun: &Tree,
    other: Result<Term, Trouble>,
) -> Result<Term, Trouble>
    requires { IfOk other IsValid }
    ensures value { (o : Result term.Term fault.Fault) → Answers o other → Answers (meant.bond_or bond noun.now o) result }
    ensures valid { IfOk result IsValid }
{
    match bond {
        Some(bond) => bonded(alloc, bond, noun),
        None => other,
    }
}
