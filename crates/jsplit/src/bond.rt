//! Verbs bonded with nouns, by what undoes them.

ghost use Rattle.std.specs.Prelude.{◌≡◌, Ok, IfOk};
ghost use Rattle.jdata.specs.Answers.{Answers};
ghost use Rattle.jterm.specs.Validity.{IsValid};
ghost use Rattle.jsplit.specs.Undoing as meant;

use jdata::{Primitive, Tree, Trouble};
use jterm::{Con, Term, conj};
use std::alloc::Global;

/// A verb with a noun on one side.
#[derive(Clone, Copy, Debug, PartialEq, Eq)]
pub enum Bond {
    /// `m&v`
    Left(Primitive),
    /// `v&m`
    Right(Primitive),
}

/// What undoes a noun bonded with a verb, if it is undone in this way.
pub fn left_undone_by(verb: Primitive) -> Option<Bond>
    ensures { result ≡ meant.left_undone_by verb }
{
    match verb {
        Primitive::Plus => Some(Bond::Right(Primitive::Minus)),
        Primitive::Minus => Some(Bond::Left(Primitive::Minus)),
        Primitive::Times => Some(Bond::Right(Primitive::Divide)),
        _ => None,
    }
}

/// What undoes a verb bonded with a noun, if it is undone in this way.
pub fn right_undone_by(verb: Primitive) -> Option<Bond>
    ensures { result ≡ meant.right_undone_by verb }
{
    match verb {
        Primitive::Plus => Some(Bond::Right(Primitive::Minus)),
        Primitive::Minus => Some(Bond::Right(Primitive::Plus)),
        Primitive::Times => Some(Bond::Right(Primitive::Divide)),
        Primitive::Divide => Some(Bond::Right(Primitive::Times)),
        _ => None,
    }
}

/// A verb bonded with a noun.
pub fn bonded(alloc: Global, bond: Bond, noun: &Tree) -> Result<Term, Trouble>
    ensures value { Answers (Ok (meant.bonded bond noun.now)) result }
    ensures valid { IfOk result IsValid }
{
    let noun = match noun.copy(alloc) {
        Ok(noun) => Term::Noun(noun),
        Err(_) => return Err(Trouble::NoMemory),
    };
    match bond {
        Bond::Left(verb) => conj(alloc, Con::Ampersand, noun, Term::Verb(verb)),
        Bond::Right(verb) => conj(alloc, Con::Ampersand, Term::Verb(verb), noun),
    }
}
