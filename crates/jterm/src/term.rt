//! Terms.
ghost use Rattle.std.specs.Prelude.{◌≡◌, IfOk};

use crate::words::{Adv, Con};
use jdata::{Name, NoMemory, Primitive, Sequence, Tree};
use sqlite_items::Boxed;
use std::alloc::Global;

/// A name, and the locale that it names where it is a locative.
#[derive(Debug, Drop)]
pub struct Locative {
    pub name: Name,
    pub place: Option<Name>,
}

/// The numbers of a word in which some number is `_` alone, which is nothing here.
pub type RankList = Sequence<Option<i64>>;

/// Names with their places.
pub type LocativeList = Sequence<Locative>;

/// What a name can stand for, and what words of a sentence can make.
#[derive(Debug, Drop)]
pub enum Term {
    Noun(Tree),
    /// A number word with `_` in it.
    Ranks(RankList),
    Verb(Primitive),
    /// A constant verb, `_9:` to `9:`.
    Const(i64),
    Adverb(Adv),
    Conj(Con),
    /// An adverb with its operand.
    With1 {
        word: Adv,
        left: Boxed<Term>,
    },
    /// A conjunction with its operands.
    With2 {
        word: Con,
        left: Boxed<Term>,
        right: Boxed<Term>,
    },
    Hook {
        left: Boxed<Term>,
        right: Boxed<Term>,
    },
    Fork {
        left: Boxed<Term>,
        mid: Boxed<Term>,
        right: Boxed<Term>,
    },
    /// A reference to a verb by its name, which is looked up when it is run.
    Name(Locative),
}

impl Locative {
    /// A locative equal to this one, in memory of its own.
    pub fn copy(&self, alloc: Global) -> Result<Locative, NoMemory>
        ensures { IfOk result (λ l. l ≡ self.now) }
    {
        let name = copy_name(alloc, &self.name)?;
        let place = match &self.place {
            Some(place) => Some(copy_name(alloc, place)?),
            None => None,
        };
        Ok(Locative { name, place })
    }
}

/// A name equal to this one, in memory of its own.
pub fn copy_name(alloc: Global, name: &Name) -> Result<Name, NoMemory>
    ensures { IfOk result (λ n. n ≡ name.now) }
{
    let bytes = Vec::from_slice(alloc, name.items())?;
    Ok(Name::of(bytes))
}

impl Term {
    /// A term equal to this one, in memory of its own.
    pub fn copy(&self, alloc: Global) -> Result<Term, NoMemory>
        ensures { IfOk result (λ t. t ≡ self.now) }
    {
        match self {
            Term::Noun(noun) => Ok(Term::Noun(noun.copy(alloc)?)),
            Term::Verb(verb) => Ok(Term::Verb(*verb)),
            Term::Name(locative) => Ok(Term::Name(locative.copy(alloc)?)),
            Term::Ranks(numbers) => Ok(Term::Ranks(numbers.copy(alloc)?)),
            Term::Const(number) => Ok(Term::Const(*number)),
            Term::Adverb(word) => Ok(Term::Adverb(*word)),
            Term::Conj(word) => Ok(Term::Conj(*word)),
            Term::With1 { word, left } => {
                let left = Boxed::new(alloc, left.get().copy(alloc)?)?;
                Ok(Term::With1 { word: *word, left })
            }
            Term::With2 { word, left, right } => {
                let left = Boxed::new(alloc, left.get().copy(alloc)?)?;
                let right = Boxed::new(alloc, right.get().copy(alloc)?)?;
                Ok(Term::With2 {
                    word: *word,
                    left,
                    right,
                })
            }
            Term::Hook { left, right } => {
                let left = Boxed::new(alloc, left.get().copy(alloc)?)?;
                let right = Boxed::new(alloc, right.get().copy(alloc)?)?;
                Ok(Term::Hook { left, right })
            }
            Term::Fork { left, mid, right } => {
                let left = Boxed::new(alloc, left.get().copy(alloc)?)?;
                let mid = Boxed::new(alloc, mid.get().copy(alloc)?)?;
                let right = Boxed::new(alloc, right.get().copy(alloc)?)?;
                Ok(Term::Fork { left, mid, right })
            }
        }
    }
}
