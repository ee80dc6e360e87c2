//! What rows make of parts: modifiers with their operands, and trains.
ghost use Rattle.std.specs.Prelude.{◌≡◌, IfOk, Result};
ghost use Rattle.jdata.specs.declared.fault.Fault.{Fault as Faults};
ghost use Rattle.jterm.specs.declared.term.Term.{Term as Terms};
ghost use Rattle.jdata.specs.Answers as troubles;
ghost use Rattle.jterm.specs.Acts as acts;
ghost use Rattle.jeval.specs.Made.{Answers};
ghost use Rattle.jeval.specs.Makings as makings;

use crate::end::{EvalEnd, NO_MEMORY};
use jarray::Room;
use jdata::{Fault, NoMemory, Trouble};
use jterm::{Adv, Con, Part, Term, adverb, conj, fork, hook};
use std::alloc::Global;

/// What a row makes: a word with its operands, or a train.
#[derive(Drop)]
pub(crate) enum Making {
    Adverb { word: Adv, left: Part },
    Conj { word: Con, left: Part, right: Part },
    Fork { left: Part, mid: Part, right: Part },
    Hook { left: Part, right: Part },
}

/// What a name can stand for, in memory of its own: the value of a part.
pub(crate) fn term_of(alloc: Global, room: &Room, part: &Part) -> Result<Option<Term>, NoMemory>
    ensures { IfOk result (λ term. term ≡ makings.term_of part.now) }
{
    match part {
        Part::Noun(value) => Ok(Some(Term::Noun(value.array().tree(alloc, room)?))),
        Part::Ranks(numbers) => Ok(Some(Term::Ranks(numbers.copy(alloc)?))),
        Part::Verb { term, .. } => Ok(Some(term.copy(alloc)?)),
        Part::Adverb(word) => Ok(Some(Term::Adverb(*word))),
        Part::Conj(word) => Ok(Some(Term::Conj(*word))),
        _ => Ok(None),
    }
}

// An operand, in the memory of its part.
fn operand(alloc: Global, room: &mut Room, part: Part) -> Result<Term, EvalEnd>
    ensures { Answers (makings.operand part) result }
{
    match part {
        Part::Noun(value) => match value.into_array().into_tree(alloc, room) {
            Ok(tree) => Ok(Term::Noun(tree)),
            Err(NoMemory) => Err(NO_MEMORY),
        },
        Part::Ranks(numbers) => Ok(Term::Ranks(numbers)),
        Part::Verb { term, .. } => Ok(term),
        Part::Adverb(word) => Ok(Term::Adverb(word)),
        Part::Conj(word) => Ok(Term::Conj(word)),
        _ => Err(EvalEnd::Fault(Fault::Syntax)),
    }
}

// What was made, as the end of an evaluation.
fn ended(made: Result<Term, Trouble>) -> Result<Term, EvalEnd>
    ensures { (meant : Result Terms Faults) → troubles.Answers meant made → Answers meant result }
{
    match made {
        Ok(term) => Ok(term),
        Err(Trouble::Fault(fault)) => Err(EvalEnd::Fault(fault)),
        Err(Trouble::NoMemory) => Err(NO_MEMORY),
    }
}

fn made_adverb(alloc: Global, room: &mut Room, word: Adv, left: Part) -> Result<Term, EvalEnd>
    ensures { Answers (makings.with_operand (makings.operand left) (acts.adverb_of word)) result }
{
    let left = operand(alloc, room, left)?;
    ended(adverb(alloc, word, left))
}

fn made_conj(
    alloc: Global,
    room: &mut Room,
    word: Con,
    left: Part,
    right: Part,
) -> Result<Term, EvalEnd>
    ensures { Answers (makings.with_operand (makings.operand left) (λ l. makings.with_operand (makings.operand right) (acts.conj_of word l))) result }
{
    let left = operand(alloc, room, left)?;
    let right = operand(alloc, room, right)?;
    ended(conj(alloc, word, left, right))
}

fn made_fork(
    alloc: Global,
    room: &mut Room,
    left: Part,
    mid: Part,
    right: Part,
) -> Result<Term, EvalEnd>
    ensures { Answers (makings.with_operand (makings.operand left) (λ l. makings.with_operand (makings.operand mid) (λ m. makings.with_operand (makings.operand right) (acts.fork_of l m)))) result }
{
    let left = operand(alloc, room, left)?;
    let mid = operand(alloc, room, mid)?;
    let right = operand(alloc, room, right)?;
    ended(fork(alloc, left, mid, right))
}

fn made_hook(alloc: Global, room: &mut Room, left: Part, right: Part) -> Result<Term, EvalEnd>
    ensures { Answers (makings.with_operand (makings.operand left) (λ l. makings.with_operand (makings.operand right) (acts.hook_of l))) result }
{
    let left = operand(alloc, room, left)?;
    let right = operand(alloc, room, right)?;
    ended(hook(alloc, left, right))
}

/// The verb that is made, or the fault for which the operands are refused.
pub(crate) fn made(alloc: Global, room: &mut Room, making: Making) -> Result<Term, EvalEnd>
    ensures { Answers (makings.made_of making) result }
{
    match making {
        Making::Adverb { word, left } => made_adverb(alloc, room, word, left),
        Making::Conj { word, left, right } => made_conj(alloc, room, word, left, right),
        Making::Fork { left, mid, right } => made_fork(alloc, room, left, mid, right),
        Making::Hook { left, right } => made_hook(alloc, room, left, right),
    }
}
