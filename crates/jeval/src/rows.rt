//! What the rows of the parsing table ask for. A row makes no use and applies nothing: so what executes a sentence is
//! one loop over plain data, and the functions that call each other stay few.
ghost use Rattle.std.specs.Prelude.{◌≡◌, ◌∷◌, OnOk};
ghost use Rattle.jeval.specs.Rows as rows;
ghost use Rattle.jeval.specs.Made.{Gives};
ghost use Rattle.jterm.specs.declared.part.Part.TheVariants as part;

use crate::building::Making;
use crate::end::EvalEnd;
use crate::stack::{Parts, pushed};
use jdata::{Fault, Name};
use jterm::{Adv, Con, Datum, Locative, Part, Term};

/// The parts that stay where others act.
#[derive(Drop)]
pub(crate) struct Around {
    pub(crate) first: Part,
    pub(crate) second: Option<Part>,
    pub(crate) rest: Parts,
}

/// What a row asks for.
#[derive(Drop)]
pub(crate) enum Deed {
    /// The value of a verb on its arguments, to be put where they stood.
    Apply {
        verb: Term,
        x: Option<Datum>,
        y: Datum,
        around: Around,
    },
    /// What a modifier or a train makes, to be put where its parts stood.
    Make {
        making: Making,
        around: Around,
    },
    /// A name stands for a part from now on, which stays in front of the others.
    Assign {
        name: Name,
        value: Part,
        rest: Parts,
    },
    /// The names of a quoted target stand for their shares of a part, which stays.
    Spread {
        target: Datum,
        value: Part,
        rest: Parts,
    },
    /// This part in front of the others, and nothing else.
    Leave {
        value: Part,
        rest: Parts,
    },
    Refuse(Fault),
}

impl Around {
    /// The parts with this one where the others stood.
    pub(crate) fn filled(self, value: Part) -> Result<Parts, EvalEnd>
        ensures { Gives (rows.filled self value) result }
    {
        let Around {
            first,
            second,
            rest,
        } = self;
        let rest = pushed(rest, value)?;
        let rest = match second {
            Some(second) => pushed(rest, second)?,
            None => rest,
        };
        pushed(rest, first)
    }
}

fn verb_in(part: Part) -> Result<Term, Fault>
    ensures { result ≡ rows.verb_in part }
{
    match part {
        Part::Verb { term, .. } => Ok(term),
        _ => Err(Fault::Syntax),
    }
}

// An argument; a number word with `_` is none.
fn noun_in(part: Part) -> Result<Datum, Fault>
    ensures { result ≡ rows.noun_in part }
{
    match part {
        Part::Noun(x) => Ok(x),
        Part::Ranks(_) => Err(Fault::Nonce),
        _ => Err(Fault::Syntax),
    }
}

// A verb and the noun behind it.
fn operands(verb: Part, y: Part) -> Result<(Term, Datum), Fault>
    ensures { result ≡ rows.operands verb y }
{
    match verb_in(verb) {
        Ok(verb) => match noun_in(y) {
            Ok(y) => Ok((verb, y)),
            Err(fault) => Err(fault),
        },
        Err(fault) => Err(fault),
    }
}

fn adverb_in(part: Part) -> Option<Adv>
    ensures { result ≡ rows.adverb_in part }
{
    match part {
        Part::Adverb(word) => Some(word),
        _ => None,
    }
}

fn conj_in(part: Part) -> Option<Con>
    ensures { result ≡ rows.conj_in part }
{
    match part {
        Part::Conj(word) => Some(word),
        _ => None,
    }
}

fn first_three(mut parts: Parts) -> Option<(Part, Part, Part, Parts)>
    ensures { result ≡ rows.first_three parts }
{
    let first = parts.pop()?;
    let second = parts.pop()?;
    let third = parts.pop()?;
    Some((first, second, third, parts))
}

fn monad(operands: Result<(Term, Datum), Fault>, around: Around) -> Deed
    ensures { result ≡ rows.monad operands around }
{
    match operands {
        Ok((verb, y)) => Deed::Apply {
            verb,
            x: None,
            y,
            around,
        },
        Err(fault) => Deed::Refuse(fault),
    }
}

fn dyad(x: Result<Datum, Fault>, operands: Result<(Term, Datum), Fault>, around: Around) -> Deed
    ensures { result ≡ rows.dyad x operands around }
{
    match x {
        Ok(x) => match operands {
            Ok((verb, y)) => Deed::Apply {
                verb,
                x: Some(x),
                y,
                around,
            },
            Err(fault) => Deed::Refuse(fault),
        },
        Err(fault) => Deed::Refuse(fault),
    }
}

fn modified(left: Part, word: Option<Adv>, around: Around) -> Deed
    ensures { result ≡ rows.modified left word around }
{
    match word {
        Some(word) => Deed::Make {
            making: Making::Adverb { word, left },
            around,
        },
        None => Deed::Refuse(Fault::Syntax),
    }
}

fn joined(left: Part, word: Option<Con>, right: Part, around: Around) -> Deed
    ensures { result ≡ rows.joined left word right around }
{
    match word {
        Some(word) => Deed::Make {
            making: Making::Conj { word, left, right },
            around,
        },
        None => Deed::Refuse(Fault::Syntax),
    }
}

fn monad_row(parts: Parts) -> Deed
    ensures { result ≡ rows.monad_row parts }
{
    match first_three(parts) {
        Some((first, verb, y, rest)) => {
            let around = Around {
                first,
                second: None,
                rest,
            };
            monad(operands(verb, y), around)
        }
        None => Deed::Refuse(Fault::Syntax),
    }
}

fn inner_monad_row(mut parts: Parts) -> Deed
    ensures { result ≡ rows.inner_monad_row parts }
{
    let Some(first) = parts.pop() else {
        return Deed::Refuse(Fault::Syntax);
    };
    match first_three(parts) {
        Some((second, verb, y, rest)) => {
            let around = Around {
                first,
                second: Some(second),
                rest,
            };
            monad(operands(verb, y), around)
        }
        None => Deed::Refuse(Fault::Syntax),
    }
}

fn dyad_row(mut parts: Parts) -> Deed
    ensures { result ≡ rows.dyad_row parts }
{
    let Some(first) = parts.pop() else {
        return Deed::Refuse(Fault::Syntax);
    };
    match first_three(parts) {
        Some((x, verb, y, rest)) => {
            let around = Around {
                first,
                second: None,
                rest,
            };
            dyad(noun_in(x), operands(verb, y), around)
        }
        None => Deed::Refuse(Fault::Syntax),
    }
}

// A name in a locale isn't built.
fn plain_name(target: Locative) -> Result<Name, Fault>
    ensures { result ≡ rows.plain_name target }
{
    match target.place {
        None => Ok(target.name),
        Some(_) => Err(Fault::Nonce),
    }
}

// The name of a target that isn't quoted.
fn target_name(target: Part) -> Result<Name, Fault>
    ensures { result ≡ rows.target_name target }
{
    match target {
        Part::Target(target) => plain_name(target),
        Part::Ranks(_) => Err(Fault::Domain),
        _ => Err(Fault::Syntax),
    }
}

fn named(name: Result<Name, Fault>, value: Part, rest: Parts) -> Deed
    ensures { result ≡ rows.named name value rest }
{
    match name {
        Ok(name) => Deed::Assign { name, value, rest },
        Err(fault) => Deed::Refuse(fault),
    }
}

fn assignment(target: Part, value: Part, rest: Parts) -> Deed
    ensures { result ≡ rows.assignment target value rest }
{
    match target {
        Part::Noun(target) => Deed::Spread {
            target,
            value,
            rest,
        },
        target => named(target_name(target), value, rest),
    }
}

fn assignment_row(parts: Parts) -> Deed
    ensures { result ≡ rows.assignment_row parts }
{
    match first_three(parts) {
        Some((target, _, value, rest)) => assignment(target, value, rest),
        None => Deed::Refuse(Fault::Syntax),
    }
}

fn parenthesis_row(parts: Parts) -> Deed
    ensures { result ≡ rows.parenthesis_row parts }
{
    match first_three(parts) {
        Some((_, value, _, rest)) => Deed::Leave { value, rest },
        None => Deed::Refuse(Fault::Syntax),
    }
}

fn adverb_row(parts: Parts) -> Deed
    ensures { result ≡ rows.adverb_row parts }
{
    match first_three(parts) {
        Some((first, left, word, rest)) => {
            let around = Around {
                first,
                second: None,
                rest,
            };
            modified(left, adverb_in(word), around)
        }
        None => Deed::Refuse(Fault::Syntax),
    }
}

fn conj_row(mut parts: Parts) -> Deed
    ensures { result ≡ rows.conj_row parts }
{
    let Some(first) = parts.pop() else {
        return Deed::Refuse(Fault::Syntax);
    };
    match first_three(parts) {
        Some((left, word, right, rest)) => {
            let around = Around {
                first,
                second: None,
                rest,
            };
            joined(left, conj_in(word), right, around)
        }
        None => Deed::Refuse(Fault::Syntax),
    }
}

fn fork_row(mut parts: Parts) -> Deed
    ensures { result ≡ rows.fork_row parts }
{
    let Some(first) = parts.pop() else {
        return Deed::Refuse(Fault::Syntax);
    };
    match first_three(parts) {
        Some((left, mid, right, rest)) => Deed::Make {
            making: Making::Fork { left, mid, right },
            around: Around {
                first,
                second: None,
                rest,
            },
        },
        None => Deed::Refuse(Fault::Syntax),
    }
}

// Two parts that stand alone: a hook, if they are verbs.
fn train_row(parts: Parts) -> Deed
    ensures { result ≡ rows.train_row parts }
{
    match first_three(parts) {
        Some((first, left, right, rest)) => Deed::Make {
            making: Making::Hook { left, right },
            around: Around {
                first,
                second: None,
                rest,
            },
        },
        None => Deed::Refuse(Fault::Syntax),
    }
}

/// What a row of the table asks for, of the parts that were read. There are no other rows.
#[tactic(auto, unfolding(crate::specs::Rows::deed_of))]
pub(crate) fn deed_of(row: u8, parts: Parts) -> Deed
    ensures { result ≡ rows.deed_of row parts }
{
    match row {
        0 => monad_row(parts),
        1 => inner_monad_row(parts),
        2 => dyad_row(parts),
        3 => adverb_row(parts),
        4 => conj_row(parts),
        5 => fork_row(parts),
        6 => train_row(parts),
        7 => assignment_row(parts),
        8 => parenthesis_row(parts),
        _ => Deed::Refuse(Fault::Syntax),
    }
}
