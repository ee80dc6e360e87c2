//! Arguments that are used twice, and nouns in terms.
ghost use Rattle.std.specs.Prelude.{◌≡◌, IfOk, option_map};
ghost use Rattle.jplan.specs.Trains as trains;

use jarray::{Array, Room};
use jdata::{NoMemory, Tree};
use jterm::{Datum, Term};
use std::alloc::Global;

/// An array, and another like it.
pub(crate) fn twice(alloc: Global, room: &Room, value: Datum) -> Result<(Datum, Datum), NoMemory>
    ensures { IfOk result (λ both. (both.0 ≡ value) × (both.1 ≡ value)) }
{
    let mut array = value.into_array();
    let other = array.dup(alloc, room)?;
    Ok((Datum::of(array), Datum::of(other)))
}

/// A left argument, and another like it.
pub(crate) fn left_twice(
    alloc: Global,
    room: &Room,
    value: Option<Datum>,
) -> Result<(Option<Datum>, Option<Datum>), NoMemory>
    ensures { IfOk result (λ both. (both.0 ≡ value) × (both.1 ≡ value)) }
{
    match value {
        Some(value) => {
            let (one, other) = twice(alloc, room, value)?;
            Ok((Some(one), Some(other)))
        }
        None => Ok((None, None)),
    }
}

/// A noun of a term, in memory of its own.
pub(crate) fn datum(alloc: Global, tree: &Tree) -> Result<Datum, NoMemory>
    ensures { IfOk result (λ datum. datum ≡ tree.now) }
{
    let tree = tree.copy(alloc)?;
    Ok(Datum::of(Array::of(tree)))
}

pub(crate) fn noun_in(term: &Term) -> Option<&Tree>
    ensures { option_map (λ noun. noun.now) result ≡ trains.noun_in term.now }
{
    match term {
        Term::Noun(noun) => Some(noun),
        _ => None,
    }
}
