//! The plans of a verb on pieces of its argument.
ghost use Rattle.std.specs.Prelude.{◌≡◌, IfOk, Ok};
ghost use Rattle.jdata.specs.Answers.{Answers};
ghost use Rattle.jplan.specs.Pieces as meant;
ghost use Rattle.jplan.specs.Plans.{rest};
ghost use Rattle.jplan.specs.Trains.{noun_in as meant_noun};

use crate::copies::noun_in;
use crate::plan::Plan;
use crate::several::several_pieces;
use jarray::{Array, Room};
use jcut::{Cutting, Pieces, classes, cut_alone, cut_by};
use jdata::{Fault, NoMemory, Trouble};
use jsplit::{infixes, outfixes, prefixes, suffixes};
use jterm::{Datum, Term};
use std::alloc::Global;

// A verb on each of these pieces, where there are any.
fn on_each<'a>(
    alloc: Global,
    room: &Room,
    verb: &'a Term,
    pieces: Result<Pieces, Trouble>,
) -> Result<Plan<'a>, NoMemory>
    ensures { (came : meant.Cuts) → Answers came pieces → IfOk result (λ plan. rest plan ≡ meant.on_each verb.now came) }
{
    match pieces {
        Ok(pieces) => several_pieces(alloc, room, verb, pieces),
        Err(Trouble::Fault(fault)) => Ok(Plan::Done(Err(fault))),
        Err(Trouble::NoMemory) => Err(NoMemory),
    }
}

// Pieces that no fault is in the way of.
fn without_fault(pieces: Result<Pieces, NoMemory>) -> Result<Pieces, Trouble>
    ensures { meant.Passes pieces result }
{
    match pieces {
        Ok(pieces) => Ok(pieces),
        Err(NoMemory) => Err(Trouble::NoMemory),
    }
}

/// The number, where it is an integer that stands alone.
pub(crate) fn integer(room: &Room, value: &Array) -> Option<i64>
    ensures { result ≡ meant.integer_in value.now.noun }
{
    value.integer(room)
}

// The infixes that a left argument asks for.
fn given_infixes(alloc: Global, room: &mut Room, x: &Array, y: Array) -> Result<Pieces, Trouble>
    ensures { Answers (meant.given_infixes x.now.noun y.noun) result }
{
    match integer(room, x) {
        Some(number) => without_fault(infixes(alloc, room, number, y)),
        None => Err(Trouble::Fault(Fault::Domain)),
    }
}

// The outfixes that a left argument asks for.
fn given_outfixes(alloc: Global, room: &mut Room, x: &Array, y: Array) -> Result<Pieces, Trouble>
    ensures { Answers (meant.given_outfixes x.now.noun y.noun) result }
{
    match integer(room, x) {
        Some(number) => without_fault(outfixes(alloc, room, number, y)),
        None => Err(Trouble::Fault(Fault::Domain)),
    }
}

// The prefixes of an argument, or its infixes.
fn prefix_pieces(
    alloc: Global,
    room: &mut Room,
    x: Option<Datum>,
    y: Array,
) -> Result<Pieces, Trouble>
    ensures { Answers (meant.prefix_pieces x y.noun) result }
{
    match x {
        None => without_fault(prefixes(alloc, room, y)),
        Some(x) => given_infixes(alloc, room, x.array(), y),
    }
}

// The suffixes of an argument, or its outfixes.
fn suffix_pieces(
    alloc: Global,
    room: &mut Room,
    x: Option<Datum>,
    y: Array,
) -> Result<Pieces, Trouble>
    ensures { Answers (meant.suffix_pieces x y.noun) result }
{
    match x {
        None => without_fault(suffixes(alloc, room, y)),
        Some(x) => given_outfixes(alloc, room, x.array(), y),
    }
}

/// `u\ y` and `x u\ y`.
pub(crate) fn prefixed<'a>(
    alloc: Global,
    room: &mut Room,
    verb: &'a Term,
    x: Option<Datum>,
    y: Datum,
) -> Result<Plan<'a>, NoMemory>
    ensures { IfOk result (λ plan. rest plan ≡ meant.prefixed verb.now x y) }
{
    let pieces = prefix_pieces(alloc, room, x, y.into_array());
    on_each(alloc, room, verb, pieces)
}

/// `u\. y` and `x u\. y`.
pub(crate) fn suffixed<'a>(
    alloc: Global,
    room: &mut Room,
    verb: &'a Term,
    x: Option<Datum>,
    y: Datum,
) -> Result<Plan<'a>, NoMemory>
    ensures { IfOk result (λ plan. rest plan ≡ meant.suffixed verb.now x y) }
{
    let pieces = suffix_pieces(alloc, room, x, y.into_array());
    on_each(alloc, room, verb, pieces)
}

/// `x u/. y`; with one argument it isn't built.
pub(crate) fn keyed<'a>(
    alloc: Global,
    room: &mut Room,
    verb: &'a Term,
    x: Option<Datum>,
    y: Datum,
) -> Result<Plan<'a>, NoMemory>
    ensures { IfOk result (λ plan. rest plan ≡ meant.keyed verb.now x y) }
{
    match x {
        Some(x) => {
            let pieces = classes(alloc, room, x.array(), y.into_array());
            on_each(alloc, room, verb, pieces)
        }
        None => Ok(Plan::Done(Err(Fault::Nonce))),
    }
}

// The way of cutting that the noun to the right of `;.` names.
fn cutting(room: &Room, alloc: Global, term: &Term) -> Result<Option<Cutting>, NoMemory>
    ensures { IfOk result (λ cutting. cutting ≡ meant.cutting_by (meant.cut_number (meant_noun term.now))) }
{
    let Some(number) = noun_in(term) else {
        return Ok(None);
    };
    let number = Array::of(number.copy(alloc)?);
    match integer(room, &number) {
        Some(number) => Ok(Cutting::of(number)),
        None => Ok(None),
    }
}

// The intervals of an argument.
fn intervals(
    alloc: Global,
    room: &mut Room,
    cutting: Option<Cutting>,
    x: Option<Datum>,
    y: Array,
) -> Result<Pieces, Trouble>
    ensures { Answers (meant.intervals cutting x y.noun) result }
{
    match (cutting, x) {
        (Some(cutting), None) => without_fault(cut_alone(alloc, room, cutting, y)),
        (Some(cutting), Some(x)) => cut_by(alloc, room, cutting, x.array(), y),
        (None, _) => Err(Trouble::Fault(Fault::Domain)),
    }
}

/// `u;.k y` and `x u;.k y`.
pub(crate) fn cut<'a>(
    alloc: Global,
    room: &mut Room,
    verb: &'a Term,
    number: &Term,
    x: Option<Datum>,
    y: Datum,
) -> Result<Plan<'a>, NoMemory>
    ensures { IfOk result (λ plan. rest plan ≡ meant.cut verb.now number.now x y) }
{
    let cutting = cutting(room, alloc, number)?;
    let pieces = intervals(alloc, room, cutting, x, y.into_array());
    on_each(alloc, room, verb, pieces)
}
