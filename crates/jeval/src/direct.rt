//! Derived verbs that apply primitive verbs alone, without a step for each application.
ghost use Rattle.std.specs.Prelude.{◌≡◌, ◌≤◌, IfOk, IfSome, Some, length, map};
ghost use Rattle.jdata.specs.Limits.{IsArray, most_atoms};
ghost use Rattle.jdata.specs.Noun.{int_atom};
ghost use Rattle.jeval.specs.Direct as direct;
ghost use Rattle.jplan.specs.Modifiers.{derived};
ghost use Rattle.jstruct.specs.Shaping.{integer_list};

use jarray::{Array, Room, integers};
use jdata::{IntList, Leaf, NoMemory, Primitive};
use jfold::{inserted, prefixes, suffixes};
use jterm::{Adv, Datum, Term};
use std::alloc::Global;

// The primitive verb that this one inserts between items.
fn inserted_verb(verb: &Term) -> Option<Primitive>
    ensures { result ≡ direct.inserted_verb verb.now }
{
    match verb {
        Term::With1 {
            word: Adv::Slash,
            left,
        } => primitive_in(left.get()),
        _ => None,
    }
}

fn primitive_in(verb: &Term) -> Option<Primitive>
    ensures { result ≡ direct.primitive_in verb.now }
{
    match verb {
        Term::Verb(verb) => Some(*verb),
        _ => None,
    }
}

// The integers of a list, where they lie.
fn list_in<'a>(room: &Room, y: &'a Array) -> Option<&'a [i64]>
    ensures list { IfSome result (λ numbers. y.now.noun ≡ integer_list numbers.now) }
    ensures array { IfSome result (λ numbers. IsArray y.now.noun) }
{
    if y.shape(room).len() != 1 {
        return None;
    }
    match y.leaf(room) {
        Leaf::Int(numbers) => Some(numbers),
        _ => None,
    }
}

/// The value of `v/ y` for a scalar verb and a list of integers, which takes no plan and no memory.
pub(crate) fn direct(room: &Room, verb: &Term, x: &Option<Datum>, y: &Datum) -> Option<i64>
    ensures { IfSome result (λ n. direct.direct (derived verb.now x.now y.now) ≡ Some (int_atom n)) }
{
    if x.is_some() {
        return None;
    }
    let between = inserted_verb(verb)?;
    let numbers = list_in(room, y.array())?;
    inserted(between, numbers)
}

/// On which pieces of a list a scalar verb is inserted.
#[derive(Clone, Copy)]
enum Scan {
    Prefixes(Primitive),
    Suffixes(Primitive),
}

fn scan_by(word: Adv, verb: Option<Primitive>) -> Option<Scan>
    ensures { result ≡ direct.scan_by word verb }
{
    match (word, verb) {
        (Adv::Backslash, Some(verb)) => Some(Scan::Prefixes(verb)),
        (Adv::BackslashDot, Some(verb)) => Some(Scan::Suffixes(verb)),
        _ => None,
    }
}

fn scan_in(verb: &Term) -> Option<Scan>
    ensures { result ≡ direct.scan_in verb.now }
{
    match verb {
        Term::With1 { word, left } => scan_by(*word, inserted_verb(left.get())),
        _ => None,
    }
}

// The value of each piece, where each has one.
fn values_of(alloc: Global, scan: Scan, numbers: &[i64]) -> Result<Option<IntList>, NoMemory>
    ensures { IfOk result (λ made. IfSome made (λ values. direct.values_of scan numbers.now ≡ map Some values)) }
{
    match scan {
        Scan::Prefixes(verb) => prefixes(alloc, verb, numbers),
        Scan::Suffixes(verb) => suffixes(alloc, verb, numbers),
    }
}

/// The values of `v/\ y` and `v/\. y` for a scalar verb and a list of integers, each of which takes a turn and a level.
pub(crate) fn scanned(
    alloc: Global,
    room: &Room,
    verb: &Term,
    x: &Option<Datum>,
    y: &Datum,
) -> Result<Option<IntList>, NoMemory>
    ensures turns { IfOk result (λ made. IfSome made (λ values. direct.TakesTurns (derived verb.now x.now y.now) values)) }
    ensures few { IfOk result (λ made. IfSome made (λ values. length values ≤ most_atoms)) }
{
    let (Some(scan), None) = (scan_in(verb), x) else {
        return Ok(None);
    };
    match list_in(room, y.array()) {
        Some(numbers) if !numbers.is_empty() => values_of(alloc, scan, numbers),
        _ => Ok(None),
    }
}

/// The integers as a list.
pub(crate) fn list(alloc: Global, values: IntList) -> Result<Datum, NoMemory>
    requires { length values ≤ most_atoms }
    ensures { IfOk result (λ v. v ≡ integer_list values) }
{
    let axes = Vec::from_slice(alloc, &[values.items().len() as u64])?;
    Ok(Datum::of(Array::of(integers(axes, values))))
}
