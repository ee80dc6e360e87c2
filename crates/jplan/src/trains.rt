//! The plans of trains.
ghost use Rattle.std.specs.Prelude.{◌≡◌, IfOk};
ghost use Rattle.jplan.specs.Plans.{rest};
ghost use Rattle.jplan.specs.Trains as trains;

use crate::copies::{datum, left_twice, noun_in, twice};
use crate::plan::{After, Plan};
use jarray::Room;
use jdata::{NoMemory, Primitive};
use jterm::{Datum, Term};
use std::alloc::Global;

// The left argument of a hook, or the right one twice.
fn hook_arguments(
    alloc: Global,
    room: &Room,
    x: Option<Datum>,
    y: Datum,
) -> Result<(Datum, Datum), NoMemory>
    ensures { IfOk result (λ both. (both.0 ≡ trains.left_or x y) × (both.1 ≡ y)) }
{
    match x {
        Some(x) => Ok((x, y)),
        None => twice(alloc, room, y),
    }
}

/// The plan of a hook.
pub(crate) fn hook<'a>(
    alloc: Global,
    room: &Room,
    left: &'a Term,
    right: &'a Term,
    x: Option<Datum>,
    y: Datum,
) -> Result<Plan<'a>, NoMemory>
    ensures { IfOk result (λ plan. rest plan ≡ trains.hook left.now right.now x y) }
{
    let (x, y) = hook_arguments(alloc, room, x, y)?;
    Ok(Plan::Apply {
        verb: right,
        x: None,
        y,
        after: After::AsRight {
            verb: left,
            left: Some(x),
        },
    })
}

fn is_cap_verb(verb: Primitive) -> bool
    ensures { result ≡ trains.is_cap_verb verb }
{
    matches!(verb, Primitive::LeftBracketColon)
}

fn is_cap(verb: &Term) -> bool
    ensures { result ≡ trains.is_cap verb.now }
{
    match verb {
        Term::Verb(verb) => is_cap_verb(*verb),
        _ => false,
    }
}

// A fork whose left part isn't applied.
fn half_fork<'a>(
    left: Option<Datum>,
    mid: &'a Term,
    right: &'a Term,
    x: Option<Datum>,
    y: Datum,
) -> Plan<'a>
    ensures { rest result ≡ trains.half_fork left mid.now right.now x y }
{
    Plan::Apply {
        verb: right,
        x,
        y,
        after: After::AsRight { verb: mid, left },
    }
}

fn whole_fork<'a>(
    alloc: Global,
    room: &Room,
    left: &'a Term,
    mid: &'a Term,
    right: &'a Term,
    x: Option<Datum>,
    y: Datum,
) -> Result<Plan<'a>, NoMemory>
    ensures { IfOk result (λ plan. rest plan ≡ trains.whole_fork left.now mid.now right.now x y) }
{
    let (x, left_x) = left_twice(alloc, room, x)?;
    let (y, left_y) = twice(alloc, room, y)?;
    Ok(Plan::Apply {
        verb: right,
        x,
        y,
        after: After::Right {
            left,
            mid,
            x: left_x,
            y: left_y,
        },
    })
}

/// The plan of a fork.
pub(crate) fn fork<'a>(
    alloc: Global,
    room: &Room,
    left: &'a Term,
    mid: &'a Term,
    right: &'a Term,
    x: Option<Datum>,
    y: Datum,
) -> Result<Plan<'a>, NoMemory>
    ensures { IfOk result (λ plan. rest plan ≡ trains.fork left.now mid.now right.now x y) }
{
    match noun_in(left) {
        Some(tree) => {
            let left = datum(alloc, tree)?;
            Ok(half_fork(Some(left), mid, right, x, y))
        }
        None => {
            if is_cap(left) {
                return Ok(half_fork(None, mid, right, x, y));
            }
            whole_fork(alloc, room, left, mid, right, x, y)
        }
    }
}
