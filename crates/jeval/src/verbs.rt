//! The primitive verbs, as an evaluation applies them.
ghost use Rattle.std.specs.Prelude.{◌≡◌};
ghost use Rattle.jeval.specs.Made.{Answers, Ends};
ghost use Rattle.jeval.specs.Verbs as verbs;

use crate::end::EvalEnd;
use jarray::{Array, Room};
use jdata::{Primitive, Trouble};
use jterm::Datum;
use juses::Halt;
use std::alloc::Global;

// What a kernel gave, as the end of an evaluation.
fn ended(given: Result<Array, Trouble>) -> Result<Datum, EvalEnd>
    ensures { Ends given result }
{
    match given {
        Ok(array) => Ok(Datum::of(array)),
        Err(Trouble::Fault(fault)) => Err(EvalEnd::Fault(fault)),
        Err(Trouble::NoMemory) => Err(EvalEnd::Halt(Halt::NoMemory)),
    }
}

fn monad(alloc: Global, room: &mut Room, verb: Primitive, y: Datum) -> Result<Datum, EvalEnd>
    ensures { Answers (verbs.monad verb y) result }
{
    ended(jprim::monad(alloc, room, verb, y.into_array()))
}

fn dyad(
    alloc: Global,
    room: &mut Room,
    verb: Primitive,
    x: Datum,
    y: Datum,
) -> Result<Datum, EvalEnd>
    ensures { Answers (verbs.dyad verb x y) result }
{
    ended(jprim::dyad(alloc, room, verb, x.into_array(), y.into_array()))
}

/// A primitive verb on its arguments.
pub(crate) fn primitive(
    alloc: Global,
    room: &mut Room,
    verb: Primitive,
    x: Option<Datum>,
    y: Datum,
) -> Result<Datum, EvalEnd>
    ensures { Answers (verbs.primitive verb x y) result }
{
    match x {
        None => monad(alloc, room, verb, y),
        Some(x) => dyad(alloc, room, verb, x, y),
    }
}
