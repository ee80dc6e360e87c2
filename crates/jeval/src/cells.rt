//! What becomes of the cells of a derived verb.
ghost use Rattle.std.specs.Prelude.{◌≡◌, ◌++◌, ◌∷◌, [], IfOk, IfErr, List, ℕ, Err};
ghost use Rattle.jdata.specs.Noun.{product};
ghost use Rattle.jframe.specs.Assembly.{assembled, AreResults};
ghost use Rattle.jeval.specs.Made.{Answers};
ghost use Rattle.jplan.specs.Several.{alone as alone_of};
ghost use Rattle.jplan.specs.Arguments.{frame as meant_frame, x_in};

use crate::end::{EvalEnd, NO_MEMORY};
use jarray::{Array, Room};
use jdata::{Fault, NoMemory, Tree, Trouble};
use jframe::Results;
use jplan::Arguments;
use jshape::Shape;
use jterm::Datum;
use std::alloc::Global;

/// Arguments in cells of these ranks.
pub(crate) fn parted(
    alloc: Global,
    room: &Room,
    left: Option<i64>,
    right: Option<i64>,
    x: Option<Datum>,
    y: Datum,
) -> Result<Arguments, EvalEnd>
    ensures ok { IfOk result (λ cells. (cells.left ≡ left) × (cells.right ≡ right) × (x_in cells.x ≡ x) × (cells.y.value ≡ y)) }
    ensures err { IfErr result (λ why. Answers {A = List ℕ} (meant_frame left right x y) (Err why)) }
{
    match Arguments::of(alloc, room, left, right, x, y) {
        Ok(cells) => Ok(cells),
        Err(Trouble::Fault(fault)) => Err(EvalEnd::Fault(fault)),
        Err(Trouble::NoMemory) => Err(NO_MEMORY),
    }
}

/// The results of the cells of a frame in one array.
pub(crate) fn finished(results: Results, frame: &Shape) -> Result<Datum, EvalEnd>
    requires { AreResults frame.now results }
    ensures { Answers (assembled frame.now results) result }
{
    match results.finish(frame) {
        Ok(tree) => Ok(Datum::of(Array::of(tree))),
        Err(Trouble::Fault(fault)) => Err(EvalEnd::Fault(fault)),
        Err(Trouble::NoMemory) => Err(NO_MEMORY),
    }
}

// The result that a frame with a 0 has from this value.
fn of_value(alloc: Global, room: &mut Room, frame: &Shape, value: Datum) -> Result<Datum, EvalEnd>
    requires { product frame.now ≡ 0 }
    ensures { Answers (assembled frame.now (value ∷ [])) result }
{
    let mut results = Results::new(alloc);
    match results.push(room, value.into_array()) {
        Ok(()) => finished(results, frame),
        Err(NoMemory) => Err(NO_MEMORY),
    }
}

/// The result where the frame has a 0, from the answer for cells of fills.
pub(crate) fn alone(
    alloc: Global,
    room: &mut Room,
    frame: &Shape,
    answer: Result<Datum, Fault>,
) -> Result<Datum, EvalEnd>
    requires { product frame.now ≡ 0 }
    ensures { Answers (alone_of frame.now answer) result }
{
    match answer {
        Ok(value) => of_value(alloc, room, frame, value),
        Err(Fault::TimeLimit) => Err(EvalEnd::Fault(Fault::TimeLimit)),
        Err(_) => of_value(alloc, room, frame, Datum::of(Array::atom(0))),
    }
}
