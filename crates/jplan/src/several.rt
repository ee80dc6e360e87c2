//! A verb applied several times, with the results in one array.
ghost use Rattle.std.specs.Prelude.{◌≡◌, ◌≢◌, ◌≤◌, ◌-◌, ◌+◌, ◌++◌, ◌∷◌, [], IfOk, length};
ghost use Rattle.jdata.specs.Noun.{product};
ghost use Rattle.jframe.specs.Assembly.{assembled, AreResults};
ghost use Rattle.juses.specs.Program.{Return, Ask};
ghost use Rattle.jplan.specs.Derivations.{on, on_value};
ghost use Rattle.jplan.specs.Plans as plans;
ghost use Rattle.jplan.specs.Several as meant;

use crate::arguments::Arguments;
use crate::counted::{Counted, Nowhere};
use crate::parts::Parts;
use crate::plan::{After, Plan};
use crate::series::Series;
use jarray::{Array, Room};
use jcut::Pieces;
use jdata::{Fault, NoMemory, Tree, Trouble};
use jframe::Results;
use jshape::Shape;
use jterm::{Datum, Term};
use std::alloc::Global;

/// An answer as the end of a plan.
pub(crate) fn done<'a>(answer: Result<Tree, Trouble>) -> Result<Plan<'a>, NoMemory>
    ensures { plans.Ends answer result }
{
    match answer {
        Ok(value) => Ok(Plan::Done(Ok(Datum::of(Array::of(value))))),
        Err(Trouble::Fault(fault)) => Ok(Plan::Done(Err(fault))),
        Err(Trouble::NoMemory) => Err(NoMemory),
    }
}

// The results of all applications in one array.
fn joined<'a>(parts: Parts, results: Results) -> Result<Plan<'a>, NoMemory>
    requires { AreResults (meant.several_of parts).frame results }
    ensures rest { IfOk result (λ plan. plans.rest plan ≡ Return (assembled (meant.several_of parts).frame results)) }
    ensures left { IfOk result (λ plan. plans.left_of plan ≡ 0) }
{
    let frame = parts.into_frame();
    done(results.finish(&frame))
}

// A verb on its arguments, whose value is the next of the results.
fn awaiting<'a>(
    alloc: Global,
    verb: &'a Term,
    x: Option<Datum>,
    y: Datum,
    series: Series,
) -> Result<Plan<'a>, NoMemory>
    ensures rest { IfOk result (λ plan. plans.rest plan ≡ Ask (on verb.now x y) (on_value (λ value. meant.from_on verb.now (meant.several_of series.parts) (series.at + 1) (series.results ++ value ∷ [])))) }
    ensures left { IfOk result (λ plan. plans.left_of plan ≡ product (meant.several_of series.parts).frame - (series.at + 1) + 1) }
{
    let series = Box::new(alloc, series)?;
    Ok(Plan::Apply {
        verb,
        x,
        y,
        after: After::Each { verb, series },
    })
}

// The applications from one on, behind the results of those before.
fn go_on<'a>(
    alloc: Global,
    room: &Room,
    verb: &'a Term,
    parts: Parts,
    at: u64,
    results: Results,
) -> Result<Plan<'a>, NoMemory>
    requires so_far { length results ≡ at }
    requires within { at ≤ product (meant.several_of parts).frame }
    requires some { product (meant.several_of parts).frame ≢ 0 }
    ensures rest { IfOk result (λ plan. plans.rest plan ≡ meant.from_on verb.now (meant.several_of parts) at results) }
    ensures left { IfOk result (λ plan. plans.left_of plan ≤ product (meant.several_of parts).frame - at) }
{
    if at == parts.frame().product() {
        return joined(parts, results);
    }
    let (x, y) = parts.get(alloc, room, at)?;
    awaiting(alloc, verb, x, y, Series { parts, at, results })
}

impl Series {
    /// What is left once the application that is waited for gave this value.
    pub(crate) fn resume<'a>(
        self,
        alloc: Global,
        room: &mut Room,
        verb: &'a Term,
        value: Datum,
    ) -> Result<Plan<'a>, NoMemory>
        ensures rest { IfOk result (λ plan. plans.rest plan ≡ meant.from_on verb.now (meant.several_of self.parts) (self.at + 1) (self.results ++ value ∷ [])) }
        ensures left { IfOk result (λ plan. plans.left_of plan ≤ product (meant.several_of self.parts).frame - (self.at + 1)) }
    {
        // a frame has no more cells than the limit says
        let _axes = self.parts.frame().axes();
        let Series {
            parts,
            at,
            mut results,
        } = self;
        results.push(room, value.into_array())?;
        go_on(alloc, room, verb, parts, at + 1, results)
    }
}

// A verb on each of its parts.
fn several<'a>(
    alloc: Global,
    room: &Room,
    verb: &'a Term,
    parts: Parts,
) -> Result<Plan<'a>, NoMemory>
    ensures { IfOk result (λ plan. plans.rest plan ≡ meant.several verb.now (meant.several_of parts)) }
{
    if parts.frame().product() == 0 {
        let (x, y) = parts.none(alloc, room)?;
        return Ok(Plan::Apply {
            verb,
            x,
            y,
            after: After::Alone(Nowhere {
                frame: parts.into_frame(),
            }),
        });
    }
    go_on(alloc, room, verb, parts, 0, Results::new(alloc))
}

/// A verb on the cells of its arguments, which are no application of their own.
pub(crate) fn several_cells<'a>(
    alloc: Global,
    room: &Room,
    verb: &'a Term,
    left: Option<i64>,
    right: Option<i64>,
    x: Option<Datum>,
    y: Datum,
) -> Result<Plan<'a>, NoMemory>
    ensures { IfOk result (λ plan. plans.rest plan ≡ meant.several_cells verb.now left right x y) }
{
    match Arguments::of(alloc, room, left, right, x, y) {
        Ok(cells) => several(alloc, room, verb, Parts::Cells(cells)),
        Err(Trouble::Fault(fault)) => Ok(Plan::Done(Err(fault))),
        Err(Trouble::NoMemory) => Err(NoMemory),
    }
}

/// A verb on each piece of an array.
pub(crate) fn several_pieces<'a>(
    alloc: Global,
    room: &Room,
    verb: &'a Term,
    pieces: Pieces,
) -> Result<Plan<'a>, NoMemory>
    ensures { IfOk result (λ plan. plans.rest plan ≡ meant.several_pieces verb.now pieces) }
{
    match Shape::new(alloc, &[pieces.count() as u64]) {
        Ok(frame) => several(alloc, room, verb, Parts::Pieces(Counted { pieces, frame })),
        Err(Trouble::Fault(fault)) => Ok(Plan::Done(Err(fault))),
        Err(Trouble::NoMemory) => Err(NoMemory),
    }
}

// The one result of a frame with a 0.
fn of_one<'a>(
    alloc: Global,
    room: &mut Room,
    none: &Nowhere,
    value: Array,
) -> Result<Plan<'a>, NoMemory>
    ensures rest { IfOk result (λ plan. plans.rest plan ≡ Return (assembled none.now.frame (value.noun ∷ []))) }
    ensures left { IfOk result (λ plan. plans.left_of plan ≡ 0) }
{
    let mut results = Results::new(alloc);
    results.push(room, value)?;
    done(results.finish(&none.frame))
}

/// The plan that is done with the one result of a frame with a 0, from the answer for no items.
pub(crate) fn alone<'a>(
    alloc: Global,
    room: &mut Room,
    none: &Nowhere,
    answer: Result<Datum, Fault>,
) -> Result<Plan<'a>, NoMemory>
    ensures rest { IfOk result (λ plan. plans.rest plan ≡ Return (meant.alone none.now.frame answer)) }
    ensures left { IfOk result (λ plan. plans.left_of plan ≡ 0) }
{
    match answer {
        Ok(value) => of_one(alloc, room, none, value.into_array()),
        Err(Fault::TimeLimit) => Ok(Plan::Done(Err(Fault::TimeLimit))),
        Err(_) => of_one(alloc, room, none, Array::atom(0)),
    }
}
