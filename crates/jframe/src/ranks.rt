//! Verbs at their ranks.

ghost use Rattle.std.specs.Prelude.{◌≡◌, ◌++◌, ◌∷◌, [], List, map, Result, max};
ghost use Rattle.std.specs.List.{range_with_len};
ghost use Rattle.jdata.specs.Answers.{Answers};
ghost use Rattle.jdata.specs.Firsts.{all_or_first, and_then};
ghost use Rattle.jdata.specs.Noun.{shape, product};
ghost use Rattle.jdata.specs.declared.fault.Fault.{Fault as FaultSeen};
ghost use Rattle.jdata.specs.declared.noun.Noun.{Noun};
ghost use Rattle.jarray.specs.Placed.{Gives};
ghost use Rattle.jframe.specs.Assembly.{assembled, AreResults};
ghost use Rattle.jframe.specs.Cells.{nth_cell};
ghost use Rattle.jframe.specs.Ranks as ranks;

use crate::parted::Cells;
use crate::parting::{cells, fill_cell};
use crate::results::Results;
use jarray::{Array, Room};
use jdata::{Fault, NoMemory, Trouble};
use jshape::Shape;
use std::alloc::Global;

/// A verb on one whole array: an impl is its kernel.
pub trait WholeMonad {
    /// What it gives of a noun.
    ghost meant: { Noun → Result Noun FaultSeen };

    fn apply(alloc: Global, room: &mut Room, y: Array) -> Result<Array, Trouble>
        ensures { Gives (meant y.noun) result };
}

/// The verb on each cell of a rank, the results assembled. Where the frame has a 0, the verb is
/// applied once to the cell of fills, for the shape and the kind.
pub fn at_rank<V: WholeMonad>(
    alloc: Global,
    room: &mut Room,
    rank: Option<i64>,
    y: Array,
) -> Result<Array, Trouble>
    ensures { Gives (ranks.at_rank rank V.meant y.noun) result }
{
    let cells = match cells(alloc, room, &y, rank) {
        Ok(cells) => cells,
        Err(NoMemory) => return Err(Trouble::NoMemory),
    };
    if cells.count() == 0 {
        let fills = match fill_cell(alloc, room, &y, rank) {
            Ok(fills) => fills,
            Err(NoMemory) => return Err(Trouble::NoMemory),
        };
        y.done(room);
        let answer = V::apply(alloc, room, Array::of(fills));
        return for_shape(alloc, room, cells.frame(), answer);
    }
    match each_cell::<V>(alloc, room, &cells, &y) {
        Ok(results) => finished(results, cells.frame()),
        Err(trouble) => Err(trouble),
    }
}

/// What the verb gives of each cell, up to the first fault.
fn each_cell<V: WholeMonad>(
    alloc: Global,
    room: &mut Room,
    cells: &Cells,
    y: &Array,
) -> Result<Results, Trouble>
    requires { shape y.now.noun ≡ cells.now.frame ++ cells.now.cell }
    ensures { Answers (all_or_first (map (λ i. V.meant (nth_cell cells.now.cell y.now.noun i)) (range_with_len 0 (product cells.now.frame)))) result }
{
    // a frame has no more cells than the limit says
    let _axes = cells.frame().axes();
    let mut results = Results::new(alloc);
    for at in 0..cells.count() {
        let cell = match cells.get(alloc, room, y, at) {
            Ok(cell) => cell,
            Err(NoMemory) => return Err(Trouble::NoMemory),
        };
        let value = match V::apply(alloc, room, cell) {
            Ok(value) => value,
            Err(trouble) => return Err(trouble),
        };
        match results.push(room, value) {
            Ok(()) => {}
            Err(NoMemory) => return Err(Trouble::NoMemory),
        }
    }
    Ok(results)
}

pub fn finished(results: Results, frame: &Shape) -> Result<Array, Trouble>
    requires { AreResults frame.now results }
    ensures { Gives (assembled frame.now results) result }
{
    match results.finish(frame) {
        Ok(tree) => Ok(Array::of(tree)),
        Err(trouble) => Err(trouble),
    }
}

/// The array of a frame with a 0, from what the verb gave of the cell of fills.
pub fn for_shape(
    alloc: Global,
    room: &mut Room,
    frame: &Shape,
    answer: Result<Array, Trouble>,
) -> Result<Array, Trouble>
    requires { product frame.now ≡ 0 }
    ensures { (meant : Result Noun FaultSeen) → Gives meant answer → Gives (and_then (ranks.for_shape meant) (λ v. assembled frame.now (v ∷ []))) result }
{
    match answer {
        Ok(value) => alone(alloc, room, frame, value),
        Err(Trouble::NoMemory) => Err(Trouble::NoMemory),
        Err(Trouble::Fault(Fault::TimeLimit)) => Err(Trouble::Fault(Fault::TimeLimit)),
        Err(Trouble::Fault(_)) => alone(alloc, room, frame, Array::atom(0)),
    }
}

/// One result, assembled.
fn alone(alloc: Global, room: &mut Room, frame: &Shape, value: Array) -> Result<Array, Trouble>
    requires { product frame.now ≡ 0 }
    ensures { Gives (assembled frame.now (value.noun ∷ [])) result }
{
    let mut results = Results::new(alloc);
    match results.push(room, value) {
        Ok(()) => finished(results, frame),
        Err(NoMemory) => Err(Trouble::NoMemory),
    }
}
