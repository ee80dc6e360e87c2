//! `{`, whose right argument is only looked at.

ghost use Rattle.std.specs.Prelude.{◌≡◌, ◌++◌, pos, map, Some, None, IfSome};
ghost use Rattle.std.specs.List.{range_with_len};
ghost use Rattle.jarray.specs.Placed.{Gives};
ghost use Rattle.jdata.specs.Answers.{Answers};
ghost use Rattle.jdata.specs.Firsts.{all_or_first};
ghost use Rattle.jdata.specs.Noun.{shape, product};
ghost use Rattle.jframe.specs.Assembly.{assembled, AreResults};
ghost use Rattle.jframe.specs.Cells.{nth_cell};
ghost use Rattle.jframe.specs.Ranks as ranks;
ghost use Rattle.jselect.specs.From as choosing;

use crate::dyads::Selected;
use jarray::{Array, Room};
use jdata::{NoMemory, Trouble};
use jframe::{Cells, Results, at_ranks, cells};
use jselect::{from_among, items_named};
use jshape::Shape;
use std::alloc::Global;

/// What each atom of `x` names in `y`, which isn't copied for it.
pub fn from_each(alloc: Global, room: &mut Room, x: Array, y: Array) -> Result<Array, Trouble>
    ensures { Gives (ranks.at_ranks (Some (pos 0)) None choosing.selected x.noun y.noun) result }
{
    match items_each(alloc, room, &x, &y) {
        Some(answer) => {
            x.done(room);
            y.done(room);
            answer
        }
        None => cells_each(alloc, room, x, y),
    }
}

/// The items that the integers of `x` name, where it has some: they are known without a cell for each.
fn items_each(alloc: Global, room: &Room, x: &Array, y: &Array) -> Option<Result<Array, Trouble>>
    ensures { IfSome result (λ r. Gives (ranks.at_ranks (Some (pos 0)) None choosing.selected x.now.noun y.now.noun) r) }
{
    let numbers = x.numbers(room)?;
    if numbers.is_empty() {
        return None;
    }
    // as an array it has its items
    let _shape = y.shape(room);
    match items_named(alloc, room, x.shape(room), numbers, y) {
        Ok(tree) => Some(Ok(Array::of(tree))),
        Err(trouble) => Some(Err(trouble)),
    }
}

/// What each atom names, one after another.
fn cells_each(alloc: Global, room: &mut Room, x: Array, y: Array) -> Result<Array, Trouble>
    ensures { Gives (ranks.at_ranks (Some (pos 0)) None choosing.selected x.noun y.noun) result }
{
    let cells = match cells(alloc, room, &x, Some(0)) {
        Ok(cells) => cells,
        Err(NoMemory) => return Err(Trouble::NoMemory),
    };
    if cells.count() == 0 {
        return at_ranks::<Selected>(alloc, room, Some(0), None, x, y);
    }
    // as an array it is its only cell
    let _shape = y.shape(room);
    match look(alloc, room, &cells, &x, &y) {
        Ok(results) => finished(results, cells.frame()),
        Err(trouble) => Err(trouble),
    }
}

/// What each cell names, up to the first fault.
fn look(
    alloc: Global,
    room: &mut Room,
    cells: &Cells,
    x: &Array,
    y: &Array,
) -> Result<Results, Trouble>
    requires { shape x.now.noun ≡ cells.now.frame ++ cells.now.cell }
    ensures { Answers (all_or_first (map (λ i. choosing.selected (nth_cell cells.now.cell x.now.noun i) y.now.noun) (range_with_len 0 (product cells.now.frame)))) result }
{
    // a frame has no more cells than the limit says
    let _axes = cells.frame().axes();
    let mut results = Results::new(alloc);
    for at in 0..cells.count() {
        let cell = match cells.get(alloc, room, x, at) {
            Ok(cell) => cell,
            Err(NoMemory) => return Err(Trouble::NoMemory),
        };
        let value = match from_among(alloc, room, cell, y) {
            Ok(value) => value,
            Err(trouble) => return Err(trouble),
        };
        match results.push(room, value) {
            Ok(()) => {}
            Err(NoMemory) => return Err(Trouble::NoMemory),
        }
    }
    Ok(results)
}

fn finished(results: Results, frame: &Shape) -> Result<Array, Trouble>
    requires { AreResults frame.now results }
    ensures { Gives (assembled frame.now results) result }
{
    match results.finish(frame) {
        Ok(tree) => Ok(Array::of(tree)),
        Err(trouble) => Err(trouble),
    }
}
