//! `}`: items or a cell of an array replaced.

ghost use Rattle.std.specs.Prelude.{◌≡◌, ◌⊎◌, ◌*◌, ◌<◌, true, IfOk, length};
ghost use Rattle.std.specs.List.{All};
ghost use Rattle.jdata.specs.Answers.{Answers};
ghost use Rattle.jdata.specs.Limits.{IsArray};
ghost use Rattle.jdata.specs.Noun.{atoms, product};
ghost use Rattle.jarray.specs.Placed.{Gives};
ghost use Rattle.jamend.specs.Amended as meant;
ghost use Rattle.jamend.specs.Replacing.{Divides};

use crate::checks::{kinds_agree, shape_fault};
use crate::naming::{cell_numbers, integers_of};
use crate::replacing::{Cells, replaced};
use jarray::{Array, Room};
use jdata::{Fault, NoMemory, Tree, Trouble, product_of};
use jselect::{array, both_axes, cell_number, further_axes, item_count, places_of};
use std::alloc::Global;
use std::slice;

/// `y` with `x` for what `at` names: for the item that each integer names, or for the cell that the
/// integers in a box name, one for each axis from the first; negative ones count from the end. The
/// axes of `x` are the last ones of those of `at` before an item's, or of the cell's. Where something
/// is named twice, the later one counts. Faults: Nonce, Domain, Length (more integers than axes),
/// Rank, Length, Index.
pub fn amend(
    alloc: Global,
    room: &mut Room,
    x: Array,
    at: &Tree,
    y: Array,
) -> Result<Array, Trouble>
    ensures { Gives (meant.amended x.noun at.now y.noun) result }
{
    let whole = amended(alloc, room, &x, at, &y);
    x.done(room);
    y.done(room);
    match whole {
        Ok(tree) => Ok(Array::of(tree)),
        Err(trouble) => Err(trouble),
    }
}

fn amended(alloc: Global, room: &Room, x: &Array, at: &Tree, y: &Array) -> Result<Tree, Trouble>
    ensures { Answers (meant.amended x.now.noun at.now y.now.noun) result }
{
    let axes = at.shape();
    if let Some(numbers) = integers_of(at) {
        return items_amended(alloc, room, x, axes, numbers, y);
    }
    match cell_numbers(axes, at.leaf()) {
        Ok(numbers) => cell_amended(alloc, room, x, numbers, y),
        Err(fault) => Err(Trouble::Fault(fault)),
    }
}

/// `x` for the items that the numbers name, in these axes.
fn items_amended(
    alloc: Global,
    room: &Room,
    x: &Array,
    axes: &[u64],
    numbers: &[i64],
    y: &Array,
) -> Result<Tree, Trouble>
    requires { length numbers.now ≡ product axes.now }
    ensures { Answers (meant.items_amended x.now.noun axes.now numbers.now y.now.noun) result }
{
    if !kinds_agree(x.leaf(room), y.leaf(room)) {
        return Err(Trouble::Fault(Fault::Domain));
    }
    let item = further_axes(y.shape(room));
    let target = both_axes(alloc, axes, item)?;
    if let Some(fault) = shape_fault(target.as_slice(), x.shape(room)) {
        return Err(Trouble::Fault(fault));
    }
    let count = item_count(room, y);
    let places = match places_of(alloc, count, numbers) {
        Ok(places) => places,
        Err(trouble) => return Err(trouble),
    };
    let cells = Cells {
        numbers: places.items(),
        size: product_of(item) as usize,
        count: count as usize,
    };
    with_cells(alloc, room, x, cells, y)
}

/// `x` for the cell that the numbers name.
fn cell_amended(
    alloc: Global,
    room: &Room,
    x: &Array,
    numbers: &[i64],
    y: &Array,
) -> Result<Tree, Trouble>
    ensures { Answers (meant.cell_amended x.now.noun numbers.now y.now.noun) result }
{
    if !kinds_agree(x.leaf(room), y.leaf(room)) {
        return Err(Trouble::Fault(Fault::Domain));
    }
    let axes = y.shape(room);
    if numbers.len() > axes.len() {
        return Err(Trouble::Fault(Fault::Length));
    }
    let (frame, cell) = axes.split_at(numbers.len());
    if let Some(fault) = shape_fault(cell, x.shape(room)) {
        return Err(Trouble::Fault(fault));
    }
    let number = match cell_number(axes, numbers) {
        Ok(number) => number,
        Err(fault) => return Err(Trouble::Fault(fault)),
    };
    let cells = Cells {
        numbers: slice::from_ref(&number),
        size: product_of(cell) as usize,
        count: product_of(frame) as usize,
    };
    with_cells(alloc, room, x, cells, y)
}

/// `y` with `x` for the cells.
fn with_cells(
    alloc: Global,
    room: &Room,
    x: &Array,
    cells: Cells<'_>,
    y: &Array,
) -> Result<Tree, Trouble>
    requires new { IsArray x.now.noun }
    requires old { IsArray y.now.noun }
    requires kind { meant.kinds_agree x.now.noun y.now.noun ≡ true }
    requires whole { length (atoms y.now.noun) ≡ cells.count * cells.size }
    requires within { All (λ n. n < cells.count) cells.numbers.now }
    requires some { 0 < length cells.numbers.now * cells.size → 0 < length (atoms x.now.noun) }
    requires parts { Divides cells.size (length (atoms x.now.noun)) ⊎ Divides (length (atoms x.now.noun)) cells.size }
    ensures { Answers (Ok (meant.with_cells x.now.noun y.now.noun cells.entry.size cells.entry.numbers.now)) result }
{
    let items = x.leaf(room);
    if items.len() == 0 || y.leaf(room).len() == 0 {
        return Ok(y.tree(alloc, room)?);
    }
    let leaves = replaced(alloc, items, y.leaf(room), cells)?;
    let shape = Vec::from_slice(alloc, y.shape(room))?;
    Ok(array(shape, leaves))
}
