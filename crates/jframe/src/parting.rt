//! Parting an array into cells.

ghost use Rattle.std.specs.Prelude.{◌≡◌, ◌++◌, IfOk};
ghost use Rattle.jdata.specs.Noun.{shape};
ghost use Rattle.jframe.specs.Cells.{parted, filled_cell, fills};

use crate::parted::Cells;
use jarray::{Array, Room};
use jdata::{Kind, NoMemory, Tree, Trouble, filled};
use jshape::Shape;
use std::alloc::Global;

/// The cells of an array at a rank: a negative rank counts axes of the frame, and without a rank
/// the whole array is one cell.
pub fn cells(alloc: Global, room: &Room, y: &Array, rank: Option<i64>) -> Result<Cells, NoMemory>
    ensures parted { IfOk result (λ cells. cells ≡ parted rank (shape y.now.noun)) }
    ensures whole { IfOk result (λ cells. shape y.now.noun ≡ cells.frame ++ cells.cell) }
{
    let shape = shape_of(alloc, room, y)?;
    let frame = shape.frame(alloc, rank)?;
    let cell = shape.cell(alloc, rank)?;
    Ok(Cells::of(frame, cell))
}

/// A cell of fills: of the shape of the cells of an array at a rank, and of its kind.
pub fn fill_cell(alloc: Global, room: &Room, y: &Array, rank: Option<i64>) -> Result<Tree, NoMemory>
    ensures { IfOk result (λ t. t ≡ filled_cell rank y.now.noun) }
{
    let shape = shape_of(alloc, room, y)?;
    let cell = shape.cell(alloc, rank)?;
    fills(alloc, &cell, y.kind(room))
}

/// An array of fills.
fn fills(alloc: Global, shape: &Shape, kind: Kind) -> Result<Tree, NoMemory>
    ensures { IfOk result (λ t. t ≡ fills shape.now kind) }
{
    let axes = Vec::from_slice(alloc, shape.axes())?;
    let atoms = filled(alloc, kind, shape.product())?;
    match Tree::new(axes, atoms) {
        Ok(array) => Ok(array),
        Err(_) => unreachable!(),
    }
}

fn shape_of(alloc: Global, room: &Room, y: &Array) -> Result<Shape, NoMemory>
    ensures { IfOk result (λ s. s ≡ shape y.now.noun) }
{
    match Shape::new(alloc, y.shape(room)) {
        Ok(shape) => Ok(shape),
        Err(Trouble::NoMemory) => Err(NoMemory),
        Err(Trouble::Fault(_)) => unreachable!(),
    }
}
