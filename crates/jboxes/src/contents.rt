//! What stands in boxes.

ghost use Rattle.std.specs.Prelude.{◌≡◌, IfOk, map};
ghost use Rattle.jdata.specs.Trees.{atom_of, kind_of, atoms_of};
ghost use Rattle.jdata.specs.declared.noun.Kind.TheVariants as sort;
ghost use Rattle.jboxes.specs.Monads as meant;

use crate::made::no_content;
use jdata::{Cell, Leaves, NoMemory, Tree};
use std::alloc::Global;

/// The contents of boxes, which are moved out; where there is no box, the one of no box.
pub fn results(alloc: Global, boxes: Leaves) -> Result<Vec<Tree>, NoMemory>
    requires { kind_of boxes ≡ sort.Boxed }
    ensures { IfOk result (λ trees. trees.items ≡ meant.results (atoms_of boxes)) }
{
    match boxes {
        Leaves::Cell(cells) => results_of(alloc, cells.into_items()),
        _ => unreachable!(),
    }
}

fn results_of(alloc: Global, cells: Vec<Cell>) -> Result<Vec<Tree>, NoMemory>
    ensures { IfOk result (λ trees. trees.items ≡ meant.results (map atom_of cells.items)) }
{
    if cells.is_empty() {
        let mut none = Vec::new(alloc);
        none.push(no_content(alloc)?)?;
        return Ok(none);
    }
    contents(alloc, cells)
}

/// The contents of boxes, which are moved out.
pub fn contents_of(alloc: Global, boxes: Leaves) -> Result<Vec<Tree>, NoMemory>
    requires { kind_of boxes ≡ sort.Boxed }
    ensures { IfOk result (λ trees. trees.items ≡ map meant.content_of (atoms_of boxes)) }
{
    match boxes {
        Leaves::Cell(cells) => contents(alloc, cells.into_items()),
        _ => unreachable!(),
    }
}

fn contents(alloc: Global, cells: Vec<Cell>) -> Result<Vec<Tree>, NoMemory>
    ensures { IfOk result (λ trees. trees.items ≡ map meant.content_of (map atom_of cells.items)) }
{
    let mut trees = Vec::with_capacity(alloc, cells.len())?;
    for cell in cells {
        trees.push(content(alloc, cell)?)?;
    }
    Ok(trees)
}

fn content(alloc: Global, cell: Cell) -> Result<Tree, NoMemory>
    ensures { IfOk result (λ tree. tree ≡ meant.content_of (atom_of cell)) }
{
    match cell {
        Cell::Boxed(tree) => Ok(tree),
        Cell::Pyx(_) => no_content(alloc),
    }
}
