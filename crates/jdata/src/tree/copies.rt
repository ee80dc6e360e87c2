ghost use Rattle.std.specs.Prelude.{◌≡◌, IfOk};

use crate::fault::NoMemory;
use crate::sequence::Sequence;
use crate::tree::{Cell, Leaves, Tree};
use std::alloc::Global;

impl Tree {
    /// An array equal to this one, in memory of its own.
    #[cycle(copies)]
    pub fn copy(&self, alloc: Global) -> Result<Tree, NoMemory>
        ensures { IfOk result (λ t. t ≡ self.now) }
    {
        Ok(Tree {
            axes: self.axes.copy(alloc)?,
            leaves: self.leaves.copy(alloc)?,
            depth: self.depth,
        })
    }
}

impl Leaves {
    /// Atoms equal to these, in memory of their own.
    #[cycle(copies)]
    pub fn copy(&self, alloc: Global) -> Result<Leaves, NoMemory>
        ensures { IfOk result (λ l. l ≡ self.now) }
    {
        match self {
            Leaves::Int(numbers) => Ok(Leaves::Int(numbers.copy(alloc)?)),
            Leaves::Char(bytes) => Ok(Leaves::Char(bytes.copy(alloc)?)),
            Leaves::Cell(cells) => Ok(Leaves::Cell(copy_cells(alloc, cells.items())?)),
        }
    }
}

impl Cell {
    /// A cell equal to this one, in memory of its own.
    #[cycle(copies)]
    pub fn copy(&self, alloc: Global) -> Result<Cell, NoMemory>
        ensures { IfOk result (λ c. c ≡ self.now) }
    {
        match self {
            Cell::Boxed(content) => Ok(Cell::Boxed(content.copy(alloc)?)),
            Cell::Pyx(name) => Ok(Cell::Pyx(*name)),
        }
    }
}

#[cycle(copies)]
fn copy_cells(alloc: Global, cells: &[Cell]) -> Result<Sequence<Cell>, NoMemory>
    ensures { IfOk result (λ l. l ≡ cells.now) }
{
    let mut copies = Vec::with_capacity(alloc, cells.len())?;
    for cell in cells {
        copies.push(cell.copy(alloc)?)?;
    }
    Ok(Sequence::of(copies))
}
