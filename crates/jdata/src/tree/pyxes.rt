ghost use Rattle.std.specs.Prelude.{◌≡◌, ◌<◌, ◌≤◌, None, IsSome, IfSome, IfOk, IfErr, length, map, take, slice_get};
ghost use Rattle.jdata.specs.Limits.{most_levels};
ghost use Rattle.jdata.specs.Noun.{level, atom_level, greatest};
ghost use Rattle.jdata.specs.Pyxes.{first_pyx, atom_pyx, first_some, opened, opened_atom, opened_atoms};
ghost use Rattle.jdata.specs.Trees.{atom_of};

use crate::fault::Fault;
use crate::measure::{MAX_LEVEL, greatest_level};
use crate::path::{Path, PyxId};
use crate::tree::{Cell, CellList, Leaves, Tree};

impl Tree {
    /// The first pyx in ravel order, the contents of boxes included.
    #[cycle(pyxes)]
    pub fn first_pyx(&self) -> Option<PyxId>
        ensures { result ≡ first_pyx self.now }
    {
        match &self.leaves {
            Leaves::Int(_) => None,
            Leaves::Char(_) => None,
            Leaves::Cell(cells) => first_of(cells.items()),
        }
    }
}

impl Cell {
    /// The pyx that it is, or the first in its content.
    #[cycle(pyxes)]
    pub fn first_pyx(&self) -> Option<PyxId>
        ensures { result ≡ atom_pyx (atom_of self.now) }
    {
        match self {
            Cell::Boxed(content) => content.first_pyx(),
            Cell::Pyx(name) => Some(*name),
        }
    }
}

#[cycle(pyxes)]
fn first_of(cells: &[Cell]) -> Option<PyxId>
    ensures { result ≡ first_some (map atom_pyx (map atom_of cells.now)) }
{
    for cell in cells {
        if let Some(name) = cell.first_pyx() {
            return Some(name);
        }
    }
    None
}

impl Tree {
    /// The array with its first pyx replaced by a box with this value: the limit is passed where
    /// boxes would be nested more than 64 levels deep.
    #[cycle(opening)]
    pub fn open_first(self, value: Tree) -> Result<Tree, Fault>
        requires { IsSome (first_pyx self) }
        ensures ok { IfOk result (λ t. (t ≡ opened value self) × (level t ≤ most_levels)) }
        ensures limit { IfErr result (λ f. (f ≡ Fault.Limit) × (most_levels < level (opened value self))) }
    {
        let Tree {
            axes,
            leaves,
            depth: _,
        } = self;
        match leaves {
            Leaves::Int(_) => unreachable!(),
            Leaves::Char(_) => unreachable!(),
            Leaves::Cell(cells) => {
                let cells = open_cells(cells, value)?;
                let depth = greatest_level(cells.items());
                if depth > MAX_LEVEL {
                    return Err(Fault::Limit);
                }
                Ok(Tree {
                    axes,
                    leaves: Leaves::Cell(cells),
                    depth,
                })
            }
        }
    }
}

impl Cell {
    #[cycle(opening)]
    fn open_first(self, value: Tree) -> Result<Cell, Fault>
        requires { IsSome (atom_pyx (atom_of self)) }
        ensures ok { IfOk result (λ c. atom_of c ≡ opened_atom value (atom_of self)) }
        ensures limit { IfErr result (λ f. (f ≡ Fault.Limit) × (most_levels < atom_level (opened_atom value (atom_of self)))) }
    {
        match self {
            Cell::Boxed(content) => Ok(Cell::Boxed(content.open_first(value)?)),
            Cell::Pyx(_) => Ok(Cell::Boxed(value)),
        }
    }
}

#[cycle(opening)]
fn open_cells(mut cells: CellList, value: Tree) -> Result<CellList, Fault>
    requires { IsSome (first_some (map atom_pyx (map atom_of cells))) }
    ensures ok { IfOk result (λ l. map atom_of l ≡ opened_atoms value (map atom_of cells)) }
    ensures limit { IfErr result (λ f. (f ≡ Fault.Limit) × (most_levels < greatest (map atom_level (opened_atoms value (map atom_of cells))))) }
{
    let at = place_of_pyx(cells.items());
    let nothing = Cell::Pyx(PyxId {
        path: Path::main(),
        number: 0,
    });
    let cell = cells.replace(at, nothing);
    let opened = cell.open_first(value)?;
    let _nothing = cells.replace(at, opened);
    Ok(cells)
}

// where the first cell with a pyx stands
fn place_of_pyx(cells: &[Cell]) -> usize
    requires { IsSome (first_some (map atom_pyx (map atom_of cells.now))) }
    ensures within { result < length cells.now }
    ensures found { IfSome (slice_get cells.now result) (λ c. IsSome (atom_pyx (atom_of c))) }
    ensures before { first_some (map atom_pyx (map atom_of (take result cells.now))) ≡ None }
{
    for (at, cell) in cells.iter().enumerate() {
        if cell.first_pyx().is_some() {
            return at;
        }
    }
    unreachable!()
}
