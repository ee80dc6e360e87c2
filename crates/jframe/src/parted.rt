//! The cells of an array.

ghost use Rattle.std.specs.Prelude.{◌≡◌, ◌<◌, ◌≤◌, ◌+◌, ◌++◌, IfOk, length, map, take, drop, pos, slice_index_or};
ghost use Rattle.jdata.specs.Leaf.{kind_in, atoms_in};
ghost use Rattle.jdata.specs.Limits.{most_levels, IsShape};
ghost use Rattle.jdata.specs.Noun.{noun, shape, product, greatest, atom_level, int_atom};
ghost use Rattle.jarray.specs.Placed.{own};
ghost use Rattle.jframe.specs.Cells.{nth_cell};

use jarray::{Array, Room};
use jdata::{Leaf, NoMemory, Tree, copy_range};
use jshape::Shape;
use std::alloc::Global;
use std::marker::Model;

/// How an array is parted into cells: the frame, and the shape of each cell.
#[derive(Debug, Drop)]
pub struct Cells {
    frame: Shape,
    cell: Shape,
}

impl Model for Cells {
    ghost use Rattle.jframe.specs.Cells.{Parted};

    ghost Value = { Parted };

    ghost view = { λ s. record { frame = s.frame; cell = s.cell } };
}

impl Cells {
    pub(crate) fn of(frame: Shape, cell: Shape) -> Cells
        ensures { result ≡ record { frame = frame; cell = cell } }
    {
        Cells { frame, cell }
    }

    /// The axes along which the cells stand.
    pub fn frame(&self) -> &Shape
        ensures { result.now ≡ self.now.frame }
    {
        &self.frame
    }

    /// How many cells there are.
    pub fn count(&self) -> u64
        ensures { result ≡ product self.now.frame }
    {
        self.frame.product()
    }

    /// Cell `at` in ravel order of an array of the shape that was parted. An integer that stands
    /// alone takes no memory.
    pub fn get(&self, alloc: Global, room: &Room, y: &Array, at: u64) -> Result<Array, NoMemory>
        requires within { at < product self.now.frame }
        requires parted { shape y.now.noun ≡ self.now.frame ++ self.now.cell }
        ensures { IfOk result (λ a. a ≡ own (nth_cell self.now.cell y.now.noun at)) }
    {
        let count = self.cell.product();
        // as an array it has all the atoms of its shape
        let _shape = y.shape(room);
        match (self.cell.axes(), y.leaf(room)) {
            ([], Leaf::Int(numbers)) => Ok(number_at(numbers, at)),
            (cell, leaf) => match cell_of(alloc, cell, leaf, at * count, count) {
                Ok(tree) => Ok(Array::of(tree)),
                Err(NoMemory) => Err(NoMemory),
            },
        }
    }
}

/// The array of this shape with a copy of as many of the atoms from one on.
pub fn cell_of(
    alloc: Global,
    axes: &[u64],
    atoms: Leaf<'_>,
    start: u64,
    count: u64,
) -> Result<Tree, NoMemory>
    requires shape { IsShape axes.now }
    requires count { count ≡ product axes.now }
    requires within { start + count ≤ length (atoms_in atoms) }
    requires levels { greatest (map atom_level (atoms_in atoms)) ≤ most_levels }
    ensures { IfOk result (λ t. t ≡ noun axes.now (kind_in atoms.entry) (take count (drop start (atoms_in atoms.entry)))) }
{
    let atoms = copy_range(alloc, atoms, start, count)?;
    let axes = Vec::from_slice(alloc, axes)?;
    match Tree::new(axes, atoms) {
        Ok(cell) => Ok(cell),
        Err(_) => unreachable!(),
    }
}

fn number_at(numbers: &[i64], at: u64) -> Array
    requires { at < length numbers.now }
    ensures { result ≡ own (int_atom (slice_index_or numbers.now at (pos 0))) }
{
    let number = numbers[at as usize];
    Array::atom(number)
}
