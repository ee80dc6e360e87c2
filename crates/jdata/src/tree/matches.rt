ghost use Rattle.std.specs.Prelude.{◌≡◌, ◌↔◌, ◌<◌, IsTrue, length, map};
ghost use Rattle.jdata.specs.Match.{IsMatch, plain_atom};
ghost use Rattle.jdata.specs.Trees.{atom_of, atoms_of};

use crate::tree::{Cell, Leaves, Tree};

impl Tree {
    /// Whether the two match: their shapes and atoms are equal, and where they have no atoms their
    /// shapes alone. Pyxes are equal where their names are.
    #[cycle(matches)]
    pub fn same(&self, other: &Tree) -> bool
        ensures { IsTrue result ↔ IsMatch self.now other.now }
    {
        if self.axes.items() != other.axes.items() {
            return false;
        }
        if self.leaves.len() == 0 {
            return true;
        }
        self.leaves.same(&other.leaves)
    }
}

impl Leaves {
    #[cycle(matches)]
    fn same(&self, other: &Leaves) -> bool
        requires { 0 < length (atoms_of self.now) }
        ensures { IsTrue result ↔ (map plain_atom (atoms_of self.now) ≡ map plain_atom (atoms_of other.now)) }
    {
        match (self, other) {
            (Leaves::Int(left), Leaves::Int(right)) => left.items() == right.items(),
            (Leaves::Char(left), Leaves::Char(right)) => left.items() == right.items(),
            (Leaves::Cell(left), Leaves::Cell(right)) => same_cells(left.items(), right.items()),
            _ => false,
        }
    }
}

impl Cell {
    #[cycle(matches)]
    fn same(&self, other: &Cell) -> bool
        ensures { IsTrue result ↔ (plain_atom (atom_of self.now) ≡ plain_atom (atom_of other.now)) }
    {
        match (self, other) {
            (Cell::Boxed(left), Cell::Boxed(right)) => left.same(right),
            (Cell::Pyx(left), Cell::Pyx(right)) => left == right,
            (Cell::Boxed(_), Cell::Pyx(_)) => false,
            (Cell::Pyx(_), Cell::Boxed(_)) => false,
        }
    }
}

#[cycle(matches)]
fn same_cells(left: &[Cell], right: &[Cell]) -> bool
    ensures { IsTrue result ↔ (map plain_atom (map atom_of left.now) ≡ map plain_atom (map atom_of right.now)) }
{
    if left.len() != right.len() {
        return false;
    }
    for (at, cell) in left.iter().enumerate() {
        if !cell.same(&right[at]) {
            return false;
        }
    }
    true
}
