//! What the left argument of `}` names.

ghost use Rattle.std.specs.Prelude.{◌≡◌, IfSome, IfNone, MatchResult, Ok, Err, true, false, map};
ghost use Rattle.std.specs.List.{list_any};
ghost use Rattle.jdata.specs.Leaf.{atoms_in};
ghost use Rattle.jdata.specs.Noun.{atoms};
ghost use Rattle.jdata.specs.Trees.{atom_of};
ghost use Rattle.jdata.specs.declared.noun.Atom.{out-Atom};
ghost use Rattle.jdata.specs.declared.noun.Atom.TheVariants as atom;
ghost use Rattle.jarray.specs.Numbers.{is_integers};
ghost use Rattle.jamend.specs.Naming as meant;

use jdata::{Cell, Fault, Leaf, Tree};
use jselect::numbers_boxed;

/// The integers of an array that counts as one of integers: one without atoms does.
pub fn integers_of(tree: &Tree) -> Option<&[i64]>
    ensures some { IfSome result (λ l. map atom.Int l.now ≡ atoms tree.now) }
    ensures integers { IfSome result (λ l. is_integers tree.now ≡ true) }
    ensures none { IfNone result (is_integers tree.now ≡ false) }
{
    match tree.leaf() {
        Leaf::Int(numbers) => Some(numbers),
        Leaf::Char([]) => Some(&[]),
        Leaf::Cell([]) => Some(&[]),
        _ => None,
    }
}

/// The integers that name one cell, of an array with these axes and atoms. Faults: Nonce, Domain.
pub fn cell_numbers<'a>(axes: &[u64], atoms: Leaf<'a>) -> Result<&'a [i64], Fault>
    ensures { MatchResult result (λ l. meant.cell_numbers axes.now (atoms_in atoms.entry) ≡ Ok l.now) (λ why. meant.cell_numbers axes.now (atoms_in atoms.entry) ≡ Err why) }
{
    match atoms {
        Leaf::Int(_) => Err(Fault::Domain),
        Leaf::Char(_) => Err(Fault::Domain),
        Leaf::Cell(cells) => lone_numbers(axes, cells),
    }
}

/// The integers in a box that stands alone.
fn lone_numbers<'a>(axes: &[u64], cells: &'a [Cell]) -> Result<&'a [i64], Fault>
    ensures { MatchResult result (λ l. meant.cell_numbers axes.now (map atom_of cells.now) ≡ Ok l.now) (λ why. meant.cell_numbers axes.now (map atom_of cells.now) ≡ Err why) }
{
    if any_nested(cells) {
        return Err(Fault::Nonce);
    }
    match (axes, cells) {
        ([], [cell]) => box_numbers(cell),
        _ => Err(Fault::Domain),
    }
}

fn box_numbers(cell: &Cell) -> Result<&[i64], Fault>
    ensures { MatchResult result (λ l. meant.box_numbers (out-Atom (atom_of cell.now)) ≡ Ok l.now) (λ why. meant.box_numbers (out-Atom (atom_of cell.now)) ≡ Err why) }
{
    match cell {
        Cell::Boxed(content) => numbers_boxed(content),
        Cell::Pyx(_) => Err(Fault::Domain),
    }
}

/// Whether there are boxes in one of the boxes.
fn any_nested(cells: &[Cell]) -> bool
    ensures { result ≡ list_any (λ cell. meant.is_nested (out-Atom (atom_of cell))) cells.now }
{
    cells.iter().any(|cell| is_nested(cell))
}

fn is_nested(cell: &Cell) -> bool
    ensures { result ≡ meant.is_nested (out-Atom (atom_of cell.now)) }
{
    match cell {
        Cell::Boxed(content) => has_boxes(content),
        Cell::Pyx(_) => false,
    }
}

fn has_boxes(content: &Tree) -> bool
    ensures { result ≡ meant.has_boxes content.now }
{
    match content.leaf() {
        Leaf::Cell(cells) => !cells.is_empty(),
        _ => false,
    }
}
