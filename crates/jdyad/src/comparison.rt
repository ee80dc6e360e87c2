//! `=` and `~:` on atoms of any kind.

ghost use Rattle.std.specs.Prelude.{◌≡◌, ◌↔◌, ◌*◌, ◌/◌, ◌<◌, true, false, Ok, IfOk, IsTrue, pos, length, map, slice_index_or};
ghost use Rattle.jscalar.specs.Places.{by_place};
ghost use Rattle.jdata.specs.declared.noun.Atom.{Atom};
ghost use Rattle.jdata.specs.declared.noun.Atom.TheVariants as atom;
ghost use Rattle.jdata.specs.Trees.{atom_of};
ghost use Rattle.jscalar.specs.Truths as truths;
ghost use Rattle.jdata.specs.Leaf.{atoms_in};
ghost use Rattle.jarray.specs.Matches.{equal_atoms};
ghost use Rattle.jdyad.specs.Atoms.{is_comparison, compared};

use crate::place::Place;
use jdata::{Cell, Leaf, NoMemory, Primitive};
use std::alloc::Global;

/// What an array keeps for each of its atoms.
trait Kept {
    /// The atom that it is.
    ghost atom: { Self → Atom };

    fn equals(&self, other: &Self) -> bool
        ensures { result ≡ equal_atoms (atom self.now) (atom other.now) };
}

impl Kept for i64 {
    ghost atom = { λ n. atom.Int n };

    fn equals(&self, other: &i64) -> bool {
        equal(self, other)
    }
}

impl Kept for u8 {
    ghost atom = { λ n. atom.Char n };

    fn equals(&self, other: &u8) -> bool {
        *self == *other
    }
}

impl Kept for Cell {
    ghost atom = { atom_of };

    fn equals(&self, other: &Cell) -> bool {
        match (self, other) {
            (Cell::Boxed(left), Cell::Boxed(right)) => left.same(right),
            (Cell::Pyx(left), Cell::Pyx(right)) => left == right,
            (Cell::Boxed(_), Cell::Pyx(_)) => false,
            (Cell::Pyx(_), Cell::Boxed(_)) => false,
        }
    }
}

/// What `=` or `~:` gives of atoms, each of `shorter` with `cell` of `longer`, one after another.
pub fn compare(
    alloc: Global,
    verb: Primitive,
    shorter: Leaf<'_>,
    cell: usize,
    longer: Leaf<'_>,
) -> Result<Vec<i64>, NoMemory>
    requires comparison { is_comparison verb ≡ true }
    requires some { 0 < cell }
    requires whole { length (atoms_in longer) ≡ length (atoms_in shorter) * cell }
    ensures { IfOk result (λ v. by_place (λ j. compared verb (equal_atoms (slice_index_or (atoms_in shorter.entry) (j / cell) (atom.Int (pos 0))) (slice_index_or (atoms_in longer.entry) j (atom.Int (pos 0))))) (length (atoms_in longer.entry)) ≡ Ok v.items) }
{
    match (shorter, longer) {
        (Leaf::Int(shorter), Leaf::Int(longer)) => {
            compare_each(alloc, verb, shorter, cell, longer)
        }
        (Leaf::Char(shorter), Leaf::Char(longer)) => {
            compare_each(alloc, verb, shorter, cell, longer)
        }
        (Leaf::Cell(shorter), Leaf::Cell(longer)) => {
            compare_each(alloc, verb, shorter, cell, longer)
        }
        _ => differ(alloc, verb, longer.len()),
    }
}

fn compare_each<L: Kept>(
    alloc: Global,
    verb: Primitive,
    shorter: &[L],
    cell: usize,
    longer: &[L],
) -> Result<Vec<i64>, NoMemory>
    requires comparison { is_comparison verb ≡ true }
    requires some { 0 < cell }
    requires whole { length longer.now ≡ length shorter.now * cell }
    ensures { IfOk result (λ v. by_place (λ j. compared verb (equal_atoms (slice_index_or (map L.atom shorter.now) (j / cell) (atom.Int (pos 0))) (slice_index_or (map L.atom longer.now) j (atom.Int (pos 0))))) (length longer.now) ≡ Ok v.items) }
{
    let mut truths = Vec::with_capacity(alloc, longer.len())?;
    let mut place = Place::first();
    for item in longer {
        truths.push(truth(verb, shorter[place.item].equals(item)))?;
        place = place.next(cell);
    }
    Ok(truths)
}

/// What they give of so many pairs of atoms that aren't equal.
fn differ(alloc: Global, verb: Primitive, count: usize) -> Result<Vec<i64>, NoMemory>
    requires { is_comparison verb ≡ true }
    ensures { IfOk result (λ v. by_place (λ j. compared verb false) count ≡ Ok v.items) }
{
    let truth = truth(verb, false);
    let mut truths = Vec::with_capacity(alloc, count)?;
    for _ in 0..count {
        truths.push(truth)?;
    }
    Ok(truths)
}

/// Whether the verb holds of atoms that are equal, or aren't, as 1 or 0.
fn truth(verb: Primitive, equal: bool) -> i64
    requires { is_comparison verb ≡ true }
    ensures { compared verb equal ≡ Ok result }
{
    match verb {
        Primitive::Equal => number(equal),
        _ => number(!equal),
    }
}

fn number(holds: bool) -> i64
    ensures { result ≡ truths.truth holds }
{
    if holds { 1 } else { 0 }
}

fn equal(left: &i64, right: &i64) -> bool
    ensures { IsTrue result ↔ (left.now ≡ right.now) }
{
    left == right
}
