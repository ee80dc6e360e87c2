//! `{` and `{::`: the item or the cell of an array that integers name.

ghost use Rattle.std.specs.Prelude.{◌≡◌, ◌<◌, ◌≤◌, Ok, Err, IfOk, MatchResult, length, map, ◌∷◌, []};
ghost use Rattle.jdata.specs.Answers.{Answers};
ghost use Rattle.jdata.specs.Leaf.{atoms_in};
ghost use Rattle.jdata.specs.Limits.{IsArray};
ghost use Rattle.jdata.specs.Trees.{atom_of};
ghost use Rattle.jdata.specs.declared.noun.Atom.TheVariants as atom;
ghost use Rattle.jdata.specs.Firsts.{and_then};
ghost use Rattle.jdata.specs.declared.fault.Fault.TheVariants as cause;
ghost use Rattle.jarray.specs.Placed.{Gives};
ghost use Rattle.jselect.specs.From as meant;
ghost use Rattle.jselect.specs.Views.{noun_in, noun_or};

use crate::place::cell_number;
use crate::view::{View, copy_of, listed, nth_cell, view_of};
use jarray::{Array, Room};
use jdata::{Cell, Fault, Leaf, NoMemory, Tree, Trouble};
use std::alloc::Global;
use std::slice;

/// What the atom `x` names in `y`: an integer an item, and a box with integers a cell, one for each
/// axis from the first; negative ones count from the end. Faults: Domain, Nonce, Length, Index.
pub fn from(alloc: Global, room: &mut Room, x: Array, y: Array) -> Result<Array, Trouble>
    ensures { Gives (meant.selected x.noun y.noun) result }
{
    let cell = selected(alloc, room, &x, &y);
    x.done(room);
    y.done(room);
    match cell {
        Ok(tree) => Ok(Array::of(tree)),
        Err(trouble) => Err(trouble),
    }
}

/// The same, of an array that is only looked at.
pub fn from_among(alloc: Global, room: &mut Room, x: Array, y: &Array) -> Result<Array, Trouble>
    ensures { Gives (meant.selected x.noun y.now.noun) result }
{
    let cell = selected(alloc, room, &x, y);
    x.done(room);
    match cell {
        Ok(tree) => Ok(Array::of(tree)),
        Err(trouble) => Err(trouble),
    }
}

fn selected(alloc: Global, room: &Room, x: &Array, y: &Array) -> Result<Tree, Trouble>
    ensures { Answers (meant.selected x.now.noun y.now.noun) result }
{
    match named_by_first(x.leaf(room), view_of(y, room)) {
        Ok(view) => copied(alloc, view),
        Err(fault) => Err(Trouble::Fault(fault)),
    }
}

/// What the first of the atoms names.
fn named_by_first<'a>(x: Leaf<'_>, y: View<'a>) -> Result<View<'a>, Fault>
    requires { IsArray (noun_in y) }
    ensures value { noun_or result ≡ meant.named_by_first (atoms_in x.entry) (noun_in y.entry) }
    ensures array { IfOk result (λ v. IsArray (noun_in v)) }
{
    match x {
        Leaf::Int(numbers) => item_named(numbers, y),
        Leaf::Char(_) => Err(Fault::Domain),
        Leaf::Cell(cells) => cell_of_first(cells, y),
    }
}

/// The item that the first number names, where an atom is a list of one.
fn item_named<'a>(numbers: &[i64], y: View<'a>) -> Result<View<'a>, Fault>
    requires { IsArray (noun_in y) }
    ensures value { noun_or result ≡ meant.named_by_first (map atom.Int numbers.now) (noun_in y.entry) }
    ensures array { IfOk result (λ v. IsArray (noun_in v)) }
{
    match numbers {
        [] => Err(Fault::Domain),
        [number, ..] => cell_named(listed(y), slice::from_ref(number)),
    }
}

/// The cell that the first box names.
fn cell_of_first<'a>(cells: &[Cell], y: View<'a>) -> Result<View<'a>, Fault>
    requires { IsArray (noun_in y) }
    ensures value { noun_or result ≡ meant.named_by_first (map atom_of cells.now) (noun_in y.entry) }
    ensures array { IfOk result (λ v. IsArray (noun_in v)) }
{
    match cells {
        [] => Err(Fault::Domain),
        [first, ..] => cell_of(first, y),
    }
}

fn cell_of<'a>(cell: &Cell, y: View<'a>) -> Result<View<'a>, Fault>
    requires { IsArray (noun_in y) }
    ensures value { noun_or result ≡ meant.named_by_first (atom_of cell.now ∷ []) (noun_in y.entry) }
    ensures array { IfOk result (λ v. IsArray (noun_in v)) }
{
    match cell {
        Cell::Boxed(content) => cell_boxed(content, y),
        Cell::Pyx(_) => Err(Fault::Domain),
    }
}

/// The part in memory of its own.
pub fn copied(alloc: Global, view: View<'_>) -> Result<Tree, Trouble>
    requires { IsArray (noun_in view) }
    ensures { Answers (Ok (noun_in view.entry)) result }
{
    match copy_of(alloc, view) {
        Ok(tree) => Ok(tree),
        Err(NoMemory) => Err(Trouble::NoMemory),
    }
}

/// The cell that the integers in a box name.
fn cell_boxed<'a>(content: &Tree, y: View<'a>) -> Result<View<'a>, Fault>
    requires { IsArray (noun_in y) }
    ensures value { noun_or result ≡ and_then (meant.numbers_boxed content.now) (λ numbers. meant.cell_named numbers (noun_in y.entry)) }
    ensures array { IfOk result (λ v. IsArray (noun_in v)) }
{
    match numbers_boxed(content) {
        Ok(numbers) => cell_named(y, numbers),
        Err(fault) => Err(fault),
    }
}

/// The integers in a box that names a cell: none, where it has no atoms.
pub fn numbers_boxed(content: &Tree) -> Result<&[i64], Fault>
    ensures { MatchResult result (λ numbers. meant.numbers_boxed content.now ≡ Ok numbers.now) (λ why. meant.numbers_boxed content.now ≡ Err why) }
{
    let atoms = content.leaf();
    if atoms.len() == 0 {
        return Ok(&[]);
    }
    match atoms {
        Leaf::Int(numbers) => list_of(content.shape(), numbers),
        Leaf::Char(_) => Err(Fault::Domain),
        Leaf::Cell(_) => Err(Fault::Nonce),
    }
}

/// The numbers, if they stand alone or in a list.
fn list_of<'a>(axes: &[u64], numbers: &'a [i64]) -> Result<&'a [i64], Fault>
    ensures { MatchResult result (λ l. (length axes.now ≤ 1) × (l.now ≡ numbers.entry.now)) (λ why. (1 < length axes.now) × (why ≡ cause.Domain)) }
{
    if axes.len() <= 1 {
        Ok(numbers)
    } else {
        Err(Fault::Domain)
    }
}

/// The cell that integers name, which are no more than the axes.
pub fn cell_named<'a>(y: View<'a>, numbers: &[i64]) -> Result<View<'a>, Fault>
    requires { IsArray (noun_in y) }
    ensures value { noun_or result ≡ meant.cell_named numbers.now (noun_in y.entry) }
    ensures array { IfOk result (λ v. IsArray (noun_in v)) }
{
    if numbers.len() > y.axes.len() {
        return Err(Fault::Length);
    }
    match cell_number(y.axes, numbers) {
        Ok(number) => Ok(nth_cell(y, numbers.len(), number as usize)),
        Err(fault) => Err(fault),
    }
}
