//! `{::`: the item of an item that integers name one after another, each opened.

ghost use Rattle.std.specs.Prelude.{◌≡◌, ◌∷◌, [], IfOk, length, map};
ghost use Rattle.jdata.specs.Answers.{Answers};
ghost use Rattle.jdata.specs.Kinds.{same_kind};
ghost use Rattle.jdata.specs.Leaf.{kind_in};
ghost use Rattle.jdata.specs.Limits.{IsArray};
ghost use Rattle.jdata.specs.Trees.{atom_of};
ghost use Rattle.jdata.specs.declared.noun.Kind.TheVariants as sort;
ghost use Rattle.jarray.specs.Placed.{Gives};
ghost use Rattle.jselect.specs.From as meant;
ghost use Rattle.jselect.specs.Views.{noun_in, noun_or};

use crate::choosing::{cell_named, copied};
use crate::view::{View, listed, view_of, view_of_tree};
use jarray::{Array, Room};
use jdata::{Cell, Fault, Leaf, Tree, Trouble};
use std::alloc::Global;
use std::slice;

/// For each number of `x` in turn the item of `y` that it names, opened where it is a box. Faults:
/// Domain, and at each number Length and Index.
pub fn fetch(alloc: Global, room: &mut Room, x: Array, y: Array) -> Result<Array, Trouble>
    ensures { Gives (meant.fetched x.noun y.noun) result }
{
    let item = fetched(alloc, room, &x, &y);
    x.done(room);
    y.done(room);
    match item {
        Ok(tree) => Ok(Array::of(tree)),
        Err(trouble) => Err(trouble),
    }
}

fn fetched(alloc: Global, room: &Room, x: &Array, y: &Array) -> Result<Tree, Trouble>
    ensures { Answers (meant.fetched x.now.noun y.now.noun) result }
{
    let numbers = match x.numbers(room) {
        Some(numbers) => numbers,
        None => return Err(Trouble::Fault(Fault::Domain)),
    };
    match fetched_by(numbers, view_of(y, room)) {
        Ok(view) => copied(alloc, view),
        Err(fault) => Err(Trouble::Fault(fault)),
    }
}

fn fetched_by<'a>(numbers: &[i64], y: View<'a>) -> Result<View<'a>, Fault>
    requires { IsArray (noun_in y) }
    ensures value { noun_or result ≡ meant.fetched_by numbers.now (noun_in y.entry) }
    ensures array { IfOk result (λ v. IsArray (noun_in v)) }
{
    let mut view = y;
    for number in numbers {
        match item_opened(number, view) {
            Ok(item) => view = item,
            Err(fault) => return Err(fault),
        }
    }
    Ok(view)
}

/// The item that an integer names, opened.
fn item_opened<'a>(number: &i64, y: View<'a>) -> Result<View<'a>, Fault>
    requires { IsArray (noun_in y) }
    ensures value { noun_or result ≡ meant.item_opened number.now (noun_in y.entry) }
    ensures array { IfOk result (λ v. IsArray (noun_in v)) }
{
    if is_box_table(&y) {
        return Err(Fault::Length);
    }
    match cell_named(listed(y), slice::from_ref(number)) {
        Ok(item) => Ok(opened(item)),
        Err(fault) => Err(fault),
    }
}

fn is_box_table(y: &View<'_>) -> bool
    ensures { result ≡ meant.is_box_table (noun_in y.now) }
{
    y.axes.len() >= 2 && is_boxed(y.atoms) && y.atoms.len() != 0
}

fn is_boxed(atoms: Leaf<'_>) -> bool
    ensures { result ≡ same_kind (kind_in atoms.entry) sort.Boxed }
{
    matches!(atoms, Leaf::Cell(_))
}

/// The content of a box that stands alone, and every other array as it is.
fn opened(view: View<'_>) -> View<'_>
    requires { IsArray (noun_in view) }
    ensures value { noun_in result ≡ meant.opened (noun_in view.entry) }
    ensures array { IsArray (noun_in result) }
{
    if !view.axes.is_empty() {
        return view;
    }
    match view.atoms {
        Leaf::Int(_) => view,
        Leaf::Char(_) => view,
        Leaf::Cell(cells) => opened_first(cells, view),
    }
}

fn opened_first<'a>(cells: &'a [Cell], view: View<'a>) -> View<'a>
    requires { IsArray (noun_in view) }
    ensures value { noun_in result ≡ meant.opened_atom (map atom_of cells.entry.now) (noun_in view.entry) }
    ensures array { IsArray (noun_in result) }
{
    match cells {
        [] => view,
        [first, ..] => opened_cell(first, view),
    }
}

fn opened_cell<'a>(cell: &'a Cell, view: View<'a>) -> View<'a>
    requires { IsArray (noun_in view) }
    ensures value { noun_in result ≡ meant.opened_atom (atom_of cell.entry.now ∷ []) (noun_in view.entry) }
    ensures array { IsArray (noun_in result) }
{
    match cell {
        Cell::Boxed(content) => view_of_tree(content),
        Cell::Pyx(_) => view,
    }
}
