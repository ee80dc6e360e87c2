//! `/:` and `\:`: the places of the items in order, and items in the order of others.

ghost use Rattle.std.specs.Prelude.{◌≡◌, ◌≤◌, ◌*◌, true, length, map, drop};
ghost use Rattle.jdata.specs.Answers.{Answers};
ghost use Rattle.jdata.specs.Leaf.{kind_in, atoms_in};
ghost use Rattle.jdata.specs.Limits.{IsArray, most_atoms};
ghost use Rattle.jdata.specs.Noun.{product, kind, atoms as noun_atoms};
ghost use Rattle.jdata.specs.declared.noun.Noun.{Noun};
ghost use Rattle.jdata.specs.declared.noun.Kind.TheVariants as sort;
ghost use Rattle.jdata.specs.declared.noun.Atom.TheVariants as atom;
ghost use Rattle.jarray.specs.Placed.{Gives, noun_in};
ghost use Rattle.jsearch.specs.Grades as meant;
ghost use Rattle.jsearch.specs.Grades.{HasItems, GradedAs};
ghost use Rattle.jsearch.specs.Listed.{whole};
ghost use Rattle.jsearch.specs.Order.{has_order, in_direction};

use crate::cells::{Cells, count_of, items_of};
use crate::ordering::{Direction, places_of_runs};
use jarray::{Array, Room, integers};
use jdata::{Fault, IntList, Leaf, NoMemory, Tree, Trouble, product_of};
use jselect::items_named;
use std::alloc::Global;

/// The places of the items in rising order; equal items keep their order. Fault: Nonce, for boxes.
pub fn grade_up(alloc: Global, room: &mut Room, y: Array) -> Result<Array, Trouble>
    ensures { Gives (meant.grade_up y.noun) result }
{
    let places = grade(alloc, room, &y, Direction::Rising);
    y.done(room);
    given(places)
}

/// The places of the items in falling order; equal items keep their order. Fault: Nonce, for boxes.
pub fn grade_down(alloc: Global, room: &mut Room, y: Array) -> Result<Array, Trouble>
    ensures { Gives (meant.grade_down y.noun) result }
{
    let places = grade(alloc, room, &y, Direction::Falling);
    y.done(room);
    given(places)
}

/// The items of `x` in the rising order of the items of `y`. Faults: Nonce, for boxes in `y`; Index,
/// where `x` has fewer items; Limit.
pub fn sort_up(alloc: Global, room: &mut Room, x: Array, y: Array) -> Result<Array, Trouble>
    ensures { Gives (meant.sorted_up x.noun y.noun) result }
{
    let items = sort(alloc, room, &x, &y, Direction::Rising);
    x.done(room);
    y.done(room);
    given(items)
}

/// The items of `x` in the falling order of the items of `y`, with the same faults.
pub fn sort_down(alloc: Global, room: &mut Room, x: Array, y: Array) -> Result<Array, Trouble>
    ensures { Gives (meant.sorted_down x.noun y.noun) result }
{
    let items = sort(alloc, room, &x, &y, Direction::Falling);
    x.done(room);
    y.done(room);
    given(items)
}

pub fn given(tree: Result<Tree, Trouble>) -> Result<Array, Trouble>
    ensures { noun_in result ≡ tree }
{
    match tree {
        Ok(tree) => Ok(Array::of(tree)),
        Err(trouble) => Err(trouble),
    }
}

fn grade(alloc: Global, room: &Room, y: &Array, direction: Direction) -> Result<Tree, Trouble>
    ensures { Answers (meant.grade (in_direction direction) y.now.noun) result }
{
    let places = match places(alloc, room, y, direction) {
        Ok(places) => places,
        Err(trouble) => return Err(trouble),
    };
    let shape = Vec::from_slice(alloc, &[places.items().len() as u64])?;
    Ok(integers(shape, places))
}

fn sort(
    alloc: Global,
    room: &Room,
    x: &Array,
    y: &Array,
    direction: Direction,
) -> Result<Tree, Trouble>
    ensures { Answers (meant.sorted (in_direction direction) x.now.noun y.now.noun) result }
{
    let places = match places(alloc, room, y, direction) {
        Ok(places) => places,
        Err(trouble) => return Err(trouble),
    };
    items_named(
        alloc,
        room,
        &[places.items().len() as u64],
        places.items(),
        x,
    )
}

/// The places of the items in their order, as integers.
fn places(alloc: Global, room: &Room, y: &Array, direction: Direction) -> Result<IntList, Trouble>
    ensures { GradedAs (in_direction direction) y.now.noun result }
{
    let items = items_of(y, room);
    let size = item_size(items);
    let count = count_of(items);
    places_of_items(alloc, items.atoms, size, count, direction)
}

/// How many atoms each cell has.
fn item_size(cells: Cells<'_>) -> usize
    requires array { IsArray (whole cells) }
    requires frame { cells.frame ≤ length cells.axes.now }
    ensures { result ≡ product (drop cells.entry.frame cells.entry.axes.now) }
{
    product_of(&cells.axes[cells.frame..]) as usize
}

fn places_of_items(
    alloc: Global,
    atoms: Leaf<'_>,
    size: usize,
    count: usize,
    direction: Direction,
) -> Result<IntList, Trouble>
    requires whole { count * size ≡ length (atoms_in atoms) }
    requires few { length (atoms_in atoms) ≤ most_atoms }
    requires count { count ≤ most_atoms }
    ensures { (y : Noun) → HasItems y size count → kind y ≡ kind_in atoms.entry → noun_atoms y ≡ atoms_in atoms.entry → GradedAs (in_direction direction) y result }
{
    match atoms {
        Leaf::Int(numbers) => places_of_integers(alloc, numbers, size, count, direction),
        Leaf::Char(bytes) => places_of_characters(alloc, bytes, size, count, direction),
        Leaf::Cell(cells) => places_of_boxes(alloc, cells.len(), size, count, direction),
    }
}

fn places_of_integers(
    alloc: Global,
    numbers: &[i64],
    size: usize,
    count: usize,
    direction: Direction,
) -> Result<IntList, Trouble>
    requires whole { count * size ≡ length numbers.now }
    requires few { length numbers.now ≤ most_atoms }
    requires count { count ≤ most_atoms }
    ensures { (y : Noun) → HasItems y size count → has_order y ≡ true → noun_atoms y ≡ map atom.Int numbers.now → GradedAs (in_direction direction) y result }
{
    match places_of_runs(alloc, numbers, size, count, direction) {
        Ok(places) => Ok(places),
        Err(NoMemory) => Err(Trouble::NoMemory),
    }
}

fn places_of_characters(
    alloc: Global,
    bytes: &[u8],
    size: usize,
    count: usize,
    direction: Direction,
) -> Result<IntList, Trouble>
    requires whole { count * size ≡ length bytes.now }
    requires few { length bytes.now ≤ most_atoms }
    requires count { count ≤ most_atoms }
    ensures { (y : Noun) → HasItems y size count → has_order y ≡ true → noun_atoms y ≡ map atom.Char bytes.now → GradedAs (in_direction direction) y result }
{
    match places_of_runs(alloc, bytes, size, count, direction) {
        Ok(places) => Ok(places),
        Err(NoMemory) => Err(Trouble::NoMemory),
    }
}

/// Boxes have no order. Where there are none, the items are all alike.
fn places_of_boxes(
    alloc: Global,
    boxes: usize,
    size: usize,
    count: usize,
    direction: Direction,
) -> Result<IntList, Trouble>
    requires whole { count * size ≡ boxes }
    requires count { count ≤ most_atoms }
    ensures { (y : Noun) → HasItems y size count → kind y ≡ sort.Boxed → length (noun_atoms y) ≡ boxes → GradedAs (in_direction direction) y result }
{
    if boxes == 0 {
        places_of_integers(alloc, &[], size, count, direction)
    } else {
        Err(Trouble::Fault(Fault::Nonce))
    }
}
