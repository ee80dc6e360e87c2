//! Items that integers name, many at once.

ghost use Rattle.std.specs.Prelude.{◌≡◌, ◌+◌, ◌*◌, ◌≤◌, ◌++◌, pos, IfOk, length, map};
ghost use Rattle.std.specs.List.{All, list_all};
ghost use Rattle.std.specs.Result.{is_ok, result_unwrap_or};
ghost use Rattle.jdata.specs.Answers.{Answers};
ghost use Rattle.jdata.specs.Firsts.{all_or_first, and_then};
ghost use Rattle.jdata.specs.Leaf.{kind_in, atoms_in};
ghost use Rattle.jdata.specs.Limits.{limited as limited_noun};
ghost use Rattle.jdata.specs.Noun.{noun, product};
ghost use Rattle.jdata.specs.Trees.{kind_of, atoms_of};
ghost use Rattle.jdata.specs.declared.noun.Kind.TheVariants as sort;
ghost use Rattle.jdata.specs.declared.noun.Atom.TheVariants as atom;
ghost use Rattle.jselect.specs.Listing as listing;
ghost use Rattle.jselect.specs.Listing.{number_named};
ghost use Rattle.jselect.specs.Picking.{runs};
ghost use Rattle.jselect.specs.Places.{place_in as place_of};

use crate::copying::{further_axes, item_count};
use crate::items::run;
use crate::place::place_in;
use crate::whole::limited;
use jarray::{Array, Room};
use jdata::{
    Fault, IntList, Item, Leaf, Leaves, NoMemory, Sequence, Tree, Trouble, product_of,
    product_within,
};
use std::alloc::{AllocError, Global};

/// The items of `y` that the numbers name, where negative ones count from the end, as an array with
/// these axes before those of an item. Faults: Index, then Limit.
pub fn items_named(
    alloc: Global,
    room: &Room,
    axes: &[u64],
    numbers: &[i64],
    y: &Array,
) -> Result<Tree, Trouble>
    requires { length numbers.now ≡ product axes.now }
    ensures { Answers (listing.items_named axes.now numbers.now y.now.noun) result }
{
    let item = further_axes(y.shape(room));
    let cell = product_of(item) as usize;
    match (y.leaf(room), cell) {
        (Leaf::Int(items), 1) => single_named(alloc, axes, item, items, numbers),
        _ => runs_named(alloc, room, axes, numbers, y),
    }
}

/// Numbers that are items, each picked where it is named.
fn single_named(
    alloc: Global,
    axes: &[u64],
    item: &[u64],
    items: &[i64],
    numbers: &[i64],
) -> Result<Tree, Trouble>
    requires whole { length numbers.now ≡ product axes.now }
    requires single { product item.now ≡ 1 }
    ensures { Answers (and_then (all_or_first (map (number_named items.now) numbers.now)) (λ picks. limited_noun (noun (axes.now ++ item.now) sort.Int (map atom.Int picks)))) result }
{
    let picks = match numbers_named(alloc, items, numbers) {
        Ok(picks) => picks,
        Err(trouble) => return Err(trouble),
    };
    let shape = both_axes(alloc, axes, item)?;
    limited(shape, Leaves::Int(picks))
}

/// What each number names among these.
fn numbers_named(alloc: Global, items: &[i64], numbers: &[i64]) -> Result<IntList, Trouble>
    ensures { Answers (all_or_first (map (number_named items.now) numbers.now)) result }
{
    if !are_places(items.len() as u64, numbers) {
        return Err(Trouble::Fault(Fault::Index));
    }
    let picks = picked(alloc, items, numbers)?;
    Ok(Sequence::of(picks))
}

/// Whether each number names a place among so many. All are looked at, so that the loop can be one
/// of vectors.
fn are_places(count: u64, numbers: &[i64]) -> bool
    ensures { result ≡ list_all (λ number. is_ok (place_of count number)) numbers.now }
{
    let mut all = true;
    for &number in numbers {
        all &= place_in(count, number).is_ok();
    }
    all
}

/// What each number names among these, and 0 for one that names nothing.
fn picked(alloc: Global, items: &[i64], numbers: &[i64]) -> Result<Vec<i64>, AllocError>
    ensures { IfOk result (λ picks. picks.items ≡ map (λ number. result_unwrap_or (number_named items.now number) (pos 0)) numbers.now) }
{
    numbers
        .iter()
        .map(|&number| pick_or_zero(items, number))
        .collect(alloc)
}

fn pick_or_zero(items: &[i64], number: i64) -> i64
    ensures { result ≡ result_unwrap_or (number_named items.now number) (pos 0) }
{
    match place_in(items.len() as u64, number) {
        Ok(place) => items[place as usize],
        Err(_) => 0,
    }
}

/// Runs of atoms that are items.
fn runs_named(
    alloc: Global,
    room: &Room,
    axes: &[u64],
    numbers: &[i64],
    y: &Array,
) -> Result<Tree, Trouble>
    requires { length numbers.now ≡ product axes.now }
    ensures { Answers (listing.items_named axes.now numbers.now y.now.noun) result }
{
    let places = match places_of(alloc, item_count(room, y), numbers) {
        Ok(places) => places,
        Err(trouble) => return Err(trouble),
    };
    let item = further_axes(y.shape(room));
    let shape = both_axes(alloc, axes, item)?;
    let count = match product_within(shape.as_slice()) {
        Some(count) => count as usize,
        None => return Err(Trouble::Fault(Fault::Limit)),
    };
    let cell = product_of(item) as usize;
    let leaves = items_at(alloc, y.leaf(room), places.items(), cell, count)?;
    limited(shape, leaves)
}

/// The axes of a frame before those of an item.
pub fn both_axes(alloc: Global, frame: &[u64], item: &[u64]) -> Result<Vec<u64>, NoMemory>
    ensures { IfOk result (λ axes. axes.items ≡ frame.now ++ item.now) }
{
    let mut axes = Vec::with_capacity(alloc, frame.len() + item.len())?;
    axes.extend_from_slice(frame)?;
    axes.extend_from_slice(item)?;
    Ok(axes)
}

/// The place that each number names among so many.
pub fn places_of(alloc: Global, count: u64, numbers: &[i64]) -> Result<Sequence<u64>, Trouble>
    ensures { Answers (all_or_first (map (place_of count) numbers.now)) result }
{
    let mut places = Vec::with_capacity(alloc, numbers.len())?;
    for number in numbers {
        match place_named(count, number) {
            Ok(place) => places.push(place)?,
            Err(fault) => return Err(Trouble::Fault(fault)),
        }
    }
    Ok(Sequence::of(places))
}

// a number that is read where it lies
fn place_named(count: u64, number: &i64) -> Result<u64, Fault>
    ensures { result ≡ place_of count number.now }
{
    place_in(count, *number)
}

/// The items at these places, of `cell` atoms each and `count` in all.
fn items_at(
    alloc: Global,
    atoms: Leaf<'_>,
    places: &[u64],
    cell: usize,
    count: usize,
) -> Result<Leaves, NoMemory>
    requires { All (λ p. p * cell + cell ≤ length (atoms_in atoms)) places.now }
    ensures kind { IfOk result (λ l. kind_of l ≡ kind_in atoms.entry) }
    ensures atoms { IfOk result (λ l. atoms_of l ≡ runs cell (atoms_in atoms.entry) places.now) }
{
    match atoms {
        Leaf::Int(numbers) => runs_at(alloc, numbers, places, cell, count),
        Leaf::Char(bytes) => runs_at(alloc, bytes, places, cell, count),
        Leaf::Cell(cells) => runs_at(alloc, cells, places, cell, count),
    }
}

fn runs_at<T: Item>(
    alloc: Global,
    items: &[T],
    places: &[u64],
    cell: usize,
    count: usize,
) -> Result<Leaves, NoMemory>
    requires { All (λ p. p * cell + cell ≤ length items.now) places.now }
    ensures kind { IfOk result (λ l. kind_of l ≡ T.kind) }
    ensures atoms { IfOk result (λ l. atoms_of l ≡ runs cell (map T.atom items.now) places.now) }
{
    let mut picked = Vec::with_capacity(alloc, count)?;
    for &place in places {
        T::push_copies(alloc, run(items, place as usize, cell), &mut picked)?;
    }
    Ok(T::leaves_of(picked))
}
