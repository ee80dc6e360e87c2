//! Where the items of an array are: index of, index of last, member, less, nub, nub sieve,
//! self-classify and match.

ghost use Rattle.std.specs.Prelude.{◌≡◌, ◌==◌, ◌<◌, ◌≤◌, ◌^◌, not, nat_lt, pos, ℕ, Ok, IfOk, length, map, take, slice_index};
ghost use Rattle.std.specs.List.{range_with_len};
ghost use Rattle.jdata.specs.Limits.{IsArray};
ghost use Rattle.jdata.specs.Noun.{noun};
ghost use Rattle.jdata.specs.declared.noun.Kind.TheVariants as sort;
ghost use Rattle.jdata.specs.declared.noun.Atom.TheVariants as atom;
ghost use Rattle.jarray.specs.Placed.{Gives, noun_in};
ghost use Rattle.jselect.specs.Items.{item_count};
ghost use Rattle.jsearch.specs.Finding.{truth as truth_of};
ghost use Rattle.jsearch.specs.Finding as meant;
ghost use Rattle.jsearch.specs.Listed.{or_trouble, whole, cell_count};

use crate::cells::{Cells, cells_like, count_of, items_of};
use crate::number::integer;
use crate::places::{first_places_in, last_places_in};
use jarray::{Array, Room, integers};
use jdata::{IntList, NoMemory, Tree, Trouble};
use std::alloc::Global;

/// For each cell of `y` of the rank of an item of `x` the first place of an item that matches it,
/// or how many items there are.
pub fn index_of(alloc: Global, room: &mut Room, x: Array, y: Array) -> Result<Array, Trouble>
    ensures { Gives (meant.index_of x.noun y.noun) result }
{
    let found = indexes(alloc, room, &x, &y);
    x.done(room);
    y.done(room);
    given(found)
}

/// The same with the last place.
pub fn last_index_of(alloc: Global, room: &mut Room, x: Array, y: Array) -> Result<Array, Trouble>
    ensures { Gives (meant.last_index_of x.noun y.noun) result }
{
    let found = last_indexes(alloc, room, &x, &y);
    x.done(room);
    y.done(room);
    given(found)
}

/// For each cell of `x` of the rank of an item of `y`: 1 where it matches an item, else 0.
pub fn member(alloc: Global, room: &mut Room, x: Array, y: Array) -> Result<Array, Trouble>
    ensures { Gives (meant.member x.noun y.noun) result }
{
    let found = members(alloc, room, &x, &y);
    x.done(room);
    y.done(room);
    given(found)
}

/// The items of `x` that match no item of `y`.
pub fn less(alloc: Global, room: &mut Room, x: Array, y: Array) -> Result<Array, Trouble>
    ensures { Gives (meant.less x.noun y.noun) result }
{
    let flags = others(alloc, room, &x, &y);
    y.done(room);
    match flags {
        Ok(flags) => jselect::copy(alloc, room, Array::of(flags), x),
        Err(NoMemory) => {
            x.done(room);
            Err(Trouble::NoMemory)
        }
    }
}

/// The items that match no earlier one.
pub fn nub(alloc: Global, room: &mut Room, y: Array) -> Result<Array, Trouble>
    ensures { Gives (meant.nub y.noun) result }
{
    match sieve_of(alloc, room, &y) {
        Ok(flags) => jselect::copy(alloc, room, Array::of(flags), y),
        Err(NoMemory) => {
            y.done(room);
            Err(Trouble::NoMemory)
        }
    }
}

/// 1 for each item that matches no earlier one, else 0.
pub fn sieve(alloc: Global, room: &mut Room, y: Array) -> Result<Array, Trouble>
    ensures { Gives (meant.sieve y.noun) result }
{
    let flags = sieve_of(alloc, room, &y);
    y.done(room);
    given(flags)
}

/// For each item of `y` the first place of an item that matches it.
pub fn first_places(alloc: Global, room: &Room, y: &Array) -> Result<Vec<usize>, NoMemory>
    ensures { IfOk result (λ v. v.items ≡ map (λ i. meant.first_place (meant.items y.now.noun) (meant.item y.now.noun i)) (range_with_len 0 (item_count y.now.noun))) }
{
    let items = items_of(y, room);
    first_places_in(alloc, items, items)
}

/// Whether the two match. No memory.
pub fn matched(_alloc: Global, room: &mut Room, x: Array, y: Array) -> Result<Array, Trouble>
    ensures { Gives (meant.matched x.noun y.noun) result }
{
    let same = x.match_with(room, &y);
    x.done(room);
    y.done(room);
    Ok(Array::atom(truth(same)))
}

pub fn truth(holds: bool) -> i64
    ensures { result ≡ truth_of holds }
{
    if holds { 1 } else { 0 }
}

fn given(tree: Result<Tree, NoMemory>) -> Result<Array, Trouble>
    ensures { noun_in result ≡ or_trouble tree }
{
    match tree {
        Ok(tree) => Ok(Array::of(tree)),
        Err(NoMemory) => Err(Trouble::NoMemory),
    }
}

fn indexes(alloc: Global, room: &Room, x: &Array, y: &Array) -> Result<Tree, NoMemory>
    ensures { IfOk result (λ t. Ok t ≡ meant.index_of x.now.noun y.now.noun) }
{
    let wanted = cells_like(x, y, room);
    let places = first_places_in(alloc, items_of(x, room), wanted)?;
    let numbers = as_numbers(alloc, places.as_slice())?;
    numbers_for(alloc, wanted, numbers)
}

fn last_indexes(alloc: Global, room: &Room, x: &Array, y: &Array) -> Result<Tree, NoMemory>
    ensures { IfOk result (λ t. Ok t ≡ meant.last_index_of x.now.noun y.now.noun) }
{
    let wanted = cells_like(x, y, room);
    let places = last_places_in(alloc, items_of(x, room), wanted)?;
    let numbers = as_numbers(alloc, places.as_slice())?;
    numbers_for(alloc, wanted, numbers)
}

fn members(alloc: Global, room: &Room, x: &Array, y: &Array) -> Result<Tree, NoMemory>
    ensures { IfOk result (λ t. Ok t ≡ meant.member x.now.noun y.now.noun) }
{
    let wanted = cells_like(y, x, room);
    let among = items_of(y, room);
    let places = first_places_in(alloc, among, wanted)?;
    let numbers = below(alloc, places.as_slice(), count_of(among))?;
    numbers_for(alloc, wanted, numbers)
}

/// 1 for each item of `x` that matches no item of `y`, else 0.
fn others(alloc: Global, room: &Room, x: &Array, y: &Array) -> Result<Tree, NoMemory>
    ensures { IfOk result (λ t. t ≡ meant.flags (λ i. not (meant.is_item_of y.now.noun (meant.item x.now.noun i))) x.now.noun) }
{
    let wanted = items_of(x, room);
    let among = items_of(y, room);
    let places = first_places_in(alloc, among, wanted)?;
    let numbers = not_below(alloc, places.as_slice(), count_of(among))?;
    numbers_for(alloc, wanted, numbers)
}

fn sieve_of(alloc: Global, room: &Room, y: &Array) -> Result<Tree, NoMemory>
    ensures { IfOk result (λ t. t ≡ meant.flags (meant.is_new y.now.noun) y.now.noun) }
{
    let items = items_of(y, room);
    let places = first_places_in(alloc, items, items)?;
    let numbers = in_place(alloc, places.as_slice())?;
    numbers_for(alloc, items, numbers)
}

/// The numbers for the cells, along the axes that count them.
fn numbers_for(alloc: Global, cells: Cells<'_>, numbers: Vec<i64>) -> Result<Tree, NoMemory>
    requires array { IsArray (whole cells) }
    requires frame { cells.frame ≤ length cells.axes.now }
    requires count { length numbers.items ≡ cell_count cells }
    ensures { IfOk result (λ t. t ≡ noun (take cells.entry.frame cells.entry.axes.now) sort.Int (map atom.Int numbers.items)) }
{
    let axes = Vec::from_slice(alloc, &cells.axes[..cells.frame])?;
    Ok(integers(axes, IntList::of(numbers)))
}

fn as_numbers(alloc: Global, places: &[usize]) -> Result<Vec<i64>, NoMemory>
    requires { (k : ℕ) → k < length places.now → slice_index places.now k < 2 ^ 63 }
    ensures { IfOk result (λ v. v.items ≡ map pos places.now) }
{
    let mut numbers = Vec::with_capacity(alloc, places.len())?;
    for place in places {
        let number = integer(*place as u64);
        numbers.push(number)?;
    }
    Ok(numbers)
}

/// 1 for each place below a number, else 0.
fn below(alloc: Global, places: &[usize], count: usize) -> Result<Vec<i64>, NoMemory>
    ensures { IfOk result (λ v. v.items ≡ map (λ p. truth_of (nat_lt p count)) places.now) }
{
    let mut numbers = Vec::with_capacity(alloc, places.len())?;
    for place in places {
        let number = truth(*place < count);
        numbers.push(number)?;
    }
    Ok(numbers)
}

/// 0 for each place below a number, else 1.
fn not_below(alloc: Global, places: &[usize], count: usize) -> Result<Vec<i64>, NoMemory>
    ensures { IfOk result (λ v. v.items ≡ map (λ p. truth_of (not (nat_lt p count))) places.now) }
{
    let mut numbers = Vec::with_capacity(alloc, places.len())?;
    for place in places {
        let number = truth(*place >= count);
        numbers.push(number)?;
    }
    Ok(numbers)
}

/// 1 for each place that is its own, else 0.
fn in_place(alloc: Global, places: &[usize]) -> Result<Vec<i64>, NoMemory>
    ensures { IfOk result (λ v. v.items ≡ map (λ i. truth_of (slice_index places.now i == i)) (range_with_len 0 (length places.now))) }
{
    let mut numbers = Vec::with_capacity(alloc, places.len())?;
    for at in 0..places.len() {
        let number = truth(places[at] == at);
        numbers.push(number)?;
    }
    Ok(numbers)
}
