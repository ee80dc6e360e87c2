//! `#`: how many items an array has, and its items, each as often as a number says.

ghost use Rattle.std.specs.Prelude.{◌≡◌, ℕ, ◌-◌, ◌^◌, ◌<◌, ◌≤◌, ◌∷◌, ◌==◌, if◌then◌else◌, min, true, Ok, Err, IfOk, length};
ghost use Rattle.std.specs.List.{list_all};
ghost use Rattle.jdata.specs.Answers.{Answers};
ghost use Rattle.jdata.specs.Limits.{limited, most_atoms};
ghost use Rattle.jdata.specs.Noun.{shape};
ghost use Rattle.jdata.specs.declared.fault.Fault.TheVariants as cause;
ghost use Rattle.jarray.specs.Placed.{Gives};
ghost use Rattle.jselect.specs.Copies as copies;
ghost use Rattle.jselect.specs.Items as items;
ghost use Rattle.jselect.specs.Arguments.{is_count};
ghost use Rattle.jselect.specs.Picking as picking;

use crate::items::{Plan, copies};
use crate::numbers::{are_counts, total_of};
use crate::whole::limited;
use jarray::{Array, Room};
use jdata::{Fault, NoMemory, Tree, Trouble, product_of, product_within};
use std::alloc::Global;

/// The number of items, which is 1 for an atom.
pub fn tally(_alloc: Global, room: &mut Room, y: Array) -> Result<Array, Trouble>
    ensures { Gives (copies.counted y.noun) result }
{
    let count = item_count(room, &y);
    y.done(room);
    Ok(Array::atom(count as i64))
}

/// How many items `y` has.
pub fn item_count(room: &Room, y: &Array) -> u64
    ensures value { result ≡ items.item_count y.now.noun }
    ensures at_most { result ≤ most_atoms }
{
    match y.shape(room) {
        [] => 1,
        [first, ..] => *first,
    }
}

/// The items of `y`, each as often as the number of `x` for it says; an atom on either side serves
/// each item of the other. Faults: Domain, Length, Limit.
pub fn copy(alloc: Global, room: &mut Room, x: Array, y: Array) -> Result<Array, Trouble>
    ensures { Gives (copies.copied x.noun y.noun) result }
{
    let copies = copied(alloc, room, &x, &y);
    x.done(room);
    y.done(room);
    match copies {
        Ok(tree) => Ok(Array::of(tree)),
        Err(trouble) => Err(trouble),
    }
}

fn copied(alloc: Global, room: &Room, x: &Array, y: &Array) -> Result<Tree, Trouble>
    ensures { Answers (copies.copied x.now.noun y.now.noun) result }
{
    let counts = match x.numbers(room) {
        Some(numbers) => numbers,
        None => return Err(Trouble::Fault(Fault::Domain)),
    };
    if !are_counts(counts) {
        return Err(Trouble::Fault(Fault::Domain));
    }
    let one_count = is_alone(x.shape(room));
    match shared_count(one_count, counts.len(), y.shape(room)) {
        Ok(number) => copied_items(alloc, room, counts, one_count, number, y),
        Err(fault) => Err(Trouble::Fault(fault)),
    }
}

/// The copies, where the counts and the items go together.
fn copied_items(
    alloc: Global,
    room: &Room,
    counts: &[i64],
    one_count: bool,
    number: usize,
    y: &Array,
) -> Result<Tree, Trouble>
    requires counts { list_all is_count counts.now ≡ true }
    requires number { copies.shared_count one_count (length counts.now) (shape y.now.noun) ≡ Ok number }
    requires alone { one_count ≡ true → length counts.now ≡ 1 }
    ensures { Answers (limited (picking.items_at (picking.repeated (copies.count_at one_count counts.now) (picking.served (picking.is_alone (shape y.now.noun))) number) y.now.noun)) result }
{
    let axes = y.shape(room);
    let item = further_axes(axes);
    let total = total_of(one_count, counts, number);
    let shape = list_shape(alloc, total, item)?;
    let atoms = match product_within(shape.as_slice()) {
        Some(atoms) => atoms as usize,
        None => return Err(Trouble::Fault(Fault::Limit)),
    };
    let one_item = is_alone(axes);
    let plan = Plan {
        counts,
        one_count,
        one_item,
        number,
        cell: product_of(item) as usize,
        atoms,
    };
    let leaves = copies(alloc, plan, y.leaf(room))?;
    limited(shape, leaves)
}

/// The shape of so many items.
fn list_shape(alloc: Global, count: u64, item: &[u64]) -> Result<Vec<u64>, NoMemory>
    ensures { IfOk result (λ shape. shape.items ≡ count ∷ item.now) }
{
    let mut shape = Vec::with_capacity(alloc, item.len() + 1)?;
    shape.push(count)?;
    shape.extend_from_slice(item)?;
    Ok(shape)
}

/// The shape of an item of an array of this shape.
pub fn further_axes(axes: &[u64]) -> &[u64]
    ensures { result.now ≡ items.further_axes axes.now }
{
    match axes {
        [] => &[],
        [_, further @ ..] => further,
    }
}

/// Whether an array of this shape is an atom.
pub fn is_alone(axes: &[u64]) -> bool
    ensures { result ≡ picking.is_alone axes.now }
{
    match axes {
        [] => true,
        [..] => false,
    }
}

/// How many items both have, where an atom is extended to the other's.
fn shared_count(alone: bool, numbers: usize, axes: &[u64]) -> Result<usize, Fault>
    ensures { result ≡ copies.shared_count alone numbers axes.now }
{
    match (alone, axes) {
        (true, []) => Ok(1),
        (true, [first, ..]) => Ok(*first as usize),
        (false, []) => Ok(numbers),
        (false, [first, ..]) => same_count(numbers, *first as usize),
    }
}

fn same_count(left: usize, right: usize) -> Result<usize, Fault>
    ensures { result ≡ (if left == right then Ok left else Err cause.Length) }
{
    if left == right {
        Ok(left)
    } else {
        Err(Fault::Length)
    }
}
