//! The axes of an array in another order.

ghost use Rattle.std.specs.Prelude.{◌≡◌, ◌≤◌, ◌+◌, ◌*◌, ◌^◌, ◌++◌, ◌∷◌, [], ℕ, IfOk, OnOk, length, map, get_or, reverse};
ghost use Rattle.jdata.specs.Fills.{fill_of};
ghost use Rattle.jdata.specs.Leaf.{kind_in, atoms_in};
ghost use Rattle.jdata.specs.Limits.{most_atoms, IsShape};
ghost use Rattle.jdata.specs.Noun.{extent};
ghost use Rattle.jdata.specs.Trees.{kind_of, atoms_of};
ghost use Rattle.jarray.specs.Placed.{Gives};
ghost use Rattle.jstruct.specs.Transposing as meant;
ghost use Rattle.jstruct.specs.Weights.{weights_of, picked as picked_items};

use crate::made::array_of;
use jarray::{Array, Room};
use jdata::{Item, Leaf, Leaves, NoMemory, Trouble};
use std::alloc::Global;

/// `|: y`: the axes in reverse order.
pub fn transpose(alloc: Global, room: &mut Room, y: Array) -> Result<Array, Trouble>
    ensures { Gives (meant.transposed y.noun) result }
{
    let (axes, weights) = backward_axes(alloc, y.shape(room))?;
    let atoms = picked(alloc, axes.as_slice(), weights.as_slice(), y.leaf(room))?;
    array_of(axes, atoms)
}

/// The axes and their weights, the last axis's first.
fn backward_axes(alloc: Global, axes: &[u64]) -> Result<(Vec<u64>, Vec<u64>), NoMemory>
    requires { IsShape axes.now }
    ensures axes { IfOk result (λ r. r.0.items ≡ reverse axes.now) }
    ensures weights { IfOk result (λ r. r.1.items ≡ reverse (weights_of axes.now)) }
{
    let mut backward = Vec::with_capacity(alloc, axes.len())?;
    let mut weights = Vec::with_capacity(alloc, axes.len())?;
    let mut weight: u64 = 1;
    for k in 0..axes.len() {
        let axis = axes[axes.len() - 1 - k];
        backward.push(axis)?;
        weights.push(weight)?;
        weight *= axis;
    }
    Ok((backward, weights))
}

/// The atoms at the places of all the indexes of these axes, by weights.
pub fn picked(
    alloc: Global,
    axes: &[u64],
    weights: &[u64],
    atoms: Leaf<'_>,
) -> Result<Leaves, NoMemory>
    requires same { length weights.now ≡ length axes.now }
    requires few { length axes.now ≤ 63 }
    requires short { (k : ℕ) → get_or axes.now k 0 ≤ most_atoms }
    requires light { (k : ℕ) → get_or weights.now k 0 ≤ most_atoms }
    ensures kind { IfOk result (λ l. kind_of l ≡ kind_in atoms.entry) }
    ensures atoms { IfOk result (λ l. atoms_of l ≡ picked_items (fill_of (kind_in atoms.entry)) axes.now weights.now 0 (atoms_in atoms.entry)) }
{
    match atoms {
        Leaf::Int(numbers) => pick_items(alloc, axes, weights, numbers),
        Leaf::Char(bytes) => pick_items(alloc, axes, weights, bytes),
        Leaf::Cell(cells) => pick_items(alloc, axes, weights, cells),
    }
}

fn pick_items<T: Item>(
    alloc: Global,
    axes: &[u64],
    weights: &[u64],
    items: &[T],
) -> Result<Leaves, NoMemory>
    requires same { length weights.now ≡ length axes.now }
    requires few { length axes.now ≤ 63 }
    requires short { (k : ℕ) → get_or axes.now k 0 ≤ most_atoms }
    requires light { (k : ℕ) → get_or weights.now k 0 ≤ most_atoms }
    ensures kind { IfOk result (λ l. kind_of l ≡ T.kind) }
    ensures atoms { IfOk result (λ l. atoms_of l ≡ picked_items (fill_of T.kind) axes.now weights.now 0 (map T.atom items.now)) }
{
    let mut into = Vec::with_capacity(alloc, items.len())?;
    pick(alloc, axes, weights, 0, items, &mut into)?;
    Ok(T::leaves_of(into))
}

/// The items at the places of all the indexes of these axes, from a place on, at the end of others.
#[cycle(picking)]
fn pick<T: Item>(
    alloc: Global,
    axes: &[u64],
    weights: &[u64],
    start: u64,
    items: &[T],
    into: &mut Vec<T>,
) -> Result<(), NoMemory>
    requires same { length weights.now ≡ length axes.now }
    requires near { start + length axes.now * 2 ^ 54 ≤ 63 * 2 ^ 54 }
    requires short { (k : ℕ) → get_or axes.now k 0 ≤ most_atoms }
    requires light { (k : ℕ) → get_or weights.now k 0 ≤ most_atoms }
    ensures { OnOk result (into.new.items ≡ into.old.items ++ picked_items T.blank axes.now weights.now start items.now) }
{
    if axes.is_empty() {
        return push_item(alloc, items, start, into);
    }
    if axes.len() == 1 {
        return pick_run(alloc, axes[0], weights[0], start, items, into);
    }
    pick_along(alloc, axes, weights, start, items, into)
}

#[cycle(picking)]
fn pick_along<T: Item>(
    alloc: Global,
    axes: &[u64],
    weights: &[u64],
    start: u64,
    items: &[T],
    into: &mut Vec<T>,
) -> Result<(), NoMemory>
    requires some { 1 ≤ length axes.now }
    requires same { length weights.now ≡ length axes.now }
    requires near { start + length axes.now * 2 ^ 54 ≤ 63 * 2 ^ 54 }
    requires short { (k : ℕ) → get_or axes.now k 0 ≤ most_atoms }
    requires light { (k : ℕ) → get_or weights.now k 0 ≤ most_atoms }
    ensures { OnOk result (into.new.items ≡ into.old.items ++ picked_items T.blank axes.now weights.now start items.now) }
{
    let weight = weights[0];
    for i in 0..axes[0] {
        match pick(
            alloc,
            &axes[1..],
            &weights[1..],
            start + i * weight,
            items,
            into,
        ) {
            Ok(()) => {}
            Err(NoMemory) => return Err(NoMemory),
        }
    }
    Ok(())
}

/// The items so far apart on one axis, from a place on: the last axis has a loop of its own.
fn pick_run<T: Item>(
    alloc: Global,
    axis: u64,
    weight: u64,
    start: u64,
    items: &[T],
    into: &mut Vec<T>,
) -> Result<(), NoMemory>
    requires near { start + 2 ^ 54 ≤ 63 * 2 ^ 54 }
    requires short { axis ≤ most_atoms }
    requires light { weight ≤ most_atoms }
    ensures { OnOk result (into.new.items ≡ into.old.items ++ picked_items T.blank (axis ∷ []) (weight ∷ []) start items.now) }
{
    for i in 0..axis {
        match push_item(alloc, items, start + i * weight, into) {
            Ok(()) => {}
            Err(NoMemory) => return Err(NoMemory),
        }
    }
    Ok(())
}

/// The item at a place, or a fill behind the last.
fn push_item<T: Item>(
    alloc: Global,
    items: &[T],
    place: u64,
    into: &mut Vec<T>,
) -> Result<(), NoMemory>
    ensures { OnOk result (into.new.items ≡ into.old.items ++ get_or items.now place T.blank ∷ []) }
{
    if place >= items.len() as u64 {
        into.push(T::fill(alloc)?)?;
        return Ok(());
    }
    let from = &items[place as usize..];
    T::push_copies(alloc, &from[..1], into)
}
