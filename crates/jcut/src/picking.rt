//! Items of an array, copied.

ghost use Rattle.std.specs.Prelude.{◌≡◌, ℕ, ◌*◌, ◌^◌, ◌<◌, ◌∷◌, IfOk, length, map, slice_index};
ghost use Rattle.jdata.specs.Leaf.{kind_in, atoms_in};
ghost use Rattle.jdata.specs.Limits.{IsArray};
ghost use Rattle.jdata.specs.Trees.{noun_of};
ghost use Rattle.jselect.specs.Items.{item_count as items_of};
ghost use Rattle.jselect.specs.Picking.{items_at};
ghost use Rattle.jcut.specs.Picks.{Picks};
ghost use Rattle.jcut.specs.Runs.{outside, run_places, Fits};

use crate::counting::{further_axes, item_count};
use crate::run::Run;
use jarray::{Array, Room};
use jdata::{Leaves, NoMemory, Tree, copy_range, gather, product_of};
use std::alloc::Global;

/// The items of a run.
pub fn items_within(alloc: Global, room: &Room, y: &Array, run: Run) -> Result<Tree, NoMemory>
    requires { Fits (items_of y.now.noun) run }
    ensures { IfOk result (λ t. t ≡ items_at (run_places run) y.now.noun) }
{
    let item = further_axes(y.shape(room));
    let cell = product_of(item);
    let leaves = copy_range(alloc, y.leaf(room), run.start * cell, run.count * cell)?;
    let shape = list_shape(alloc, run.count, item)?;
    Ok(array(shape, leaves))
}

/// The items before a run and those behind it.
pub fn items_outside(alloc: Global, room: &Room, y: &Array, run: Run) -> Result<Tree, NoMemory>
    requires { Fits (items_of y.now.noun) run }
    ensures { IfOk result (λ t. t ≡ items_at (outside (items_of y.now.noun) run) y.now.noun) }
{
    let item = further_axes(y.shape(room));
    let cell = product_of(item);
    let count = item_count(room, y);
    let end = run.start + run.count;
    let behind = count - end;
    let mut leaves = copy_range(alloc, y.leaf(room), 0, run.start * cell)?;
    let more = copy_range(alloc, y.leaf(room), end * cell, behind * cell)?;
    leaves.append(more)?;
    let shape = list_shape(alloc, run.start + behind, item)?;
    Ok(array(shape, leaves))
}

/// The items at these places.
pub fn items_listed(alloc: Global, room: &Room, y: &Array, places: &[u64]) -> Result<Tree, NoMemory>
    requires { Picks (items_of y.now.noun) places.now }
    ensures { IfOk result (λ t. t ≡ items_at places.now y.now.noun) }
{
    let item = further_axes(y.shape(room));
    let cell = product_of(item);
    let starts = starts_of(alloc, places, cell)?;
    let leaves = gather(alloc, y.leaf(room), starts.as_slice(), cell)?;
    let shape = list_shape(alloc, places.len() as u64, item)?;
    Ok(array(shape, leaves))
}

/// Where the atoms of the items begin.
fn starts_of(alloc: Global, places: &[u64], cell: u64) -> Result<Vec<u64>, NoMemory>
    requires { (k : ℕ) → k < length places.now → slice_index places.now k * cell < 2 ^ 64 }
    ensures { IfOk result (λ v. v.items ≡ map (λ p. p * cell) places.now) }
{
    let mut starts = Vec::with_capacity(alloc, places.len())?;
    for &place in places {
        starts.push(place * cell)?;
    }
    Ok(starts)
}

/// The shape of so many items.
fn list_shape(alloc: Global, count: u64, item: &[u64]) -> Result<Vec<u64>, NoMemory>
    ensures { IfOk result (λ shape. shape.items ≡ count ∷ item.now) }
{
    let mut shape = Vec::with_capacity(alloc, item.len() + 1)?;
    shape.push(count)?;
    shape.extend_from_slice(item)?;
    Ok(shape)
}

/// The array of this shape with these atoms, which are one.
fn array(shape: Vec<u64>, leaves: Leaves) -> Tree
    requires { IsArray (noun_of shape.items leaves) }
    ensures { result ≡ noun_of shape.items leaves }
{
    match Tree::new(shape, leaves) {
        Ok(tree) => tree,
        Err(_) => unreachable!(),
    }
}
