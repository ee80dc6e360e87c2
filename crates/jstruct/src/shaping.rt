//! The atoms of an array in other axes.

ghost use Rattle.std.specs.Prelude.{◌≡◌, ◌≢◌, ◌==◌, ◌&&◌, not, ◌<◌, ◌≤◌, ◌++◌, ◌%◌, ◌∷◌, IfOk, ℕ, pos, length, map, get_or, take};
ghost use Rattle.std.specs.List.{All, range_with_len};
ghost use Rattle.jdata.specs.Leaf.{kind_in, atoms_in};
ghost use Rattle.jdata.specs.Limits.{IsShape};
ghost use Rattle.jdata.specs.Noun.{product};
ghost use Rattle.jdata.specs.Trees.{kind_of, atoms_of};
ghost use Rattle.jdata.specs.declared.noun.Atom.{Atom};
ghost use Rattle.jarray.specs.Placed.{Gives};
ghost use Rattle.jstruct.specs.Items.{first_axis, further_axes, item_axes};
ghost use Rattle.jstruct.specs.Shaping as meant;

use crate::arguments::counts;
use crate::made::{array_of, size_of};
use jarray::{Array, Room};
use jdata::{Fault, IntList, Item, Leaf, Leaves, NoMemory, Trouble, product_of};
use std::alloc::Global;

/// `$ y`: the shape, a list of integers.
pub fn shape_of(alloc: Global, room: &mut Room, y: Array) -> Result<Array, Trouble>
    ensures { Gives (meant.shape_of y.noun) result }
{
    let numbers = axis_numbers(alloc, y.shape(room))?;
    let axes = Vec::from_slice(alloc, &[numbers.len() as u64])?;
    array_of(axes, Leaves::Int(IntList::of(numbers)))
}

fn axis_numbers(alloc: Global, axes: &[u64]) -> Result<Vec<i64>, NoMemory>
    requires { IsShape axes.now }
    ensures { IfOk result (λ v. v.items ≡ map pos axes.now) }
{
    let mut numbers = Vec::with_capacity(alloc, axes.len())?;
    for &axis in axes {
        numbers.push(axis as i64)?;
    }
    Ok(numbers)
}

/// `, y`: the atoms in a list, in the same buffer.
pub fn ravel(alloc: Global, room: &mut Room, y: Array) -> Result<Array, Trouble>
    ensures { Gives (meant.ravelled y.noun) result }
{
    let (_, atoms) = y.into_tree(alloc, room)?.into_parts();
    let shape = Vec::from_slice(alloc, &[atoms.len()])?;
    array_of(shape, atoms)
}

/// `,. y`: the atoms of each item in a list, in the same buffer.
pub fn ravel_items(alloc: Global, room: &mut Room, y: Array) -> Result<Array, Trouble>
    ensures { Gives (meant.items_ravelled y.noun) result }
{
    let tree = y.into_tree(alloc, room)?;
    let count = item_count(tree.shape());
    let size = item_size(tree.shape());
    let shape = Vec::from_slice(alloc, &[count, size])?;
    let (_, atoms) = tree.into_parts();
    array_of(shape, atoms)
}

/// `,: y`: the array as the only item of another, in the same buffer. The only fault is Limit.
pub fn itemize(alloc: Global, room: &mut Room, y: Array) -> Result<Array, Trouble>
    ensures { Gives (meant.itemized y.noun) result }
{
    let (mut shape, atoms) = y.into_tree(alloc, room)?.into_parts();
    shape.insert(0, 1)?;
    array_of(shape, atoms)
}

/// `x $ y`: as many items as the counts `x` say, each of the shape of the items of `y`, whose
/// items are taken in order, again and again. The faults are Domain, for counts that are negative
/// or no integers, Length, where there are no items to take, and Limit.
pub fn reshape(alloc: Global, room: &mut Room, x: Array, y: Array) -> Result<Array, Trouble>
    ensures { Gives (meant.reshaped x.noun y.noun) result }
{
    let numbers = match counts(alloc, room, &x) {
        Ok(numbers) => numbers,
        Err(trouble) => return Err(trouble),
    };
    let mut axes = numbers.into_items();
    axes.extend_from_slice(item_axes(y.shape(room)))?;
    fill_axes(alloc, room, axes, y)
}

/// The atoms of an array again and again in these axes.
fn fill_axes(alloc: Global, room: &mut Room, axes: Vec<u64>, y: Array) -> Result<Array, Trouble>
    requires { product axes.items ≢ 0 → product (item_axes y.noun) ≢ 0 }
    ensures { Gives (meant.filled_axes axes.items y.noun) result }
{
    if lacks_items(item_count(y.shape(room)), axes.as_slice()) {
        return Err(Trouble::Fault(Fault::Length));
    }
    let size = match size_of(axes.as_slice()) {
        Ok(size) => size,
        Err(trouble) => return Err(trouble),
    };
    let atoms = match again(alloc, y.leaf(room), size) {
        Ok(atoms) => atoms,
        Err(NoMemory) => return Err(Trouble::NoMemory),
    };
    array_of(axes, atoms)
}

/// Whether no items are to fill axes that want some.
fn lacks_items(count: u64, axes: &[u64]) -> bool
    ensures { result ≡ (count == 0 && not (product axes.now == 0)) }
{
    count == 0 && !has_zero(axes)
}

fn has_zero(axes: &[u64]) -> bool
    ensures { result ≡ (product axes.now == 0) }
{
    axes.contains(&0)
}

fn again(alloc: Global, atoms: Leaf<'_>, size: u64) -> Result<Leaves, NoMemory>
    requires { 0 < size → 0 < length (atoms_in atoms) }
    ensures kind { IfOk result (λ l. kind_of l ≡ kind_in atoms.entry) }
    ensures atoms { (d : Atom) → IfOk result (λ l. atoms_of l ≡ map (λ p. get_or (atoms_in atoms.entry) (p % length (atoms_in atoms.entry)) d) (range_with_len 0 size)) }
{
    match atoms {
        Leaf::Int(numbers) => items_again(alloc, numbers, size),
        Leaf::Char(bytes) => items_again(alloc, bytes, size),
        Leaf::Cell(cells) => items_again(alloc, cells, size),
    }
}

fn items_again<T: Item>(alloc: Global, items: &[T], size: u64) -> Result<Leaves, NoMemory>
    requires { 0 < size → 0 < length items.now }
    ensures kind { IfOk result (λ l. kind_of l ≡ T.kind) }
    ensures atoms { (d : Atom) → IfOk result (λ l. atoms_of l ≡ map (λ p. get_or (map T.atom items.now) (p % length items.now) d) (range_with_len 0 size)) }
{
    let mut made = Vec::with_capacity(alloc, size as usize)?;
    let count = items.len() as u64;
    if count == 0 {
        return Ok(T::leaves_of(made));
    }
    for _ in 0..size / count {
        T::push_copies(alloc, items, &mut made)?;
    }
    T::push_copies(alloc, &items[..(size % count) as usize], &mut made)?;
    Ok(T::leaves_of(made))
}

pub fn item_count(axes: &[u64]) -> u64
    ensures { result ≡ first_axis axes.now }
{
    axes.first().copied().unwrap_or(1)
}

pub fn item_axes(axes: &[u64]) -> &[u64]
    ensures { result.now ≡ further_axes axes.now }
{
    if axes.is_empty() { axes } else { &axes[1..] }
}

pub fn item_size(axes: &[u64]) -> u64
    requires { IsShape axes.now }
    ensures { result ≡ product (further_axes axes.now) }
{
    product_of(item_axes(axes))
}
