//! Arrays joined along the first axis.

ghost use Rattle.std.specs.Prelude.{◌≡◌, ◌≤◌, ◌⊎◌, ◌++◌, ◌∷◌, [], true, IfOk, OnOk, length, map};
ghost use Rattle.std.specs.List.{All, range_with_len, flat_map};
ghost use Rattle.jdata.specs.Answers.{Answers};
ghost use Rattle.jdata.specs.Limits.{limited as in_limits, most_atoms};
ghost use Rattle.jdata.specs.Noun as noun;
ghost use Rattle.jdata.specs.Noun.{product, extent, greatest};
ghost use Rattle.jdata.specs.Trees.{kind_of, atoms_of};
ghost use Rattle.jframe.specs.Assembly.{common_kind as kind_of_all, kinds_agree};
ghost use Rattle.jframe.specs.Joining as meant;
ghost use Rattle.jframe.specs.Blocks.{CanJoin, block};

use crate::assembly::limited;
use crate::common::{greatest_rank, raised_axis};
use crate::joining::add;
use crate::kinds::common_kind;
use jdata::{Cell, Fault, Item, Kind, Leaves, NoMemory, Tree, Trouble, product_of, product_within};
use std::alloc::Global;

/// The arrays joined along the first axis, their items filled to one shape; an atom fills one item.
/// The faults are Domain, for kinds that differ, and then Limit.
pub fn join_arrays(alloc: Global, arrays: Vec<Tree>) -> Result<Tree, Trouble>
    requires { length arrays.items ≤ most_atoms }
    ensures { Answers (meant.items_joined arrays.items) result }
{
    match common_kind(arrays.as_slice()) {
        Some(kind) => join_kind(alloc, kind, arrays),
        None => Err(Trouble::Fault(Fault::Domain)),
    }
}

fn join_kind(alloc: Global, kind: Kind, arrays: Vec<Tree>) -> Result<Tree, Trouble>
    requires few { length arrays.items ≤ most_atoms }
    requires kind { kind ≡ kind_of_all arrays.items }
    requires agree { kinds_agree arrays.items ≡ true }
    ensures { Answers (in_limits (meant.whole_joined arrays.items)) result }
{
    let rank = greatest_rank(arrays.as_slice()).max(1);
    let item = match item_axes(alloc, arrays.as_slice(), rank) {
        Ok(item) => item,
        Err(NoMemory) => return Err(Trouble::NoMemory),
    };
    let count = count_items(arrays.as_slice(), rank);
    let axes = match axes_of(alloc, count, item.as_slice()) {
        Ok(axes) => axes,
        Err(NoMemory) => return Err(Trouble::NoMemory),
    };
    let Some(total) = product_within(axes.as_slice()) else {
        return Err(Trouble::Fault(Fault::Limit));
    };
    match joined_atoms(alloc, kind, count, item.as_slice(), arrays, total) {
        Ok(atoms) => limited(axes, atoms),
        Err(NoMemory) => Err(Trouble::NoMemory),
    }
}

/// The greatest length on each axis of an item.
fn item_axes(alloc: Global, arrays: &[Tree], rank: usize) -> Result<Vec<u64>, NoMemory>
    requires { rank ≡ meant.joined_rank arrays.now }
    ensures { IfOk result (λ v. v.items ≡ meant.item_joined arrays.now) }
{
    let mut axes = Vec::with_capacity(alloc, rank)?;
    for axis in 1..rank {
        axes.push(greatest_given(arrays, rank, axis))?;
    }
    Ok(axes)
}

fn greatest_given(arrays: &[Tree], rank: usize, axis: usize) -> u64
    ensures { result ≡ greatest (map (meant.axis_given rank axis) arrays.now) }
{
    let mut greatest = 0;
    for tree in arrays {
        greatest = greatest.max(axis_given(tree, rank, axis));
    }
    greatest
}

fn axis_given(tree: &Tree, rank: usize, axis: usize) -> u64
    ensures { result ≡ meant.axis_given rank axis tree.now }
{
    let axes = tree.shape();
    if axes.is_empty() {
        0
    } else {
        raised_axis(axes, rank, axis)
    }
}

fn items_given(tree: &Tree, rank: usize) -> u64
    ensures value { result ≡ meant.items_given rank tree.now }
    ensures few { result ≤ most_atoms }
{
    raised_axis(tree.shape(), rank, 0)
}

fn count_items(arrays: &[Tree], rank: usize) -> u64
    requires { length arrays.now ≤ most_atoms }
    ensures { result ≡ meant.count_joined rank arrays.now }
{
    let mut count = 0;
    for tree in arrays {
        count += items_given(tree, rank);
    }
    count
}

fn axes_of(alloc: Global, count: u64, item: &[u64]) -> Result<Vec<u64>, NoMemory>
    ensures { IfOk result (λ v. v.items ≡ count ∷ item.now) }
{
    let mut axes = Vec::with_capacity(alloc, item.len())?;
    axes.push(count)?;
    axes.extend_from_slice(item)?;
    Ok(axes)
}

fn joined_atoms(
    alloc: Global,
    kind: Kind,
    count: u64,
    item: &[u64],
    arrays: Vec<Tree>,
    total: u64,
) -> Result<Leaves, NoMemory>
    requires kind { kind ≡ kind_of_all arrays.items }
    requires agree { kinds_agree arrays.items ≡ true }
    requires item { item.now ≡ meant.item_joined arrays.items }
    requires count { count ≡ meant.count_joined (meant.joined_rank arrays.items) arrays.items }
    requires bound { extent (count ∷ item.now) ≤ most_atoms }
    requires total { total ≡ product (count ∷ item.now) }
    ensures kind { IfOk result (λ l. kind_of l ≡ kind) }
    ensures atoms { IfOk result (λ l. atoms_of l ≡ flat_map (block kind item.now) arrays.items) }
{
    match kind {
        Kind::Int => join_items::<i64>(alloc, item, arrays, total),
        Kind::Char => join_items::<u8>(alloc, item, arrays, total),
        Kind::Boxed => join_items::<Cell>(alloc, item, arrays, total),
    }
}

/// The atoms of each array in items of this shape, one array after the other.
fn join_items<T: Item>(
    alloc: Global,
    item: &[u64],
    arrays: Vec<Tree>,
    total: u64,
) -> Result<Leaves, NoMemory>
    requires { All (CanJoin T.kind item.now) arrays.items }
    ensures kind { IfOk result (λ l. kind_of l ≡ T.kind) }
    ensures atoms { IfOk result (λ l. atoms_of l ≡ flat_map (block T.kind item.now) arrays.items) }
{
    let mut items = Vec::with_capacity(alloc, total as usize)?;
    for tree in arrays {
        match add_array::<T>(alloc, item, tree, &mut items) {
            Ok(()) => {}
            Err(NoMemory) => return Err(NoMemory),
        }
    }
    Ok(T::leaves_of(items))
}

fn add_array<T: Item>(
    alloc: Global,
    item: &[u64],
    tree: Tree,
    items: &mut Vec<T>,
) -> Result<(), NoMemory>
    requires { CanJoin T.kind item.now tree }
    ensures { OnOk result (map T.atom items.new.items ≡ map T.atom items.old.items ++ block T.kind item.now tree) }
{
    if tree.shape().is_empty() {
        return add_atom::<T>(alloc, product_of(item), tree, items);
    }
    let count = items_given(&tree, item.len() + 1);
    let axes = axes_of(alloc, count, item)?;
    add::<T>(alloc, axes.as_slice(), tree, items)
}

/// The atom, so many times.
fn add_atom<T: Item>(
    alloc: Global,
    count: u64,
    tree: Tree,
    items: &mut Vec<T>,
) -> Result<(), NoMemory>
    requires { (noun.kind tree ≡ T.kind) ⊎ (noun.atoms tree ≡ []) }
    ensures { OnOk result (map T.atom items.new.items ≡ map T.atom items.old.items ++ flat_map (λ p. noun.atoms tree) (range_with_len 0 count)) }
{
    let (_, leaves) = tree.into_parts();
    let own = T::items_of(alloc, leaves);
    for _ in 0..count {
        T::push_copies(alloc, own.as_slice(), items)?;
    }
    Ok(())
}
