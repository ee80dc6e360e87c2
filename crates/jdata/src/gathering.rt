//! Copies of atoms that stand together.

ghost use Rattle.std.specs.Prelude.{◌≡◌, ◌+◌, ◌≤◌, IfOk, length, map, take, drop};
ghost use Rattle.std.specs.List.{All, flat_map};
ghost use Rattle.jdata.specs.Leaf.{kind_in, atoms_in};
ghost use Rattle.jdata.specs.Trees.{kind_of, atoms_of};

use crate::fault::NoMemory;
use crate::item::Item;
use crate::leaf::Leaf;
use crate::tree::Leaves;
use std::alloc::Global;

/// Copies of as many atoms as `count` says from each place on, one range after the other.
pub fn gather(
    alloc: Global,
    atoms: Leaf<'_>,
    places: &[u64],
    count: u64,
) -> Result<Leaves, NoMemory>
    requires within { All (λ p. p + count ≤ length (atoms_in atoms)) places.now }
    ensures kind { IfOk result (λ l. kind_of l ≡ kind_in atoms.entry) }
    ensures atoms { IfOk result (λ l. atoms_of l ≡ flat_map (λ p. take count (drop p (atoms_in atoms.entry))) places.now) }
{
    match atoms {
        Leaf::Int(numbers) => gather_items(alloc, numbers, places, count),
        Leaf::Char(bytes) => gather_items(alloc, bytes, places, count),
        Leaf::Cell(cells) => gather_items(alloc, cells, places, count),
    }
}

fn gather_items<T: Item>(
    alloc: Global,
    items: &[T],
    places: &[u64],
    count: u64,
) -> Result<Leaves, NoMemory>
    requires within { All (λ p. p + count ≤ length items.now) places.now }
    ensures kind { IfOk result (λ l. kind_of l ≡ T.kind) }
    ensures atoms { IfOk result (λ l. atoms_of l ≡ flat_map (λ p. take count (drop p (map T.atom items.now))) places.now) }
{
    let mut gathered = Vec::new(alloc);
    for &place in places {
        T::push_copies(alloc, range_of(items, place, count), &mut gathered)?;
    }
    Ok(T::leaves_of(gathered))
}

/// Copies of as many atoms as `count` says from one on.
pub fn copy_range(
    alloc: Global,
    atoms: Leaf<'_>,
    start: u64,
    count: u64,
) -> Result<Leaves, NoMemory>
    requires within { start + count ≤ length (atoms_in atoms) }
    ensures kind { IfOk result (λ l. kind_of l ≡ kind_in atoms.entry) }
    ensures atoms { IfOk result (λ l. atoms_of l ≡ take count (drop start (atoms_in atoms.entry))) }
{
    match atoms {
        Leaf::Int(numbers) => copy_items(alloc, range_of(numbers, start, count)),
        Leaf::Char(bytes) => copy_items(alloc, range_of(bytes, start, count)),
        Leaf::Cell(cells) => copy_items(alloc, range_of(cells, start, count)),
    }
}

fn copy_items<T: Item>(alloc: Global, items: &[T]) -> Result<Leaves, NoMemory>
    ensures kind { IfOk result (λ l. kind_of l ≡ T.kind) }
    ensures atoms { IfOk result (λ l. atoms_of l ≡ map T.atom items.now) }
{
    let mut copies = Vec::with_capacity(alloc, items.len())?;
    T::push_copies(alloc, items, &mut copies)?;
    Ok(T::leaves_of(copies))
}

fn range_of<T>(items: &[T], start: u64, count: u64) -> &[T]
    requires { start + count ≤ length items.now }
    ensures { result.now ≡ take count (drop start items.now) }
{
    let rest = &items[start as usize..];
    &rest[..count as usize]
}
