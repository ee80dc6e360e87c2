//! Items in reverse order.

ghost use Rattle.std.specs.Prelude.{◌≡◌, ◌≤◌, ◌*◌, IfOk, length, map};
ghost use Rattle.jdata.specs.Limits.{most_atoms};
ghost use Rattle.jdata.specs.Trees.{kind_of, atoms_of};
ghost use Rattle.jarray.specs.Placed.{Gives};
ghost use Rattle.jstruct.specs.Ends as meant;
ghost use Rattle.jstruct.specs.Backward.{backward};

use crate::made::array_of;
use crate::shaping::{item_count, item_size};
use jarray::{Array, Room};
use jdata::{Item, Leaves, NoMemory, Trouble};
use std::alloc::Global;

/// `|. y`: the items in reverse order. Atoms that are items change places where they lie.
pub fn reverse(alloc: Global, room: &mut Room, y: Array) -> Result<Array, Trouble>
    ensures { Gives (meant.reversed y.noun) result }
{
    let tree = match y.into_tree(alloc, room) {
        Ok(tree) => tree,
        Err(NoMemory) => return Err(Trouble::NoMemory),
    };
    let count = item_count(tree.shape());
    let size = item_size(tree.shape());
    let (shape, leaves) = tree.into_parts();
    let atoms = backwards(alloc, leaves, count, size)?;
    array_of(shape, atoms)
}

fn backwards(alloc: Global, atoms: Leaves, count: u64, size: u64) -> Result<Leaves, NoMemory>
    requires whole { length (atoms_of atoms) ≡ count * size }
    requires bound { count * size ≤ most_atoms }
    ensures kind { IfOk result (λ l. kind_of l ≡ kind_of atoms) }
    ensures atoms { IfOk result (λ l. atoms_of l ≡ backward count size (atoms_of atoms)) }
{
    match atoms {
        Leaves::Int(numbers) => items_backwards(alloc, numbers.into_items(), count, size),
        Leaves::Char(bytes) => items_backwards(alloc, bytes.into_items(), count, size),
        Leaves::Cell(cells) => items_backwards(alloc, cells.into_items(), count, size),
    }
}

fn items_backwards<T: Item>(
    alloc: Global,
    mut items: Vec<T>,
    count: u64,
    size: u64,
) -> Result<Leaves, NoMemory>
    requires whole { length items.items ≡ count * size }
    requires bound { count * size ≤ most_atoms }
    ensures kind { IfOk result (λ l. kind_of l ≡ T.kind) }
    ensures atoms { IfOk result (λ l. atoms_of l ≡ backward count size (map T.atom items.items)) }
{
    if size == 1 {
        items.reverse();
        return Ok(T::leaves_of(items));
    }
    runs_backwards(alloc, items.as_slice(), count, size)
}

fn runs_backwards<T: Item>(
    alloc: Global,
    items: &[T],
    count: u64,
    size: u64,
) -> Result<Leaves, NoMemory>
    requires whole { length items.now ≡ count * size }
    requires bound { count * size ≤ most_atoms }
    ensures kind { IfOk result (λ l. kind_of l ≡ T.kind) }
    ensures atoms { IfOk result (λ l. atoms_of l ≡ backward count size (map T.atom items.now)) }
{
    let mut made = Vec::with_capacity(alloc, items.len())?;
    for i in 0..count {
        let rest = &items[((count - 1 - i) * size) as usize..];
        T::push_copies(alloc, &rest[..size as usize], &mut made)?;
    }
    Ok(T::leaves_of(made))
}
