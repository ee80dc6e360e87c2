//! The first and the last item.

ghost use Rattle.std.specs.Prelude.{◌≡◌, ◌≤◌, ◌+◌, ◌*◌, IfOk, length, map, get_or};
ghost use Rattle.std.specs.List.{range_with_len};
ghost use Rattle.jdata.specs.Fills.{fill_of};
ghost use Rattle.jdata.specs.Leaf.{kind_in, atoms_in};
ghost use Rattle.jdata.specs.Limits.{limited, most_atoms};
ghost use Rattle.jdata.specs.Trees.{kind_of, atoms_of};
ghost use Rattle.jarray.specs.Placed.{Gives};
ghost use Rattle.jstruct.specs.Ends as meant;
ghost use Rattle.jstruct.specs.Items.{item_at};

use crate::made::array_of;
use crate::shaping::{item_axes, item_count, item_size};
use jarray::{Array, Room};
use jdata::{Leaf, Leaves, NoMemory, Trouble, copy_range, filled};
use std::alloc::Global;

/// `{. y`: the first item; with no items an item of fills.
pub fn head(alloc: Global, room: &mut Room, y: Array) -> Result<Array, Trouble>
    ensures { Gives (meant.headed y.noun) result }
{
    item(alloc, room, &y, 0)
}

/// `{: y`: the last item; with no items an item of fills.
pub fn tail(alloc: Global, room: &mut Room, y: Array) -> Result<Array, Trouble>
    ensures { Gives (meant.tailed y.noun) result }
{
    let last = item_count(y.shape(room)).saturating_sub(1);
    item(alloc, room, &y, last)
}

/// An item; from the number of items on it is of fills.
fn item(alloc: Global, room: &Room, y: &Array, at: u64) -> Result<Array, Trouble>
    ensures { Gives (limited (item_at y.now.noun at)) result }
{
    let axes = y.shape(room);
    let size = item_size(axes);
    let atoms = item_atoms(alloc, y.leaf(room), at, item_count(axes), size)?;
    let shape = Vec::from_slice(alloc, item_axes(axes))?;
    array_of(shape, atoms)
}

/// The atoms of one of so many items of this size, or as many fills.
fn item_atoms(
    alloc: Global,
    atoms: Leaf<'_>,
    at: u64,
    count: u64,
    size: u64,
) -> Result<Leaves, NoMemory>
    requires whole { length (atoms_in atoms) ≡ count * size }
    requires bound { count * size ≤ most_atoms }
    ensures kind { IfOk result (λ l. kind_of l ≡ kind_in atoms.entry) }
    ensures atoms { IfOk result (λ l. atoms_of l ≡ map (λ j. get_or (atoms_in atoms.entry) (at * size + j) (fill_of (kind_in atoms.entry))) (range_with_len 0 size)) }
{
    if at >= count {
        return filled(alloc, atoms.kind(), size);
    }
    copy_range(alloc, atoms, at * size, size)
}
