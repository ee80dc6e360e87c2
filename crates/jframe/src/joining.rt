//! The atoms of results, one result after the other.

ghost use Rattle.std.specs.Prelude.{◌≡◌, ◌≤◌, ◌++◌, ◌⊎◌, [], IfOk, OnOk, length, map};
ghost use Rattle.std.specs.List.{All, flat_map};
ghost use Rattle.jdata.specs.Limits.{most_atoms};
ghost use Rattle.jdata.specs.Noun.{shape, kind, atoms, extent};
ghost use Rattle.jdata.specs.Trees.{kind_of, atoms_of};
ghost use Rattle.jframe.specs.Padding.{Joins, joined};

use crate::common::raised;
use crate::padding::pad;
use jdata::{Item, Leaves, NoMemory, Tree};
use std::alloc::Global;
use std::collections::VecDeque;

/// The atoms of each result in the shape `whole`, one result after the other.
pub fn join<T: Item>(
    alloc: Global,
    whole: &[u64],
    results: Vec<Tree>,
    count: u64,
) -> Result<Leaves, NoMemory>
    requires join { All (λ v. Joins T.kind whole.now v) results.items }
    requires bound { extent whole.now ≤ most_atoms }
    ensures kind { IfOk result (λ l. kind_of l ≡ T.kind) }
    ensures atoms { IfOk result (λ l. atoms_of l ≡ flat_map (λ v. joined T.kind whole.now v) results.items) }
{
    let mut items = Vec::with_capacity(alloc, count as usize)?;
    for tree in results {
        match add::<T>(alloc, whole, tree, &mut items) {
            Ok(()) => {}
            Err(NoMemory) => return Err(NoMemory),
        }
    }
    Ok(T::leaves_of(items))
}

pub fn add<T: Item>(
    alloc: Global,
    whole: &[u64],
    tree: Tree,
    items: &mut Vec<T>,
) -> Result<(), NoMemory>
    requires joins { Joins T.kind whole.now tree }
    requires bound { extent whole.now ≤ most_atoms }
    ensures { OnOk result (map T.atom items.new.items ≡ map T.atom items.old.items ++ joined T.kind whole.now tree) }
{
    let fits = tree.shape() == whole;
    let (axes, leaves) = tree.into_parts();
    let mut own = T::items_of(alloc, leaves);
    if fits {
        items.append(&mut own)?;
        return Ok(());
    }
    let part = raised(alloc, axes.as_slice(), whole.len())?;
    let mut rest = VecDeque::from(own);
    pad(alloc, whole, part.as_slice(), &mut rest, items)
}
