//! Cells of an array that are replaced: one pass over the numbers, and one over the cells.

ghost use Rattle.std.specs.Prelude.{◌≡◌, ◌⊎◌, ◌*◌, ◌<◌, ◌++◌, IfOk, OnOk, length, map};
ghost use Rattle.std.specs.List.{All, range_with_len};
ghost use Rattle.jdata.specs.Fills.{fill_of};
ghost use Rattle.jdata.specs.Leaf.{kind_in, atoms_in};
ghost use Rattle.jdata.specs.Trees.{kind_of, atoms_of};
ghost use Rattle.jamend.specs.Replacing as meant;
ghost use Rattle.jamend.specs.Replacing.{Divides};

use jdata::{Item, Leaf, Leaves, NoMemory};
use jselect::{push_times, run};
use std::alloc::Global;

/// Cells of an array that are replaced, by their numbers, where each has `size` atoms.
#[derive(Clone, Copy)]
pub struct Cells<'a> {
    pub numbers: &'a [u64],
    pub size: usize,
    /// How many cells the array has, with those that stay.
    pub count: usize,
}

/// The atoms of `y`, where those of `x` stand for the cells.
pub fn replaced(
    alloc: Global,
    x: Leaf<'_>,
    y: Leaf<'_>,
    cells: Cells<'_>,
) -> Result<Leaves, NoMemory>
    requires kind { kind_in x ≡ kind_in y }
    requires whole { length (atoms_in y) ≡ cells.count * cells.size }
    requires within { All (λ n. n < cells.count) cells.numbers.now }
    requires some { 0 < length (atoms_in x) }
    requires sized { 0 < cells.size }
    requires parts { Divides cells.size (length (atoms_in x)) ⊎ Divides (length (atoms_in x)) cells.size }
    ensures kind { IfOk result (λ l. kind_of l ≡ kind_in y.entry) }
    ensures atoms { IfOk result (λ l. atoms_of l ≡ meant.replaced (fill_of (kind_in y.entry)) (atoms_in x.entry) (atoms_in y.entry) cells.entry.numbers.now cells.entry.size (length (atoms_in y.entry))) }
{
    match (x, y) {
        (Leaf::Int(xs), Leaf::Int(ys)) => replaced_items(alloc, xs, ys, cells),
        (Leaf::Char(xs), Leaf::Char(ys)) => replaced_items(alloc, xs, ys, cells),
        (Leaf::Cell(xs), Leaf::Cell(ys)) => replaced_items(alloc, xs, ys, cells),
        _ => unreachable!(),
    }
}

fn replaced_items<T: Item>(
    alloc: Global,
    x: &[T],
    y: &[T],
    cells: Cells<'_>,
) -> Result<Leaves, NoMemory>
    requires whole { length y.now ≡ cells.count * cells.size }
    requires within { All (λ n. n < cells.count) cells.numbers.now }
    requires some { 0 < length x.now }
    requires sized { 0 < cells.size }
    requires parts { Divides cells.size (length x.now) ⊎ Divides (length x.now) cells.size }
    ensures kind { IfOk result (λ l. kind_of l ≡ T.kind) }
    ensures atoms { IfOk result (λ l. atoms_of l ≡ meant.replaced (fill_of T.kind) (map T.atom x.now) (map T.atom y.now) cells.entry.numbers.now cells.entry.size (length y.now)) }
{
    let last = last_places(alloc, cells.numbers, cells.count)?;
    let mut replaced = Vec::with_capacity(alloc, y.len())?;
    for number in 0..cells.count {
        match last[number] {
            Some(place) => push_cell(alloc, x, place, cells.size, &mut replaced)?,
            None => T::push_copies(alloc, run(y, number, cells.size), &mut replaced)?,
        }
    }
    Ok(T::leaves_of(replaced))
}

/// For each number below `count` the last place where it stands among the numbers.
fn last_places(alloc: Global, numbers: &[u64], count: usize) -> Result<Vec<Option<usize>>, NoMemory>
    requires { All (λ n. n < count) numbers.now }
    ensures { IfOk result (λ v. v.items ≡ map (meant.last_place numbers.now (length numbers.now)) (range_with_len 0 count)) }
{
    let mut last = vec![in alloc; None; count]?;
    for place in 0..numbers.len() {
        last[numbers[place] as usize] = Some(place);
    }
    Ok(last)
}

/// The atoms of one cell: a part of the items, or all of them again and again.
fn push_cell<T: Item>(
    alloc: Global,
    items: &[T],
    place: usize,
    size: usize,
    into: &mut Vec<T>,
) -> Result<(), NoMemory>
    requires some { 0 < length items.now }
    requires sized { 0 < size }
    requires parts { Divides size (length items.now) ⊎ Divides (length items.now) size }
    ensures { OnOk result (into.new.items ≡ into.old.items ++ map (meant.atom_of_cell T.blank items.now size place) (range_with_len 0 size)) }
{
    if size < items.len() {
        let part = place % (items.len() / size);
        T::push_copies(alloc, run(items, part, size), into)
    } else {
        let times = size / items.len();
        push_times(alloc, items, 0, items.len(), times as u64, into)
    }
}
