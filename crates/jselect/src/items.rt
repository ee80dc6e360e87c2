//! Items that are copied, one after the other.

ghost use Rattle.std.specs.Prelude.{◌≡◌, ◌+◌, ◌*◌, ◌<◌, ◌≤◌, ◌++◌, true, ℕ, IfOk, OnOk, length, map, take, drop, replicate};
ghost use Rattle.std.specs.List.{list_all};
ghost use Rattle.jdata.specs.Leaf.{kind_in, atoms_in};
ghost use Rattle.jdata.specs.Trees.{kind_of, atoms_of};
ghost use Rattle.jselect.specs.Copies.{count_at};
ghost use Rattle.jselect.specs.Arguments.{is_count};
ghost use Rattle.jselect.specs.Picking.{served, repeated, runs};

use crate::numbers;
use jdata::{Item, Leaf, Leaves, NoMemory};
use std::alloc::Global;

/// Which items are copied: each of `number` items as often as its count says. Counts or items
/// that stand alone serve at each place.
#[derive(Clone, Copy)]
pub struct Plan<'a> {
    pub counts: &'a [i64],
    pub one_count: bool,
    pub one_item: bool,
    pub number: usize,
    pub cell: usize,
    /// How many atoms the copies have.
    pub atoms: usize,
}

/// The copies, of `cell` atoms each.
pub fn copies(alloc: Global, plan: Plan<'_>, atoms: Leaf<'_>) -> Result<Leaves, NoMemory>
    requires counts { list_all is_count plan.counts.now ≡ true }
    requires within { (i : ℕ) → i < plan.number → served plan.one_count i < length plan.counts.now }
    requires items { (i : ℕ) → i < plan.number → served plan.one_item i * plan.cell + plan.cell ≤ length (atoms_in atoms) }
    ensures kind { IfOk result (λ l. kind_of l ≡ kind_in atoms.entry) }
    ensures atoms { IfOk result (λ l. atoms_of l ≡ runs plan.entry.cell (atoms_in atoms.entry) (repeated (count_at plan.entry.one_count plan.entry.counts.now) (served plan.entry.one_item) plan.entry.number)) }
{
    match atoms {
        Leaf::Int(numbers) => copies_of(alloc, plan, numbers),
        Leaf::Char(bytes) => copies_of(alloc, plan, bytes),
        Leaf::Cell(cells) => copies_of(alloc, plan, cells),
    }
}

fn copies_of<T: Item>(alloc: Global, plan: Plan<'_>, items: &[T]) -> Result<Leaves, NoMemory>
    requires counts { list_all is_count plan.counts.now ≡ true }
    requires within { (i : ℕ) → i < plan.number → served plan.one_count i < length plan.counts.now }
    requires items { (i : ℕ) → i < plan.number → served plan.one_item i * plan.cell + plan.cell ≤ length items.now }
    ensures kind { IfOk result (λ l. kind_of l ≡ T.kind) }
    ensures atoms { IfOk result (λ l. atoms_of l ≡ runs plan.entry.cell (map T.atom items.now) (repeated (count_at plan.entry.one_count plan.entry.counts.now) (served plan.entry.one_item) plan.entry.number)) }
{
    let mut copies = Vec::with_capacity(alloc, plan.atoms)?;
    for place in 0..plan.number {
        let count = numbers::count_at(plan.one_count, plan.counts, place);
        let item = numbers::served(plan.one_item, place);
        push_times(alloc, items, item, plan.cell, count, &mut copies)?;
    }
    Ok(T::leaves_of(copies))
}

/// An item of `cell` atoms, so many times.
pub fn push_times<T: Item>(
    alloc: Global,
    items: &[T],
    place: usize,
    cell: usize,
    count: u64,
    into: &mut Vec<T>,
) -> Result<(), NoMemory>
    requires { place * cell + cell ≤ length items.now }
    ensures { OnOk result (into.new.items ≡ into.old.items ++ runs cell items.now (replicate count place)) }
{
    let item = run(items, place, cell);
    for _ in 0..count {
        T::push_copies(alloc, item, into)?;
    }
    Ok(())
}

/// One run of `cell` items, by its number.
pub fn run<T>(items: &[T], place: usize, cell: usize) -> &[T]
    requires { place * cell + cell ≤ length items.now }
    ensures { result.now ≡ take cell (drop (place * cell) items.now) }
{
    let rest = &items[place * cell..];
    &rest[..cell]
}
