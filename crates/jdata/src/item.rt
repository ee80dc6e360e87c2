//! What an array keeps for each of its atoms, kind by kind, and fills.

ghost use Rattle.std.specs.Prelude.{◌≡◌, ◌++◌, ◌⊎◌, List, [], ◌∷◌, ℤ, pos, refl, IfOk, OnOk, map, replicate, length};
ghost use Rattle.jdata.specs.Trees.{kind_of, atoms_of, atom_of};
ghost use Rattle.jdata.specs.Noun.{noun};
ghost use Rattle.jdata.specs.declared.noun.Kind.{Kind};
ghost use Rattle.jdata.specs.declared.noun.Kind.TheVariants as sort;
ghost use Rattle.jdata.specs.declared.noun.Atom.{Atom};
ghost use Rattle.jdata.specs.declared.noun.Atom.TheVariants as atom;
ghost use Rattle.jdata.specs.declared.tree.Cell.TheVariants as cell;
ghost use Rattle.jdata.specs.Fills.{fill_of};

use crate::fault::NoMemory;
use crate::noun::Kind;
use crate::sequence::{Bytes, IntList};
use crate::tree::{Cell, CellList, Leaves, Tree};
use std::alloc::Global;

/// What arrays of one kind keep for each of their atoms.
pub trait Item: Drop {
    ghost kind: { Kind };

    ghost atom: { Self → Atom };

    ghost blank: { Self };

    /// The fill of the kind.
    fn fill(alloc: Global) -> Result<Self, NoMemory>
        ensures { IfOk result (λ x. x ≡ blank) };

    /// The atoms of an array of the kind, or of one without atoms.
    fn items_of(alloc: Global, leaves: Leaves) -> Vec<Self>
        requires { (kind_of leaves ≡ kind) ⊎ (atoms_of leaves ≡ []) }
        ensures { map atom result.items ≡ atoms_of leaves };

    fn leaves_of(items: Vec<Self>) -> Leaves
        ensures kind { kind_of result ≡ kind }
        ensures atoms { atoms_of result ≡ map atom items.items };

    /// Copies of the items, at the end of others.
    fn push_copies(alloc: Global, items: &[Self], into: &mut Vec<Self>) -> Result<(), NoMemory>
        ensures { OnOk result (into.new.items ≡ into.old.items ++ items.now) };

    ghost blank_is: { atom blank ≡ fill_of kind };
}

impl Item for i64 {
    ghost kind = { sort.Int };

    ghost atom = { atom.Int };

    ghost blank = { pos 0 };

    fn fill(_alloc: Global) -> Result<i64, NoMemory> {
        Ok(0)
    }

    fn items_of(alloc: Global, leaves: Leaves) -> Vec<i64> {
        match leaves {
            Leaves::Int(numbers) => numbers.into_items(),
            Leaves::Char(_) => Vec::new(alloc),
            Leaves::Cell(_) => Vec::new(alloc),
        }
    }

    fn leaves_of(items: Vec<i64>) -> Leaves
        ensures kind { kind_of result ≡ sort.Int }
        ensures atoms { atoms_of result ≡ map atom.Int items.items }
    {
        Leaves::Int(IntList::of(items))
    }

    fn push_copies(_alloc: Global, items: &[i64], into: &mut Vec<i64>) -> Result<(), NoMemory> {
        into.extend_from_slice(items)?;
        Ok(())
    }

    ghost blank_is = { refl };
}

impl Item for u8 {
    ghost kind = { sort.Char };

    ghost atom = { atom.Char };

    ghost blank = { 32 };

    fn fill(_alloc: Global) -> Result<u8, NoMemory> {
        Ok(b' ')
    }

    fn items_of(alloc: Global, leaves: Leaves) -> Vec<u8> {
        match leaves {
            Leaves::Int(_) => Vec::new(alloc),
            Leaves::Char(bytes) => bytes.into_items(),
            Leaves::Cell(_) => Vec::new(alloc),
        }
    }

    fn leaves_of(items: Vec<u8>) -> Leaves
        ensures kind { kind_of result ≡ sort.Char }
        ensures atoms { atoms_of result ≡ map atom.Char items.items }
    {
        Leaves::Char(Bytes::of(items))
    }

    fn push_copies(_alloc: Global, items: &[u8], into: &mut Vec<u8>) -> Result<(), NoMemory> {
        into.extend_from_slice(items)?;
        Ok(())
    }

    ghost blank_is = { refl };
}

impl Item for Cell {
    ghost kind = { sort.Boxed };

    ghost atom = { atom_of };

    ghost blank = { cell.Boxed (noun (0 ∷ []) sort.Int []) };

    fn fill(alloc: Global) -> Result<Cell, NoMemory> {
        let axes = Vec::from_slice(alloc, &[0])?;
        match Tree::new(axes, Leaves::Int(IntList::of(Vec::new(alloc)))) {
            Ok(content) => Ok(Cell::Boxed(content)),
            Err(_) => unreachable!(),
        }
    }

    fn items_of(alloc: Global, leaves: Leaves) -> Vec<Cell> {
        match leaves {
            Leaves::Int(_) => Vec::new(alloc),
            Leaves::Char(_) => Vec::new(alloc),
            Leaves::Cell(cells) => cells.into_items(),
        }
    }

    fn leaves_of(items: Vec<Cell>) -> Leaves
        ensures kind { kind_of result ≡ sort.Boxed }
        ensures atoms { atoms_of result ≡ map atom_of items.items }
    {
        Leaves::Cell(CellList::of(items))
    }

    fn push_copies(alloc: Global, items: &[Cell], into: &mut Vec<Cell>) -> Result<(), NoMemory> {
        for cell in items {
            into.push(cell.copy(alloc)?)?;
        }
        Ok(())
    }

    ghost blank_is = { refl };
}

/// So many fills, at the end of the items.
pub fn push_fills<T: Item>(alloc: Global, items: &mut Vec<T>, count: u64) -> Result<(), NoMemory>
    ensures { OnOk result (items.new.items ≡ items.old.items ++ replicate count T.blank) }
{
    for _ in 0..count {
        items.push(T::fill(alloc)?)?;
    }
    Ok(())
}

/// So many fills of a kind.
pub fn filled(alloc: Global, kind: Kind, count: u64) -> Result<Leaves, NoMemory>
    ensures kind { IfOk result (λ l. kind_of l ≡ kind) }
    ensures atoms { IfOk result (λ l. atoms_of l ≡ replicate count (fill_of kind)) }
{
    match kind {
        Kind::Int => filled_with::<i64>(alloc, count),
        Kind::Char => filled_with::<u8>(alloc, count),
        Kind::Boxed => filled_with::<Cell>(alloc, count),
    }
}

fn filled_with<T: Item>(alloc: Global, count: u64) -> Result<Leaves, NoMemory>
    ensures kind { IfOk result (λ l. kind_of l ≡ T.kind) }
    ensures atoms { IfOk result (λ l. atoms_of l ≡ replicate count (fill_of T.kind)) }
{
    let mut items = Vec::with_capacity(alloc, count as usize)?;
    push_fills::<T>(alloc, &mut items, count)?;
    Ok(T::leaves_of(items))
}
