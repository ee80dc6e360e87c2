//! Cells of an array, where they lie.

ghost use Rattle.std.specs.Prelude.{◌≡◌, ◌+◌, ◌-◌, ◌*◌, ◌<◌, ◌≤◌, IfOk, length, map, take, drop};
ghost use Rattle.std.specs.List.{range_with_len};
ghost use Rattle.jdata.specs.Leaf.{kind_in, atoms_in};
ghost use Rattle.jdata.specs.Limits.{IsArray};
ghost use Rattle.jdata.specs.Noun.{noun};
ghost use Rattle.jselect.specs.Items as listed;
ghost use Rattle.jselect.specs.Items.{as_list};
ghost use Rattle.jsearch.specs.Codes.{code};
ghost use Rattle.jsearch.specs.Finding as meant;
ghost use Rattle.jsearch.specs.Listed.{whole, cell_in, cell_count};

use crate::codes::push_code;
use jarray::{Array, Room};
use jdata::{Leaf, NoMemory, product_of};
use std::alloc::Global;

/// The cells of an array that its first axes count, where they lie.
#[derive(Clone, Copy)]
pub struct Cells<'a> {
    pub axes: &'a [u64],
    pub atoms: Leaf<'a>,
    pub frame: usize,
}

/// The items of an array. An atom has one, itself.
pub fn items_of<'a>(y: &'a Array, room: &Room) -> Cells<'a>
    ensures array { IsArray (whole result) }
    ensures whole { whole result ≡ as_list y.now.noun }
    ensures frame { result.frame ≡ 1 }
{
    Cells {
        axes: list_axes(y.shape(room)),
        atoms: y.leaf(room),
        frame: 1,
    }
}

fn list_axes(axes: &[u64]) -> &[u64]
    ensures { result.now ≡ listed.list_axes axes.now }
{
    if axes.is_empty() { &[1] } else { axes }
}

/// The cells of `y` that have the rank of an item of `x`; `y` itself, where it has no more axes
/// than that.
pub fn cells_like<'a>(x: &Array, y: &'a Array, room: &Room) -> Cells<'a>
    ensures array { IsArray (whole result) }
    ensures whole { whole result ≡ y.now.noun }
    ensures frame { result.frame ≡ meant.outer x.now.noun y.now.noun }
{
    let axes = y.shape(room);
    let item = x.shape(room).len().saturating_sub(1);
    Cells {
        axes,
        atoms: y.leaf(room),
        frame: axes.len().saturating_sub(item),
    }
}

/// The codes of the cells.
pub fn codes_of(alloc: Global, cells: Cells<'_>) -> Result<Vec<Vec<i64>>, NoMemory>
    requires array { IsArray (whole cells) }
    requires frame { cells.frame ≤ length cells.axes.now }
    ensures { IfOk result (λ v. map (λ c. c.items) v.items ≡ map (λ j. code (cell_in cells.entry j)) (range_with_len 0 (cell_count cells.entry))) }
{
    let axes = &cells.axes[cells.frame..];
    let size = product_of(axes) as usize;
    let count = count_of(cells);
    let mut codes = Vec::with_capacity(alloc, count)?;
    for place in 0..count {
        let atoms = range_of(cells.atoms, place * size, size);
        let code = code_of(alloc, axes, atoms)?;
        codes.push(code)?;
    }
    Ok(codes)
}

fn code_of(alloc: Global, axes: &[u64], atoms: Leaf<'_>) -> Result<Vec<i64>, NoMemory>
    requires { IsArray (noun axes.now (kind_in atoms) (atoms_in atoms)) }
    ensures { IfOk result (λ v. v.items ≡ code (noun axes.now (kind_in atoms.entry) (atoms_in atoms.entry))) }
{
    let mut code = Vec::new(alloc);
    push_code(axes, atoms, &mut code)?;
    Ok(code)
}

/// How many cells there are.
pub fn count_of(cells: Cells<'_>) -> usize
    requires array { IsArray (whole cells) }
    requires frame { cells.frame ≤ length cells.axes.now }
    ensures { result ≡ cell_count cells.entry }
{
    product_of(&cells.axes[..cells.frame]) as usize
}

/// So many of the atoms, from one on.
fn range_of(atoms: Leaf<'_>, start: usize, count: usize) -> Leaf<'_>
    requires { start + count ≤ length (atoms_in atoms) }
    ensures kind { kind_in result ≡ kind_in atoms.entry }
    ensures atoms { atoms_in result ≡ take count (drop start (atoms_in atoms.entry)) }
{
    match atoms {
        Leaf::Int(numbers) => Leaf::Int(range(numbers, start, count)),
        Leaf::Char(bytes) => Leaf::Char(range(bytes, start, count)),
        Leaf::Cell(cells) => Leaf::Cell(range(cells, start, count)),
    }
}

/// So many items of a list, from one on.
pub fn range<T>(items: &[T], start: usize, count: usize) -> &[T]
    requires { start + count ≤ length items.now }
    ensures { result.now ≡ take count (drop start items.now) }
{
    let rest = &items[start..];
    &rest[..count]
}
