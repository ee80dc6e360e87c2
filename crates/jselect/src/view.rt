//! Parts of an array where they lie.

ghost use Rattle.std.specs.Prelude.{◌≡◌, ◌+◌, ◌<◌, ◌≤◌, IfOk, length, take, drop};
ghost use Rattle.jdata.specs.Leaf.{kind_in, atoms_in};
ghost use Rattle.jdata.specs.Limits.{IsArray};
ghost use Rattle.jdata.specs.Noun.{product};
ghost use Rattle.jselect.specs.Items as items;
ghost use Rattle.jselect.specs.Views.{noun_in, nth_range};

use crate::whole::array;
use jarray::{Array, Room};
use jdata::{Leaf, NoMemory, Tree, copy_range, product_of};
use std::alloc::Global;

/// A part of an array: its axes, and its atoms where they lie.
#[derive(Clone, Copy)]
pub struct View<'a> {
    pub axes: &'a [u64],
    pub atoms: Leaf<'a>,
}

pub fn view_of<'a>(y: &'a Array, room: &Room) -> View<'a>
    ensures value { noun_in result ≡ y.now.noun }
    ensures array { IsArray (noun_in result) }
{
    View {
        axes: y.shape(room),
        atoms: y.leaf(room),
    }
}

pub fn view_of_tree(tree: &Tree) -> View<'_>
    ensures value { noun_in result ≡ tree.now }
    ensures array { IsArray (noun_in result) }
{
    View {
        axes: tree.shape(),
        atoms: tree.leaf(),
    }
}

/// The part in memory of its own.
pub fn copy_of(alloc: Global, view: View<'_>) -> Result<Tree, NoMemory>
    requires { IsArray (noun_in view) }
    ensures { IfOk result (λ t. t ≡ noun_in view.entry) }
{
    let shape = Vec::from_slice(alloc, view.axes)?;
    let leaves = copy_range(alloc, view.atoms, 0, view.atoms.len() as u64)?;
    Ok(array(shape, leaves))
}

/// The part, where an atom is a list of one.
pub fn listed(view: View<'_>) -> View<'_>
    requires { IsArray (noun_in view) }
    ensures value { noun_in result ≡ items.as_list (noun_in view.entry) }
    ensures array { IsArray (noun_in result) }
{
    View {
        axes: list_axes(view.axes),
        atoms: view.atoms,
    }
}

fn list_axes(axes: &[u64]) -> &[u64]
    ensures { result.now ≡ items.list_axes axes.now }
{
    if axes.is_empty() { &[1] } else { axes }
}

/// So many of the atoms, from one on.
pub fn range_of(atoms: Leaf<'_>, start: usize, count: usize) -> Leaf<'_>
    requires { start + count ≤ length (atoms_in atoms) }
    ensures kind { kind_in result ≡ kind_in atoms.entry }
    ensures atoms { atoms_in result ≡ take count (drop start (atoms_in atoms.entry)) }
{
    match atoms {
        Leaf::Int(numbers) => Leaf::Int(range(numbers, start, count)),
        Leaf::Char(bytes) => Leaf::Char(range(bytes, start, count)),
        Leaf::Cell(cells) => Leaf::Cell(range(cells, start, count)),
    }
}

/// So many of the items, from one on.
pub fn range<T>(items: &[T], start: usize, count: usize) -> &[T]
    requires { start + count ≤ length items.now }
    ensures { result.now ≡ take count (drop start items.now) }
{
    let rest = &items[start..];
    &rest[..count]
}

/// Cell `number` of those that the first axes count, where it lies.
pub fn nth_cell(view: View<'_>, frame: usize, number: usize) -> View<'_>
    requires array { IsArray (noun_in view) }
    requires frame { frame ≤ length view.axes.now }
    requires number { number < product (take frame view.axes.now) }
    ensures { noun_in result ≡ nth_range frame number (noun_in view.entry) }
{
    let axes = rest(view.axes, frame);
    let count = product_of(axes) as usize;
    View {
        axes,
        atoms: range_of(view.atoms, number * count, count),
    }
}

fn rest(axes: &[u64], frame: usize) -> &[u64]
    requires { frame ≤ length axes.now }
    ensures { result.now ≡ drop frame axes.now }
{
    &axes[frame..]
}
