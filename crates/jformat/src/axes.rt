//! The rows and columns of an array.

ghost use Rattle.std.specs.Prelude.{◌≡◌, ◌+◌, ◌*◌, ◌≤◌, IfOk, length, take, drop};
ghost use Rattle.jdata.specs.Limits.{IsShape};
ghost use Rattle.jformat.specs.Rows as rows;

use jdata::NoMemory;
use jshape::Shape;
use std::alloc::Global;

/// The axes along which the rows stand: all but the last.
pub(crate) fn row_axes(axes: &[u64]) -> &[u64]
    ensures { result.now ≡ rows.row_axes axes.now }
{
    &axes[..axes.len().saturating_sub(1)]
}

/// How many columns a row has: the last axis, and one column without axes.
pub(crate) fn last_axis(axes: &[u64]) -> u64
    ensures { result ≡ rows.last_axis axes.now }
{
    match axes.last() {
        Some(axis) => *axis,
        None => 1,
    }
}

/// The shape along which the rows of an array stand.
pub(crate) fn row_shape(alloc: Global, axes: &[u64]) -> Result<Shape, NoMemory>
    requires { IsShape axes.now }
    ensures { IfOk result (λ shape. shape ≡ rows.row_axes axes.now) }
{
    match Shape::new(alloc, axes) {
        Ok(shape) => shape.frame(alloc, Some(1)),
        Err(_) => Err(NoMemory),
    }
}

/// The atoms of a row.
pub(crate) fn atoms_of_row<T>(atoms: &[T], columns: usize, row: usize) -> &[T]
    requires { row * columns + columns ≤ length atoms.now }
    ensures { result.now ≡ take columns (drop (row * columns) atoms.now) }
{
    let start = row * columns;
    &atoms[start..start + columns]
}
