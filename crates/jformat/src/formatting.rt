//! The display of an array as an array of characters.

ghost use Rattle.std.specs.Prelude.{◌≡◌, ◌≤◌, ◌*◌, ◌==◌, if◌then◌else◌, ◌++◌, ◌∷◌, [], IfOk, IfErr, length, map};
ghost use Rattle.std.specs.List.{range_with_len, flat_map};
ghost use Rattle.jdata.specs.Noun.{product};
ghost use Rattle.jnumber.specs.Spelling.{written};
ghost use Rattle.jdata.specs.Limits.{IsShape};
ghost use Rattle.jformat.specs.Rows.{integer_row, width_of};
ghost use Rattle.jdata.specs.Answers.{Answers};
ghost use Rattle.jdata.specs.Limits.{limited};
ghost use Rattle.jformat.specs.Boxes.{padded};
ghost use Rattle.jformat.specs.Format.{format_of, integer_text, matrix_text};
ghost use Rattle.jformat.specs.Troubles.{IsLimitWhere};

use crate::axes::{atoms_of_row, last_axis, row_shape};
use crate::blocks::rows_of;
use crate::boxes::{push_padded, widest};
use crate::widths::{column_widths, row_width};
use crate::writing::push_fields;
use jdata::{Bytes, Fault, Leaves, NoMemory, Tree, Trouble};
use jshape::Shape;
use std::alloc::Global;

/// The rows of an array as an array of characters (monadic `":`). Its only fault is
/// Limit: the result would be beyond the limits of an array.
pub fn format(alloc: Global, value: &Tree) -> Result<Tree, Trouble>
    ensures { Answers (format_of value.now) result }
{
    match value.items() {
        Leaves::Int(numbers) => format_integers(alloc, value.shape(), numbers.items()),
        Leaves::Char(_) => match value.copy(alloc) {
            Ok(copy) => Ok(copy),
            Err(NoMemory) => Err(Trouble::NoMemory),
        },
        Leaves::Cell(_) => format_rows(alloc, rows_of(alloc, value)?.items()),
    }
}

fn format_integers(alloc: Global, axes: &[u64], numbers: &[i64]) -> Result<Tree, Trouble>
    requires shape { IsShape axes.now }
    requires whole { length numbers.now ≡ product axes.now }
    ensures { Answers (limited (integer_text axes.now (map written numbers.now))) result }
{
    let row_shape = row_shape(alloc, axes)?;
    let rows = row_shape.product() as usize;
    let columns = last_axis(axes) as usize;
    let widths = column_widths(alloc, numbers, rows, columns)?;
    let width = row_width(widths.as_slice()) as u64;
    let shape = match text_axes(alloc, row_shape.axes(), width) {
        Ok(shape) => shape,
        Err(trouble) => return Err(trouble),
    };
    let text = text_of_rows(alloc, numbers, rows, columns, widths.as_slice())?;
    match Tree::new(shape, Leaves::Char(Bytes::of(text))) {
        Ok(tree) => Ok(tree),
        Err(_) => Err(Trouble::Fault(Fault::Limit)),
    }
}

/// Rows as a matrix, with blanks at the right of those that aren't the widest.
fn format_rows(alloc: Global, rows: &[Bytes]) -> Result<Tree, Trouble>
    ensures { Answers (limited (matrix_text rows.now)) result }
{
    let width = widest(rows);
    let axes = match text_axes(alloc, &[rows.len() as u64], width as u64) {
        Ok(axes) => axes,
        Err(trouble) => return Err(trouble),
    };
    let text = matrix_of_rows(alloc, rows, width)?;
    match Tree::limited(axes, Leaves::Char(Bytes::of(text))) {
        Ok(tree) => Ok(tree),
        Err(fault) => Err(Trouble::Fault(fault)),
    }
}

fn matrix_of_rows(alloc: Global, rows: &[Bytes], width: usize) -> Result<Vec<u8>, NoMemory>
    ensures { IfOk result (λ text. text.items ≡ flat_map (padded width) rows.now) }
{
    let mut text = Vec::new(alloc);
    for row in rows {
        push_padded(&mut text, row.items(), width)?;
    }
    Ok(text)
}

/// The axes of rows of a width, where they are within the limits.
fn text_axes(alloc: Global, row_axes: &[u64], width: u64) -> Result<Vec<u64>, Trouble>
    ensures ok { IfOk result (λ axes. axes.items ≡ row_axes.now ++ width ∷ []) }
    ensures within { IfOk result (λ axes. IsShape axes.items) }
    ensures err { IfErr result (λ why. IsLimitWhere why (¬ IsShape (row_axes.now ++ width ∷ []))) }
{
    let mut axes = Vec::from_slice(alloc, row_axes)?;
    axes.push(width)?;
    match Shape::new(alloc, axes.as_slice()) {
        Ok(_) => Ok(axes),
        Err(trouble) => Err(trouble),
    }
}

/// The rows one after another, without line ends.
fn text_of_rows(
    alloc: Global,
    numbers: &[i64],
    rows: usize,
    columns: usize,
    widths: &[u8],
) -> Result<Vec<u8>, NoMemory>
    requires room { rows * columns ≤ length numbers.now }
    requires widths { widths.now ≡ map (width_of (map written numbers.now) rows columns) (range_with_len 0 (if rows == 0 then 0 else columns)) }
    ensures { IfOk result (λ text. text.items ≡ flat_map (integer_row (map written numbers.now) rows columns) (range_with_len 0 rows)) }
{
    let mut text = Vec::new(alloc);
    for row in 0..rows {
        push_fields(&mut text, widths, atoms_of_row(numbers, columns, row))?;
    }
    Ok(text)
}
