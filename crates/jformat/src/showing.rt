//! What is printed of an array.

ghost use Rattle.std.specs.Prelude.{◌≡◌, ◌++◌, IfOk, OnOk, [], ◌∷◌, length, map};
ghost use Rattle.jdata.specs.Noun.{product};
ghost use Rattle.jnumber.specs.Spelling.{written};
ghost use Rattle.jdata.specs.Limits.{IsShape};
ghost use Rattle.jformat.specs.Rows.{display_of, integer_rows, character_rows, lines_of, line_end};

use crate::axes::{atoms_of_row, last_axis, row_shape};
use crate::blocks::rows_of;
use crate::planes::blanks_before_row;
use crate::widths::column_widths;
use crate::writing::{push_character_line, push_integer_line};
use jdata::{Bytes, Leaves, NoMemory, Tree};
use std::alloc::{AllocError, Global};

/// The rows of an array, each with a line end behind it. Integers and characters are written
/// straight into lines.
pub fn display(alloc: Global, value: &Tree) -> Result<Vec<u8>, NoMemory>
    ensures { IfOk result (λ bytes. bytes.items ≡ display_of value.now) }
{
    let axes = value.shape();
    match value.items() {
        Leaves::Int(numbers) => display_integers(alloc, axes, numbers.items()),
        Leaves::Char(characters) => display_characters(alloc, axes, characters.items()),
        Leaves::Cell(_) => display_rows(alloc, rows_of(alloc, value)?.items()),
    }
}

fn display_integers(alloc: Global, axes: &[u64], numbers: &[i64]) -> Result<Vec<u8>, NoMemory>
    requires shape { IsShape axes.now }
    requires whole { length numbers.now ≡ product axes.now }
    ensures { IfOk result (λ bytes. bytes.items ≡ lines_of (integer_rows axes.now (map written numbers.now))) }
{
    let shape = row_shape(alloc, axes)?;
    let rows = shape.product() as usize;
    let columns = last_axis(axes) as usize;
    let widths = column_widths(alloc, numbers, rows, columns)?;
    let mut out = Vec::new(alloc);
    for row in 0..rows {
        let blanks = blanks_before_row(shape.axes(), row);
        let numbers = atoms_of_row(numbers, columns, row);
        push_integer_line(&mut out, blanks, widths.as_slice(), numbers)?;
    }
    Ok(out)
}

fn display_characters(alloc: Global, axes: &[u64], characters: &[u8]) -> Result<Vec<u8>, NoMemory>
    requires shape { IsShape axes.now }
    requires whole { length characters.now ≡ product axes.now }
    ensures { IfOk result (λ bytes. bytes.items ≡ lines_of (character_rows axes.now (map (λ c. c ∷ []) characters.now))) }
{
    let shape = row_shape(alloc, axes)?;
    let rows = shape.product() as usize;
    let columns = last_axis(axes) as usize;
    let mut out = Vec::new(alloc);
    for row in 0..rows {
        let blanks = blanks_before_row(shape.axes(), row);
        push_character_line(&mut out, blanks, atoms_of_row(characters, columns, row))?;
    }
    Ok(out)
}

fn display_rows(alloc: Global, rows: &[Bytes]) -> Result<Vec<u8>, NoMemory>
    ensures { IfOk result (λ bytes. bytes.items ≡ lines_of rows.now) }
{
    let mut out = Vec::new(alloc);
    for row in rows {
        push_line(&mut out, row.items())?;
    }
    Ok(out)
}

fn push_line(out: &mut Vec<u8>, row: &[u8]) -> Result<(), AllocError>
    ensures { OnOk result (out.new.items ≡ out.old.items ++ (row.now ++ line_end ∷ [])) }
{
    out.extend_from_slice(row)?;
    out.push(b'\n')?;
    Ok(())
}
