//! Rows as characters.

ghost use Rattle.std.specs.Prelude.{◌≡◌, ◌++◌, ◌∷◌, [], OnOk, length, map, replicate};
ghost use Rattle.jnumber.specs.Spelling.{written};
ghost use Rattle.jformat.specs.Rows.{line_end, field};
ghost use Rattle.jformat.specs.Pieces.{gap_before, fields};

use crate::widths::length_of;
use jnumber::write;
use std::alloc::AllocError;

/// Appends a row of characters behind blank rows, with line ends.
pub(crate) fn push_character_line(
    out: &mut Vec<u8>,
    blanks: usize,
    characters: &[u8],
) -> Result<(), AllocError>
    ensures { OnOk result (out.new.items ≡ out.old.items ++ (replicate blanks line_end ++ (characters.now ++ line_end ∷ []))) }
{
    push_many(out, b'\n', blanks)?;
    out.extend_from_slice(characters)?;
    out.push(b'\n')?;
    Ok(())
}

/// Appends a row of integers in columns of these widths behind blank rows, with line ends.
pub(crate) fn push_integer_line(
    out: &mut Vec<u8>,
    blanks: usize,
    widths: &[u8],
    numbers: &[i64],
) -> Result<(), AllocError>
    requires { length widths.now ≡ length numbers.now }
    ensures { OnOk result (out.new.items ≡ out.old.items ++ (replicate blanks line_end ++ (fields widths.now (map written numbers.now) ++ line_end ∷ []))) }
{
    push_many(out, b'\n', blanks)?;
    push_fields(out, widths, numbers)?;
    out.push(b'\n')?;
    Ok(())
}

/// Appends a row of integers in columns of these widths.
pub(crate) fn push_fields(
    out: &mut Vec<u8>,
    widths: &[u8],
    numbers: &[i64],
) -> Result<(), AllocError>
    requires { length widths.now ≡ length numbers.now }
    ensures { OnOk result (out.new.items ≡ out.old.items ++ fields widths.now (map written numbers.now)) }
{
    for column in 0..numbers.len() {
        push_gap(out, column)?;
        push_field(out, widths[column], numbers[column])?;
    }
    Ok(())
}

/// Appends the blank before a column; none stands before the first.
fn push_gap(out: &mut Vec<u8>, column: usize) -> Result<(), AllocError>
    ensures { OnOk result (out.new.items ≡ out.old.items ++ gap_before column) }
{
    if column == 0 {
        return Ok(());
    }
    out.push(b' ')?;
    Ok(())
}

/// Appends a number at the right of a column.
fn push_field(out: &mut Vec<u8>, width: u8, number: i64) -> Result<(), AllocError>
    ensures { OnOk result (out.new.items ≡ out.old.items ++ field width (written number)) }
{
    let blanks = width.saturating_sub(length_of(number));
    push_many(out, b' ', usize::from(blanks))?;
    write(number, out)?;
    Ok(())
}

/// Appends a byte so many times.
pub(crate) fn push_many(out: &mut Vec<u8>, byte: u8, count: usize) -> Result<(), AllocError>
    ensures { OnOk result (out.new.items ≡ out.old.items ++ replicate count byte) }
{
    for _ in 0..count {
        out.push(byte)?;
    }
    Ok(())
}
