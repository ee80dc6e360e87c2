//! How wide columns of integers are.

ghost use Rattle.std.specs.Prelude.{◌≡◌, ◌==◌, ◌+◌, ◌-◌, ◌*◌, ◌<◌, ◌≤◌, ℕ, IfOk, if◌then◌else◌, length, map, max, slice_index, slice_index_or, [], sum, decimal};
ghost use Rattle.std.specs.List.{range_with_len};
ghost use Rattle.jnumber.specs.Spelling.{written};
ghost use Rattle.jformat.specs.Rows.{width_of};

use crate::axes::atoms_of_row;
use jdata::NoMemory;
use std::alloc::Global;

/// The width of each column: that of its widest number, in whichever row that stands. Without rows
/// there are none.
pub(crate) fn column_widths(
    alloc: Global,
    numbers: &[i64],
    rows: usize,
    columns: usize,
) -> Result<Vec<u8>, NoMemory>
    requires { rows * columns ≤ length numbers.now }
    ensures { IfOk result (λ widths. widths.items ≡ map (width_of (map written numbers.now) rows columns) (range_with_len 0 (if rows == 0 then 0 else columns))) }
{
    if rows == 0 {
        return Ok(Vec::new(alloc));
    }
    let mut widths = vec![in alloc; 0u8; columns]?;
    for row in 0..rows {
        widen(widths.as_mut_slice(), atoms_of_row(numbers, columns, row));
    }
    Ok(widths)
}

/// Makes each column as wide as its number in one more row.
fn widen(widths: &mut [u8], numbers: &[i64])
    requires { length numbers.now ≡ length widths.old }
    ensures { (j : ℕ) → j < length widths.old → slice_index widths.new j ≡ max (slice_index widths.old j) (length (slice_index_or (map written numbers.now) j [])) }
{
    for column in 0..widths.len() {
        widths[column] = widths[column].max(length_of(numbers[column]));
    }
}

/// How many characters a number is written with.
pub(crate) fn length_of(number: i64) -> u8
    ensures { result ≡ length (written number) }
{
    let digits = digit_count(number.unsigned_abs());
    if number < 0 { digits + 1 } else { digits }
}

/// How many digits a number is written with: one for 0.
fn digit_count(number: u64) -> u8
    ensures count { result ≡ length (decimal number) }
    ensures few { result ≤ 20 }
{
    let mut count = 1;
    let mut rest = number / 10;
    while rest > 0 {
        rest /= 10;
        count += 1;
    }
    count
}

/// How wide rows of these columns are: the columns, and a blank between two.
pub(crate) fn row_width(widths: &[u8]) -> usize
    requires { length widths.now ≤ 134217728 }
    ensures { result ≡ sum widths.now + (length widths.now - 1) }
{
    let mut width = 0;
    for column in widths {
        width += usize::from(*column);
    }
    width + widths.len().saturating_sub(1)
}
