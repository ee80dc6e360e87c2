//! The rows of an array, those of its boxes' contents included.

ghost use Rattle.std.specs.Prelude.{◌≡◌, ◌≤◌, ◌<◌, ◌%◌, ◌==◌, ◌++◌, ◌∷◌, [], IfOk, OnOk, length, map, replicate};
ghost use Rattle.jdata.specs.Noun.{product};
ghost use Rattle.jdata.specs.Limits.{IsShape};
ghost use Rattle.jdata.specs.Trees.{atom_of};
ghost use Rattle.jnumber.specs.Spelling.{written};
ghost use Rattle.jformat.specs.Boxes.{box_rows};
ghost use Rattle.jformat.specs.Rows as texts;
ghost use Rattle.jformat.specs.Pieces.{fields};

use crate::axes::{atoms_of_row, last_axis, row_shape};
use crate::boxes::{Block, box_widths, push_boxes, push_empty_rows};
use crate::planes::{blanks_before_row, starts_plane};
use crate::widths::column_widths;
use crate::writing::push_fields;
use jdata::{Bytes, Cell, Leaves, NoMemory, Tree};
use std::alloc::Global;

/// The rows of an array.
#[cycle(blocks)]
pub(crate) fn rows_of(alloc: Global, value: &Tree) -> Result<Block, NoMemory>
    ensures { IfOk result (λ rows. rows ≡ texts.rows_of value.now) }
{
    let axes = value.shape();
    match value.items() {
        Leaves::Int(numbers) => integer_rows(alloc, axes, numbers.items()),
        Leaves::Char(characters) => character_rows(alloc, axes, characters.items()),
        Leaves::Cell(cells) => {
            let blocks = blocks_of(alloc, cells.items())?;
            boxed_rows(alloc, axes, blocks.as_slice())
        }
    }
}

/// The rows of each content.
#[cycle(blocks)]
fn blocks_of(alloc: Global, cells: &[Cell]) -> Result<Vec<Block>, NoMemory>
    ensures { IfOk result (λ blocks. blocks.items ≡ map texts.block_of (map atom_of cells.now)) }
{
    let mut blocks = Vec::with_capacity(alloc, cells.len())?;
    for cell in cells {
        blocks.push(block_of(alloc, cell)?)?;
    }
    Ok(blocks)
}

/// The rows of a content. A pyx has none.
#[cycle(blocks)]
fn block_of(alloc: Global, cell: &Cell) -> Result<Block, NoMemory>
    ensures { IfOk result (λ rows. rows ≡ texts.block_of (atom_of cell.now)) }
{
    match cell {
        Cell::Boxed(content) => rows_of(alloc, content),
        Cell::Pyx(_) => Ok(Block::of(Vec::new(alloc))),
    }
}

fn integer_rows(alloc: Global, axes: &[u64], numbers: &[i64]) -> Result<Block, NoMemory>
    requires shape { IsShape axes.now }
    requires whole { length numbers.now ≡ product axes.now }
    ensures { IfOk result (λ rows. rows ≡ texts.integer_rows axes.now (map written numbers.now)) }
{
    let shape = row_shape(alloc, axes)?;
    let rows = shape.product() as usize;
    let columns = last_axis(axes) as usize;
    let widths = column_widths(alloc, numbers, rows, columns)?;
    let mut out = Vec::new(alloc);
    for row in 0..rows {
        let blanks = blanks_before_row(shape.axes(), row);
        let numbers = atoms_of_row(numbers, columns, row);
        let text = integer_row(alloc, widths.as_slice(), numbers)?;
        push_row(alloc, &mut out, blanks, text)?;
    }
    Ok(Block::of(out))
}

fn integer_row(alloc: Global, widths: &[u8], numbers: &[i64]) -> Result<Vec<u8>, NoMemory>
    requires { length widths.now ≡ length numbers.now }
    ensures { IfOk result (λ row. row.items ≡ fields widths.now (map written numbers.now)) }
{
    let mut row = Vec::new(alloc);
    push_fields(&mut row, widths, numbers)?;
    Ok(row)
}

fn character_rows(alloc: Global, axes: &[u64], characters: &[u8]) -> Result<Block, NoMemory>
    requires shape { IsShape axes.now }
    requires whole { length characters.now ≡ product axes.now }
    ensures { IfOk result (λ rows. rows ≡ texts.character_rows axes.now (map (λ c. c ∷ []) characters.now)) }
{
    let shape = row_shape(alloc, axes)?;
    let rows = shape.product() as usize;
    let columns = last_axis(axes) as usize;
    let mut out = Vec::new(alloc);
    for row in 0..rows {
        let blanks = blanks_before_row(shape.axes(), row);
        let text = Vec::from_slice(alloc, atoms_of_row(characters, columns, row))?;
        push_row(alloc, &mut out, blanks, text)?;
    }
    Ok(Block::of(out))
}

/// Appends a row behind blank rows.
fn push_row(
    alloc: Global,
    out: &mut Vec<Bytes>,
    blanks: usize,
    row: Vec<u8>,
) -> Result<(), NoMemory>
    ensures { OnOk result (out.new.items ≡ out.old.items ++ (replicate blanks [] ++ row.items ∷ [])) }
{
    push_empty_rows(alloc, out, blanks)?;
    out.push(Bytes::of(row))?;
    Ok(())
}

fn boxed_rows(alloc: Global, axes: &[u64], blocks: &[Block]) -> Result<Block, NoMemory>
    requires shape { IsShape axes.now }
    requires whole { length blocks.now ≡ product axes.now }
    ensures { IfOk result (λ rows. rows ≡ texts.boxed_rows axes.now blocks.now) }
{
    let shape = row_shape(alloc, axes)?;
    let rows = shape.product() as usize;
    let mut out = Vec::new(alloc);
    if rows == 0 {
        return Ok(Block::of(out));
    }
    let columns = last_axis(axes) as usize;
    let widths = box_widths(alloc, blocks, rows, columns)?;
    for row in 0..rows {
        let beside = atoms_of_row(blocks, columns, row);
        push_row_of_boxes(
            alloc,
            &mut out,
            shape.axes(),
            row,
            widths.as_slice(),
            beside,
        )?;
    }
    Ok(Block::of(out))
}

/// Appends one of the rows of boxes along these axes, behind the blank rows before it.
fn push_row_of_boxes(
    alloc: Global,
    out: &mut Vec<Bytes>,
    axes: &[u64],
    row: usize,
    widths: &[usize],
    blocks: &[Block],
) -> Result<(), NoMemory>
    requires some { 0 < product axes.now }
    requires within { product axes.now ≤ 134217728 }
    requires beside { length widths.now ≡ length blocks.now }
    ensures { OnOk result (out.new.items ≡ out.old.items ++ (replicate (texts.blanks_before_row axes.now row) [] ++ box_rows (row % texts.last_axis axes.now == 0) widths.now blocks.now)) }
{
    push_empty_rows(alloc, out, blanks_before_row(axes, row))?;
    push_boxes(alloc, out, starts_plane(axes, row), widths, blocks)
}
