//! The drawing of boxes.

ghost use Rattle.std.specs.Prelude.{◌≡◌, ◌++◌, ◌∷◌, [], ◌*◌, ◌≤◌, ◌<◌, IfOk, OnOk, length, replicate, slice_index_or};
ghost use Rattle.jformat.specs.Boxes as boxes;

use crate::writing::push_many;
use jdata::{Bytes, NoMemory, Sequence};
use std::alloc::{AllocError, Global};

/// Rows of characters.
pub(crate) type Block = Sequence<Bytes>;

/// How wide rows are: as the widest of them.
pub(crate) fn widest(rows: &[Bytes]) -> usize
    ensures { result ≡ boxes.widest rows.now }
{
    let mut width = 0;
    for row in rows {
        width = width.max(row.items().len());
    }
    width
}

/// How high contents are that stand beside each other: as the highest of them.
fn highest(blocks: &[Block]) -> usize
    ensures { result ≡ boxes.highest blocks.now }
{
    let mut height = 0;
    for block in blocks {
        height = height.max(block.items().len());
    }
    height
}

/// How wide the columns of boxes are: as their widest contents, in whichever row these stand.
pub(crate) fn box_widths(
    alloc: Global,
    blocks: &[Block],
    rows: usize,
    columns: usize,
) -> Result<Vec<usize>, NoMemory>
    requires { rows * columns ≤ length blocks.now }
    ensures { IfOk result (λ widths. widths.items ≡ boxes.box_widths blocks.now rows columns) }
{
    let mut widths = Vec::new(alloc);
    for column in 0..columns {
        widths.push(box_width(blocks, rows, columns, column))?;
    }
    Ok(widths)
}

fn box_width(blocks: &[Block], rows: usize, columns: usize, column: usize) -> usize
    requires room { rows * columns ≤ length blocks.now }
    requires within { column < columns }
    ensures { result ≡ boxes.box_width blocks.now rows columns column }
{
    let mut width = 0;
    for row in 0..rows {
        width = width.max(widest(blocks[row * columns + column].items()));
    }
    width
}

/// The row above, between and below boxes.
fn frame_row(alloc: Global, widths: &[usize]) -> Result<Bytes, NoMemory>
    ensures { IfOk result (λ row. row ≡ boxes.frame_row widths.now) }
{
    let mut row = Vec::new(alloc);
    row.push(b'+')?;
    for width in widths {
        push_many(&mut row, b'-', *width)?;
        row.push(b'+')?;
    }
    Ok(Bytes::of(row))
}

/// One row of contents that stand beside each other.
fn content_row(
    alloc: Global,
    widths: &[usize],
    blocks: &[Block],
    at: usize,
) -> Result<Bytes, NoMemory>
    requires { length widths.now ≡ length blocks.now }
    ensures { IfOk result (λ row. row ≡ boxes.content_row widths.now blocks.now at) }
{
    let mut row = Vec::new(alloc);
    row.push(b'|')?;
    for column in 0..widths.len() {
        push_padded(&mut row, row_of(&blocks[column], at), widths[column])?;
        row.push(b'|')?;
    }
    Ok(Bytes::of(row))
}

/// A row of a content, and an empty one below its last.
fn row_of(block: &Block, at: usize) -> &[u8]
    ensures { result.now ≡ slice_index_or block.now at [] }
{
    match block.items().get(at) {
        Some(row) => row.items(),
        None => &[],
    }
}

/// Appends a text at the left of a column, with blanks behind it.
pub(crate) fn push_padded(out: &mut Vec<u8>, text: &[u8], width: usize) -> Result<(), AllocError>
    ensures { OnOk result (out.new.items ≡ out.old.items ++ boxes.padded width text.now) }
{
    out.extend_from_slice(text)?;
    push_many(out, b' ', width.saturating_sub(text.len()))
}

/// Appends one row of boxes with the frame below it, and above it where it is the first of its
/// matrix. Without columns it is one empty row.
pub(crate) fn push_boxes(
    alloc: Global,
    out: &mut Vec<Bytes>,
    is_first: bool,
    widths: &[usize],
    blocks: &[Block],
) -> Result<(), NoMemory>
    requires { length widths.now ≡ length blocks.now }
    ensures { OnOk result (out.new.items ≡ out.old.items ++ boxes.box_rows is_first widths.now blocks.now) }
{
    if widths.is_empty() {
        return push_empty_rows(alloc, out, 1);
    }
    if is_first {
        out.push(frame_row(alloc, widths)?)?;
    }
    for at in 0..highest(blocks) {
        out.push(content_row(alloc, widths, blocks, at)?)?;
    }
    out.push(frame_row(alloc, widths)?)?;
    Ok(())
}

/// Appends so many rows without characters.
pub(crate) fn push_empty_rows(
    alloc: Global,
    out: &mut Vec<Bytes>,
    count: usize,
) -> Result<(), NoMemory>
    ensures { OnOk result (out.new.items ≡ out.old.items ++ replicate count []) }
{
    for _ in 0..count {
        out.push(Bytes::of(Vec::new(alloc)))?;
    }
    Ok(())
}
