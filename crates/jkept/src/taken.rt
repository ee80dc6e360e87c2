//! Whether a case is taken.

ghost use Rattle.std.specs.Prelude.{◌≡◌, is_some, IfOk, IsOk, IfSome, map};
ghost use Rattle.std.specs.List.{list_any};
ghost use Rattle.jarray.specs.Matches.{is_box, matches};
ghost use Rattle.jdata.specs.Noun.{atoms};
ghost use Rattle.jdata.specs.Trees.{atom_of};
ghost use Rattle.jdata.specs.declared.noun.Atom.{out-Atom};
ghost use Rattle.jkept.specs.Taken as meant;

use jarray::{Array, Room};
use jdata::{Cell, Leaf, NoMemory, Tree};
use std::alloc::Global;

/// Whether a case with this value is taken, where the other value was selected. No memory where
/// both are boxed, or neither is.
pub fn is_taken(
    alloc: Global,
    room: &Room,
    selected: &Array,
    value: &Array,
) -> Result<bool, NoMemory>
    ensures value { IfOk result (λ taken. taken ≡ meant.is_taken selected.now.noun value.now.noun) }
    ensures alike { meant.is_boxed selected.now.noun ≡ meant.is_boxed value.now.noun → IsOk result }
{
    match (boxes_of(room, selected), boxes_of(room, value)) {
        (Some(boxes), Some(others)) => Ok(share_content(boxes, others)),
        (Some(boxes), None) => {
            let content = value.tree(alloc, room)?;
            Ok(has_content(boxes, &content))
        }
        (None, Some(boxes)) => {
            let content = selected.tree(alloc, room)?;
            Ok(has_content(boxes, &content))
        }
        (None, None) => Ok(selected.match_with(room, value)),
    }
}

/// The boxes of an array of kind boxed.
fn boxes_of<'a>(room: &Room, value: &'a Array) -> Option<&'a [Cell]>
    ensures boxes { IfSome result (λ boxes. map atom_of boxes.now ≡ atoms value.now.noun) }
    ensures boxed { meant.is_boxed value.now.noun ≡ is_some result }
{
    match value.leaf(room) {
        Leaf::Int(_) => None,
        Leaf::Char(_) => None,
        Leaf::Cell(boxes) => Some(boxes),
    }
}

/// Whether some content of the ones matches some content of the others.
fn share_content(boxes: &[Cell], others: &[Cell]) -> bool
    ensures { result ≡ list_any (λ cell. is_box (λ content. list_any (λ other. is_box (matches content) (out-Atom (atom_of other))) others.now) (out-Atom (atom_of cell))) boxes.now }
{
    boxes.iter().any(|cell| is_shared(cell, others))
}

fn is_shared(cell: &Cell, others: &[Cell]) -> bool
    ensures { result ≡ is_box (λ content. list_any (λ other. is_box (matches content) (out-Atom (atom_of other))) others.now) (out-Atom (atom_of cell.now)) }
{
    match cell {
        Cell::Boxed(content) => has_content(others, content),
        Cell::Pyx(_) => false,
    }
}

/// Whether some content of the boxes matches this one.
fn has_content(boxes: &[Cell], content: &Tree) -> bool
    ensures { result ≡ list_any (λ cell. is_box (matches content.now) (out-Atom (atom_of cell))) boxes.now }
{
    boxes.iter().any(|cell| is_content(cell, content))
}

fn is_content(cell: &Cell, content: &Tree) -> bool
    ensures { result ≡ is_box (matches content.now) (out-Atom (atom_of cell.now)) }
{
    match cell {
        Cell::Boxed(other) => content.same(other),
        Cell::Pyx(_) => false,
    }
}
