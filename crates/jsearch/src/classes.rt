//! `=` of one argument: which items match which.

ghost use Rattle.std.specs.Prelude.{◌≡◌, ◌==◌, ◌++◌, IfOk, OnOk, length, map, filter, slice_index};
ghost use Rattle.std.specs.List.{range_with_len, flat_map};
ghost use Rattle.jdata.specs.Answers.{Answers};
ghost use Rattle.jarray.specs.Placed.{Gives};
ghost use Rattle.jsearch.specs.Classes as meant;
ghost use Rattle.jsearch.specs.Finding.{truth as truth_of};

use crate::cells::items_of;
use crate::finding::truth;
use crate::grading::given;
use crate::places::first_places_in;
use jarray::{Array, Room};
use jdata::{Fault, IntList, Leaves, NoMemory, Tree, Trouble, product_within};
use jselect::limited;
use std::alloc::Global;

/// A row for each item that matches no earlier one, with 1 for each item that matches it, else 0.
/// Fault: Limit.
pub fn classify(alloc: Global, room: &mut Room, y: Array) -> Result<Array, Trouble>
    ensures { Gives (meant.classified y.noun) result }
{
    let table = table_of(alloc, room, &y);
    y.done(room);
    given(table)
}

fn table_of(alloc: Global, room: &Room, y: &Array) -> Result<Tree, Trouble>
    ensures { Answers (meant.classified y.now.noun) result }
{
    let items = items_of(y, room);
    let places = first_places_in(alloc, items, items)?;
    let places = places.as_slice();
    let rows = own_places(alloc, places)?;
    let rows = rows.as_slice();
    let shape = Vec::from_slice(alloc, &[rows.len() as u64, places.len() as u64])?;
    let count = match product_within(shape.as_slice()) {
        Some(count) => count as usize,
        None => return Err(Trouble::Fault(Fault::Limit)),
    };
    let flags = flags(alloc, rows, places, count)?;
    limited(shape, Leaves::Int(IntList::of(flags)))
}

/// The places that are their own.
fn own_places(alloc: Global, places: &[usize]) -> Result<Vec<usize>, NoMemory>
    ensures { IfOk result (λ v. v.items ≡ filter (λ i. slice_index places.now i == i) (range_with_len 0 (length places.now))) }
{
    let mut own = Vec::new(alloc);
    for at in 0..places.len() {
        if places[at] == at {
            own.push(at)?;
        }
    }
    Ok(own)
}

/// For each row 1 where it is the place, else 0.
fn flags(
    alloc: Global,
    rows: &[usize],
    places: &[usize],
    count: usize,
) -> Result<Vec<i64>, NoMemory>
    ensures { IfOk result (λ v. v.items ≡ flat_map (λ r. map (λ p. truth_of (p == r)) places.now) rows.now) }
{
    let mut flags = Vec::with_capacity(alloc, count)?;
    for row in rows {
        push_row(*row, places, &mut flags)?;
    }
    Ok(flags)
}

fn push_row(row: usize, places: &[usize], into: &mut Vec<i64>) -> Result<(), NoMemory>
    ensures { OnOk result (into.new.items ≡ into.old.items ++ map (λ p. truth_of (p == row)) places.now) }
{
    for place in places {
        into.push(truth(*place == row))?;
    }
    Ok(())
}
