//! The items of a value.

ghost use Rattle.std.specs.Prelude.{◌≡◌, IfOk};
ghost use Rattle.jkept.specs.Taken as meant;

use jarray::{Array, Room};
use jdata::NoMemory;
use jframe::cells;
use jterm::Datum;
use std::alloc::Global;

/// The item with this number, counted from 0, where there is one.
pub fn item(
    alloc: Global,
    room: &Room,
    value: &Array,
    number: u64,
) -> Result<Option<Datum>, NoMemory>
    ensures { IfOk result (λ item. item ≡ meant.item number value.now.noun) }
{
    let cells = cells(alloc, room, value, Some(-1))?;
    if number < cells.count() {
        let item = cells.get(alloc, room, value, number)?;
        Ok(Some(Datum::of(item)))
    } else {
        Ok(None)
    }
}
