//! Prefixes, infixes, suffixes and outfixes.

ghost use Rattle.std.specs.Prelude.{◌≡◌, IfOk, IsTrue};
ghost use Rattle.std.specs.List.{range_with_len};
ghost use Rattle.jselect.specs.Items.{item_count as items_of};
ghost use Rattle.jsplit.specs.Divisions.{IsSound};
ghost use Rattle.jsplit.specs.Fixes as meant;

use crate::division::Division;
use jarray::{Array, Room};
use jcut::{Pieces, item_count};
use jdata::NoMemory;
use std::alloc::Global;

/// The first item of `y`, the first two, and so on up to all of them.
pub fn prefixes(alloc: Global, room: &mut Room, y: Array) -> Result<Pieces, NoMemory>
    ensures { IfOk result (λ p. p ≡ meant.prefixes y.noun) }
{
    within(alloc, room, Division::Prefixes, y)
}

/// All items of `y`, all but the first, and so on down to the last.
pub fn suffixes(alloc: Global, room: &mut Room, y: Array) -> Result<Pieces, NoMemory>
    ensures { IfOk result (λ p. p ≡ meant.suffixes y.noun) }
{
    within(alloc, room, Division::Suffixes, y)
}

/// `x` items of `y` from each on, or one block of `-x` items after the other, which are all items.
pub fn infixes(alloc: Global, room: &mut Room, x: i64, y: Array) -> Result<Pieces, NoMemory>
    ensures value { IfOk result (λ p. p ≡ meant.infixes x y.noun) }
    ensures blocks { IsTrue (meant.asks_blocks x) → meant.joined (meant.infixes x y.noun) ≡ range_with_len 0 (items_of y.noun) }
{
    within(alloc, room, Division::of(x), y)
}

/// `y` without each of its infixes.
pub fn outfixes(alloc: Global, room: &mut Room, x: i64, y: Array) -> Result<Pieces, NoMemory>
    ensures { IfOk result (λ p. p ≡ meant.outfixes x y.noun) }
{
    let count = item_count(room, &y);
    match Division::of(x).runs(alloc, count) {
        Ok(runs) => Ok(Pieces::outside(y, runs)),
        Err(NoMemory) => {
            y.done(room);
            Err(NoMemory)
        }
    }
}

fn within(alloc: Global, room: &mut Room, division: Division, y: Array) -> Result<Pieces, NoMemory>
    requires { IsSound division }
    ensures { IfOk result (λ p. p ≡ meant.within division y.noun) }
{
    let count = item_count(room, &y);
    match division.runs(alloc, count) {
        Ok(runs) => Ok(Pieces::within(y, runs)),
        Err(NoMemory) => {
            y.done(room);
            Err(NoMemory)
        }
    }
}
