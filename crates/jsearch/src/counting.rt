//! `i.`: the places of an array of these axes.

ghost use Rattle.std.specs.Int.{cast_signed, w64};
ghost use Rattle.std.specs.Prelude.{◌≡◌, ◌<◌, ◌≤◌, ◌+◌, ◌-◌, ◌*◌, suc, if◌then◌else◌, IfOk, map, pos};
ghost use Rattle.std.specs.List.{range_with_len};
ghost use Rattle.jdata.specs.Answers.{Answers};
ghost use Rattle.jdata.specs.Indexes.{index_at};
ghost use Rattle.jdata.specs.Limits.{limited, most_atoms};
ghost use Rattle.jdata.specs.Noun.{product, extent};
ghost use Rattle.jarray.specs.Placed.{Gives};
ghost use Rattle.jsearch.specs.Turned as meant;

use crate::number::integer;
use jarray::{Array, Room};
use jdata::{
    Fault, IntList, Leaves, MAX_RANK, NoMemory, Tree, Trouble, product_of, product_within,
};
use jselect::{are_counts, limited};
use std::alloc::{AllocError, Global};

/// The places of an array of these axes in ravel order, reversed along each axis with a negative
/// number. Faults: Domain, Limit.
pub fn integers(alloc: Global, room: &mut Room, y: Array) -> Result<Array, Trouble>
    ensures { Gives (meant.integers y.noun) result }
{
    let places = integers_of(alloc, room, &y);
    y.done(room);
    match places {
        Ok(tree) => Ok(Array::of(tree)),
        Err(trouble) => Err(trouble),
    }
}

fn integers_of(alloc: Global, room: &Room, y: &Array) -> Result<Tree, Trouble>
    ensures { Answers (meant.integers y.now.noun) result }
{
    match y.numbers(room) {
        Some(numbers) => places_turned(alloc, numbers),
        None => Err(Trouble::Fault(Fault::Domain)),
    }
}

fn places_turned(alloc: Global, numbers: &[i64]) -> Result<Tree, Trouble>
    ensures { Answers (limited (meant.places_turned numbers.now)) result }
{
    if numbers.len() > MAX_RANK {
        return Err(Trouble::Fault(Fault::Limit));
    }
    let shape = magnitudes(alloc, numbers)?;
    let axes = shape.as_slice();
    let count = match product_within(axes) {
        Some(count) => count,
        None => return Err(Trouble::Fault(Fault::Limit)),
    };
    let places = places(alloc, numbers, axes, count)?;
    limited(shape, Leaves::Int(IntList::of(places)))
}

fn magnitudes(alloc: Global, numbers: &[i64]) -> Result<Vec<u64>, NoMemory>
    ensures { IfOk result (λ v. v.items ≡ map meant.magnitude numbers.now) }
{
    let mut axes = Vec::with_capacity(alloc, numbers.len())?;
    for &number in numbers {
        axes.push(number.unsigned_abs())?;
    }
    Ok(axes)
}

/// The places, where each is counted from the end on the axes with a negative number.
fn places(alloc: Global, numbers: &[i64], axes: &[u64], count: u64) -> Result<Vec<i64>, NoMemory>
    requires axes { axes.now ≡ map meant.magnitude numbers.now }
    requires count { count ≡ product axes.now }
    requires bound { extent axes.now ≤ most_atoms }
    ensures { IfOk result (λ v. v.items ≡ map (λ p. pos (meant.place_turned numbers.now (index_at axes.now p))) (range_with_len 0 count)) }
{
    if are_counts(numbers) {
        return counted_up(alloc, count);
    }
    let mut places = Vec::with_capacity(alloc, count as usize)?;
    for place in 0..count {
        let number = integer(place_turned(numbers, axes, place));
        places.push(number)?;
    }
    Ok(places)
}

/// The numbers from 0 on.
fn counted_up(alloc: Global, count: u64) -> Result<Vec<i64>, NoMemory>
    requires { count ≤ most_atoms }
    ensures { IfOk result (λ v. v.items ≡ map pos (range_with_len 0 count)) }
{
    let places = signed_below(alloc, count)?;
    Ok(places)
}

/// The numbers from 0 on, by their bits.
fn signed_below(alloc: Global, count: u64) -> Result<Vec<i64>, AllocError>
    ensures { IfOk result (λ v. v.items ≡ map (cast_signed w64) (range_with_len 0 count)) }
{
    (0..count).map(|place| place.cast_signed()).collect(alloc)
}

/// The place of the index that is the turned one of the index at a place.
fn place_turned(numbers: &[i64], axes: &[u64], place: u64) -> u64
    requires axes { axes.now ≡ map meant.magnitude numbers.now }
    requires bound { extent axes.now ≤ most_atoms }
    requires within { place < product axes.now }
    ensures value { result ≡ meant.place_turned numbers.now (index_at axes.now place) }
    ensures within { result < product axes.now }
{
    let ([number, numbers @ ..], [axis, axes @ ..]) = (numbers, axes) else {
        return 0;
    };
    let cell = product_of(axes);
    let rest = place_turned(numbers, axes, place % cell);
    row_place(turned(*number < 0, *axis, place / cell), cell, rest, *axis)
}

/// A number on an axis, counted from the end where the axis is turned.
fn turned(negative: bool, axis: u64, item: u64) -> u64
    requires { item < axis }
    ensures value { result ≡ (if negative then axis - suc item else item) }
    ensures within { result < axis }
{
    if negative { axis - 1 - item } else { item }
}

fn row_place(item: u64, cell: u64, rest: u64, axis: u64) -> u64
    requires item { item < axis }
    requires rest { rest < cell }
    requires bound { axis * cell ≤ most_atoms }
    ensures value { result ≡ item * cell + rest }
    ensures within { result < axis * cell }
{
    item * cell + rest
}
