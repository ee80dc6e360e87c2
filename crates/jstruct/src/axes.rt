//! The axes of an array in an order that numbers name.

ghost use Rattle.std.specs.Prelude.{◌≡◌, ◌<◌, ◌≤◌, ◌++◌, ◌∷◌, [], not, true, IfOk, OnOk, length, map, get_or};
ghost use Rattle.std.specs.BTreeSet.{IsFromIterResult};
ghost use Rattle.std.specs.List.{filter, list_all};
ghost use Rattle.std.specs.Ordering.{int_cmp};
ghost use Rattle.jdata.specs.Answers.{Answers};
ghost use Rattle.jdata.specs.Limits.{limited, most_axes, IsShape};
ghost use Rattle.jdata.specs.Noun.{shape};
ghost use Rattle.jarray.specs.Placed.{Gives};
ghost use Rattle.jstruct.specs.Axes as meant;
ghost use Rattle.jstruct.specs.Orders.{IsOrder, weight_of as weight_at};

use crate::arguments::counted;
use crate::made::{array_of, size_of};
use crate::transposing::picked;
use jarray::{Array, Room};
use jdata::{Axes, Fault, NoMemory, Trouble, product_of};
use std::alloc::{AllocError, Global};
use std::collections::BTreeSet;

/// `x |: y`: the axes that `x` names stand behind the others, in the order of `x`; negative ones
/// count from the end. The faults are Domain, for no integers, Nonce, for an axis that is named
/// twice, and Index.
pub fn transpose_by(alloc: Global, room: &mut Room, x: Array, y: Array) -> Result<Array, Trouble>
    ensures { Gives (meant.transposed_by x.noun y.noun) result }
{
    let Some(numbers) = x.numbers(room) else {
        return Err(Trouble::Fault(Fault::Domain));
    };
    reordered_by(alloc, room, numbers, &y)
}

fn reordered_by(alloc: Global, room: &Room, numbers: &[i64], y: &Array) -> Result<Array, Trouble>
    ensures { Gives (meant.reordered_by numbers.now y.now.noun) result }
{
    let rank = y.shape(room).len();
    let last = match last_axes(alloc, rank, numbers) {
        Ok(last) => last,
        Err(trouble) => return Err(trouble),
    };
    let order = match new_order(alloc, rank, last.items()) {
        Ok(order) => order,
        Err(NoMemory) => return Err(Trouble::NoMemory),
    };
    reordered(alloc, room, order.as_slice(), y)
}

/// The axes that numbers name. The faults are Nonce, for one that is named twice, and Index.
fn last_axes(alloc: Global, rank: usize, numbers: &[i64]) -> Result<Axes, Trouble>
    requires { rank ≤ most_axes }
    ensures { Answers (meant.last_axes rank numbers.now) result }
{
    let named = match axes_named(alloc, rank, numbers) {
        Ok(named) => named,
        Err(NoMemory) => return Err(Trouble::NoMemory),
    };
    match are_distinct(alloc, named.as_slice()) {
        Ok(true) => distinct_axes(alloc, rank, named.as_slice()),
        Ok(false) => Err(Trouble::Fault(Fault::Nonce)),
        Err(NoMemory) => Err(Trouble::NoMemory),
    }
}

fn distinct_axes(alloc: Global, rank: usize, named: &[i64]) -> Result<Axes, Trouble>
    requires { meant.are_distinct named.now ≡ true }
    ensures { Answers (meant.axes_of rank named.now) result }
{
    if !are_axes(rank, named) {
        return Err(Trouble::Fault(Fault::Index));
    }
    match counted(alloc, named) {
        Ok(axes) => Ok(axes),
        Err(NoMemory) => Err(Trouble::NoMemory),
    }
}

fn axes_named(alloc: Global, rank: usize, numbers: &[i64]) -> Result<Vec<i64>, NoMemory>
    requires { rank ≤ most_axes }
    ensures { IfOk result (λ v. v.items ≡ map (meant.axis_named rank) numbers.now) }
{
    let mut named = Vec::with_capacity(alloc, numbers.len())?;
    for &number in numbers {
        named.push(axis_named(rank, number))?;
    }
    Ok(named)
}

fn axis_named(rank: usize, number: i64) -> i64
    requires { rank ≤ most_axes }
    ensures { result ≡ meant.axis_named rank number }
{
    if number < 0 {
        number + rank as i64
    } else {
        number
    }
}

fn are_distinct(alloc: Global, numbers: &[i64]) -> Result<bool, NoMemory>
    ensures { IfOk result (λ b. b ≡ meant.are_distinct numbers.now) }
{
    let distinct = distinct_numbers(alloc, numbers)?;
    Ok(distinct.len() == numbers.len())
}

fn distinct_numbers(alloc: Global, numbers: &[i64]) -> Result<BTreeSet<i64, Global>, AllocError>
    ensures { IfOk result (IsFromIterResult int_cmp numbers.now) }
{
    numbers.iter().copied().collect(alloc)
}

fn are_axes(rank: usize, named: &[i64]) -> bool
    ensures { result ≡ list_all (meant.is_axis rank) named.now }
{
    named.iter().all(|&number| is_axis(rank, number))
}

fn is_axis(rank: usize, number: i64) -> bool
    ensures { result ≡ meant.is_axis rank number }
{
    number >= 0 && number.unsigned_abs() < rank as u64
}

/// All axes, with these behind the others.
fn new_order(alloc: Global, rank: usize, last: &[u64]) -> Result<Vec<u64>, NoMemory>
    ensures { IfOk result (λ v. v.items ≡ meant.new_order rank last.now) }
{
    let mut order = Vec::with_capacity(alloc, rank)?;
    for axis in 0..rank {
        push_other(last, axis as u64, &mut order)?;
    }
    order.extend_from_slice(last)?;
    Ok(order)
}

/// The axis, unless it is one of these, at the end of others.
fn push_other(last: &[u64], axis: u64, order: &mut Vec<u64>) -> Result<(), NoMemory>
    ensures { OnOk result (order.new.items ≡ order.old.items ++ filter (λ a. not (meant.is_among last.now a)) (axis ∷ [])) }
{
    if last.contains(&axis) {
        return Ok(());
    }
    order.push(axis)?;
    Ok(())
}

/// The array with its axes in this order.
fn reordered(alloc: Global, room: &Room, order: &[u64], y: &Array) -> Result<Array, Trouble>
    requires { IsOrder (length (shape y.now.noun)) order.now }
    ensures { Gives (limited (meant.reordered order.now y.now.noun)) result }
{
    let (axes, weights) = match ordered(alloc, y.shape(room), order) {
        Ok(both) => both,
        Err(NoMemory) => return Err(Trouble::NoMemory),
    };
    match size_of(axes.as_slice()) {
        Ok(_) => {}
        Err(trouble) => return Err(trouble),
    }
    match picked(alloc, axes.as_slice(), weights.as_slice(), y.leaf(room)) {
        Ok(atoms) => array_of(axes, atoms),
        Err(NoMemory) => Err(Trouble::NoMemory),
    }
}

/// The axes and their weights in this order.
fn ordered(alloc: Global, axes: &[u64], order: &[u64]) -> Result<(Vec<u64>, Vec<u64>), NoMemory>
    requires shape { IsShape axes.now }
    requires order { IsOrder (length axes.now) order.now }
    ensures axes { IfOk result (λ r. r.0.items ≡ map (λ a. get_or axes.now a 0) order.now) }
    ensures weights { IfOk result (λ r. r.1.items ≡ map (weight_at axes.now) order.now) }
{
    let mut lengths = Vec::with_capacity(alloc, order.len())?;
    let mut weights = Vec::with_capacity(alloc, order.len())?;
    for &axis in order {
        lengths.push(length_of(axes, axis))?;
        weights.push(weight_of(axes, axis))?;
    }
    Ok((lengths, weights))
}

fn length_of(axes: &[u64], axis: u64) -> u64
    requires { axis < length axes.now }
    ensures { result ≡ get_or axes.now axis 0 }
{
    axes[axis as usize]
}

/// How far apart two neighbours along an axis are in ravel order.
fn weight_of(axes: &[u64], axis: u64) -> u64
    requires shape { IsShape axes.now }
    requires axis { axis < length axes.now }
    ensures { result ≡ weight_at axes.now axis }
{
    product_of(&axes[axis as usize + 1..])
}
