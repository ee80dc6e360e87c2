//! `#:` of one argument: the binary digits of numbers.

ghost use Rattle.std.specs.Prelude.{◌≡◌, ◌<◌, ◌≤◌, ◌*◌, ◌/◌, ◌%◌, ◌^◌, ◌++◌, ◌∷◌, [], pos, true, IfOk, length, map, get_or};
ghost use Rattle.std.specs.List.{list_all, range_with_len};
ghost use Rattle.jdata.specs.Answers.{Answers};
ghost use Rattle.jdata.specs.Limits.{limited};
ghost use Rattle.jdata.specs.Noun.{product};
ghost use Rattle.jarray.specs.Placed.{Gives};
ghost use Rattle.jselect.specs.Arguments.{is_count};
ghost use Rattle.jradix.specs.Digits as meant;

use jarray::{Array, Room};
use jdata::{Fault, IntList, Leaves, NoMemory, Tree, Trouble, product_within};
use jselect::{are_counts, count_at, limited};
use std::alloc::Global;

/// The binary digits of each number of `y`, along a new last axis. Faults: Domain, Nonce, Limit.
pub fn binary(alloc: Global, room: &mut Room, y: Array) -> Result<Array, Trouble>
    ensures { Gives (meant.binary y.noun) result }
{
    let digits = binary_of(alloc, room, &y);
    y.done(room);
    match digits {
        Ok(tree) => Ok(Array::of(tree)),
        Err(trouble) => Err(trouble),
    }
}

fn binary_of(alloc: Global, room: &Room, y: &Array) -> Result<Tree, Trouble>
    ensures { Answers (meant.binary y.now.noun) result }
{
    let numbers = match y.numbers(room) {
        Some(numbers) => numbers,
        None => return Err(Trouble::Fault(Fault::Domain)),
    };
    if !are_counts(numbers) {
        return Err(Trouble::Fault(Fault::Nonce));
    }
    bit_table(alloc, y.shape(room), numbers)
}

fn bit_table(alloc: Global, axes: &[u64], numbers: &[i64]) -> Result<Tree, Trouble>
    requires counts { list_all is_count numbers.now ≡ true }
    requires whole { length numbers.now ≡ product axes.now }
    ensures { Answers (limited (meant.bit_table axes.now numbers.now (meant.width numbers.now))) result }
{
    let width = width(numbers);
    let shape = with_axis(alloc, axes, width as u64)?;
    let count = match product_within(shape.as_slice()) {
        Some(count) => count as usize,
        None => return Err(Trouble::Fault(Fault::Limit)),
    };
    let bits = bits_by_place(alloc, numbers, width, count)?;
    limited(shape, Leaves::Int(IntList::of(bits)))
}

/// These axes and one more behind them.
fn with_axis(alloc: Global, axes: &[u64], last: u64) -> Result<Vec<u64>, NoMemory>
    ensures { IfOk result (λ shape. shape.items ≡ axes.now ++ last ∷ []) }
{
    let mut shape = Vec::with_capacity(alloc, axes.len() + 1)?;
    shape.extend_from_slice(axes)?;
    shape.push(last)?;
    Ok(shape)
}

/// The least number of binary digits, at least 1, that holds each of these.
fn width(numbers: &[i64]) -> usize
    requires { list_all is_count numbers.now ≡ true }
    ensures value { result ≡ meant.width numbers.now }
    ensures some { 1 ≤ result }
    ensures at_most { result ≤ 64 }
{
    let mut width = 1;
    for place in 0..numbers.len() {
        width = width.max(bits(count_at(false, numbers, place)));
    }
    width
}

fn bits(number: u64) -> usize
    ensures value { result ≡ meant.bits number }
    ensures at_most { result ≤ 64 }
{
    64 - number.leading_zeros() as usize
}

/// The digits in ravel order, `width` of each number.
fn bits_by_place(
    alloc: Global,
    numbers: &[i64],
    width: usize,
    count: usize,
) -> Result<Vec<i64>, NoMemory>
    requires counts { list_all is_count numbers.now ≡ true }
    requires some { 1 ≤ width }
    requires at_most { width ≤ 64 }
    requires count { count ≡ length numbers.now * width }
    ensures { IfOk result (λ v. v.items ≡ map (meant.bit_of numbers.now width) (range_with_len 0 count)) }
{
    let mut bits = Vec::with_capacity(alloc, count)?;
    for place in 0..count {
        let bit = bit_of(numbers, width, place);
        bits.push(bit)?;
    }
    Ok(bits)
}

fn bit_of(numbers: &[i64], width: usize, place: usize) -> i64
    requires counts { list_all is_count numbers.now ≡ true }
    requires some { 1 ≤ width }
    requires at_most { width ≤ 64 }
    requires within { place < length numbers.now * width }
    ensures { result ≡ meant.bit_of numbers.now width place }
{
    let number = count_at(false, numbers, place / width);
    let digit = place % width;
    bit(number, width - 1 - digit)
}

/// The digit before so many others.
fn bit(number: u64, others: usize) -> i64
    requires { others < 64 }
    ensures { result ≡ pos (number / 2 ^ others % 2) }
{
    ((number >> others) % 2) as i64
}
