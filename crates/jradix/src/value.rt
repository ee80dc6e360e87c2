//! `#.`: the number of digits.

ghost use Rattle.std.specs.Prelude.{◌≡◌, ◌<◌, ◌*ℤ◌, ◌==◌, if◌then◌else◌, true, Some, None, length};
ghost use Rattle.jarray.specs.Placed.{Gives};
ghost use Rattle.jselect.specs.Picking as picking;
ghost use Rattle.jradix.specs.Bases as meant;

use crate::narrow::narrow;
use jarray::{Array, Room};
use jdata::{Fault, Trouble};
use jselect::{is_alone, served};
use std::alloc::Global;

/// The number of digits `y` in bases `x`, where an atom stands for as many as the other has.
/// Faults: Domain, Length, Nonce.
pub fn base(_alloc: Global, room: &mut Room, x: Array, y: Array) -> Result<Array, Trouble>
    ensures { Gives (meant.based x.noun y.noun) result }
{
    let value = value_of(room, &x, &y);
    x.done(room);
    y.done(room);
    match value {
        Ok(value) => Ok(Array::atom(value)),
        Err(fault) => Err(Trouble::Fault(fault)),
    }
}

/// The number of digits `y` in base 2. Faults: Domain, Nonce.
pub fn base_two(alloc: Global, room: &mut Room, y: Array) -> Result<Array, Trouble>
    ensures { Gives (meant.based_two y.noun) result }
{
    base(alloc, room, Array::atom(2), y)
}

fn value_of(room: &Room, x: &Array, y: &Array) -> Result<i64, Fault>
    ensures { result ≡ meant.value_of x.now.noun y.now.noun }
{
    let one_base = is_alone(x.shape(room));
    let one_digit = is_alone(y.shape(room));
    match (x.numbers(room), y.numbers(room)) {
        (Some(bases), Some(digits)) => value_in(one_base, bases, one_digit, digits),
        _ => Err(Fault::Domain),
    }
}

fn value_in(one_base: bool, bases: &[i64], one_digit: bool, digits: &[i64]) -> Result<i64, Fault>
    requires base { one_base ≡ true → length bases.now ≡ 1 }
    requires digit { one_digit ≡ true → length digits.now ≡ 1 }
    ensures { result ≡ meant.value_in one_base bases.now one_digit digits.now }
{
    match place_count(one_base, bases.len(), one_digit, digits.len()) {
        Some(count) => value_of_places(one_base, bases, one_digit, digits, count),
        None => Err(Fault::Length),
    }
}

fn place_count(one_base: bool, bases: usize, one_digit: bool, digits: usize) -> Option<usize>
    ensures { result ≡ meant.place_count one_base bases one_digit digits }
{
    match (one_base, one_digit) {
        (true, _) => Some(digits),
        (false, true) => Some(bases),
        (false, false) => same_count(bases, digits),
    }
}

fn same_count(bases: usize, digits: usize) -> Option<usize>
    ensures { result ≡ (if bases == digits then Some bases else None) }
{
    if bases == digits { Some(bases) } else { None }
}

fn value_of_places(
    one_base: bool,
    bases: &[i64],
    one_digit: bool,
    digits: &[i64],
    count: usize,
) -> Result<i64, Fault>
    requires base { one_base ≡ true → length bases.now ≡ 1 }
    requires digit { one_digit ≡ true → length digits.now ≡ 1 }
    requires count { meant.place_count one_base (length bases.now) one_digit (length digits.now) ≡ Some count }
    ensures { result ≡ meant.value_by (meant.place_at one_base bases.now one_digit digits.now) (Some count) }
{
    let mut value = 0;
    for place in 0..count {
        match step_at(value, one_base, bases, one_digit, digits, place) {
            Ok(next) => value = next,
            Err(fault) => return Err(fault),
        }
    }
    Ok(value)
}

fn step_at(
    value: i64,
    one_base: bool,
    bases: &[i64],
    one_digit: bool,
    digits: &[i64],
    place: usize,
) -> Result<i64, Fault>
    requires base { picking.served one_base place < length bases.now }
    requires digit { picking.served one_digit place < length digits.now }
    ensures { result ≡ meant.step value (meant.place_at one_base bases.now one_digit digits.now place) }
{
    let base = number_at(one_base, bases, place);
    step(value, base, number_at(one_digit, digits, place))
}

/// The value so far times the base plus the digit. Its only fault is Nonce.
fn step(value: i64, base: i64, digit: i64) -> Result<i64, Fault>
    ensures { result ≡ meant.step value (base, digit) }
{
    let product = product(value, base);
    narrow(product.checked_add(i128::from(digit)))
}

fn product(value: i64, base: i64) -> i128
    ensures { result ≡ value *ℤ base }
{
    i128::from(value) * i128::from(base)
}

fn number_at(alone: bool, numbers: &[i64], place: usize) -> i64
    requires { picking.served alone place < length numbers.now }
    ensures { result ≡ meant.number_at alone numbers.now place }
{
    numbers[served(alone, place)]
}
