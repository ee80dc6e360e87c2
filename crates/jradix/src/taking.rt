//! `#:`: the digits of a number.

ghost use Rattle.std.specs.Prelude.{◌≡◌, ◌≢◌, ◌<◌, ◌-ℤ◌, pos, int_div, length, get_or, Ok};
ghost use Rattle.jdata.specs.Answers.{Answers};
ghost use Rattle.jdata.specs.Firsts.{and_then};
ghost use Rattle.jarray.specs.Placed.{Gives};
ghost use Rattle.jradix.specs.Digits as meant;
ghost use Rattle.jscalar.specs.Fitted.{fitted};

use crate::narrow::narrow;
use jarray::{Array, Room};
use jdata::{Fault, IntList, Leaves, Primitive, Tree, Trouble};
use jscalar::two;
use jselect::limited;
use std::alloc::Global;

/// The digits of the number `y` in the bases `x`, as a list; a digit in base 0 is all that is left.
/// Faults: Domain, Nonce.
pub fn digits(alloc: Global, room: &mut Room, x: Array, y: Array) -> Result<Array, Trouble>
    ensures { Gives (meant.digits x.noun y.noun) result }
{
    let digits = digits_in(alloc, room, &x, &y);
    x.done(room);
    y.done(room);
    match digits {
        Ok(tree) => Ok(Array::of(tree)),
        Err(trouble) => Err(trouble),
    }
}

fn digits_in(alloc: Global, room: &Room, x: &Array, y: &Array) -> Result<Tree, Trouble>
    ensures { Answers (meant.digits x.now.noun y.now.noun) result }
{
    let bases = match x.numbers(room) {
        Some(bases) => bases,
        None => return Err(Trouble::Fault(Fault::Domain)),
    };
    match y.numbers(room) {
        Some(numbers) => digits_of(alloc, bases, numbers),
        None => Err(Trouble::Fault(Fault::Domain)),
    }
}

fn digits_of(alloc: Global, bases: &[i64], numbers: &[i64]) -> Result<Tree, Trouble>
    ensures { Answers (meant.digits_of bases.now numbers.now) result }
{
    let [number, ..] = numbers else {
        return Err(Trouble::Fault(Fault::Domain));
    };
    let digits = digits_taken(alloc, bases, *number)?;
    let shape = Vec::from_slice(alloc, &[digits.items().len() as u64])?;
    limited(shape, Leaves::Int(digits))
}

fn digits_taken(alloc: Global, bases: &[i64], number: i64) -> Result<IntList, Trouble>
    ensures { Answers (meant.digits_taken bases.now number) result }
{
    let mut digits = Vec::with_capacity(alloc, bases.len())?;
    let mut rest = number;
    for done in 0..bases.len() {
        let base = base_at(bases, bases.len() - 1 - done);
        match next_digit(base, rest) {
            Ok((left, digit)) => {
                digits.push(digit)?;
                rest = left;
            }
            Err(fault) => return Err(Trouble::Fault(fault)),
        }
    }
    digits.reverse();
    Ok(IntList::of(digits))
}

fn base_at(bases: &[i64], place: usize) -> i64
    requires { place < length bases.now }
    ensures { result ≡ get_or bases.now place (pos 0) }
{
    bases[place]
}

/// What is left of a rest when its digit is taken, and that digit. Its only fault is Nonce.
fn next_digit(base: i64, rest: i64) -> Result<(i64, i64), Fault>
    ensures { result ≡ meant.digit_and_rest base rest }
{
    match two(Primitive::Bar, base, rest) {
        Ok(digit) => with_digit(left_over(base, difference(rest, digit)), digit),
        Err(fault) => Err(fault),
    }
}

fn with_digit(left: Result<i64, Fault>, digit: i64) -> Result<(i64, i64), Fault>
    ensures { result ≡ and_then left (λ rest. Ok (rest, digit)) }
{
    match left {
        Ok(rest) => Ok((rest, digit)),
        Err(fault) => Err(fault),
    }
}

fn difference(rest: i64, digit: i64) -> i128
    ensures { result ≡ rest -ℤ digit }
{
    i128::from(rest) - i128::from(digit)
}

fn left_over(base: i64, whole: i128) -> Result<i64, Fault>
    ensures { result ≡ meant.whole_part base whole }
{
    if base == 0 {
        Ok(0)
    } else {
        quotient(whole, i128::from(base))
    }
}

fn quotient(whole: i128, base: i128) -> Result<i64, Fault>
    requires { base ≢ pos 0 }
    ensures { result ≡ fitted (int_div whole base) }
{
    narrow(whole.checked_div(base))
}
