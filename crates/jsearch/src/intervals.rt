//! `I.` of two arguments: how many numbers of a list in order stand before each number.

ghost use Rattle.std.specs.Prelude.{◌≡◌, ◌≤◌, ◌&&◌, ◌||◌, true, false, nat_le, int_lt, pos, IfOk, IfSome, IfNone, length, map, count_by};
ghost use Rattle.jdata.specs.Answers.{Answers};
ghost use Rattle.jdata.specs.Limits.{most_atoms};
ghost use Rattle.jdata.specs.Noun.{atoms as noun_atoms};
ghost use Rattle.jdata.specs.declared.noun.Atom.TheVariants as atom;
ghost use Rattle.jarray.specs.Placed.{Gives};
ghost use Rattle.jsearch.specs.Intervals as meant;

use crate::grading::given;
use crate::number::integer;
use jarray::{Array, Room, integers};
use jdata::{Fault, IntList, NoMemory, Tree, Trouble};
use std::alloc::Global;

/// For each atom of `y` how many atoms of `x` are less or, where the first of `x` is greater than its
/// last, how many are greater. Fault: Domain, where `y` isn't of integers, or `x` isn't a list of
/// integers in rising or in falling order.
pub fn interval_index(alloc: Global, room: &mut Room, x: Array, y: Array) -> Result<Array, Trouble>
    ensures { Gives (meant.interval_index x.noun y.noun) result }
{
    let counts = counts_of(alloc, room, &x, &y);
    x.done(room);
    y.done(room);
    given(counts)
}

fn counts_of(alloc: Global, room: &Room, x: &Array, y: &Array) -> Result<Tree, Trouble>
    ensures { Answers (meant.interval_index x.now.noun y.now.noun) result }
{
    let bounds = match bounds_of(room, x) {
        Some(bounds) => bounds,
        None => return Err(Trouble::Fault(Fault::Domain)),
    };
    let numbers = match y.numbers(room) {
        Some(numbers) => numbers,
        None => return Err(Trouble::Fault(Fault::Domain)),
    };
    let shape = Vec::from_slice(alloc, y.shape(room))?;
    let counts = counts(alloc, bounds, numbers)?;
    Ok(integers(shape, IntList::of(counts)))
}

/// The numbers of a list in order.
fn bounds_of<'a>(room: &Room, x: &'a Array) -> Option<&'a [i64]>
    ensures some { IfSome result (λ l. map atom.Int l.now ≡ noun_atoms x.now.noun) }
    ensures few { IfSome result (λ l. length l.now ≤ most_atoms) }
    ensures order { IfSome result (λ l. meant.rises l.now || meant.falls l.now ≡ true) }
    ensures yes { IfSome result (λ l. meant.is_in_order x.now.noun ≡ true) }
    ensures no { IfNone result (meant.is_in_order x.now.noun ≡ false) }
{
    let axes = x.shape(room);
    let numbers = match x.numbers(room) {
        Some(numbers) => numbers,
        None => return None,
    };
    if is_ordered(axes, numbers) {
        Some(numbers)
    } else {
        None
    }
}

fn is_ordered(axes: &[u64], numbers: &[i64]) -> bool
    ensures { result ≡ (nat_le (length axes.now) 1 && (meant.rises numbers.now || meant.falls numbers.now)) }
{
    axes.len() <= 1 && (rises(numbers) || falls(numbers))
}

/// Whether no number is less than the one before it.
fn rises(numbers: &[i64]) -> bool
    ensures { result ≡ meant.rises numbers.now }
{
    numbers.is_sorted_by(|a, b| *a <= *b)
}

/// Whether no number is greater than the one before it.
fn falls(numbers: &[i64]) -> bool
    ensures { result ≡ meant.falls numbers.now }
{
    numbers.is_sorted_by(|a, b| *b <= *a)
}

fn counts(alloc: Global, bounds: &[i64], numbers: &[i64]) -> Result<Vec<i64>, NoMemory>
    requires order { meant.rises bounds.now || meant.falls bounds.now ≡ true }
    requires few { length bounds.now ≤ most_atoms }
    ensures { IfOk result (λ v. v.items ≡ map (λ n. pos (meant.before bounds.now n)) numbers.now) }
{
    let mut counts = Vec::with_capacity(alloc, numbers.len())?;
    for number in numbers {
        let count = before(bounds, number);
        counts.push(count)?;
    }
    Ok(counts)
}

/// How many stand before a number.
fn before(bounds: &[i64], number: &i64) -> i64
    requires order { meant.rises bounds.now || meant.falls bounds.now ≡ true }
    requires few { length bounds.now ≤ most_atoms }
    ensures { result ≡ pos (meant.before bounds.now number.now) }
{
    if is_turned(bounds) {
        integer(greater(bounds, number) as u64)
    } else {
        integer(less(bounds, number) as u64)
    }
}

/// Whether the first is greater than the last.
fn is_turned(numbers: &[i64]) -> bool
    ensures { result ≡ meant.is_turned numbers.now }
{
    match numbers {
        [first, .., last] => last < first,
        _ => false,
    }
}

/// How many of the numbers, which rise, are less.
fn less(numbers: &[i64], number: &i64) -> usize
    requires { meant.rises numbers.now ≡ true }
    ensures { result ≡ count_by (λ a. int_lt a number.now) numbers.now }
{
    numbers.partition_point(|a| *a < *number)
}

/// How many of the numbers, which fall, are greater.
fn greater(numbers: &[i64], number: &i64) -> usize
    requires { meant.falls numbers.now ≡ true }
    ensures { result ≡ count_by (λ a. int_lt number.now a) numbers.now }
{
    numbers.partition_point(|a| *number < *a)
}
