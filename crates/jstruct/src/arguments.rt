//! The integers of an argument.

ghost use Rattle.std.specs.Prelude.{◌≡◌, IfOk, true, map};
ghost use Rattle.std.specs.List.{list_all};
ghost use Rattle.jdata.specs.Answers.{Answers};
ghost use Rattle.jstruct.specs.Arguments.{is_count, count_of};
ghost use Rattle.jstruct.specs.Shaping as meant;

use jarray::{Array, Room};
use jdata::{Axes, Fault, NoMemory, Trouble};
use std::alloc::Global;

/// The numbers of an argument that says how many. The only fault is Domain, where one is negative
/// or they are no integers.
pub fn counts(alloc: Global, room: &Room, x: &Array) -> Result<Axes, Trouble>
    ensures { Answers (meant.counts x.now.noun) result }
{
    let Some(numbers) = x.numbers(room) else {
        return Err(Trouble::Fault(Fault::Domain));
    };
    if !are_counts(numbers) {
        return Err(Trouble::Fault(Fault::Domain));
    }
    match counted(alloc, numbers) {
        Ok(counts) => Ok(counts),
        Err(NoMemory) => Err(Trouble::NoMemory),
    }
}

fn are_counts(numbers: &[i64]) -> bool
    ensures { result ≡ list_all is_count numbers.now }
{
    for &number in numbers {
        if number < 0 {
            return false;
        }
    }
    true
}

pub fn counted(alloc: Global, numbers: &[i64]) -> Result<Axes, NoMemory>
    requires { list_all is_count numbers.now ≡ true }
    ensures { IfOk result (λ l. l ≡ map count_of numbers.now) }
{
    let mut counts = Vec::with_capacity(alloc, numbers.len())?;
    for number in numbers {
        counts.push(number.unsigned_abs())?;
    }
    Ok(Axes::of(counts))
}
