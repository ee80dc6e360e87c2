//! `i:`: the integers from a number's opposite to it.

ghost use Rattle.std.specs.Prelude.{◌≡◌, ◌≤◌, ◌+◌, ◌-◌, ◌*◌, ◌^◌, min, IfOk, map, pos, ◌≤ℤ◌};
ghost use Rattle.std.specs.List.{range_with_len};
ghost use Rattle.jdata.specs.Answers.{Answers};
ghost use Rattle.jdata.specs.Limits.{limited, most_atoms};
ghost use Rattle.jarray.specs.Placed.{Gives};
ghost use Rattle.jsearch.specs.Steps as meant;
ghost use Rattle.jsearch.specs.Turned.{magnitude};

use crate::number::integer;
use jarray::{Array, Room};
use jdata::{Fault, IntList, Leaves, NoMemory, Tree, Trouble, product_within};
use jselect::limited;
use std::alloc::Global;

/// The integers from the opposite of `y` up to it, or from it down where it is negative. Faults:
/// Domain, Limit.
pub fn steps(alloc: Global, room: &mut Room, y: Array) -> Result<Array, Trouble>
    ensures { Gives (meant.steps y.noun) result }
{
    let steps = steps_of(alloc, room, &y);
    y.done(room);
    match steps {
        Ok(tree) => Ok(Array::of(tree)),
        Err(trouble) => Err(trouble),
    }
}

fn steps_of(alloc: Global, room: &Room, y: &Array) -> Result<Tree, Trouble>
    ensures { Answers (meant.steps y.now.noun) result }
{
    match y.numbers(room) {
        Some(numbers) => first_steps(alloc, numbers),
        None => Err(Trouble::Fault(Fault::Domain)),
    }
}

fn first_steps(alloc: Global, numbers: &[i64]) -> Result<Tree, Trouble>
    ensures { Answers (meant.steps_of numbers.now) result }
{
    match numbers {
        [] => Err(Trouble::Fault(Fault::Domain)),
        [number, ..] => step_list(alloc, number),
    }
}

fn step_list(alloc: Global, number: &i64) -> Result<Tree, Trouble>
    ensures { Answers (limited (meant.step_list number.now)) result }
{
    let count = step_count(number);
    let shape = Vec::from_slice(alloc, &[count])?;
    let count = match product_within(shape.as_slice()) {
        Some(count) => count,
        None => return Err(Trouble::Fault(Fault::Limit)),
    };
    let steps = steps_from(alloc, number, count)?;
    limited(shape, Leaves::Int(IntList::of(steps)))
}

/// How many steps there are, or 2^64 - 1 where they are more.
fn step_count(number: &i64) -> u64
    ensures { result ≡ min (2 * magnitude number.now + 1) (2 ^ 64 - 1) }
{
    number.unsigned_abs().saturating_mul(2).saturating_add(1)
}

fn steps_from(alloc: Global, number: &i64, count: u64) -> Result<Vec<i64>, NoMemory>
    requires few { count ≤ most_atoms }
    requires all { count ≡ 2 * magnitude number.now + 1 }
    ensures { IfOk result (λ v. v.items ≡ map (meant.step number.now) (range_with_len 0 count)) }
{
    let mut steps = Vec::with_capacity(alloc, count as usize)?;
    for place in 0..count {
        let step = step(number, integer(place));
        steps.push(step)?;
    }
    Ok(steps)
}

fn step(number: &i64, place: i64) -> i64
    requires low { pos 0 ≤ℤ place }
    requires high { place ≤ℤ pos most_atoms }
    requires bound { magnitude number.now ≤ most_atoms }
    ensures { result ≡ meant.step_at number.now place }
{
    if *number < 0 {
        -*number - place
    } else {
        place - *number
    }
}
