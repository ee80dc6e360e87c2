//! `I.`: places, as often as numbers say.

ghost use Rattle.std.specs.Prelude.{◌≡◌, ◌<◌, ◌≤◌, ◌++◌, true, false, ℕ, IfOk, OnOk, length, map, pos, replicate};
ghost use Rattle.std.specs.List.{list_all};
ghost use Rattle.jdata.specs.Answers.{Answers};
ghost use Rattle.jdata.specs.Limits.{limited, most_atoms};
ghost use Rattle.jarray.specs.Placed.{Gives};
ghost use Rattle.jselect.specs.Arguments.{is_count};
ghost use Rattle.jsearch.specs.Steps as meant;

use crate::number::integer;
use jarray::{Array, Room};
use jdata::{Fault, IntList, Leaves, NoMemory, Tree, Trouble, product_within};
use jselect::{are_counts, count_at, limited, total_of};
use std::alloc::Global;

/// Each place as often as the number of `y` there says. Faults: Domain, Limit.
pub fn indices(alloc: Global, room: &mut Room, y: Array) -> Result<Array, Trouble>
    ensures { Gives (meant.indices y.noun) result }
{
    let places = indices_of(alloc, room, &y);
    y.done(room);
    match places {
        Ok(tree) => Ok(Array::of(tree)),
        Err(trouble) => Err(trouble),
    }
}

fn indices_of(alloc: Global, room: &Room, y: &Array) -> Result<Tree, Trouble>
    ensures { Answers (meant.indices y.now.noun) result }
{
    let counts = match y.numbers(room) {
        Some(numbers) => numbers,
        None => return Err(Trouble::Fault(Fault::Domain)),
    };
    if !are_counts(counts) {
        return Err(Trouble::Fault(Fault::Domain));
    }
    place_list(alloc, counts)
}

fn place_list(alloc: Global, counts: &[i64]) -> Result<Tree, Trouble>
    requires { list_all is_count counts.now ≡ true }
    ensures { Answers (limited (meant.place_list (meant.repeated_places counts.now))) result }
{
    let total = total_of(false, counts, counts.len());
    let shape = Vec::from_slice(alloc, &[total])?;
    let total = match product_within(shape.as_slice()) {
        Some(total) => total,
        None => return Err(Trouble::Fault(Fault::Limit)),
    };
    let places = repeated_places(alloc, counts, total)?;
    limited(shape, Leaves::Int(IntList::of(places)))
}

fn repeated_places(alloc: Global, counts: &[i64], total: u64) -> Result<Vec<i64>, NoMemory>
    requires { list_all is_count counts.now ≡ true }
    ensures { IfOk result (λ v. v.items ≡ map pos (meant.repeated_places counts.now)) }
{
    let mut places = Vec::with_capacity(alloc, total as usize)?;
    for place in 0..counts.len() {
        let number = integer(place as u64);
        let count = count_at(false, counts, place);
        push_times(number, count, &mut places)?;
    }
    Ok(places)
}

fn push_times(number: i64, count: u64, into: &mut Vec<i64>) -> Result<(), NoMemory>
    ensures { OnOk result (into.new.items ≡ into.old.items ++ replicate count number) }
{
    for _ in 0..count {
        into.push(number)?;
    }
    Ok(())
}
