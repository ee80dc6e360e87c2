//! A verb again and again, with its values at some numbers of repetitions.
ghost use Rattle.std.specs.Prelude.{◌≡◌, ◌≤◌, ◌==◌, true, IfOk, None, length, map, get_or, pos};
ghost use Rattle.std.specs.List.{list_all, list_any};
ghost use Rattle.jdata.specs.Limits.{most_atoms};
ghost use Rattle.jdata.specs.Noun.{product, int_atom, greatest};
ghost use Rattle.jselect.specs.Arguments.{is_count, count_of};
ghost use Rattle.juses.specs.Program.{Return};
ghost use Rattle.jplan.specs.Plans as plans;
ghost use Rattle.jplan.specs.Repeating as meant;

use crate::copies::twice;
use crate::counted::Nowhere;
use crate::plan::Plan;
use crate::repeating::{Goal, again};
use crate::several::{alone, done};
use crate::steps::Steps;
use jarray::{Array, Room};
use jdata::{Axes, Fault, NoMemory, Sequence, Trouble};
use jframe::Results;
use jselect::are_counts;
use jshape::Shape;
use jterm::{Datum, Term};
use std::alloc::Global;

fn copy(alloc: Global, room: &Room, value: &Datum) -> Result<Datum, NoMemory>
    ensures { IfOk result (λ other. other ≡ value.now) }
{
    let tree = value.array().tree(alloc, room)?;
    Ok(Datum::of(Array::of(tree)))
}

// Whether one of the numbers is this.
fn asks_for(counts: &[u64], at: u64) -> bool
    ensures { result ≡ list_any (λ c. c == at) counts.now }
{
    counts.iter().any(|count| *count == at)
}

// The value after so many repetitions, and what is kept of it.
fn kept(
    alloc: Global,
    room: &Room,
    counts: &[u64],
    at: u64,
    value: Datum,
) -> Result<(Datum, Datum), NoMemory>
    ensures { IfOk result (λ both. (both.0 ≡ value) × (both.1 ≡ meant.kept counts.now at value)) }
{
    if asks_for(counts, at) {
        return twice(alloc, room, value);
    }
    Ok((value, Datum::of(Array::atom(0))))
}

fn value_at(alloc: Global, room: &Room, values: &[Datum], count: u64) -> Result<Datum, NoMemory>
    ensures { IfOk result (λ value. value ≡ get_or values.now count (int_atom (pos 0))) }
{
    match values.get(count as usize) {
        Some(value) => copy(alloc, room, value),
        None => Ok(Datum::of(Array::atom(0))),
    }
}

// The values at the numbers, one after the other.
fn results_of(
    alloc: Global,
    room: &mut Room,
    counts: &[u64],
    values: &[Datum],
) -> Result<Results, NoMemory>
    requires few { length counts.now ≤ most_atoms }
    ensures { IfOk result (λ results. results ≡ map (λ c. get_or values.now c (int_atom (pos 0))) counts.now) }
{
    let mut results = Results::new(alloc);
    for &count in counts {
        let value = value_at(alloc, room, values, count)?;
        results.push(room, value.into_array())?;
    }
    Ok(results)
}

// The plan that is done with them.
fn picked<'a>(
    alloc: Global,
    room: &mut Room,
    steps: &Steps,
    values: &[Datum],
) -> Result<Plan<'a>, NoMemory>
    ensures rest { IfOk result (λ plan. plans.rest plan ≡ Return (meant.picked steps.now.frame steps.now.counts values.now)) }
    ensures left { IfOk result (λ plan. plans.left_of plan ≡ 0) }
{
    // a frame has no more cells than the limit says
    let _axes = steps.frame.axes();
    let results = results_of(alloc, room, steps.counts.items(), values)?;
    done(results.finish(&steps.frame))
}

/// So many times more, behind these values.
pub(crate) fn climb<'a>(
    alloc: Global,
    room: &mut Room,
    verb: Box<Term>,
    steps: Steps,
    left: u64,
    mut values: Sequence<Datum>,
    y: Datum,
) -> Result<Plan<'a>, NoMemory>
    ensures rest { IfOk result (λ plan. plans.rest plan ≡ meant.climb verb.value steps.frame steps.counts left values y) }
    ensures left { IfOk result (λ plan. plans.left_of plan ≤ left) }
{
    let at = values.items().len() as u64;
    let (y, value) = kept(alloc, room, steps.counts.items(), at, y)?;
    values.push(value)?;
    if left == 0 {
        return picked(alloc, room, &steps, values.items());
    }
    let goal = Goal::Climb {
        steps,
        values,
        left: left - 1,
    };
    again(alloc, verb, goal, y)
}

fn counted(alloc: Global, numbers: &[i64]) -> Result<Axes, NoMemory>
    requires { list_all is_count numbers.now ≡ true }
    ensures { IfOk result (λ l. l ≡ map count_of numbers.now) }
{
    let mut counts = Vec::with_capacity(alloc, numbers.len())?;
    for number in numbers {
        counts.push(number.unsigned_abs())?;
    }
    Ok(Axes::of(counts))
}

fn most_of(counts: &[u64]) -> u64
    ensures { result ≡ greatest counts.now }
{
    let mut most = 0;
    for &count in counts {
        most = most.max(count);
    }
    most
}

// One run up to the greatest of the numbers of a list of this shape.
fn run<'a>(
    alloc: Global,
    room: &mut Room,
    verb: Box<Term>,
    frame: Shape,
    numbers: &[i64],
    y: Datum,
) -> Result<Plan<'a>, NoMemory>
    requires counts { list_all is_count numbers.now ≡ true }
    requires listed { product frame ≡ length numbers.now }
    ensures rest { IfOk result (λ plan. plans.rest plan ≡ meant.listed verb.value frame (map count_of numbers.now) y) }
    ensures left { IfOk result (λ plan. plans.left_of plan ≤ plans.most_counted) }
{
    if numbers.is_empty() {
        return alone(alloc, room, &Nowhere { frame }, Ok(y));
    }
    let counts = counted(alloc, numbers)?;
    let most = most_of(counts.items());
    let values = Sequence::of(Vec::new(alloc));
    climb(alloc, room, verb, Steps { frame, counts }, most, values, y)
}

/// A verb with its values at the numbers of a list.
pub(crate) fn listed<'a>(
    alloc: Global,
    room: &mut Room,
    verb: Box<Term>,
    list: &Array,
    y: Datum,
) -> Result<Plan<'a>, NoMemory>
    ensures rest { IfOk result (λ plan. plans.rest plan ≡ meant.powered_by verb.value None list.now.noun y) }
    ensures left { IfOk result (λ plan. plans.left_of plan ≤ plans.most_counted) }
{
    let Some(numbers) = list.numbers(room) else {
        return Ok(Plan::Done(Err(Fault::Domain)));
    };
    if list.shape(room).len() != 1 {
        return Ok(Plan::Done(Err(Fault::Domain)));
    }
    if !are_counts(numbers) {
        return Ok(Plan::Done(Err(Fault::Domain)));
    }
    match Shape::new(alloc, list.shape(room)) {
        Ok(frame) => run(alloc, room, verb, frame, numbers, y),
        Err(Trouble::NoMemory) => Err(NoMemory),
        Err(Trouble::Fault(_)) => unreachable!(),
    }
}
