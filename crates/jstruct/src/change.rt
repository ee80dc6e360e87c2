//! How the first axes of an array are changed.

ghost use Rattle.std.specs.Prelude.{◌≡◌, ◌≤◌, ◌++◌, ◌<◌, IfOk, length};
ghost use Rattle.jdata.specs.Limits.{most_atoms};
ghost use Rattle.jdata.specs.Noun.{extent};
ghost use Rattle.jstruct.specs.Laying.{turns as turns_of, length_after as length_of, axes_after as axes_of};
ghost use Rattle.jstruct.specs.Layouts.{IsLayout, ArePlanned, two_stretches};
ghost use Rattle.jstruct.specs.declared.change.Change.TheVariants as change;

use jdata::NoMemory;
use std::alloc::Global;

/// What is done along an axis.
#[derive(Clone, Copy, Debug, PartialEq, Eq)]
pub enum Change {
    /// The first so many numbers are taken, or the last.
    Take,
    /// The first so many numbers are left away, or the last.
    Drop,
    /// The axis is turned to the left.
    Turn,
}

/// Numbers of an axis that stand together; from the axis's length on they are fills.
#[derive(Clone, Copy, Debug, PartialEq, Eq)]
pub struct Stretch {
    pub start: u64,
    pub count: u64,
}

/// A changed axis: the stretches of the axis that it was.
#[derive(Clone, Copy, Debug, PartialEq, Eq)]
pub struct Layout {
    pub first: Stretch,
    pub second: Stretch,
}

/// How an axis of so many numbers is laid after the change.
fn laid_out(change: Change, number: i64, length: u64) -> Layout
    requires { length ≤ most_atoms }
    ensures { IsLayout change number length result }
{
    match change {
        Change::Take => taken(number, length),
        Change::Drop => dropped(number, length),
        Change::Turn => turned(number, length),
    }
}

fn taken(number: i64, length: u64) -> Layout
    requires { length ≤ most_atoms }
    ensures { IsLayout change.Take number length result }
{
    let count = number.unsigned_abs();
    let kept = count.min(length);
    let fills = Stretch {
        start: length,
        count: count - kept,
    };
    if number < 0 {
        let last = Stretch {
            start: length - kept,
            count: kept,
        };
        Layout {
            first: fills,
            second: last,
        }
    } else {
        let first = Stretch {
            start: 0,
            count: kept,
        };
        Layout {
            first,
            second: fills,
        }
    }
}

fn dropped(number: i64, length: u64) -> Layout
    requires { length ≤ most_atoms }
    ensures { IsLayout change.Drop number length result }
{
    let gone = number.unsigned_abs().min(length);
    if number < 0 {
        one_stretch(0, length - gone, length)
    } else {
        one_stretch(gone, length - gone, length)
    }
}

fn one_stretch(start: u64, count: u64, length: u64) -> Layout
    ensures { result ≡ two_stretches start count length 0 }
{
    Layout {
        first: Stretch { start, count },
        second: Stretch {
            start: length,
            count: 0,
        },
    }
}

fn turned(number: i64, length: u64) -> Layout
    requires { length ≤ most_atoms }
    ensures { IsLayout change.Turn number length result }
{
    let gone = turns(number, length);
    Layout {
        first: Stretch {
            start: gone,
            count: length - gone,
        },
        second: Stretch {
            start: 0,
            count: gone,
        },
    }
}

/// How far an axis of so many numbers is turned to the left.
fn turns(number: i64, length: u64) -> u64
    ensures value { 1 ≤ length → result ≡ turns_of number length }
    ensures within { result ≤ length }
{
    let count = number.unsigned_abs();
    if length == 0 {
        0
    } else if number < 0 {
        length - 1 - (count - 1) % length
    } else {
        count % length
    }
}

/// The length of an axis after the change.
fn length_after(change: Change, number: i64, length: u64) -> u64
    ensures { result ≡ length_of change number length }
{
    let count = number.unsigned_abs();
    match change {
        Change::Take => count,
        Change::Drop => length.saturating_sub(count),
        Change::Turn => length,
    }
}

/// The axes after the change: number k changes axis k.
pub fn axes_after(
    alloc: Global,
    change: Change,
    numbers: &[i64],
    axes: &[u64],
) -> Result<Vec<u64>, NoMemory>
    requires { length numbers.now ≤ length axes.now }
    ensures { IfOk result (λ v. v.items ≡ axes_of change numbers.now axes.now) }
{
    let mut changed = Vec::with_capacity(alloc, axes.len())?;
    for (i, &number) in numbers.iter().enumerate() {
        changed.push(length_after(change, number, axes[i]))?;
    }
    changed.extend_from_slice(&axes[numbers.len()..])?;
    Ok(changed)
}

/// How each axis that has a number is laid after the change.
pub fn plan(
    alloc: Global,
    change: Change,
    numbers: &[i64],
    axes: &[u64],
) -> Result<Vec<Layout>, NoMemory>
    requires long { length numbers.now ≤ length axes.now }
    requires bound { extent axes.now ≤ most_atoms }
    ensures { IfOk result (λ v. ArePlanned change numbers.now axes.now v.items) }
{
    let mut layouts = Vec::with_capacity(alloc, numbers.len())?;
    for (i, &number) in numbers.iter().enumerate() {
        layouts.push(laid_out(change, number, axes[i]))?;
    }
    Ok(layouts)
}
