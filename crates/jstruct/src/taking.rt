//! Take, drop, rotate, behead and curtail.

ghost use Rattle.std.specs.Prelude.{◌≡◌, IfOk, [], ◌∷◌, pos, negsuc};
ghost use Rattle.jdata.specs.Firsts.{and_then};
ghost use Rattle.jarray.specs.Placed.{Gives};
ghost use Rattle.jstruct.specs.Laying as meant;

use crate::change::{Change, axes_after, plan};
use crate::laying::laid;
use crate::made::{array_of, size_of};
use jarray::{Array, Room};
use jdata::{Fault, NoMemory, Trouble};
use std::alloc::Global;

/// `x {. y`: along axis k the first so many numbers as number k of `x` says, or the last for a
/// negative number, with fills where there are too few. An atom has as many axes of 1 as there are
/// numbers. The faults are Domain, for no integers, Length, for more numbers than axes, and Limit.
pub fn take(alloc: Global, room: &mut Room, x: Array, y: Array) -> Result<Array, Trouble>
    ensures { Gives (meant.taken x.noun y.noun) result }
{
    let Some(numbers) = x.numbers(room) else {
        return Err(Trouble::Fault(Fault::Domain));
    };
    changed(alloc, room, Change::Take, numbers, &y)
}

/// `x }. y`: along axis k so many numbers as number k of `x` says are left away, the first, or the
/// last for a negative number. The faults are Domain, for no integers, and Length, for more numbers
/// than axes.
pub fn drop(alloc: Global, room: &mut Room, x: Array, y: Array) -> Result<Array, Trouble>
    ensures { Gives (meant.dropped x.noun y.noun) result }
{
    let Some(numbers) = x.numbers(room) else {
        return Err(Trouble::Fault(Fault::Domain));
    };
    changed(alloc, room, Change::Drop, numbers, &y)
}

/// `x |. y`: axis k is turned to the left, by number k of `x`. An atom is given as it is. The
/// faults are Domain, for no integers, and Length, for more numbers than axes.
pub fn rotate(alloc: Global, room: &mut Room, x: Array, y: Array) -> Result<Array, Trouble>
    ensures { Gives (meant.turned x.noun y.noun) result }
{
    let Some(numbers) = x.numbers(room) else {
        return Err(Trouble::Fault(Fault::Domain));
    };
    if y.shape(room).is_empty() {
        return Ok(y);
    }
    changed(alloc, room, Change::Turn, numbers, &y)
}

/// `}. y`: all items but the first.
pub fn behead(alloc: Global, room: &mut Room, y: Array) -> Result<Array, Trouble>
    ensures { Gives (meant.beheaded y.noun) result }
{
    changed(alloc, room, Change::Drop, &[1], &y)
}

/// `}: y`: all items but the last.
pub fn curtail(alloc: Global, room: &mut Room, y: Array) -> Result<Array, Trouble>
    ensures { Gives (meant.curtailed y.noun) result }
{
    changed(alloc, room, Change::Drop, &[-1], &y)
}

/// The array with its first axes changed, each by a number. The faults are Length, for more numbers
/// than axes, and Limit.
fn changed(
    alloc: Global,
    room: &Room,
    change: Change,
    numbers: &[i64],
    y: &Array,
) -> Result<Array, Trouble>
    ensures { Gives (meant.changed_by change numbers.now y.now.noun) result }
{
    let axes = axes_for(alloc, numbers.len(), y.shape(room))?;
    if numbers.len() > axes.len() {
        return Err(Trouble::Fault(Fault::Length));
    }
    let whole = axes_after(alloc, change, numbers, axes.as_slice())?;
    match size_of(whole.as_slice()) {
        Ok(_) => {}
        Err(trouble) => return Err(trouble),
    }
    let layouts = plan(alloc, change, numbers, axes.as_slice())?;
    let atoms = laid(
        alloc,
        layouts.as_slice(),
        axes.as_slice(),
        whole.as_slice(),
        y.leaf(room),
    )?;
    array_of(whole, atoms)
}

/// The axes; an atom has as many axes of 1 as are wanted.
fn axes_for(alloc: Global, count: usize, shape: &[u64]) -> Result<Vec<u64>, NoMemory>
    ensures { IfOk result (λ v. v.items ≡ meant.axes_for count shape.now) }
{
    if shape.is_empty() {
        Ok(vec![in alloc; 1; count]?)
    } else {
        Ok(Vec::from_slice(alloc, shape)?)
    }
}
