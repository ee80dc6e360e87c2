//! The integers of a result, in the buffer of the longer argument if it has integers.

ghost use Rattle.std.specs.Prelude.{◌≡◌, ◌≢◌, Err, ◌*◌, ◌<◌, true, length, map};
ghost use Rattle.jscalar.specs.Places.{by_place};
ghost use Rattle.jdata.specs.Trees.{atoms_of};
ghost use Rattle.jdata.specs.declared.noun.Atom.TheVariants as atom;
ghost use Rattle.jscalar.specs.Dyads.{is_scalar_dyad};
ghost use Rattle.jdata.specs.Answers.{Answers};
ghost use Rattle.jdata.specs.declared.fault.Trouble.TheVariants as trouble;
ghost use Rattle.jdata.specs.Leaf.{atoms_in};
ghost use Rattle.jdyad.specs.Atoms.{is_comparison};
ghost use Rattle.jdyad.specs.Dyads.{spread};

use crate::comparison::compare;
use crate::numbers::{into_left, into_right};
use jdata::{IntList, Leaf, Leaves, NoMemory, Primitive, Trouble};
use std::alloc::Global;

/// Each of `xs` serves `cell` of `ys`, in the buffer of `ys`.
pub fn number_right(
    verb: Primitive,
    xs: &[i64],
    cell: usize,
    ys: IntList,
) -> Result<IntList, Trouble>
    requires verb { is_scalar_dyad verb ≡ true }
    requires some { 0 < cell }
    requires whole { length ys ≡ length xs.now * cell }
    ensures answer { Answers (by_place (spread verb (map atom.Int xs.now) cell (map atom.Int ys) 1) (length ys)) result }
    ensures memory { result ≢ Err trouble.NoMemory }
{
    let mut numbers = ys.into_items();
    match into_right(verb, xs, cell, numbers.as_mut_slice()) {
        Ok(()) => Ok(IntList::of(numbers)),
        Err(fault) => Err(Trouble::Fault(fault)),
    }
}

/// Each of `ys` serves `cell` of `xs`, in the buffer of `xs`.
pub fn number_left(
    verb: Primitive,
    xs: IntList,
    ys: &[i64],
    cell: usize,
) -> Result<IntList, Trouble>
    requires verb { is_scalar_dyad verb ≡ true }
    requires some { 0 < cell }
    requires whole { length xs ≡ length ys.now * cell }
    ensures answer { Answers (by_place (spread verb (map atom.Int xs) 1 (map atom.Int ys.now) cell) (length xs)) result }
    ensures memory { result ≢ Err trouble.NoMemory }
{
    let mut numbers = xs.into_items();
    match into_left(verb, numbers.as_mut_slice(), ys, cell) {
        Ok(()) => Ok(IntList::of(numbers)),
        Err(fault) => Err(Trouble::Fault(fault)),
    }
}

/// Each of `xs` serves `cell` of `ys`, for `=` and `~:`.
pub fn compare_right(
    alloc: Global,
    verb: Primitive,
    xs: Leaf<'_>,
    cell: usize,
    ys: &Leaves,
) -> Result<IntList, Trouble>
    requires comparison { is_comparison verb ≡ true }
    requires some { 0 < cell }
    requires whole { length (atoms_of ys.now) ≡ length (atoms_in xs) * cell }
    ensures { Answers (by_place (spread verb (atoms_in xs.entry) cell (atoms_of ys.now) 1) (length (atoms_of ys.now))) result }
{
    match compare(alloc, verb, xs, cell, ys.leaf()) {
        Ok(truths) => Ok(IntList::of(truths)),
        Err(NoMemory) => Err(Trouble::NoMemory),
    }
}

/// Each of `ys` serves `cell` of `xs`, for `=` and `~:`.
pub fn compare_left(
    alloc: Global,
    verb: Primitive,
    xs: &Leaves,
    ys: Leaf<'_>,
    cell: usize,
) -> Result<IntList, Trouble>
    requires comparison { is_comparison verb ≡ true }
    requires some { 0 < cell }
    requires whole { length (atoms_of xs.now) ≡ length (atoms_in ys) * cell }
    ensures { Answers (by_place (spread verb (atoms_of xs.now) 1 (atoms_in ys.entry) cell) (length (atoms_of xs.now))) result }
{
    match compare(alloc, verb, ys, cell, xs.leaf()) {
        Ok(truths) => Ok(IntList::of(truths)),
        Err(NoMemory) => Err(Trouble::NoMemory),
    }
}
