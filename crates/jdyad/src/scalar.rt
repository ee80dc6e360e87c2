//! Scalar dyads on arrays.
ghost use Rattle.std.specs.Prelude.{◌≡◌, ◌≢◌, ◌*◌, ◌<◌, ◌⊎◌, None, [], true, false, Err, ℤ, length};
ghost use Rattle.jarray.specs.Placed.{Gives};
ghost use Rattle.jdata.specs.Answers.{Answers};
ghost use Rattle.jdata.specs.Leaf.{kind_in, atoms_in};
ghost use Rattle.jdata.specs.Limits.{IsArray};
ghost use Rattle.jdata.specs.Noun.{shape, kind, int_atom};
ghost use Rattle.jdata.specs.Trees.{kind_of, atoms_of};
ghost use Rattle.jdata.specs.declared.fault.Trouble.TheVariants as trouble;
ghost use Rattle.jdata.specs.declared.noun.Kind.TheVariants as sort;
ghost use Rattle.jdyad.specs.Atoms as atoms;
ghost use Rattle.jdyad.specs.Dyads as dyads;
ghost use Rattle.jscalar.specs.Dyads.{is_scalar_dyad};
ghost use Rattle.jscalar.specs.Places.{by_place};
ghost use Rattle.jshape.specs.Agreement as agreement;

use crate::agreement::is_prefix;
use crate::buffers::{compare_left, compare_right, number_left, number_right};
use crate::kinds::{is_scalar, takes};
use jarray::{Array, Room, integers};
use jdata::{Fault, IntList, Leaf, Leaves, NoMemory, Primitive, Trouble};
use jscalar::two;
use std::alloc::Global;

/// What a scalar dyad gives of two arrays: the shape of the result is the longer one, and its atoms
/// are integers. Its faults, in this order, are Nonce for a verb that is no scalar dyad, Domain for
/// kinds that the verb doesn't take, Length where neither shape is a prefix of the other, and the
/// first fault of two atoms in ravel order. Two integers that stand alone take no memory, and neither
/// do other integers that are in no block: the result takes the buffer of the longer argument.
pub fn scalar2(
    alloc: Global,
    room: &mut Room,
    verb: Primitive,
    x: Array,
    y: Array,
) -> Result<Array, Trouble>
    ensures answer { Gives (dyads.scalar_dyad verb x.noun y.noun) result }
    ensures alone { (m n : ℤ) → x.noun ≡ int_atom m → y.noun ≡ int_atom n → result ≢ Err trouble.NoMemory }
    ensures memory { kind x.noun ≡ sort.Int → kind y.noun ≡ sort.Int → x.block ≡ None → y.block ≡ None → (shape x.noun ≢ []) ⊎ (shape y.noun ≢ []) → result ≢ Err trouble.NoMemory }
{
    if is_scalar(verb) {
        of_scalar(alloc, room, verb, x, y)
    } else {
        x.done(room);
        y.done(room);
        Err(Trouble::Fault(Fault::Nonce))
    }
}

fn of_scalar(
    alloc: Global,
    room: &mut Room,
    verb: Primitive,
    x: Array,
    y: Array,
) -> Result<Array, Trouble>
    requires { is_scalar_dyad verb ≡ true }
    ensures answer { Gives (dyads.each_pair verb x.noun y.noun) result }
    ensures alone { (m n : ℤ) → x.noun ≡ int_atom m → y.noun ≡ int_atom n → result ≢ Err trouble.NoMemory }
    ensures memory { kind x.noun ≡ sort.Int → kind y.noun ≡ sort.Int → x.block ≡ None → y.block ≡ None → (shape x.noun ≢ []) ⊎ (shape y.noun ≢ []) → result ≢ Err trouble.NoMemory }
{
    match (x.integer(room), y.integer(room)) {
        (Some(left), Some(right)) => {
            x.done(room);
            y.done(room);
            alone(verb, left, right)
        }
        _ => on_arrays(alloc, room, verb, x, y),
    }
}

/// Of two integers that stand alone.
fn alone(verb: Primitive, x: i64, y: i64) -> Result<Array, Trouble>
    requires { is_scalar_dyad verb ≡ true }
    ensures answer { Gives (dyads.each_pair verb (int_atom x) (int_atom y)) result }
    ensures memory { result ≢ Err trouble.NoMemory }
{
    match two(verb, x, y) {
        Ok(number) => Ok(Array::atom(number)),
        Err(fault) => Err(Trouble::Fault(fault)),
    }
}

fn on_arrays(
    alloc: Global,
    room: &mut Room,
    verb: Primitive,
    x: Array,
    y: Array,
) -> Result<Array, Trouble>
    requires { is_scalar_dyad verb ≡ true }
    ensures answer { Gives (dyads.each_pair verb x.noun y.noun) result }
    ensures memory { kind x.noun ≡ sort.Int → kind y.noun ≡ sort.Int → x.block ≡ None → y.block ≡ None → (shape x.noun ≢ []) ⊎ (shape y.noun ≢ []) → result ≢ Err trouble.NoMemory }
{
    if !takes(room, verb, &x, &y) {
        x.done(room);
        y.done(room);
        Err(Trouble::Fault(Fault::Domain))
    } else if is_prefix(x.shape(room), y.shape(room)) {
        let answer = over_right(alloc, room, verb, &x, y);
        x.done(room);
        answer
    } else if is_prefix(y.shape(room), x.shape(room)) {
        let answer = over_left(alloc, room, verb, x, &y);
        y.done(room);
        answer
    } else {
        x.done(room);
        y.done(room);
        Err(Trouble::Fault(Fault::Length))
    }
}

/// The result has the shape of `y`, whose buffer it takes if it can.
fn over_right(
    alloc: Global,
    room: &mut Room,
    verb: Primitive,
    x: &Array,
    y: Array,
) -> Result<Array, Trouble>
    requires verb { is_scalar_dyad verb ≡ true }
    requires kinds { dyads.takes verb x.now.noun y.noun ≡ true }
    requires agree { agreement.is_prefix (shape x.now.noun) (shape y.noun) ≡ true }
    requires left { IsArray x.now.noun }
    requires right { IsArray y.noun }
    ensures answer { Gives (dyads.each_pair verb x.now.noun y.noun) result }
    ensures memory { kind x.now.noun ≡ sort.Int → kind y.noun ≡ sort.Int → y.block ≡ None → shape y.noun ≢ [] → result ≢ Err trouble.NoMemory }
{
    let (axes, leaves) = match y.into_tree(alloc, room) {
        Ok(tree) => tree.into_parts(),
        Err(NoMemory) => return Err(Trouble::NoMemory),
    };
    let shorter = x.leaf(room);
    let count = leaves.leaf().len();
    if count == 0 {
        return Ok(Array::of(integers(axes, IntList::of(Vec::new(alloc)))));
    }
    match right_numbers(alloc, verb, shorter, count / shorter.len(), leaves) {
        Ok(numbers) => Ok(Array::of(integers(axes, numbers))),
        Err(trouble) => Err(trouble),
    }
}

/// The result has the shape of `x`, whose buffer it takes if it can.
fn over_left(
    alloc: Global,
    room: &mut Room,
    verb: Primitive,
    x: Array,
    y: &Array,
) -> Result<Array, Trouble>
    requires verb { is_scalar_dyad verb ≡ true }
    requires kinds { dyads.takes verb x.noun y.now.noun ≡ true }
    requires agree { agreement.is_prefix (shape y.now.noun) (shape x.noun) ≡ true }
    requires longer { agreement.is_prefix (shape x.noun) (shape y.now.noun) ≡ false }
    requires left { IsArray x.noun }
    requires right { IsArray y.now.noun }
    ensures answer { Gives (dyads.each_pair verb x.noun y.now.noun) result }
    ensures memory { kind x.noun ≡ sort.Int → kind y.now.noun ≡ sort.Int → x.block ≡ None → shape x.noun ≢ [] → result ≢ Err trouble.NoMemory }
{
    let (axes, leaves) = match x.into_tree(alloc, room) {
        Ok(tree) => tree.into_parts(),
        Err(NoMemory) => return Err(Trouble::NoMemory),
    };
    let shorter = y.leaf(room);
    let count = leaves.leaf().len();
    if count == 0 {
        return Ok(Array::of(integers(axes, IntList::of(Vec::new(alloc)))));
    }
    match left_numbers(alloc, verb, leaves, shorter, count / shorter.len()) {
        Ok(numbers) => Ok(Array::of(integers(axes, numbers))),
        Err(trouble) => Err(trouble),
    }
}

/// The result's integers, where each of `xs` serves `cell` of `ys`.
fn right_numbers(
    alloc: Global,
    verb: Primitive,
    xs: Leaf<'_>,
    cell: usize,
    ys: Leaves,
) -> Result<IntList, Trouble>
    requires verb { is_scalar_dyad verb ≡ true }
    requires kinds { (atoms.is_comparison verb ≡ true) ⊎ ((kind_in xs ≡ sort.Int) × (kind_of ys ≡ sort.Int)) }
    requires some { 0 < cell }
    requires whole { length (atoms_of ys) ≡ length (atoms_in xs) * cell }
    ensures answer { Answers (by_place (dyads.spread verb (atoms_in xs.entry) cell (atoms_of ys) 1) (length (atoms_of ys))) result }
    ensures memory { kind_in xs.entry ≡ sort.Int → kind_of ys ≡ sort.Int → result ≢ Err trouble.NoMemory }
{
    match (xs, ys) {
        (Leaf::Int(xs), Leaves::Int(ys)) => number_right(verb, xs, cell, ys),
        (xs, ys) => compare_right(alloc, verb, xs, cell, &ys),
    }
}

/// The result's integers, where each of `ys` serves `cell` of `xs`.
fn left_numbers(
    alloc: Global,
    verb: Primitive,
    xs: Leaves,
    ys: Leaf<'_>,
    cell: usize,
) -> Result<IntList, Trouble>
    requires verb { is_scalar_dyad verb ≡ true }
    requires kinds { (atoms.is_comparison verb ≡ true) ⊎ ((kind_of xs ≡ sort.Int) × (kind_in ys ≡ sort.Int)) }
    requires some { 0 < cell }
    requires whole { length (atoms_of xs) ≡ length (atoms_in ys) * cell }
    ensures answer { Answers (by_place (dyads.spread verb (atoms_of xs) 1 (atoms_in ys.entry) cell) (length (atoms_of xs))) result }
    ensures memory { kind_of xs ≡ sort.Int → kind_in ys.entry ≡ sort.Int → result ≢ Err trouble.NoMemory }
{
    match (xs, ys) {
        (Leaves::Int(xs), Leaf::Int(ys)) => number_left(verb, xs, ys, cell),
        (xs, ys) => compare_left(alloc, verb, &xs, ys, cell),
    }
}
