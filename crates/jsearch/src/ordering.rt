//! Places in the order of keys, which stand for lists of integers.

ghost use Rattle.std.specs.Prelude.{◌≡◌, ◌+◌, ◌*◌, ◌≤◌, ◌^◌, ◌<◌, ℕ, ℤ, pos, List, IfOk, length, map, take, drop};
ghost use Rattle.std.specs.List.{range_with_len, All};
ghost use Rattle.std.specs.Cmp.{IsTotalOrder};
ghost use Rattle.std.specs.Cmp.Lexicographic.{slice_cmp};
ghost use Rattle.std.specs.Ordering.{int_cmp};
ghost use Rattle.std.specs.declared.cmp.Ordering.{Ordering};
ghost use Rattle.jdata.specs.Limits.{most_atoms};
ghost use Rattle.jsearch.specs.Grades.{in_order};
ghost use Rattle.jsearch.specs.Order.{by_keys, lists_in};

use crate::cells::range;
use crate::number::integer;
use jdata::{IntList, NoMemory};
use std::alloc::Global;
use std::cmp::Reverse;

/// From the least on, or from the greatest on.
#[derive(Clone, Copy, Debug, PartialEq, Eq)]
pub enum Direction {
    Rising,
    Falling,
}

/// The places of so many runs of atoms of a size, in their order. The runs are compared atom by
/// atom, and equal ones keep their order.
pub fn places_of_runs<T: Ord + Copy + Drop>(
    alloc: Global,
    atoms: &[T],
    size: usize,
    count: usize,
    direction: Direction,
) -> Result<IntList, NoMemory>
    requires whole { count * size ≡ length atoms.now }
    requires few { length atoms.now ≤ most_atoms }
    requires count { count ≤ most_atoms }
    ensures { (number : T → ℤ) → ((a b : T) → T.cmp a b ≡ int_cmp (number a) (number b)) → IfOk result (λ l. l ≡ map pos (in_order (by_keys (lists_in direction) (λ p. map number (take size (drop (p * size) atoms.now)))) count)) }
{
    if size == 1 {
        return places_of_keys(alloc, atoms, direction);
    }
    let runs = runs_of(alloc, atoms, size, count)?;
    places_of_keys(alloc, runs.as_slice(), direction)
}

/// The runs one after another, where they lie.
fn runs_of<'a, T>(
    alloc: Global,
    atoms: &'a [T],
    size: usize,
    count: usize,
) -> Result<Vec<&'a [T]>, NoMemory>
    requires whole { count * size ≡ length atoms.now }
    requires few { length atoms.now ≤ most_atoms }
    ensures { IfOk result (λ v. map (λ s. s.now) v.items ≡ map (λ p. take size (drop (p * size) atoms.entry.now)) (range_with_len 0 count)) }
{
    let mut runs = Vec::with_capacity(alloc, count)?;
    for place in 0..count {
        let run = range(atoms, place * size, size);
        runs.push(run)?;
    }
    Ok(runs)
}

/// The places of the keys in their order.
fn places_of_keys<K: Ord + Copy + Drop>(
    alloc: Global,
    keys: &[K],
    direction: Direction,
) -> Result<IntList, NoMemory>
    requires { length keys.now ≤ most_atoms }
    ensures { (value : K → List ℤ) (key : ℕ → List ℤ) → ((a b : K) → K.cmp a b ≡ slice_cmp int_cmp (value a) (value b)) → map value keys.now ≡ map key (range_with_len 0 (length keys.now)) → IfOk result (λ l. l ≡ map pos (in_order (by_keys (lists_in direction) key) (length keys.now))) }
{
    match direction {
        Direction::Rising => places_rising(alloc, keys),
        Direction::Falling => places_falling(alloc, keys),
    }
}

fn places_rising<K: Ord + Copy + Drop>(alloc: Global, keys: &[K]) -> Result<IntList, NoMemory>
    requires { length keys.now ≤ most_atoms }
    ensures { (value : K → List ℤ) (key : ℕ → List ℤ) → ((a b : K) → K.cmp a b ≡ slice_cmp int_cmp (value a) (value b)) → map value keys.now ≡ map key (range_with_len 0 (length keys.now)) → IfOk result (λ l. l ≡ map pos (in_order (by_keys (lists_in Direction.Rising) key) (length keys.now))) }
{
    let keyed = keyed(alloc, keys)?;
    places_sorted(alloc, keyed)
}

fn places_falling<K: Ord + Copy + Drop>(alloc: Global, keys: &[K]) -> Result<IntList, NoMemory>
    requires { length keys.now ≤ most_atoms }
    ensures { (value : K → List ℤ) (key : ℕ → List ℤ) → ((a b : K) → K.cmp a b ≡ slice_cmp int_cmp (value a) (value b)) → map value keys.now ≡ map key (range_with_len 0 (length keys.now)) → IfOk result (λ l. l ≡ map pos (in_order (by_keys (lists_in Direction.Falling) key) (length keys.now))) }
{
    let keyed = keyed_back(alloc, keys)?;
    places_sorted(alloc, keyed)
}

/// Each key with its place.
fn keyed<K: Copy>(alloc: Global, keys: &[K]) -> Result<Vec<(K, usize)>, NoMemory>
    ensures keys { IfOk result (λ v. map (λ e. e.0) v.items ≡ keys.now) }
    ensures places { IfOk result (λ v. map (λ e. e.1) v.items ≡ range_with_len 0 (length keys.now)) }
{
    let mut keyed = Vec::with_capacity(alloc, keys.len())?;
    for place in 0..keys.len() {
        keyed.push((keys[place], place))?;
    }
    Ok(keyed)
}

/// The same for the order turned round.
fn keyed_back<K: Copy>(alloc: Global, keys: &[K]) -> Result<Vec<(Reverse<K>, usize)>, NoMemory>
    ensures keys { IfOk result (λ v. map (λ e. e.0.0) v.items ≡ keys.now) }
    ensures places { IfOk result (λ v. map (λ e. e.1) v.items ≡ range_with_len 0 (length keys.now)) }
{
    let mut keyed = Vec::with_capacity(alloc, keys.len())?;
    for place in 0..keys.len() {
        keyed.push((Reverse(keys[place]), place))?;
    }
    Ok(keyed)
}

/// The places in the order of the keys beside them. Equal keys go by their places, so no two pairs
/// are equal.
fn places_sorted<K: Ord + Drop>(
    alloc: Global,
    mut keyed: Vec<(K, usize)>,
) -> Result<IntList, NoMemory>
    requires few { length keyed.items ≤ most_atoms }
    requires places { map (λ e. e.1) keyed.items ≡ range_with_len 0 (length keyed.items) }
    ensures { (order : List ℤ → List ℤ → Ordering) (value : K → List ℤ) (key : ℕ → List ℤ) → IsTotalOrder order → ((a b : K) → K.cmp a b ≡ order (value a) (value b)) → map (λ e. value e.0) keyed.items ≡ map key (range_with_len 0 (length keyed.items)) → IfOk result (λ l. l ≡ map pos (in_order (by_keys order key) (length keyed.items))) }
{
    keyed.sort_unstable();
    places_beside(alloc, keyed.as_slice())
}

fn places_beside<K>(alloc: Global, keyed: &[(K, usize)]) -> Result<IntList, NoMemory>
    requires { All (λ e. e.1 < 2 ^ 63) keyed.now }
    ensures { IfOk result (λ l. l ≡ map (λ e. pos e.1) keyed.now) }
{
    let mut places = Vec::with_capacity(alloc, keyed.len())?;
    for pair in keyed {
        let place = integer(pair.1 as u64);
        places.push(place)?;
    }
    Ok(IntList::of(places))
}
