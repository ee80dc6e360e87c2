//! The verbs on lists of integers, in place. Whether there is a fault is known behind a loop alone, so
//! that no branch stands in it.

ghost use Rattle.std.specs.Prelude.{◌≡◌, ◌*◌, ◌/◌, ◌<◌, pos, length, slice_index_or};
ghost use Rattle.jdata.specs.declared.fault.Fault.TheVariants.{Nonce};
ghost use Rattle.jscalar.specs.Flagged.{flagged};
ghost use Rattle.jscalar.specs.Places.{by_place};

use crate::rows::{Dyad, Monad, OnRight};

/// Puts into each of `ys` what the verb gives of it, and answers whether it gives none of any. Then
/// `ys` are of no use.
pub fn each<V: Monad>(ys: &mut [i64]) -> bool
    ensures { by_place (λ j. V.meant (slice_index_or ys.old j (pos 0))) (length ys.old) ≡ flagged Nonce ys.new result }
{
    beside::<OnRight<V>>(0, ys)
}

/// Puts into each of `ys` what the verb gives of a number of `xs` and it: each of `xs` serves `cell`
/// of `ys`, one after another. Answers whether it gives none of any. Then `ys` are of no use.
pub fn fill<V: Dyad>(xs: &[i64], cell: usize, ys: &mut [i64]) -> bool
    requires some { 0 < cell }
    requires whole { length ys.old ≡ length xs.now * cell }
    ensures { by_place (λ j. V.meant (slice_index_or xs.now (j / cell) (pos 0)) (slice_index_or ys.old j (pos 0))) (length ys.old) ≡ flagged V.fault ys.new result }
{
    if cell == 1 {
        pairs::<V>(xs, ys)
    } else {
        cells::<V>(xs, cell, ys)
    }
}

/// Each of `ys` with its pair.
fn pairs<V: Dyad>(xs: &[i64], ys: &mut [i64]) -> bool
    requires { length ys.old ≡ length xs.now }
    ensures { by_place (λ j. V.meant (slice_index_or xs.now j (pos 0)) (slice_index_or ys.old j (pos 0))) (length ys.old) ≡ flagged V.fault ys.new result }
{
    if V::in_eights() {
        pairs_in_eights::<V>(xs, ys)
    } else {
        pairs_at_once::<V>(xs, ys)
    }
}

/// One number with each of `ys`.
fn beside<V: Dyad>(x: i64, ys: &mut [i64]) -> bool
    ensures { by_place (λ j. V.meant x (slice_index_or ys.old j (pos 0))) (length ys.old) ≡ flagged V.fault ys.new result }
{
    if V::in_eights() {
        beside_in_eights::<V>(x, ys)
    } else {
        beside_at_once::<V>(x, ys)
    }
}

/// Each of `xs` with its cell of `ys`.
fn cells<V: Dyad>(xs: &[i64], cell: usize, ys: &mut [i64]) -> bool
    requires some { 0 < cell }
    requires whole { length ys.old ≡ length xs.now * cell }
    ensures { by_place (λ j. V.meant (slice_index_or xs.now (j / cell) (pos 0)) (slice_index_or ys.old j (pos 0))) (length ys.old) ≡ flagged V.fault ys.new result }
{
    let mut any = false;
    let mut from = 0;
    for x in xs {
        any |= beside::<V>(*x, &mut ys[from..from + cell]);
        from += cell;
    }
    any
}

fn pairs_at_once<V: Dyad>(xs: &[i64], ys: &mut [i64]) -> bool
    requires { length ys.old ≡ length xs.now }
    ensures { by_place (λ j. V.meant (slice_index_or xs.now j (pos 0)) (slice_index_or ys.old j (pos 0))) (length ys.old) ≡ flagged V.fault ys.new result }
{
    let mut any = false;
    for at in 0..ys.len() {
        let (number, none) = V::raw(xs[at], ys[at]);
        ys[at] = number;
        any |= none;
    }
    any
}

fn beside_at_once<V: Dyad>(x: i64, ys: &mut [i64]) -> bool
    ensures { by_place (λ j. V.meant x (slice_index_or ys.old j (pos 0))) (length ys.old) ≡ flagged V.fault ys.new result }
{
    let mut any = false;
    for at in 0..ys.len() {
        let (number, none) = V::raw(x, ys[at]);
        ys[at] = number;
        any |= none;
    }
    any
}

/// In steps that the compiler unrolls: of a longer loop over products it makes half of vectors, which
/// is slower.
fn pairs_in_eights<V: Dyad>(xs: &[i64], ys: &mut [i64]) -> bool
    requires { length ys.old ≡ length xs.now }
    ensures { by_place (λ j. V.meant (slice_index_or xs.now j (pos 0)) (slice_index_or ys.old j (pos 0))) (length ys.old) ≡ flagged V.fault ys.new result }
{
    let mut any = false;
    let mut from = 0;
    while from + 8 <= ys.len() {
        any |= pairs_at_once::<V>(&xs[from..from + 8], &mut ys[from..from + 8]);
        from += 8;
    }
    let count = ys.len() - from;
    any |= pairs_at_once::<V>(&xs[from..from + count], &mut ys[from..from + count]);
    any
}

fn beside_in_eights<V: Dyad>(x: i64, ys: &mut [i64]) -> bool
    ensures { by_place (λ j. V.meant x (slice_index_or ys.old j (pos 0))) (length ys.old) ≡ flagged V.fault ys.new result }
{
    let mut any = false;
    let mut from = 0;
    while from + 8 <= ys.len() {
        any |= beside_at_once::<V>(x, &mut ys[from..from + 8]);
        from += 8;
    }
    let count = ys.len() - from;
    any |= beside_at_once::<V>(x, &mut ys[from..from + count]);
    any
}
