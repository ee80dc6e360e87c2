//! A verb between the numbers of each prefix.

ghost use Rattle.std.specs.Prelude.{◌≡◌, ◌<◌, ◌^◌, ◌↔◌, Some, None, true, false, IsTrue, IfOk, length, map, slice_get};
ghost use Rattle.std.specs.List.{Contains, list_all};
ghost use Rattle.std.specs.Option.{IfSome};
ghost use Rattle.jscalar.specs.Dyads as dyads;
ghost use Rattle.jscalar.specs.Truths.{is_truth};
ghost use Rattle.jfold.specs.Folded as folded;
ghost use Rattle.jfold.specs.Running.{running, magnitudes};

use jdata::{IntList, NoMemory, Primitive};
use jscalar::Dyad;
use jscalar::dyads::{LargerOf, LesserOf, NotEqual, Plus};
use std::alloc::Global;

/// The greatest sum of magnitudes at which no sum of the numbers is beyond 64 bits, in whatever order it is made.
const LIMIT: u64 = i64::MAX as u64;

/// The values of a verb between the numbers of each prefix of a list, from the shortest on (NuVoc, "\"), in one pass,
/// for verbs whose value on a prefix follows from that on the one before: `+`, `<.` and `>.`, and `~:`, `+.` and `*.`
/// of numbers that are all 0 or 1. There are none for other verbs or numbers, without numbers, and for `+` where the
/// magnitudes of the numbers add up to more than 64 bits hold.
#[tactic(auto, unfolding(jscalar::specs::Dyads::dyad_on))]
pub fn prefixes(
    alloc: Global,
    verb: Primitive,
    numbers: &[i64],
) -> Result<Option<IntList>, NoMemory>
    ensures { IfOk result (λ made. IfSome made (λ values. folded.each_prefix verb numbers.now ≡ map Some values)) }
{
    match verb {
        Primitive::Plus => sums(alloc, numbers),
        Primitive::LessDot => least(alloc, numbers),
        Primitive::GreaterDot => greatest(alloc, numbers),
        Primitive::TildeColon => differences(alloc, numbers),
        Primitive::PlusDot => any_so_far(alloc, numbers),
        Primitive::TimesDot => all_so_far(alloc, numbers),
        _ => Ok(None),
    }
}

fn sums(alloc: Global, numbers: &[i64]) -> Result<Option<IntList>, NoMemory>
    ensures { IfOk result (λ made. IfSome made (λ values. folded.prefixes_by (Some dyads.plus) numbers.now ≡ map Some values)) }
{
    if are_small(numbers) {
        with_running::<Plus>(alloc, numbers)
    } else {
        Ok(None)
    }
}

fn least(alloc: Global, numbers: &[i64]) -> Result<Option<IntList>, NoMemory>
    ensures { IfOk result (λ made. IfSome made (λ values. folded.prefixes_by (Some dyads.lesser) numbers.now ≡ map Some values)) }
{
    with_running::<LesserOf>(alloc, numbers)
}

fn greatest(alloc: Global, numbers: &[i64]) -> Result<Option<IntList>, NoMemory>
    ensures { IfOk result (λ made. IfSome made (λ values. folded.prefixes_by (Some dyads.larger) numbers.now ≡ map Some values)) }
{
    with_running::<LargerOf>(alloc, numbers)
}

fn differences(alloc: Global, numbers: &[i64]) -> Result<Option<IntList>, NoMemory>
    ensures { IfOk result (λ made. IfSome made (λ values. folded.prefixes_by (Some dyads.not_equal) numbers.now ≡ map Some values)) }
{
    if are_truths(numbers) {
        with_running::<NotEqual>(alloc, numbers)
    } else {
        Ok(None)
    }
}

/// Of truths the greatest common divisor is the larger.
fn any_so_far(alloc: Global, numbers: &[i64]) -> Result<Option<IntList>, NoMemory>
    ensures { IfOk result (λ made. IfSome made (λ values. folded.prefixes_by (Some dyads.common_divisor) numbers.now ≡ map Some values)) }
{
    if are_truths(numbers) {
        with_running::<LargerOf>(alloc, numbers)
    } else {
        Ok(None)
    }
}

/// Of truths the least common multiple is the lesser.
fn all_so_far(alloc: Global, numbers: &[i64]) -> Result<Option<IntList>, NoMemory>
    ensures { IfOk result (λ made. IfSome made (λ values. folded.prefixes_by (Some dyads.common_multiple) numbers.now ≡ map Some values)) }
{
    if are_truths(numbers) {
        with_running::<LesserOf>(alloc, numbers)
    } else {
        Ok(None)
    }
}

/// Whether each number is 0 or 1.
fn are_truths(numbers: &[i64]) -> bool
    ensures { result ≡ list_all is_truth numbers.now }
{
    for number in numbers {
        if !is_truth(*number) {
            return false;
        }
    }
    true
}

#[tactic(auto, unfolding(jscalar::specs::Truths::is_truth, jscalar::specs::Truths::is_one))]
fn is_truth(number: i64) -> bool
    ensures { result ≡ is_truth number }
{
    number == 0 || number == 1
}

/// Whether the magnitudes of the numbers add up to a number of 64 bits.
fn are_small(numbers: &[i64]) -> bool
    ensures { IsTrue result ↔ magnitudes numbers.now < 2 ^ 63 }
{
    let mut sum = 0;
    for number in numbers {
        let magnitude = number.unsigned_abs();
        if magnitude > LIMIT - sum {
            return false;
        }
        sum += magnitude;
    }
    true
}

fn with_running<V: Dyad>(alloc: Global, numbers: &[i64]) -> Result<Option<IntList>, NoMemory>
    ensures { IfOk result (λ made. IfSome made (λ values. running V.meant numbers.now ≡ map Some values)) }
{
    let Some(first) = numbers.first() else {
        return Ok(None);
    };
    let mut values = Vec::from_slice(alloc, numbers)?;
    if from_first::<V>(*first, values.as_mut_slice()) {
        Ok(Some(IntList::of(values)))
    } else {
        Ok(None)
    }
}

/// Puts the running value into each place, and answers whether there is one in each.
fn from_first<V: Dyad>(first: i64, numbers: &mut [i64]) -> bool
    requires { slice_get numbers.old 0 ≡ Some first }
    ensures some { result ≡ true → running V.meant numbers.old ≡ map Some numbers.new }
    ensures none { result ≡ false → Contains (running V.meant numbers.old) None }
{
    let mut value = first;
    for at in 1..numbers.len() {
        let (next, refused) = V::raw(value, numbers[at]);
        if refused {
            return false;
        }
        numbers[at] = next;
        value = next;
    }
    true
}
