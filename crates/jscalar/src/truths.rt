//! Truth as a number.

ghost use Rattle.std.specs.Prelude.{◌≡◌, ◌&&◌, ◌||◌};
ghost use Rattle.jscalar.specs.Truths as truths;

use jdata::Fault;

/// 1 for a fact that holds, else 0.
pub fn truth(holds: bool) -> i64
    ensures { result ≡ truths.truth holds }
{
    if holds { 1 } else { 0 }
}

/// 1 where neither number is 1. Its only fault is Domain: a number that is neither 0 nor 1.
pub fn not_or(x: i64, y: i64) -> Result<i64, Fault>
    ensures { result ≡ truths.not_or x y }
{
    if are_truths(x, y) {
        Ok(truth(!is_either_one(x, y)))
    } else {
        Err(Fault::Domain)
    }
}

/// 1 where not both numbers are 1. Its only fault is Domain: a number that is neither 0 nor 1.
pub fn not_and(x: i64, y: i64) -> Result<i64, Fault>
    ensures { result ≡ truths.not_and x y }
{
    if are_truths(x, y) {
        Ok(truth(!are_both_one(x, y)))
    } else {
        Err(Fault::Domain)
    }
}

fn are_truths(x: i64, y: i64) -> bool
    ensures { result ≡ (truths.is_truth x && truths.is_truth y) }
{
    is_truth(x) && is_truth(y)
}

fn is_either_one(x: i64, y: i64) -> bool
    ensures { result ≡ (truths.is_one x || truths.is_one y) }
{
    is_one(x) || is_one(y)
}

fn are_both_one(x: i64, y: i64) -> bool
    ensures { result ≡ (truths.is_one x && truths.is_one y) }
{
    is_one(x) && is_one(y)
}

#[tactic(auto, unfolding(crate::specs::Truths::is_truth, crate::specs::Truths::is_one))]
fn is_truth(y: i64) -> bool
    ensures { result ≡ truths.is_truth y }
{
    y == 0 || y == 1
}

#[tactic(auto, unfolding(crate::specs::Truths::is_one))]
fn is_one(y: i64) -> bool
    ensures { result ≡ truths.is_one y }
{
    y == 1
}
