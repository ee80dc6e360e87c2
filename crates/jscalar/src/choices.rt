//! Factorials, and the ways to choose.

ghost use Rattle.std.specs.Prelude.{◌≡◌, ◌≤◌, ◌<◌, ◌+◌, ◌*◌, ◌/◌, ◌^◌, pos, SomeIff};
ghost use Rattle.jscalar.specs.Fitted.{fitted};
ghost use Rattle.jscalar.specs.Choices as choices;

use jdata::Fault;

/// The greatest number whose factorial is within 64 signed bits.
const GREATEST: u64 = 20;

/// The first number beyond 64 signed bits.
const LIMIT: u128 = 0x8000_0000_0000_0000;

/// The factorial. Its only fault is Nonce: `y` is negative, or the factorial is beyond 64 signed
/// bits.
pub fn factorial(y: i64) -> Result<i64, Fault>
    ensures { result ≡ choices.factorial_of y }
{
    if y < 0 {
        return Err(Fault::Nonce);
    }
    let n = y.unsigned_abs();
    if n > GREATEST {
        return Err(Fault::Nonce);
    }
    Ok(small_factorial(n) as i64)
}

fn small_factorial(n: u64) -> u64
    requires { n ≤ 20 }
    ensures value { result ≡ choices.factorial n }
    ensures bound { result < 2 ^ 63 }
{
    let mut product = 1;
    for done in 0..n {
        product *= done + 1;
    }
    product
}

/// The ways to choose `x` of `y`: none for an `x` that is negative or above `y`. Its only fault is
/// Nonce: `y` is negative, or there are more ways than 64 signed bits can say.
pub fn out_of(x: i64, y: i64) -> Result<i64, Fault>
    ensures { result ≡ choices.out_of x y }
{
    if y < 0 {
        return Err(Fault::Nonce);
    }
    if x < 0 {
        return Ok(0);
    }
    choose(x.unsigned_abs(), y.unsigned_abs())
}

/// As many ways as there are to choose those that are left.
fn choose(taken: u64, all: u64) -> Result<i64, Fault>
    requires { all < 2 ^ 63 }
    ensures { result ≡ fitted (pos (choices.ways taken all)) }
{
    if taken > all {
        return Ok(0);
    }
    let left = all - taken;
    if taken < left {
        few_ways(taken, left)
    } else {
        few_ways(left, taken)
    }
}

/// The ways to choose so many that some are left. With no more taken than left the count at least
/// doubles in each turn, so it passes 64 bits within 64 turns.
fn few_ways(taken: u64, left: u64) -> Result<i64, Fault>
    requires { left + taken < 2 ^ 63 }
    ensures { result ≡ fitted (pos (choices.ways taken (left + taken))) }
{
    let mut count = 1;
    for done in 0..taken {
        match more_ways(count, left + done, done) {
            Some(more) => count = more,
            None => return Err(Fault::Nonce),
        }
    }
    Ok(count as i64)
}

/// The ways to choose one more of one more, where `count` is the ways to choose `taken` of `all`.
fn more_ways(count: u64, all: u64, taken: u64) -> Option<u64>
    requires { all < 2 ^ 63 }
    ensures { SomeIff result (count * (all + 1) / (taken + 1) < 2 ^ 63) (count * (all + 1) / (taken + 1)) }
{
    let more = u128::from(count) * u128::from(all + 1) / (u128::from(taken) + 1);
    if more < LIMIT {
        Some(more as u64)
    } else {
        None
    }
}
