//! Whole roots.

ghost use Rattle.std.specs.Prelude.{◌≡◌, ◌≤◌, ◌<◌, ◌+◌, ◌^◌, ◌==◌, ◌↔◌, IsTrue, IfSome};
ghost use Rattle.jscalar.specs.Searches.{greatest_up_to};
ghost use Rattle.jscalar.specs.Powers as powers;

use jdata::Fault;

/// A power of 2 or more to this degree is beyond 64 bits, so no greater degree has other roots.
const GREAT_DEGREE: u64 = 64;

/// The whole number whose power `x` is `y`. Its only fault is Nonce: there is none, `x` is below 1
/// or `y` is negative.
pub fn root(x: i64, y: i64) -> Result<i64, Fault>
    ensures { result ≡ powers.root x y }
{
    if x < 1 {
        return Err(Fault::Nonce);
    }
    if y < 0 {
        return Err(Fault::Nonce);
    }
    match whole_root(x.unsigned_abs(), y.unsigned_abs()) {
        Some(root) => Ok(root as i64),
        None => Err(Fault::Nonce),
    }
}

/// The number whose power of this degree is the value, if there is one.
fn whole_root(degree: u64, value: u64) -> Option<u64>
    requires degree { 0 < degree }
    requires value { value < 2 ^ 63 }
    ensures value { result ≡ greatest_up_to value (λ r. r ^ degree == value) }
    ensures bound { IfSome result (λ root. root ≤ value) }
{
    let degree = degree.min(GREAT_DEGREE) as u32;
    let root = floor_root(degree, value);
    if root.pow(degree) == value {
        Some(root)
    } else {
        None
    }
}

/// The greatest number whose power of this degree is the value or less.
fn floor_root(degree: u32, value: u64) -> u64
    requires degree { 0 < degree }
    requires value { value < 2 ^ 63 }
    ensures within { result ^ degree ≤ value }
    ensures next { value < (result + 1) ^ degree }
{
    let mut low = 0;
    let mut high = value + 1;
    while high - low > 1 {
        let middle = low + (high - low) / 2;
        if is_power_within(middle, degree, value) {
            low = middle;
        } else {
            high = middle;
        }
    }
    low
}

fn is_power_within(base: u64, degree: u32, limit: u64) -> bool
    ensures { IsTrue result ↔ (base ^ degree ≤ limit) }
{
    match base.checked_pow(degree) {
        Some(power) => power <= limit,
        None => false,
    }
}
