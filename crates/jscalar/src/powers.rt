//! Powers.

ghost use Rattle.std.specs.Prelude.{◌≡◌, ◌≤◌, ◌<◌, pos, unsigned_abs};
ghost use Rattle.std.specs.Int.{int_pow};
ghost use Rattle.jscalar.specs.Fitted as fitting;
ghost use Rattle.jscalar.specs.Powers as powers;

use crate::fitting::fitted;
use jdata::Fault;

/// `x` to the power `y`, where 0 to the power 0 is 1. Its only fault is Nonce: the power is beyond
/// 64 signed bits, or `y` is negative and `x` neither 1 nor -1.
pub fn power(x: i64, y: i64) -> Result<i64, Fault>
    ensures { result ≡ powers.power x y }
{
    let size = x.unsigned_abs();
    let exponent = y.unsigned_abs();
    if y < 0 {
        // 1 and -1 are their own reciprocals.
        return if size == 1 {
            Ok(small_power(x, exponent))
        } else {
            Err(Fault::Nonce)
        };
    }
    if size < 2 {
        Ok(small_power(x, exponent))
    } else {
        great_power(x, exponent)
    }
}

/// A power of 0, 1 or -1.
fn small_power(base: i64, exponent: u64) -> i64
    requires { unsigned_abs base < 2 }
    ensures { result ≡ int_pow base exponent }
{
    if exponent == 0 {
        1
    } else if exponent % 2 == 0 {
        base * base
    } else {
        base
    }
}

/// A power of another number, which is beyond 64 bits for any exponent beyond 32 bits.
fn great_power(base: i64, exponent: u64) -> Result<i64, Fault>
    requires { 2 ≤ unsigned_abs base }
    ensures { result ≡ fitting.fitted (int_pow base exponent) }
{
    match u32::try_from(exponent) {
        Ok(exponent) => fitted(base.checked_pow(exponent)),
        Err(_) => Err(Fault::Nonce),
    }
}

/// The power of e. Its only fault is Nonce: `y` isn't 0.
pub fn exponential(y: i64) -> Result<i64, Fault>
    ensures { result ≡ powers.exponential y }
{
    if y == 0 { Ok(1) } else { Err(Fault::Nonce) }
}
