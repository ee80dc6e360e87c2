//! Quotients and residues.

ghost use Rattle.std.specs.Prelude.{◌≡◌};
ghost use Rattle.jscalar.specs.Quotients as quotients;

use crate::fitting::fitted;
use jdata::Fault;

/// The quotient, and 0 for 0 over 0. Its only fault is Nonce: a quotient that isn't whole or is
/// beyond 64 signed bits, and any other number over 0.
pub fn whole_quotient(x: i64, y: i64) -> Result<i64, Fault>
    ensures { result ≡ quotients.whole_quotient x y }
{
    if y == 0 {
        return if x == 0 { Ok(0) } else { Err(Fault::Nonce) };
    }
    if x.wrapping_rem(y) != 0 {
        return Err(Fault::Nonce);
    }
    fitted(x.checked_div(y))
}

/// 1 over `y`. Its only fault is Nonce: `y` is neither 1 nor -1.
pub fn reciprocal(y: i64) -> Result<i64, Fault>
    ensures { result ≡ quotients.reciprocal y }
{
    if y.unsigned_abs() == 1 {
        Ok(y)
    } else {
        Err(Fault::Nonce)
    }
}

/// What is left of `y` when the whole multiples of `x` are taken away, of the sign of `x`; for an
/// `x` of 0 it is `y`.
pub fn residue(x: i64, y: i64) -> i64
    ensures { result ≡ quotients.residue x y }
{
    if x == 0 {
        return y;
    }
    let rest = y.wrapping_rem_euclid(x);
    if x < 0 && rest > 0 { rest + x } else { rest }
}
