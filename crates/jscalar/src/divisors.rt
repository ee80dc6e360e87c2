//! Common divisors and multiples.

ghost use Rattle.std.specs.Prelude.{◌≡◌, ◌<◌, ◌*ℤ◌, pos, unsigned_abs, int_div};
ghost use Rattle.jscalar.specs.Fitted.{fitted};
ghost use Rattle.jscalar.specs.Divisors as divisors;

use crate::fitting::natural;
use jdata::Fault;

/// The greatest common divisor, which isn't negative, and 0 for two zeros. Its only fault is
/// Nonce: it is beyond 64 signed bits.
pub fn common_divisor(x: i64, y: i64) -> Result<i64, Fault>
    ensures { result ≡ fitted (pos (divisors.greatest_common_divisor (unsigned_abs x) (unsigned_abs y))) }
{
    natural(greatest_common_divisor(x.unsigned_abs(), y.unsigned_abs()))
}

/// The product over the greatest common divisor, and 0 where one number is 0. Its only fault is
/// Nonce: the multiple is beyond 64 signed bits.
pub fn common_multiple(x: i64, y: i64) -> Result<i64, Fault>
    ensures { result ≡ fitted (divisors.common_multiple x y) }
{
    let product = whole_product(x, y);
    if product == 0 {
        return Ok(0);
    }
    over_divisor(
        product,
        greatest_common_divisor(x.unsigned_abs(), y.unsigned_abs()),
    )
}

fn whole_product(x: i64, y: i64) -> i128
    ensures { result ≡ x *ℤ y }
{
    i128::from(x) * i128::from(y)
}

fn over_divisor(product: i128, divisor: u64) -> Result<i64, Fault>
    requires { 0 < divisor }
    ensures { result ≡ fitted (int_div product (pos divisor)) }
{
    match i64::try_from(product / i128::from(divisor)) {
        Ok(multiple) => Ok(multiple),
        Err(_) => Err(Fault::Nonce),
    }
}

fn greatest_common_divisor(a: u64, b: u64) -> u64
    ensures { result ≡ divisors.greatest_common_divisor a b }
{
    let mut divisor = a;
    let mut rest = b;
    while rest != 0 {
        let smaller = divisor % rest;
        divisor = rest;
        rest = smaller;
    }
    divisor
}
