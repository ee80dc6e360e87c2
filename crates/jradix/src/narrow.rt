//! Exact numbers as numbers of 64 bits.

ghost use Rattle.std.specs.Prelude.{◌≡◌, ℤ, SomeIff, FitsSigned};
ghost use Rattle.std.specs.Int.{w128};
ghost use Rattle.jscalar.specs.Fitted.{fitted};

use jdata::Fault;

/// The number, where a checked operation gave one. Its only fault is Nonce: the number is beyond
/// 64 signed bits.
pub fn narrow(exact: Option<i128>) -> Result<i64, Fault>
    ensures { (number : ℤ) → SomeIff exact (FitsSigned w128 number) number → result ≡ fitted number }
{
    let Some(exact) = exact else {
        return Err(Fault::Nonce);
    };
    match i64::try_from(exact) {
        Ok(number) => Ok(number),
        Err(_) => Err(Fault::Nonce),
    }
}
