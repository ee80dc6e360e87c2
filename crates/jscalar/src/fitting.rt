//! Results that an atom can hold.

ghost use Rattle.std.specs.Prelude.{◌≡◌, SomeIff, FitsSigned, ℤ, pos};
ghost use Rattle.std.specs.Int.{w64};
ghost use Rattle.jscalar.specs.Fitted as fitting;

use jdata::Fault;

/// The number, where a checked operation gave one. Its only fault is Nonce: the number is beyond
/// 64 signed bits.
pub fn fitted(number: Option<i64>) -> Result<i64, Fault>
    ensures { (exact : ℤ) → SomeIff number (FitsSigned w64 exact) exact → result ≡ fitting.fitted exact }
{
    match number {
        Some(number) => Ok(number),
        None => Err(Fault::Nonce),
    }
}

/// The same of a number that isn't negative.
pub fn natural(number: u64) -> Result<i64, Fault>
    ensures { result ≡ fitting.fitted (pos number) }
{
    match i64::try_from(number) {
        Ok(number) => Ok(number),
        Err(_) => Err(Fault::Nonce),
    }
}
