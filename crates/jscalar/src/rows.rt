//! What a scalar verb is: its meaning, and one function without a branch.

ghost use Rattle.std.specs.Prelude.{◌≡◌, ℤ, Result};
ghost use Rattle.jdata.specs.declared.fault.Fault.{Fault};
ghost use Rattle.jdata.specs.declared.fault.Fault.TheVariants.{Nonce};
ghost use Rattle.jscalar.specs.Flagged.{flagged, IsOnly};

use jdata::Fault;

/// A scalar monad. Its only fault is Nonce.
pub trait Monad {
    /// What it gives of a number.
    ghost meant: { ℤ → Result ℤ Fault };

    /// The number that it gives, and whether it gives none. Then the number is of no use.
    fn raw(y: i64) -> (i64, bool)
        ensures { meant y ≡ flagged Nonce result.0 result.1 };

    /// Whether lists are better taken in steps of eight than by the compiler's vectors.
    fn in_eights() -> bool;
}

/// A scalar dyad, with one fault.
pub trait Dyad {
    /// What it gives of two numbers.
    ghost meant: { ℤ → ℤ → Result ℤ Fault };

    ghost fault: { Fault };

    /// The number that it gives, and whether it gives none. Then the number is of no use.
    fn raw(x: i64, y: i64) -> (i64, bool)
        ensures { meant x y ≡ flagged fault result.0 result.1 };

    /// Why it gives none.
    fn refusal() -> Fault
        ensures { result ≡ fault };

    /// Whether lists are better taken in steps of eight than by the compiler's vectors.
    fn in_eights() -> bool;
}

/// The dyad with its arguments exchanged.
pub struct Turned<V>(V);

impl<V: Dyad> Dyad for Turned<V> {
    ghost meant = { λ x y. V.meant y x };

    ghost fault = { V.fault };

    fn raw(x: i64, y: i64) -> (i64, bool) {
        V::raw(y, x)
    }

    fn refusal() -> Fault {
        V::refusal()
    }

    fn in_eights() -> bool {
        V::in_eights()
    }
}

/// The monad as a dyad that leaves its left argument alone.
pub struct OnRight<V>(V);

impl<V: Monad> Dyad for OnRight<V> {
    ghost meant = { λ x y. V.meant y };

    ghost fault = { Nonce };

    fn raw(_x: i64, y: i64) -> (i64, bool) {
        V::raw(y)
    }

    fn refusal() -> Fault {
        Fault::Nonce
    }

    fn in_eights() -> bool {
        V::in_eights()
    }
}

/// An answer as a number and whether there is none.
pub(crate) fn flag(answer: Result<i64, Fault>) -> (i64, bool)
    ensures { (fault : _) → IsOnly fault answer → answer ≡ flagged fault result.0 result.1 }
{
    match answer {
        Ok(number) => (number, false),
        Err(_) => (0, true),
    }
}

/// A number and whether there is none as an answer.
pub(crate) fn answer(found: (i64, bool), refusal: Fault) -> Result<i64, Fault>
    ensures { result ≡ flagged refusal found.0 found.1 }
{
    if found.1 { Err(refusal) } else { Ok(found.0) }
}
