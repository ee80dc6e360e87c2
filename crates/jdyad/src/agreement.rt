//! Whether shapes agree.

ghost use Rattle.std.specs.Prelude.{◌≡◌, ◌↔◌, IsTrue};
ghost use Rattle.jshape.specs.Frames.{IsPrefix};
ghost use Rattle.jshape.specs.Agreement as agreement;

/// Whether the first axes of the second shape are those of the first.
#[tactic(auto, using(jshape::proofs::Agreeing::by_axes, jshape::proofs::Agreeing::started))]
pub fn is_prefix(short: &[u64], long: &[u64]) -> bool
    ensures test { result ≡ agreement.is_prefix short.now long.now }
    ensures prefix { IsTrue result ↔ IsPrefix short.now long.now }
{
    long.starts_with(short)
}
