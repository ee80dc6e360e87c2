//! Which kinds the verbs take.

ghost use Rattle.std.specs.Prelude.{◌≡◌};
ghost use Rattle.jdyad.specs.Atoms as atoms;
ghost use Rattle.jarray.specs.Numbers.{is_integers};
ghost use Rattle.jdyad.specs.Dyads as dyads;
ghost use Rattle.jscalar.specs.Dyads.{is_scalar_dyad};

use jarray::{Array, Room};
use jdata::Primitive;
use jscalar::scalar_dyads;

/// `=` and `~:` take any kinds, the other verbs integers; an argument without atoms passes.
pub fn takes(room: &Room, verb: Primitive, x: &Array, y: &Array) -> bool
    ensures { result ≡ dyads.takes verb x.now.noun y.now.noun }
{
    is_comparison(verb) || (is_integers(room, x) && is_integers(room, y))
}

fn is_comparison(verb: Primitive) -> bool
    ensures { result ≡ atoms.is_comparison verb }
{
    matches!(verb, Primitive::Equal | Primitive::TildeColon)
}

fn is_integers(room: &Room, array: &Array) -> bool
    ensures { result ≡ is_integers array.now.noun }
{
    array.numbers(room).is_some()
}

macro_rules! is_listed {
    (($verb:ident) $($name:ident $row:ident)*) => { matches!($verb, $(Primitive::$name)|*) };
}

#[tactic(auto, unfolding(jscalar::specs::Dyads::dyad_on))]
pub fn is_scalar(verb: Primitive) -> bool
    ensures { result ≡ is_scalar_dyad verb }
{
    scalar_dyads!(is_listed verb)
}
