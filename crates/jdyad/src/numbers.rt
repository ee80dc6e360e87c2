//! Scalar dyads on lists of integers, in place: a row of jscalar for each verb.
#![tactic(auto, unfolding(jscalar::specs::Dyads::dyad_on))]

ghost use Rattle.std.specs.Prelude.{◌≡◌, ◌*◌, ◌/◌, ◌<◌, true, pos, length, slice_index_or};
ghost use Rattle.jarray.specs.Numbers.{in_place};
ghost use Rattle.jscalar.specs.Dyads.{is_scalar_dyad, two_of};
ghost use Rattle.jscalar.specs.Places.{by_place};

use jdata::{Fault, Primitive};
use jscalar::{Dyad, Turned, fill, scalar_dyads};

macro_rules! on_right {
    (($verb:ident $xs:ident $cell:ident $ys:ident) $($name:ident $row:ident)*) => {
        match $verb {
            $(Primitive::$name => filled::<jscalar::dyads::$row>($xs, $cell, $ys),)*
            _ => unreachable!(),
        }
    };
}

macro_rules! on_left {
    (($verb:ident $xs:ident $cell:ident $ys:ident) $($name:ident $row:ident)*) => {
        match $verb {
            $(Primitive::$name => filled::<Turned<jscalar::dyads::$row>>($ys, $cell, $xs),)*
            _ => unreachable!(),
        }
    };
}

/// Puts into each of `ys` what the verb gives of an integer of `xs` and of it: each of `xs` serves
/// `cell` of `ys`, one after another. After a fault `ys` are of no use.
pub fn into_right(verb: Primitive, xs: &[i64], cell: usize, ys: &mut [i64]) -> Result<(), Fault>
    requires verb { is_scalar_dyad verb ≡ true }
    requires some { 0 < cell }
    requires whole { length ys.old ≡ length xs.now * cell }
    ensures { in_place result ys.new ≡ by_place (λ j. two_of verb (slice_index_or xs.now (j / cell) (pos 0)) (slice_index_or ys.old j (pos 0))) (length ys.old) }
{
    scalar_dyads!(on_right verb xs cell ys)
}

/// Puts into each of `xs` what the verb gives of it and of an integer of `ys`: each of `ys` serves
/// `cell` of `xs`, one after another. After a fault `xs` are of no use.
pub fn into_left(verb: Primitive, xs: &mut [i64], ys: &[i64], cell: usize) -> Result<(), Fault>
    requires verb { is_scalar_dyad verb ≡ true }
    requires some { 0 < cell }
    requires whole { length xs.old ≡ length ys.now * cell }
    ensures { in_place result xs.new ≡ by_place (λ j. two_of verb (slice_index_or xs.old j (pos 0)) (slice_index_or ys.now (j / cell) (pos 0))) (length xs.old) }
{
    scalar_dyads!(on_left verb xs cell ys)
}

fn filled<V: Dyad>(xs: &[i64], cell: usize, ys: &mut [i64]) -> Result<(), Fault>
    requires some { 0 < cell }
    requires whole { length ys.old ≡ length xs.now * cell }
    ensures { in_place result ys.new ≡ by_place (λ j. V.meant (slice_index_or xs.now (j / cell) (pos 0)) (slice_index_or ys.old j (pos 0))) (length ys.old) }
{
    if fill::<V>(xs, cell, ys) {
        Err(V::refusal())
    } else {
        Ok(())
    }
}
