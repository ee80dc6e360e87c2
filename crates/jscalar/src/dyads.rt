//! The scalar dyads.

ghost use Rattle.std.specs.Prelude.{◌≡◌};
ghost use Rattle.jdata.specs.declared.fault.Fault.TheVariants as why;
ghost use Rattle.jscalar.specs.Choices as choices;
ghost use Rattle.jscalar.specs.Dyads.{two_of};
ghost use Rattle.jscalar.specs.Dyads as dyads;
ghost use Rattle.jscalar.specs.Powers as powers;
ghost use Rattle.jscalar.specs.Quotients as quotients;
ghost use Rattle.jscalar.specs.Truths as truths;

use crate::choices::out_of;
use crate::divisors::{common_divisor, common_multiple};
use crate::powers::power;
use crate::quotients::{residue, whole_quotient};
use crate::roots::root;
use crate::rows::{Dyad, answer, flag};
use crate::truths::{not_and, not_or, truth};
use jdata::{Fault, Primitive};

/// Each scalar dyad with its row.
#[macro_export]
macro_rules! scalar_dyads {
    ($row:ident $($with:tt)*) => {
        $row! {
            ($($with)*)
            Plus Plus Minus Minus Times Times Divide DividedBy Bar Residue Power Power
            DivideColon Root Bang OutOf LessDot LesserOf GreaterDot LargerOf Less LessThan
            LessColon LessOrEqual Greater LargerThan GreaterColon LargerOrEqual Equal Equal
            TildeColon NotEqual PlusDot CommonDivisor TimesDot CommonMultiple
            PlusColon NotOr TimesColon NotAnd
        }
    };
}

macro_rules! of_two {
    (($verb:ident $x:ident $y:ident) $($name:ident $row:ident)*) => {
        match $verb {
            $(Primitive::$name => answer($row::raw($x, $y), $row::refusal()),)*
            _ => Err(Fault::Nonce),
        }
    };
}

/// What a scalar dyad gives of two atoms. Its faults are Domain, for `+:` and `*:` of a number that
/// is neither 0 nor 1, and else Nonce: the result isn't whole, is beyond 64 signed bits, or isn't
/// given by this language; or the verb is no scalar dyad.
#[tactic(auto, unfolding(crate::specs::Dyads::dyad_on))]
pub fn two(verb: Primitive, x: i64, y: i64) -> Result<i64, Fault>
    ensures { result ≡ two_of verb x y }
{
    scalar_dyads!(of_two verb x y)
}

pub struct Plus;

impl Dyad for Plus {
    ghost meant = { dyads.plus };

    ghost fault = { why.Nonce };

    fn raw(x: i64, y: i64) -> (i64, bool) {
        x.overflowing_add(y)
    }

    fn refusal() -> Fault {
        Fault::Nonce
    }

    fn in_eights() -> bool {
        false
    }
}

pub struct Minus;

impl Dyad for Minus {
    ghost meant = { dyads.minus };

    ghost fault = { why.Nonce };

    fn raw(x: i64, y: i64) -> (i64, bool) {
        x.overflowing_sub(y)
    }

    fn refusal() -> Fault {
        Fault::Nonce
    }

    fn in_eights() -> bool {
        false
    }
}

pub struct Times;

impl Dyad for Times {
    ghost meant = { dyads.times };

    ghost fault = { why.Nonce };

    fn raw(x: i64, y: i64) -> (i64, bool) {
        x.overflowing_mul(y)
    }

    fn refusal() -> Fault {
        Fault::Nonce
    }

    fn in_eights() -> bool {
        true
    }
}

pub struct DividedBy;

impl Dyad for DividedBy {
    ghost meant = { quotients.whole_quotient };

    ghost fault = { why.Nonce };

    fn raw(x: i64, y: i64) -> (i64, bool) {
        flag(whole_quotient(x, y))
    }

    fn refusal() -> Fault {
        Fault::Nonce
    }

    fn in_eights() -> bool {
        false
    }
}

pub struct Residue;

impl Dyad for Residue {
    ghost meant = { dyads.residue_of };

    ghost fault = { why.Nonce };

    fn raw(x: i64, y: i64) -> (i64, bool) {
        (residue(x, y), false)
    }

    fn refusal() -> Fault {
        Fault::Nonce
    }

    fn in_eights() -> bool {
        false
    }
}

pub struct Power;

impl Dyad for Power {
    ghost meant = { powers.power };

    ghost fault = { why.Nonce };

    fn raw(x: i64, y: i64) -> (i64, bool) {
        flag(power(x, y))
    }

    fn refusal() -> Fault {
        Fault::Nonce
    }

    fn in_eights() -> bool {
        false
    }
}

pub struct Root;

impl Dyad for Root {
    ghost meant = { powers.root };

    ghost fault = { why.Nonce };

    fn raw(x: i64, y: i64) -> (i64, bool) {
        flag(root(x, y))
    }

    fn refusal() -> Fault {
        Fault::Nonce
    }

    fn in_eights() -> bool {
        false
    }
}

pub struct OutOf;

impl Dyad for OutOf {
    ghost meant = { choices.out_of };

    ghost fault = { why.Nonce };

    fn raw(x: i64, y: i64) -> (i64, bool) {
        flag(out_of(x, y))
    }

    fn refusal() -> Fault {
        Fault::Nonce
    }

    fn in_eights() -> bool {
        false
    }
}

pub struct LesserOf;

impl Dyad for LesserOf {
    ghost meant = { dyads.lesser };

    ghost fault = { why.Nonce };

    fn raw(x: i64, y: i64) -> (i64, bool) {
        (x.min(y), false)
    }

    fn refusal() -> Fault {
        Fault::Nonce
    }

    fn in_eights() -> bool {
        false
    }
}

pub struct LargerOf;

impl Dyad for LargerOf {
    ghost meant = { dyads.larger };

    ghost fault = { why.Nonce };

    fn raw(x: i64, y: i64) -> (i64, bool) {
        (x.max(y), false)
    }

    fn refusal() -> Fault {
        Fault::Nonce
    }

    fn in_eights() -> bool {
        false
    }
}

pub struct LessThan;

impl Dyad for LessThan {
    ghost meant = { dyads.less_than };

    ghost fault = { why.Nonce };

    fn raw(x: i64, y: i64) -> (i64, bool) {
        (truth(x < y), false)
    }

    fn refusal() -> Fault {
        Fault::Nonce
    }

    fn in_eights() -> bool {
        false
    }
}

pub struct LessOrEqual;

impl Dyad for LessOrEqual {
    ghost meant = { dyads.less_or_equal };

    ghost fault = { why.Nonce };

    fn raw(x: i64, y: i64) -> (i64, bool) {
        (truth(x <= y), false)
    }

    fn refusal() -> Fault {
        Fault::Nonce
    }

    fn in_eights() -> bool {
        false
    }
}

pub struct LargerThan;

impl Dyad for LargerThan {
    ghost meant = { dyads.larger_than };

    ghost fault = { why.Nonce };

    fn raw(x: i64, y: i64) -> (i64, bool) {
        (truth(x > y), false)
    }

    fn refusal() -> Fault {
        Fault::Nonce
    }

    fn in_eights() -> bool {
        false
    }
}

pub struct LargerOrEqual;

impl Dyad for LargerOrEqual {
    ghost meant = { dyads.larger_or_equal };

    ghost fault = { why.Nonce };

    fn raw(x: i64, y: i64) -> (i64, bool) {
        (truth(x >= y), false)
    }

    fn refusal() -> Fault {
        Fault::Nonce
    }

    fn in_eights() -> bool {
        false
    }
}

pub struct Equal;

impl Dyad for Equal {
    ghost meant = { dyads.equal };

    ghost fault = { why.Nonce };

    fn raw(x: i64, y: i64) -> (i64, bool) {
        (truth(x == y), false)
    }

    fn refusal() -> Fault {
        Fault::Nonce
    }

    fn in_eights() -> bool {
        false
    }
}

pub struct NotEqual;

impl Dyad for NotEqual {
    ghost meant = { dyads.not_equal };

    ghost fault = { why.Nonce };

    fn raw(x: i64, y: i64) -> (i64, bool) {
        (truth(x != y), false)
    }

    fn refusal() -> Fault {
        Fault::Nonce
    }

    fn in_eights() -> bool {
        false
    }
}

pub struct CommonDivisor;

impl Dyad for CommonDivisor {
    ghost meant = { dyads.common_divisor };

    ghost fault = { why.Nonce };

    fn raw(x: i64, y: i64) -> (i64, bool) {
        flag(common_divisor(x, y))
    }

    fn refusal() -> Fault {
        Fault::Nonce
    }

    fn in_eights() -> bool {
        false
    }
}

pub struct CommonMultiple;

impl Dyad for CommonMultiple {
    ghost meant = { dyads.common_multiple };

    ghost fault = { why.Nonce };

    fn raw(x: i64, y: i64) -> (i64, bool) {
        flag(common_multiple(x, y))
    }

    fn refusal() -> Fault {
        Fault::Nonce
    }

    fn in_eights() -> bool {
        false
    }
}

pub struct NotOr;

impl Dyad for NotOr {
    ghost meant = { truths.not_or };

    ghost fault = { why.Domain };

    fn raw(x: i64, y: i64) -> (i64, bool) {
        flag(not_or(x, y))
    }

    fn refusal() -> Fault {
        Fault::Domain
    }

    fn in_eights() -> bool {
        false
    }
}

pub struct NotAnd;

impl Dyad for NotAnd {
    ghost meant = { truths.not_and };

    ghost fault = { why.Domain };

    fn raw(x: i64, y: i64) -> (i64, bool) {
        flag(not_and(x, y))
    }

    fn refusal() -> Fault {
        Fault::Domain
    }

    fn in_eights() -> bool {
        false
    }
}
