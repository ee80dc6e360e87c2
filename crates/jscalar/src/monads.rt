//! The scalar monads.

ghost use Rattle.std.specs.Prelude.{◌≡◌};
ghost use Rattle.jscalar.specs.Choices as choices;
ghost use Rattle.jscalar.specs.Monads.{one_of};
ghost use Rattle.jscalar.specs.Monads as monads;
ghost use Rattle.jscalar.specs.Powers as powers;
ghost use Rattle.jscalar.specs.Quotients as quotients;

use crate::choices::factorial;
use crate::powers::exponential;
use crate::quotients::{reciprocal, whole_quotient};
use crate::roots::root;
use crate::rows::{Monad, answer, flag};
use jdata::{Fault, Primitive};

/// Each scalar monad with its row.
#[macro_export]
macro_rules! scalar_monads {
    ($row:ident $($with:tt)*) => {
        $row! {
            ($($with)*)
            Plus Same LessDot Same GreaterDot Same Minus Negate Bar Magnitude Times Signum
            Divide Reciprocal PlusColon Double TimesColon Square LessColon Decrement
            GreaterColon Increment MinusDot OneMinus MinusColon Halve Bang Factorial
            Power Exponential DivideColon SquareRoot
        }
    };
}

macro_rules! of_one {
    (($verb:ident $y:ident) $($name:ident $row:ident)*) => {
        match $verb {
            $(Primitive::$name => answer($row::raw($y), Fault::Nonce),)*
            _ => Err(Fault::Nonce),
        }
    };
}

/// What a scalar monad gives of an atom. Its only fault is Nonce: the result isn't whole, is beyond
/// 64 signed bits, or isn't given by this language; or the verb is no scalar monad.
#[tactic(auto, unfolding(crate::specs::Monads::monad_on))]
pub fn one(verb: Primitive, y: i64) -> Result<i64, Fault>
    ensures { result ≡ one_of verb y }
{
    scalar_monads!(of_one verb y)
}

pub struct Same;

impl Monad for Same {
    ghost meant = { monads.same };

    fn raw(y: i64) -> (i64, bool) {
        (y, false)
    }

    fn in_eights() -> bool {
        false
    }
}

pub struct Negate;

impl Monad for Negate {
    ghost meant = { monads.negate };

    fn raw(y: i64) -> (i64, bool) {
        0i64.overflowing_sub(y)
    }

    fn in_eights() -> bool {
        false
    }
}

pub struct Magnitude;

impl Monad for Magnitude {
    ghost meant = { monads.magnitude };

    fn raw(y: i64) -> (i64, bool) {
        if y < 0 {
            0i64.overflowing_sub(y)
        } else {
            (y, false)
        }
    }

    fn in_eights() -> bool {
        false
    }
}

pub struct Signum;

impl Monad for Signum {
    ghost meant = { monads.signum };

    fn raw(y: i64) -> (i64, bool) {
        (y.signum(), false)
    }

    fn in_eights() -> bool {
        false
    }
}

pub struct Reciprocal;

impl Monad for Reciprocal {
    ghost meant = { quotients.reciprocal };

    fn raw(y: i64) -> (i64, bool) {
        flag(reciprocal(y))
    }

    fn in_eights() -> bool {
        false
    }
}

pub struct Double;

impl Monad for Double {
    ghost meant = { monads.double };

    fn raw(y: i64) -> (i64, bool) {
        y.overflowing_add(y)
    }

    fn in_eights() -> bool {
        false
    }
}

pub struct Square;

impl Monad for Square {
    ghost meant = { monads.square };

    fn raw(y: i64) -> (i64, bool) {
        y.overflowing_mul(y)
    }

    fn in_eights() -> bool {
        true
    }
}

pub struct Decrement;

impl Monad for Decrement {
    ghost meant = { monads.decrement };

    fn raw(y: i64) -> (i64, bool) {
        y.overflowing_sub(1)
    }

    fn in_eights() -> bool {
        false
    }
}

pub struct Increment;

impl Monad for Increment {
    ghost meant = { monads.increment };

    fn raw(y: i64) -> (i64, bool) {
        y.overflowing_add(1)
    }

    fn in_eights() -> bool {
        false
    }
}

pub struct OneMinus;

impl Monad for OneMinus {
    ghost meant = { monads.one_minus };

    fn raw(y: i64) -> (i64, bool) {
        1i64.overflowing_sub(y)
    }

    fn in_eights() -> bool {
        false
    }
}

pub struct Halve;

impl Monad for Halve {
    ghost meant = { monads.halve };

    fn raw(y: i64) -> (i64, bool) {
        flag(whole_quotient(y, 2))
    }

    fn in_eights() -> bool {
        false
    }
}

pub struct Factorial;

impl Monad for Factorial {
    ghost meant = { choices.factorial_of };

    fn raw(y: i64) -> (i64, bool) {
        flag(factorial(y))
    }

    fn in_eights() -> bool {
        false
    }
}

pub struct Exponential;

impl Monad for Exponential {
    ghost meant = { powers.exponential };

    fn raw(y: i64) -> (i64, bool) {
        flag(exponential(y))
    }

    fn in_eights() -> bool {
        false
    }
}

pub struct SquareRoot;

impl Monad for SquareRoot {
    ghost meant = { monads.square_root };

    fn raw(y: i64) -> (i64, bool) {
        flag(root(2, y))
    }

    fn in_eights() -> bool {
        false
    }
}
