//! A hold that keeps an owner of its yard, and gives its unit back when it is let go of.

use crate::hold::Hold;
use crate::yard::Yard;
use std::marker::Model;

// A hold beside an owner of its yard. It is away once it has left.
pub(crate) struct Berth<T: Drop> {
    pub(crate) yard: Yard<T>,
    pub(crate) hold: Option<Hold<T>>,
}

impl<T: Drop> Model for Berth<T> {
    ghost use Rattle.std.specs.Option.{ForSome};
    ghost use Rattle.jyard.specs.Keeping.{Keeping, keeping, keeping_coded};
    ghost use Rattle.jyard.specs.Yards.{blocks_of, IsHoldOf};

    ghost Value = { Keeping T };

    ghost coded = { keeping_coded T.code };

    ghost view = { λ b. keeping (blocks_of b.yard) b.hold };

    ghost invariant = { λ b. ForSome b.hold (IsHoldOf (blocks_of b.yard)) };
}

impl<T: Drop> Drop for Berth<T> {
    fn drop(self) {
        let Self { yard, hold } = self;
        if let Some(hold) = hold {
            let mut pass = yard.pass();
            let _ = hold.leave(&yard, &mut pass);
            pass.end();
        }
    }
}

/// A hold with an owner of its yard, which contracts see as its payload, where it lies and what it did there. It gives its unit back when it is let go of, so no condition on yards stands in the calls of whoever keeps it.
#[derive(Drop)]
pub struct Kept<T: Drop> {
    pub(crate) berth: Berth<T>,
}

impl<T: Drop> Model for Kept<T> {
    ghost use Rattle.std.specs.Prelude.{◌≡◌, true, is_some};
    ghost use Rattle.jyard.specs.Keeping.{Keeping, keeping_coded};

    ghost Value = { Keeping T };

    ghost coded = { keeping_coded T.code };

    ghost view = { λ k. k.berth };

    ghost invariant = { λ k. is_some k.berth.payload ≡ true };
}
