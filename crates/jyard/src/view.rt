//! What a pass's steps found, and what is left of the seats that it ended.
ghost use Rattle.std.specs.Prelude.{◌≡◌, List, [], ◌∷◌, ◌++◌};
ghost use Rattle.jyard.specs.Units.{BlockId, Spent, ids_coded, spents_coded, spents_own};

use crate::table::{Seat, Table};
use std::marker::{Model, PhantomData};

/// Which yard a pass is of, and the seats without a unit that it has: one for each word that it read, and each that it ended. It has no bytes, and cannot be dropped. No other crate can make one.
pub struct View {
    pub(crate) marker: PhantomData<()>,
    pub ghost yard: { List BlockId } by { ids_coded },
    pub ghost spent: { List Spent } by { spents_coded },
}

impl Model for View {
    ghost also_owns = { λ v. spents_own v.spent };
}

impl View {
    pub(crate) fn new<S>(table: &Table<S>) -> View
        ensures { (result.yard ≡ table.now.ids) × (result.spent ≡ []) }
    {
        let _ = table;
        View {
            marker: PhantomData,
        }
    }

    /// The seats of the one, and then those of the other.
    pub(crate) fn join(self, other: View) -> View
        ensures { (result.yard ≡ self.yard) × (result.spent ≡ self.spent ++ other.spent) }
    {
        let Self { marker: _ } = other;
        self
    }

    /// Ends a seat without a unit, and has its steps.
    pub(crate) fn end<S>(self, seat: Seat<S>) -> View
        requires { seat.right ≡ 0 }
        ensures { (result.yard ≡ self.yard) × (result.spent ≡ self.spent ++ record { id = seat.id; seat = seat.seat; steps = seat.steps } ∷ []) }
    {
        let Seat { marker: _ } = seat;
        self
    }
}

impl View {
    /// Ends a view, and with it what it read.
    pub(crate) fn close(self) {
        let Self { marker: _ } = self;
    }
}

unsafe impl Send for View {}

unsafe impl Sync for View {}
