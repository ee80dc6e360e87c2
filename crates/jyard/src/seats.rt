//! Seats that are brought together, and their units counted.
ghost use Rattle.std.specs.Prelude.{◌≡◌, ◌<◌, ◌≤◌, List, [], ◌∷◌, ◌++◌, length};
ghost use Rattle.jyard.specs.Counts.{block_count};
ghost use Rattle.jyard.specs.Taken.{HasCounted};
ghost use Rattle.jyard.specs.Logs.{Entry};
ghost use Rattle.jyard.specs.Seats.{seat_of};
ghost use Rattle.jyard.specs.Units.{SeatOf, seats_coded, seats_own, units_in, AllHere, IsLogWith, id_at};

use crate::table::{Seat, Table};
use crate::view::View;
use std::marker::{Brand, Model, PhantomData};
use std::sync::atomic::Ordering::SeqCst;
use std::sync::atomic::raw;

/// It has no bytes, and cannot be dropped.
pub struct Seats<S> {
    pub(crate) marker: PhantomData<S>,
    pub ghost all: { List (SeatOf S) } by { seats_coded S.code },
}

impl<S> Model for Seats<S> {
    ghost also_owns = { λ g. seats_own S.row g.all };
}

impl<S> Seats<S> {
    pub(crate) fn of(seat: Seat<S>) -> Seats<S>
        ensures { result.all ≡ seat_of seat ∷ [] }
    {
        let Seat { marker: _ } = seat;
        Seats {
            marker: PhantomData,
        }
    }

    pub(crate) fn add(self, seat: Seat<S>) -> Seats<S>
        ensures { result.all ≡ seat_of seat ∷ self.all }
    {
        let Seat { marker: _ } = seat;
        self
    }

    /// The seat that was added last, and the others.
    pub(crate) fn part(self) -> (Seat<S>, Seats<S>)
        requires { 0 < length self.all }
        ensures { self.all ≡ seat_of result.0 ∷ result.1.all }
    {
        let Self { marker: _ } = self;
        (
            Seat {
                marker: PhantomData,
            },
            Seats {
                marker: PhantomData,
            },
        )
    }

    /// The only seat.
    pub(crate) fn only(self) -> Seat<S>
        requires { length self.all ≡ 1 }
        ensures { self.all ≡ seat_of result ∷ [] }
    {
        let Self { marker: _ } = self;
        Seat {
            marker: PhantomData,
        }
    }
}

impl<S> Table<S> {
    /// Reads the word. The seats stand in a log that leaves it, and their units are no more than it counts.
    pub(crate) fn tally(&self, seats: Seats<S>, at: usize, view: &mut View) -> (u64, Seats<S>)
        requires { (at < length self.now.ids) × AllHere (id_at self.now.ids at) seats.all }
        ensures view { (view.new.yard ≡ view.old.yard) × HasCounted view.old.spent view.new.spent (id_at self.now.ids at) result.0 }
        ensures seats { (result.1.all ≡ seats.all) × (units_in seats.all ≤ block_count result.0) × ((log : List Entry) × IsLogWith seats.all result.0 log) }
    {
        let found = unsafe { raw::load::<Brand>(self.words.add(at), SeqCst) };
        (found, seats)
    }
}
