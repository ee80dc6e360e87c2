//! What a thread takes turns with.
use crate::board::{Slot, View};
use crate::logged::Logged;
use atomic_table::Seat;
use std::marker::Model;
use std::snapshot::Snapshot;

/// A pass has seen a beginning of the history, and has the positions of its own entries in it.
#[derive(Drop)]
pub struct TurnPass<S: Logged> {
    pub(crate) seat: Seat<Slot<S, Snapshot<S::Entry>>, View<S::Entry>>,
    // The count of changes, modulo 2^64, when it last had the state: `park` waits for another.
    pub(crate) changes: u64,
}

impl<S: Logged> Model for TurnPass<S> {
    ghost use Rattle.jturn.specs.Pass.{Pass};

    ghost Value = { Pass S.Entry };

    ghost use Rattle.jturn.specs.Steps.{known, IsAtRest};

    ghost view = { λ p. known p.seat.table_id p.seat.me.0 };

    ghost invariant = { λ p. IsAtRest p.seat };
}
