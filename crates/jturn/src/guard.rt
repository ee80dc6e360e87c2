//! Who has the state.
ghost use Rattle.std.specs.Prelude.{◌≡◌, false, [], ◌∷◌, ◌++◌};
ghost use Rattle.jturn.specs.Pass.{Enters, entries, with_entry};
ghost use Rattle.jturn.specs.Turned.{Fits};

use crate::board::{Slot, View};
use crate::logged::Logged;
use crate::pass::TurnPass;
use crate::steps::state_of;
use crate::turn::Turn;
use atomic_table::Seat;
use std::hint;
use std::marker::Model;
use std::snapshot::Snapshot;
use std::sync::Wait;

// How often a pass looks before it sleeps in line. A turn is mostly short, and sleeping costs more than some looks.
const LOOKS_AWAKE: u32 = 1_000;

/// It has the state. End it by `commit` or `back`: no other pass is served before.
pub struct Guard<'a, S: Logged> {
    pub(crate) turn: &'a Turn<S>,
    pub(crate) seat: Seat<Slot<S, Snapshot<S::Entry>>, View<S::Entry>>,
    pub(crate) state: S,
    // The count of changes when it took the state.
    pub(crate) changes: u64,
}

impl<'a, S: Logged> Model for Guard<'a, S> {
    ghost use Rattle.jturn.specs.Pass.{Held};

    ghost Value = { Held S S.Entry };

    ghost use Rattle.jturn.specs.Turned.{IsInside};
    ghost use Rattle.jturn.specs.Steps.{known, IsHeld};

    ghost view = { λ g. record { pass = known g.seat.table_id g.seat.me.0; state = g.state } };

    ghost invariant = { λ g. IsHeld g.turn.now.name g.seat × IsInside g.seat.me.0 };
}

impl<S: Logged> Turn<S> {
    /// Waits for its turn. The guard's pass has then seen the whole history, and the state stands for it.
    pub fn enter<R: Wait>(&self, rt: &R, pass: TurnPass<S>) -> Guard<'_, S>
        requires { pass.turn ≡ self.now.name }
        ensures pass { Enters pass result.pass }
        ensures state { Fits S.stands_for S.mark S.constant result.pass.seen result.pass.mark result.pass.constant result.state }
    {
        let TurnPass {
            mut seat,
            changes: _,
        } = pass;
        let ticket = self.board.draw(&mut seat);
        let mut looks = 0;
        for _ in rt.forever() {
            let served = self.board.look(&mut seat);
            if served == ticket {
                let slot = self.board.table.shared.exchange(&mut seat, 0, Slot::Away);
                let state = state_of(slot);
                let changes = self.board.table.shared.peek(2);
                return Guard {
                    turn: self,
                    seat,
                    state,
                    changes,
                };
            }
            if looks < LOOKS_AWAKE {
                looks += 1;
                hint::spin_loop();
            } else {
                let shared = &self.board.table.shared;
                shared.park(rt, 1, (served % (1 << 32)) as u32);
            }
        }
        unreachable!()
    }
}

impl<S: Logged> Guard<'_, S> {
    /// Puts the state back with one entry more.
    pub fn commit(self, entry: &S::Entry) -> TurnPass<S>
        requires stands { S.stands_for self.state (self.pass.seen ++ entry.now ∷ []) }
        requires mark { self.pass.is_marker ≡ false → S.mark self.state ≡ self.pass.mark }
        requires constant { S.constant self.state ≡ self.pass.constant }
        ensures pass { result ≡ record (with_entry self.entry.pass entry.now) { mark = S.mark self.entry.state } }
        ensures entries { entries result ≡ entries self.entry.pass ++ entry.now ∷ [] }
    {
        let Guard {
            turn,
            mut seat,
            state,
            changes: _,
        } = self;
        let changes = turn.board.change(&mut seat);
        let put = Slot::Added(state, Snapshot::of(entry));
        turn.board.serve(&mut seat, put);
        turn.wake();
        TurnPass { seat, changes }
    }

    /// Puts the state back with no entry.
    pub fn back(self) -> TurnPass<S>
        requires stands { S.stands_for self.state self.pass.seen }
        requires mark { self.pass.is_marker ≡ false → S.mark self.state ≡ self.pass.mark }
        requires constant { S.constant self.state ≡ self.pass.constant }
        ensures { result ≡ record self.entry.pass { mark = S.mark self.entry.state } }
    {
        let Guard {
            turn,
            mut seat,
            state,
            changes,
        } = self;
        turn.board.serve(&mut seat, Slot::Same(state));
        TurnPass { seat, changes }
    }
}
