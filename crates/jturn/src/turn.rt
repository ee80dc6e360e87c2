//! The turn.
ghost use Rattle.std.specs.Prelude.{◌≡◌, ℕ, ◌<◌, ◌≤◌, ◌++◌, [], length, true, IfOk, IsPermutation};
ghost use Rattle.jturn.specs.Pass.{StartsWith, entries, first_pass, joined, split_first, split_second};
ghost use Rattle.jturn.specs.Turned.{Fits, IsOneEntry, times};

use crate::board::{Board, Opening, Slot};
use crate::logged::Logged;
use crate::pass::TurnPass;
use crate::plays::{Cut, Glue};
use crate::steps::state_of;
use atomic_table::Table;
use jdata::NoMemory;
use std::alloc::Global;
use std::marker::Model;
use std::snapshot::Snapshot;
use std::sync::Wait;

/// One state, and turns at it, which passes take one after another.
#[derive(Drop)]
pub struct Turn<S: Logged> {
    pub(crate) board: Board<S>,
}

impl<S: Logged> Model for Turn<S> {
    ghost use Rattle.jturn.specs.Pass.{Terms};

    ghost Value = { Terms };

    ghost view = { λ t. record { name = t.board.table.shared.table_id; parts = t.board.table.shared.key.parts } };
}

impl<S: Logged> Turn<S> {
    /// A turn at `first`, and its pass, which has all parts and is the marker.
    ///
    /// Errors: `NoMemory` where the table finds no room. The state is then dropped.
    pub fn new(alloc: Global, first: S, passes: u32) -> Result<(Turn<S>, TurnPass<S>), NoMemory>
    where
        S: Drop,
        requires some { 0 < passes }
        requires empty { S.stands_for first [] }
        ensures parts { IfOk result (λ t. t.0.parts ≡ passes) }
        ensures pass { IfOk result (λ t. t.1 ≡ first_pass t.0 (S.mark first) (S.constant first)) }
    {
        let about = Opening {
            first: Snapshot::of(&first),
            parts: u64::from(passes),
        };
        let mut slots = Vec::new(alloc);
        if slots.push(Slot::Same(first)).is_err() {
            return Err(NoMemory);
        }
        match Table::new(alloc, &[0, 0, 0, 0], slots, &about) {
            Ok((table, seat)) => {
                let board = Board { table };
                Ok((Turn { board }, TurnPass { seat, changes: 0 }))
            }
            Err(_) => Err(NoMemory),
        }
    }

    /// Cuts one part off, for a second pass. The first keeps what is its own, and stays the marker if it was.
    pub fn split(&self, pass: TurnPass<S>) -> (TurnPass<S>, TurnPass<S>)
        requires of { pass.turn ≡ self.now.name }
        requires parts { 2 ≤ pass.parts }
        ensures first { result.0 ≡ split_first pass }
        ensures second { result.1 ≡ split_second pass }
    {
        let TurnPass { mut seat, changes } = pass;
        let shared = &self.board.table.shared;
        let other = shared.split_seat::<Cut>(&mut seat);
        let second = TurnPass {
            seat: other,
            changes,
        };
        (TurnPass { seat, changes }, second)
    }

    /// Makes one pass of two. It has seen what either has seen, and has the entries and the parts of both.
    pub fn join(&self, one: TurnPass<S>, other: TurnPass<S>) -> TurnPass<S>
        requires of { (one.turn ≡ self.now.name) × (other.turn ≡ self.now.name) }
        ensures both { result ≡ joined one other }
        ensures begins { StartsWith result.seen one.seen × StartsWith result.seen other.seen }
        ensures entries { entries result ≡ entries one ++ entries other }
    {
        let TurnPass { mut seat, changes } = one;
        let TurnPass {
            seat: other,
            changes: _,
        } = other;
        let shared = &self.board.table.shared;
        shared.join_seat::<Glue>(&mut seat, other);
        self.board.compare(&mut seat);
        TurnPass { seat, changes }
    }

    /// Sleeps until a change that this pass's last turn has not seen: an entry, or a `stir`. It may also return for no reason, and nothing is said of when it returns.
    pub fn park<R: Wait>(&self, rt: &R, pass: TurnPass<S>) -> TurnPass<S>
        requires { pass.turn ≡ self.now.name }
        ensures { result ≡ pass }
    {
        let TurnPass { mut seat, changes } = pass;
        self.board.lie_down(&mut seat);
        let shared = &self.board.table.shared;
        shared.park(rt, 2, (changes % (1 << 32)) as u32);
        self.board.get_up(&mut seat);
        TurnPass { seat, changes }
    }

    /// Wakes all that sleep by `park`.
    pub fn wake(&self) {
        if self.board.table.shared.peek(3) != 0 {
            self.board.table.shared.wake_all(2);
        }
    }

    /// Wakes all that sleep by `park`, and lets those not sleep that park later on what they saw before. It makes no entry.
    pub fn stir(&self, pass: TurnPass<S>) -> TurnPass<S>
        requires { pass.turn ≡ self.now.name }
        ensures { result ≡ pass }
    {
        let TurnPass { mut seat, changes } = pass;
        self.board.change(&mut seat);
        self.wake();
        TurnPass { seat, changes }
    }

    /// Ends the turn. A pass with all parts has seen the whole history, and each entry of it is its own, once.
    pub fn close(self, pass: TurnPass<S>) -> (S, Snapshot<TurnPass<S>>)
        requires of { pass.turn ≡ self.name }
        requires parts { pass.parts ≡ self.parts }
        ensures state { Fits S.stands_for S.mark S.constant pass.seen pass.mark pass.constant result.0 }
        ensures each { (p : ℕ) → IsOneEntry (length pass.seen) p (times p pass.own) }
        ensures all { IsPermutation pass.seen (entries pass) }
        ensures marker { pass.is_marker ≡ true }
        ensures pass { result.1.value ≡ pass }
    {
        let seen = Snapshot::of(&pass);
        let Turn { board } = self;
        let Board { table } = board;
        let TurnPass { seat, changes: _ } = pass;
        let mut closed = table.close_with(seat);
        let slot = closed.take(0);
        closed.free();
        (state_of(slot), seen)
    }
}
