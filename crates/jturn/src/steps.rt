//! The atomic steps of a turn, each by one seat.
ghost use Rattle.std.specs.Prelude.{◌≡◌, ◌≢◌, ℕ, ◌%◌, ◌<◌, ◌^◌, [], true};
ghost use Rattle.jturn.specs.declared.board.Stage.TheVariants.{Waiting};
ghost use Rattle.jturn.specs.Pass.{StartsWith};
ghost use Rattle.jturn.specs.Turned.{InSlot, IsInside};
ghost use Rattle.jturn.specs.Steps.{is_idle, waits, leaves, Entered, IsHeld, Right};

use crate::board::{Board, Slot, View};
use crate::logged::Logged;
use crate::plays::{Compare, Count, Draw, Look, Serve};
use atomic_table::Seat;
use std::snapshot::Snapshot;

// The state in the slot.
pub(crate) fn state_of<S, N: Drop>(slot: Slot<S, N>) -> S
    requires { InSlot (λ _. Unit {0}) slot }
    ensures { InSlot (λ x. x ≡ result) slot }
{
    match slot {
        Slot::Same(x) => x,
        Slot::Added(x, _) => x,
        Slot::Away => unreachable!(),
    }
}

impl<S: Logged> Board<S> {
    // Draws a ticket.
    pub(crate) fn draw(&self, seat: &mut Seat<Slot<S, Snapshot<S::Entry>>, View<S::Entry>>) -> u64
        requires { (seat.old.table_id ≡ self.now.table.shared.table_id) × (is_idle seat.old.me.0.stage ≡ true) × (0 < seat.old.me.0.parts) }
        ensures seat { (seat.new.table_id ≡ seat.old.table_id) × (seat.new.id ≡ seat.old.id) }
        ensures ticket { (t : ℕ) × (result ≡ t % 2 ^ 64) × (seat.new.me ≡ (waits t seat.old.me.0, seat.old.me.1)) }
    {
        self.table.shared.fetch_add::<Draw>(seat, 0, 1)
    }

    // Looks whether the ticket is served, and takes the slot if so.
    pub(crate) fn look(&self, seat: &mut Seat<Slot<S, Snapshot<S::Entry>>, View<S::Entry>>) -> u64
        requires { (seat.old.table_id ≡ self.now.table.shared.table_id) × ((t : ℕ) × (seat.old.me.0.stage ≡ Waiting t)) × (0 < seat.old.me.0.parts) }
        ensures seat { (seat.new.table_id ≡ seat.old.table_id) × (seat.new.id ≡ seat.old.id) }
        ensures hit { (t : ℕ) → seat.old.me.0.stage ≡ Waiting t → (result ≡ t % 2 ^ 64 → Entered S.stands_for S.mark S.constant t seat.old.me seat.new.me) × (result ≢ t % 2 ^ 64 → seat.new.me ≡ seat.old.me) }
    {
        self.table.shared.load::<Look<S>>(seat, 1)
    }

    // Puts the state back and serves the next, whom it wakes if there is one.
    pub(crate) fn serve(
        &self,
        seat: &mut Seat<Slot<S, Snapshot<S::Entry>>, View<S::Entry>>,
        put: Slot<S, Snapshot<S::Entry>>,
    )
        requires seat { IsHeld self.now.table.shared.table_id seat.old }
        requires put { Right S.stands_for S.mark S.constant seat.old.me.0 put }
        ensures seat { (seat.new.table_id ≡ seat.old.table_id) × (seat.new.id ≡ seat.old.id) }
        ensures next { seat.new.me ≡ (leaves S.mark seat.old.me.0 put, []) }
        ensures inside { IsInside seat.new.me.0 }
    {
        let was = self.table.shared.exchange(seat, 0, put);
        let Slot::Away = was else { unreachable!() };
        let served = self.table.shared.fetch_add::<Serve<S>>(seat, 1, 1);
        self.wake_line(served.wrapping_add(1));
    }

    // Wakes those that wait in line, if the ticket that is served now has been drawn.
    fn wake_line(&self, serving: u64) {
        if self.table.shared.peek(0) != serving {
            self.table.shared.wake_all(1);
        }
    }

    // What joins two passes tells of the lists that they have seen.
    pub(crate) fn compare(&self, seat: &mut Seat<Slot<S, Snapshot<S::Entry>>, View<S::Entry>>)
        requires { seat.old.table_id ≡ self.now.table.shared.table_id }
        ensures seat { (seat.new.table_id ≡ seat.old.table_id) × (seat.new.id ≡ seat.old.id) × (seat.new.me ≡ seat.old.me) }
        ensures told { StartsWith seat.old.me.0.seen seat.old.me.0.told }
        ensures inside { IsInside seat.new.me.0 }
    {
        self.table.shared.load::<Compare>(seat, 0);
    }

    // Counts a change more, and answers the count after.
    pub(crate) fn change(&self, seat: &mut Seat<Slot<S, Snapshot<S::Entry>>, View<S::Entry>>) -> u64
        requires { seat.old.table_id ≡ self.now.table.shared.table_id }
        ensures { (seat.new.table_id ≡ seat.old.table_id) × (seat.new.id ≡ seat.old.id) × (seat.new.me ≡ seat.old.me) }
    {
        let before = self.table.shared.fetch_add::<Count>(seat, 2, 1);
        before.wrapping_add(1)
    }

    // Counts a sleeper more.
    pub(crate) fn lie_down(&self, seat: &mut Seat<Slot<S, Snapshot<S::Entry>>, View<S::Entry>>)
        requires { seat.old.table_id ≡ self.now.table.shared.table_id }
        ensures { (seat.new.table_id ≡ seat.old.table_id) × (seat.new.id ≡ seat.old.id) × (seat.new.me ≡ seat.old.me) }
    {
        self.table.shared.fetch_add::<Count>(seat, 3, 1);
    }

    // Counts a sleeper less.
    pub(crate) fn get_up(&self, seat: &mut Seat<Slot<S, Snapshot<S::Entry>>, View<S::Entry>>)
        requires { seat.old.table_id ≡ self.now.table.shared.table_id }
        ensures { (seat.new.table_id ≡ seat.old.table_id) × (seat.new.id ≡ seat.old.id) × (seat.new.me ≡ seat.old.me) }
    {
        self.table.shared.fetch_sub::<Count>(seat, 3, 1);
    }
}
