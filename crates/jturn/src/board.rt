//! The table under a turn, and its rule.
//! Word 0 is the next ticket, word 1 the ticket that is served, word 2 counts what sleepers wait for, and word 3 those that sleep. The one slot has the state.
ghost use Rattle.std.specs.Prelude.{◌≡◌};

use crate::logged::Logged;
use atomic_table::{Table, TableRule};
use std::alloc::Global;
use std::collections::LinkedList;
use std::marker::PhantomData;
use std::snapshot::Snapshot;

/// What the slot has: nothing, while a guard has the state; the state, as it came in or was put back; or the state with a note of the entry that was made.
#[derive(Drop)]
pub enum Slot<S, N> {
    Away,
    Same(S),
    Added(S, N),
}

/// Where a pass stands in the line. Tickets are counted on, past 2^64.
pub enum Stage {
    Idle,
    Waiting(u64),
    Holding(u64),
}

/// What a pass knows. No value of it is made, so its numbers have no bound.
pub struct View<E> {
    /// The beginning of the history that it has seen.
    pub seen: LinkedList<E>,
    /// A beginning of that: the shorter of the two, after a join.
    pub told: LinkedList<E>,
    /// The positions of its own entries.
    pub own: LinkedList<u64>,
    pub parts: u64,
    /// 1 for the marker, else 0.
    pub marks: u64,
    /// The mark, of the marker and of a pass that has the state.
    pub mark: (u64, u64),
    pub constant: LinkedList<u64>,
    pub stage: Stage,
}

/// What the rule is told when the table is made.
#[derive(Drop)]
pub struct Opening<S> {
    pub first: Snapshot<S>,
    pub parts: u64,
}

pub struct InTurn<S> {
    of: PhantomData<S>,
}

impl<S: Logged> TableRule<Slot<S, Snapshot<S::Entry>>, View<S::Entry>, Opening<S>> for InTurn<S> {
    ghost use Rattle.jturn.specs.Turned.{Turned};
    ghost use Rattle.jturn.specs.Steps.{opened};

    ghost holds = { λ key. Turned S.stands_for S.mark S.constant key.parts };

    ghost first = { λ key. opened (S.mark key.first.value) (S.constant key.first.value) key.parts };
}

#[derive(Drop)]
pub(crate) struct Board<S: Logged> {
    pub(crate) table: Table<
        Slot<S, Snapshot<S::Entry>>,
        View<S::Entry>,
        Opening<S>,
        InTurn<S>,
        Global,
    >,
    ghost sized: { (table.shared.table_id.words ≡ 4) × (table.shared.table_id.slots ≡ 1) },
}
