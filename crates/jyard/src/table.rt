//! A table of blocks: their words, their values, and the seats.
//! A word is 0 where its block is free, 1 where one seat is emptying it, and otherwise one more than the number of units that seats hold.
ghost use Rattle.std.specs.Prelude.{◌≡◌, ◌≢◌, ℕ, ◌+◌, ◌-◌, ◌<◌, ◌≤◌, List, [], ◌∷◌, ◌++◌, length, replicate};
ghost use Rattle.jyard.specs.Logs.{Entry, entry, after_share, looking, sharing, leaving, clearing, steps_coded};
ghost use Rattle.jyard.specs.Taken.{HasTaken};
ghost use Rattle.jyard.specs.Units.{BlockId, block_id_coded, ids_coded, IsHolding, id_at, place, table_owns, table_shares, seat_has, seat_shows};

use crate::strip::Strip;
use crate::view::View;
use atomic_table::exchange;
use std::marker::{Brand, Model, PhantomData};
use std::sync::atomic::Ordering::SeqCst;
use std::sync::atomic::raw;

/// The words and the values of all blocks. A value is `empty` while its word is 0.
pub struct Table<S> {
    pub(crate) words: *mut u64,
    pub(crate) cells: *mut S,
    pub ghost ids: { List BlockId } by { ids_coded },
    pub ghost empty: { S },
}

impl<S> Model for Table<S> {
    ghost also_owns = { λ t. table_owns S.row t.cells t.words t.empty t.ids };

    ghost also_shares = { λ t _ κ. table_shares S.row t.cells t.words t.empty t.ids κ };
}

/// What one owner of a unit knows. It has no bytes, and cannot be dropped. Its `right` is 0 for nothing, 1 for a part of the value, 2 for the value whole at word 2, and 3 for the value whole while the block is being emptied. `seat` is its number among the block's seats, and `steps` are all steps that it made.
pub struct Seat<S> {
    pub(crate) marker: PhantomData<S>,
    pub ghost id: { BlockId } by { block_id_coded },
    pub ghost right: { ℕ },
    pub ghost round: { ℕ },
    pub ghost value: { S },
    pub ghost seat: { ℕ },
    pub ghost steps: { List Entry } by { steps_coded },
}

impl<S> Model for Seat<S> {
    ghost also_owns = { λ s. seat_has S.row (place s.id) s.id s.right s.round s.value s.seat s.steps };

    ghost also_shares = { λ s _ κ. seat_shows S.row (place s.id) s.id s.right s.round s.value κ };
}

impl<S> Seat<S> {
    /// Ends a seat that never had a unit and made no step.
    pub(crate) fn unused(self)
        requires { (self.right ≡ 0) × (self.steps ≡ []) }
    {
        let Self { marker: _ } = self;
    }
}

impl<S> Table<S> {
    /// A table of blocks that are free.
    pub(crate) fn lay(words: Strip<u64>, cells: Strip<S>) -> Table<S>
        requires { (x : S) × (words.items ≡ replicate (length cells.items) 0) × (cells.items ≡ replicate (length cells.items) x) }
        ensures { (length result.ids ≡ length cells.items) × (cells.items ≡ replicate (length cells.items) result.empty) × (result.words ≡ words.ptr) × (result.cells ≡ cells.ptr) }
    {
        let Strip { ptr: words } = words;
        let Strip { ptr: cells } = cells;
        Table { words, cells }
    }

    /// Ends the table. The values are all there where the words are all 0.
    pub(crate) fn close(self) -> (Strip<u64>, Strip<S>)
        ensures { (result.0.ptr ≡ self.words) × (result.1.ptr ≡ self.cells) × (length result.0.items ≡ length self.ids) × (result.0.items ≡ replicate (length self.ids) 0 → result.1.items ≡ replicate (length self.ids) self.empty) }
    {
        let Self { words, cells } = self;
        (Strip { ptr: words }, Strip { ptr: cells })
    }

    /// From 0 to 2 by a compare-exchange. Returns the word as it was found.
    pub(crate) fn take(&self, at: usize, view: &mut View) -> (u64, Seat<S>)
        requires { at < length self.now.ids }
        ensures view { (view.new.yard ≡ view.old.yard) × HasTaken view.old.spent view.new.spent (id_at self.now.ids at) result.0 result.1.seat }
        ensures seat { (result.0 ≡ 0 → (result.1.right ≡ 2) × (result.1.value ≡ self.now.empty)) × (result.0 ≢ 0 → result.1.right ≡ 0) × (result.1.id ≡ id_at self.now.ids at) × (result.1.steps ≡ []) }
    {
        let found = unsafe { exchange::<Brand>(self.words.add(at), 0, 2) };
        (
            found,
            Seat {
                marker: PhantomData,
            },
        )
    }

    /// Reads the word. A seat that reads 2 has the value whole from then on.
    pub(crate) fn look(&self, seat: &mut Seat<S>, at: usize) -> u64
        requires { (at < length self.now.ids) × IsHolding seat.old.right × (seat.old.id ≡ id_at self.now.ids at) }
        ensures { (seat.new.id ≡ seat.old.id) × (seat.new.value ≡ seat.old.value) × (result ≡ 2 → seat.new.right ≡ 2) × (result ≢ 2 → seat.new.right ≡ 1) × (2 ≤ result) × (result ≤ 4294967295) × (seat.new.seat ≡ seat.old.seat) × (seat.new.steps ≡ seat.old.steps ++ entry looking seat.old.seat result result 0 ∷ []) }
    {
        unsafe { raw::load::<Brand>(self.words.add(at), SeqCst) }
    }

    /// One unit more, by one compare-exchange, where the word is still `count`. Returns the word as it was found.
    pub(crate) fn share(&self, seat: &mut Seat<S>, at: usize, count: u64) -> (u64, Seat<S>)
        requires { (at < length self.now.ids) × IsHolding seat.old.right × (seat.old.right ≡ 2 → count ≡ 2) × (2 ≤ count) × (count < 4294967295) × (seat.old.id ≡ id_at self.now.ids at) }
        ensures seat { (seat.new.id ≡ seat.old.id) × (seat.new.value ≡ seat.old.value) × (seat.new.right ≡ 1) × (2 ≤ result.0) × (result.0 ≤ 4294967295) × (seat.new.seat ≡ seat.old.seat) × (seat.new.steps ≡ seat.old.steps ++ entry sharing seat.old.seat result.0 (after_share count result.0) result.1.seat ∷ []) }
        ensures new { (result.0 ≡ count → (result.1.right ≡ 1) × (result.1.value ≡ seat.old.value)) × (result.0 ≢ count → result.1.right ≡ 0) × (result.1.id ≡ seat.old.id) × (result.1.steps ≡ []) }
    {
        let found = unsafe { exchange::<Brand>(self.words.add(at), count, count + 1) };
        (
            found,
            Seat {
                marker: PhantomData,
            },
        )
    }

    /// Gives the unit back. Where the word was 2 the seat empties the block.
    pub(crate) fn leave(&self, seat: Seat<S>, at: usize) -> (u64, Seat<S>)
        requires { (at < length self.now.ids) × IsHolding seat.right × (seat.id ≡ id_at self.now.ids at) }
        ensures { (result.0 ≡ 2 → (result.1.right ≡ 3) × (result.1.value ≡ seat.value)) × (result.0 ≢ 2 → result.1.right ≡ 0) × (2 ≤ result.0) × (result.0 ≤ 4294967295) × (result.1.id ≡ seat.id) × (result.1.seat ≡ seat.seat) × (result.1.steps ≡ seat.steps ++ entry leaving seat.seat result.0 (result.0 - 1) 0 ∷ []) }
    {
        let found = unsafe { raw::fetch_sub::<Brand>(self.words.add(at), 1, SeqCst) };
        (found, seat)
    }

    /// The block is free again.
    pub(crate) fn free(&self, seat: Seat<S>, at: usize) -> Seat<S>
        requires { (at < length self.now.ids) × (seat.right ≡ 3) × (seat.value ≡ self.now.empty) × (seat.id ≡ id_at self.now.ids at) }
        ensures { (result.right ≡ 0) × (result.id ≡ seat.id) × (result.seat ≡ seat.seat) × (result.steps ≡ seat.steps ++ entry clearing seat.seat 1 0 0 ∷ []) }
    {
        unsafe { raw::store::<Brand>(self.words.add(at), 0, SeqCst) }
        seat
    }
}

unsafe impl<S: Send + Sync> Send for Table<S> {}

unsafe impl<S: Send + Sync> Sync for Table<S> {}

unsafe impl<S: Send + Sync> Send for Seat<S> {}

unsafe impl<S: Send + Sync> Sync for Seat<S> {}
