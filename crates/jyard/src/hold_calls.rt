// The calls of a hold. Each takes the yard by reference, with the condition that the hold is of it, and the pass too. None takes memory.
ghost use Rattle.std.specs.Prelude.{◌≡◌, ℕ, [], ◌++◌, ◌+◌, ◌<◌, ◌≤◌, length, true, is_some, Some, None, IfOk, IfErr, IfSome};
ghost use Rattle.std.specs.Borrow.{LendsIfOk, sem};
ghost use Rattle.jyard.specs.contracts.hold.Hold.{the_row};
ghost use Rattle.jyard.specs.Reads.{SharedBy, LeftBy};
ghost use Rattle.jyard.specs.Sole.{with_payload, refused, word_in};
ghost use Rattle.jyard.specs.Units.{IsHolding, id_at};
ghost use Rattle.jyard.specs.Yards.{blocks_of, IsHoldOf, IsPassOf};

use crate::hold::{Held, Hold, MOST, NoShare};
use crate::table::Table;
use crate::yard::{Yard, YardPass};
use std::mem;

impl<T> Hold<T> {
    /// The payload. Several holds may read it at once, on several threads.
    pub fn items<'a>(&'a self, yard: &'a Yard<T>) -> &'a T
        requires { IsHoldOf (blocks_of yard.now) self.now }
        ensures { Some result.now ≡ self.now.seat.value }
    {
        match self.seat.get(yard.table(), self.block as usize) {
            Some(value) => value,
            None => unreachable!(),
        }
    }

    /// A second hold of the same block.
    pub fn share(&mut self, yard: &Yard<T>) -> Result<Hold<T>, NoShare>
        requires { IsHoldOf (blocks_of yard.now) self.old }
        ensures hold { IsHoldOf (blocks_of yard.now) self.new × (self.new.block ≡ self.old.block) × (self.new.seat.value ≡ self.old.seat.value) }
        ensures new { IfOk result (λ h. IsHoldOf (blocks_of yard.now) h × (h.block ≡ self.old.block) × (h.seat.value ≡ self.old.seat.value) × (h.seat.steps ≡ [])) }
        ensures steps { (self.new.seat.seat ≡ self.old.seat.seat) × SharedBy result self.old.seat.seat self.old.seat.steps self.new.seat.steps }
    {
        let at = self.block as usize;
        let table = yard.table();
        let word = table.look(&mut self.seat, at);
        if word == MOST {
            return Err(NoShare::Many { count: word - 1 });
        }
        let (found, seat) = table.share(&mut self.seat, at, word);
        if found != word {
            seat.unused();
            return Err(NoShare::Moved {
                expected: word,
                found,
            });
        }
        let block = self.block;
        Ok(Hold { block, seat })
    }

    /// The payload to write, where the word read says that this is the only hold. A write through it changes this hold's value and no other's.
    pub fn sole<'a>(&'a mut self, yard: &'a Yard<T>) -> Result<&'a mut T, Held>
        requires { IsHoldOf (blocks_of yard.now) self.old }
        ensures* writes_back { sem 𝓛 (LendsIfOk (the_row T.row) T.row self.entry result (with_payload self.old) (refused self.old (word_in result))) }
        ensures value { IfOk result (λ r. Some r.now ≡ self.old.seat.value) }
        ensures held { IfErr result (λ e. (2 ≤ e.count) × (e.count < 4294967295)) }
    {
        let at = self.block as usize;
        let table = yard.table();
        self.sole_at(table, at)
    }

    /// Puts the value in place of the payload, which comes back, where the word read says that this is the only hold. Otherwise the value comes back, with the count.
    pub fn replace(&mut self, yard: &Yard<T>, value: T) -> Result<T, (T, Held)>
        requires { IsHoldOf (blocks_of yard.now) self.old }
        ensures hold { IsHoldOf (blocks_of yard.now) self.new }
        ensures replaced { IfOk result (λ old. (Some old ≡ self.old.seat.value) × (self.new ≡ with_payload self.old value)) }
        ensures held { IfErr result (λ r. (r.0 ≡ value) × (self.new ≡ refused self.old (r.1.count + 1)) × (2 ≤ r.1.count) × (r.1.count < 4294967295)) }
    {
        match self.sole(yard) {
            Ok(place) => Ok(mem::replace(place, value)),
            Err(held) => Err((value, held)),
        }
    }

    fn sole_at<'a>(&'a mut self, table: &'a Table<Option<T>>, at: usize) -> Result<&'a mut T, Held>
        requires { (at < length table.now.ids) × IsHolding self.old.seat.right × (self.old.seat.id ≡ id_at table.now.ids at) × (is_some self.old.seat.value ≡ true) }
        ensures* writes_back { sem 𝓛 (LendsIfOk (the_row T.row) T.row self.entry result (with_payload self.old) (refused self.old (word_in result))) }
        ensures value { IfOk result (λ r. Some r.now ≡ self.old.seat.value) }
        ensures held { IfErr result (λ e. (2 ≤ e.count) × (e.count < 4294967295)) }
    {
        match self.seat.sole(table, at) {
            Ok(cell) => match cell {
                Some(value) => Ok(value),
                None => unreachable!(),
            },
            Err(word) => Err(Held { count: word - 1 }),
        }
    }

    /// Gives the unit back. The last one gives the payload out. The pass, which may be of any yard, has the hold's steps from then on.
    pub fn leave(self, yard: &Yard<T>, pass: &mut YardPass) -> Option<T>
        requires { IsHoldOf (blocks_of yard.now) self }
        ensures pass { (pass.new.view.yard ≡ pass.old.view.yard) × (pass.new.next ≡ pass.old.next) }
        ensures value { IfSome result (λ v. Some v ≡ self.seat.value) }
        ensures steps { LeftBy result self.seat.id self.seat.seat self.seat.steps pass.old.view.spent pass.new.view.spent }
    {
        let Hold { block, seat } = self;
        let at = block as usize;
        let table = yard.table();
        let (found, mut seat) = table.leave(seat, at);
        if found != 2 {
            pass.keep(yard, seat);
            return None;
        }
        let value = mem::replace(seat.get_mut(table, at), None);
        let seat = table.free(seat, at);
        pass.keep(yard, seat);
        value
    }
}
