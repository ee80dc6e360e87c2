// The calls of a yard. Each that takes a pass has the condition that the pass is of this yard.
ghost use Rattle.std.specs.Prelude.{◌≡◌, ℕ, [], ◌∷◌, ◌++◌, ◌+◌, ◌%◌, ◌<◌, ◌≤◌, length, Some, None, IfOk, IfErr, MatchResult};
ghost use Rattle.jyard.specs.Reads.{AllTaken, FoundFree, ReadTaken};
ghost use Rattle.jyard.specs.Taken.{HasTaken};
ghost use Rattle.jyard.specs.Units.{IsHolding, id_at};
ghost use Rattle.jyard.specs.Yards.{blocks_of, IsHoldOf, IsPassOf};

use crate::hold::Hold;
use crate::shelf::Shelf;
use crate::table::{Seat, Table};
use crate::view::View;
use crate::yard::{Yard, YardPass};
use jdata::NoMemory;
use std::alloc::Global;
use std::mem;
use std::sync::Arc;

// The block that comes after this one, round the yard.
fn next_after(block: u32, blocks: u32) -> u32
    requires { (block < blocks) × (blocks ≤ 65536) }
    ensures { (result ≡ (block + 1) % blocks) × (result < blocks) }
{
    if block + 1 < blocks { block + 1 } else { 0 }
}

impl<T> Yard<T> {
    /// A yard of free blocks, from 1 to 65,536, with a pass of it.
    pub fn new(alloc: Global, blocks: u32) -> Result<(Yard<T>, YardPass), NoMemory>
        requires { (1 ≤ blocks) × (blocks ≤ 65536) }
        ensures { IfOk result (λ p. (length (blocks_of p.0) ≡ blocks) × IsPassOf (blocks_of p.0) p.1 × (p.1.view.spent ≡ [])) }
    {
        let shelf = Shelf::new(alloc, blocks)?;
        let Ok(shelf) = Arc::new(alloc, shelf) else {
            return Err(NoMemory);
        };
        let view = View::new(&shelf.table);
        Ok((Yard { shelf }, YardPass { next: 0, view }))
    }

    /// Another owner of the same blocks.
    pub fn again(&self, _alloc: Global) -> Result<Yard<T>, NoMemory>
        ensures { IfOk result (λ y. blocks_of y ≡ blocks_of self.now) }
    {
        match self.shelf.clone() {
            Ok(shelf) => Ok(Yard { shelf }),
            Err(_) => Err(NoMemory),
        }
    }

    /// A new pass, which has made no step. It takes no memory.
    pub fn pass(&self) -> YardPass
        ensures { IsPassOf (blocks_of self.now) result × (result.next ≡ 0) × (result.view.spent ≡ []) }
    {
        self.pass_from(0)
    }

    /// A new pass, whose first `take` begins at this block, or as many blocks on, round the yard. Passes of several threads that begin far apart seldom meet. It takes no memory.
    pub fn pass_from(&self, start: u32) -> YardPass
        ensures { IsPassOf (blocks_of self.now) result × (result.next ≡ start % length (blocks_of self.now)) × (result.view.spent ≡ []) }
    {
        let next = start % self.count();
        let view = View::new(self.table());
        YardPass { next, view }
    }

    /// One pass with the steps of both, those of the first before those of the other. It takes no memory.
    pub fn join(&self, one: YardPass, other: YardPass) -> YardPass
        requires { IsPassOf (blocks_of self.now) one × IsPassOf (blocks_of self.now) other }
        ensures { IsPassOf (blocks_of self.now) result × (result.next ≡ one.next) × (result.view.spent ≡ one.view.spent ++ other.view.spent) }
    {
        let YardPass { next, view } = one;
        let YardPass {
            next: _,
            view: seen,
        } = other;
        let view = view.join(seen);
        YardPass { next, view }
    }

    /// A hold of the first free block after the one that this pass took last. The value comes back where every block was seen taken. It takes no memory.
    pub fn take(&self, pass: &mut YardPass, value: T) -> Result<Hold<T>, T>
        requires { IsPassOf (blocks_of self.now) pass.old }
        ensures pass { IsPassOf (blocks_of self.now) pass.new }
        ensures hold { MatchResult result (λ h. IsHoldOf (blocks_of self.now) h × (h.seat.value ≡ Some value) × (h.seat.steps ≡ [])) (λ v. v ≡ value) }
        ensures steps { MatchResult result (λ h. FoundFree (blocks_of self.now) pass.old.next h.block h.seat.seat pass.old.view.spent pass.new.view.spent) (λ v. AllTaken (blocks_of self.now) pass.old.next pass.old.view.spent pass.new.view.spent) }
        ensures next { MatchResult result (λ h. pass.new.next ≡ (h.block + 1) % length (blocks_of self.now)) (λ v. pass.new.next ≡ pass.old.next) }
    {
        let blocks = self.count();
        let mut value = value;
        let mut block = pass.next;
        let mut passed = 0;
        while passed < blocks {
            let next = next_after(block, blocks);
            match self.try_take(&mut pass.view, block, value) {
                Ok(hold) => {
                    pass.next = next;
                    return Ok(hold);
                }
                Err(back) => value = back,
            }
            block = next;
            passed += 1;
        }
        Err(value)
    }

    // Takes the block for the value, if it is free.
    fn try_take(&self, view: &mut View, block: u32, value: T) -> Result<Hold<T>, T>
        requires { block < length (blocks_of self.now) }
        ensures view { view.new.yard ≡ view.old.yard }
        ensures taken { MatchResult result (λ h. IsHoldOf (blocks_of self.now) h × (h.block ≡ block) × (h.seat.value ≡ Some value) × (h.seat.steps ≡ []) × HasTaken view.old.spent view.new.spent (id_at (blocks_of self.now) block) 0 h.seat.seat) (λ v. (v ≡ value) × ReadTaken view.old.spent view.new.spent (id_at (blocks_of self.now) block)) }
    {
        let at = block as usize;
        let table = self.table();
        let (found, mut seat) = table.take(at, view);
        if found != 0 {
            seat.unused();
            return Err(value);
        }
        let old = mem::replace(seat.get_mut(table, at), Some(value));
        let None = old else { unreachable!() };
        Ok(Hold { block, seat })
    }

    fn count(&self) -> u32
        ensures { (length (blocks_of self.now) ≡ result) × (1 ≤ result) × (result ≤ 65536) }
    {
        self.shelf.blocks
    }

    pub(crate) fn table(&self) -> &Table<Option<T>>
        ensures { (result.now.ids ≡ blocks_of self.now) × (result.now.empty ≡ None) }
    {
        &self.shelf.table
    }
}

impl YardPass {
    /// Ends the pass, and with it what its steps found.
    pub fn end(self) {
        let Self { next: _, view } = self;
        view.close();
    }

    // Ends a seat without a unit.
    pub(crate) fn keep<T>(&mut self, yard: &Yard<T>, seat: Seat<Option<T>>)
        requires { seat.right ≡ 0 }
        ensures { (self.new.next ≡ self.old.next) × (self.new.view.yard ≡ self.old.view.yard) × (self.new.view.spent ≡ self.old.view.spent ++ record { id = seat.id; seat = seat.seat; steps = seat.steps } ∷ []) }
    {
        let fresh = View::new(yard.table());
        let view = mem::replace(&mut self.view, fresh);
        let fresh = mem::replace(&mut self.view, view.end(seat));
        fresh.close();
    }
}
