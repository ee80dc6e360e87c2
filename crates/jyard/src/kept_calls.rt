// The calls of a kept hold: those of a hold, without a condition on the yard.
ghost use Rattle.std.specs.Prelude.{◌≡◌, ◌+◌, [], ◌<◌, ◌≤◌, true, is_some, Some, IfOk, IfErr, IfSome};
ghost use Rattle.jyard.specs.Keeping.{kept_as, looked_at, replaced_by};
ghost use Rattle.jyard.specs.KeptReads.{SharedKept};
ghost use Rattle.jyard.specs.Reads.{LeftBy};
ghost use Rattle.jyard.specs.Units.{id_at};
ghost use Rattle.jyard.specs.Yards.{blocks_of, IsHoldOf};

use crate::hold::{Held, Hold, NotShared};
use crate::kept::{Berth, Kept};
use crate::yard::{Yard, YardPass};
use std::alloc::Global;
use std::mem;

impl<T: Drop> Berth<T> {
    fn of(yard: Yard<T>, hold: Hold<T>) -> Berth<T>
        requires { IsHoldOf (blocks_of yard) hold }
        ensures { result ≡ kept_as (blocks_of yard) hold }
    {
        Berth {
            yard,
            hold: Some(hold),
        }
    }

    fn items(&self) -> &T
        requires { is_some self.now.payload ≡ true }
        ensures { Some result.now ≡ self.now.payload }
    {
        match &self.hold {
            Some(hold) => hold.items(&self.yard),
            None => unreachable!(),
        }
    }

    fn share(&mut self, alloc: Global) -> Result<Berth<T>, NotShared>
        requires { is_some self.old.payload ≡ true }
        ensures kept { self.new ≡ record self.old { steps = self.new.steps } }
        ensures new { IfOk result (λ k. k ≡ record self.old { seat = k.seat; steps = [] }) }
        ensures steps { SharedKept result self.old.seat self.old.steps self.new.steps }
    {
        let Ok(yard) = self.yard.again(alloc) else {
            return Err(NotShared::NoMemory);
        };
        match &mut self.hold {
            Some(hold) => match hold.share(&yard) {
                Ok(hold) => Ok(Berth::of(yard, hold)),
                Err(refused) => Err(NotShared::Refused(refused)),
            },
            None => unreachable!(),
        }
    }

    fn replace(&mut self, value: T) -> Result<T, (T, Held)>
        requires { is_some self.old.payload ≡ true }
        ensures replaced { IfOk result (λ old. (Some old ≡ self.old.payload) × (self.new ≡ replaced_by self.old value)) }
        ensures held { IfErr result (λ r. (r.0 ≡ value) × (self.new ≡ looked_at self.old (r.1.count + 1)) × (2 ≤ r.1.count) × (r.1.count < 4294967295)) }
    {
        match &mut self.hold {
            Some(hold) => hold.replace(&self.yard, value),
            None => unreachable!(),
        }
    }

    fn leave(self, pass: &mut YardPass) -> Option<T>
        requires { is_some self.payload ≡ true }
        ensures pass { (pass.new.view.yard ≡ pass.old.view.yard) × (pass.new.next ≡ pass.old.next) }
        ensures value { IfSome result (λ v. Some v ≡ self.payload) }
        ensures steps { LeftBy result (id_at self.yard self.block) self.seat self.steps pass.old.view.spent pass.new.view.spent }
    {
        let mut berth = self;
        match mem::replace(&mut berth.hold, None) {
            Some(hold) => hold.leave(&berth.yard, pass),
            None => unreachable!(),
        }
    }
}

impl<T: Drop> Kept<T> {
    /// This hold, with an owner of its yard.
    pub fn of(yard: Yard<T>, hold: Hold<T>) -> Kept<T>
        requires { IsHoldOf (blocks_of yard) hold }
        ensures { result ≡ kept_as (blocks_of yard) hold }
    {
        let berth = Berth::of(yard, hold);
        Kept { berth }
    }

    /// The payload. Several holds may read it at once, on several threads.
    pub fn items(&self) -> &T
        ensures { Some result.now ≡ self.now.payload }
    {
        self.berth.items()
    }

    /// A second hold of the same block, with an owner of its own.
    pub fn share(&mut self, alloc: Global) -> Result<Kept<T>, NotShared>
        ensures kept { self.new ≡ record self.old { steps = self.new.steps } }
        ensures new { IfOk result (λ k. k ≡ record self.old { seat = k.seat; steps = [] }) }
        ensures steps { SharedKept result self.old.seat self.old.steps self.new.steps }
    {
        let berth = self.berth.share(alloc)?;
        Ok(Kept { berth })
    }

    /// Puts the value in place of the payload, which comes back, where the word read says that this is the only hold. Otherwise the value comes back, with the count.
    pub fn replace(&mut self, value: T) -> Result<T, (T, Held)>
        ensures replaced { IfOk result (λ old. (Some old ≡ self.old.payload) × (self.new ≡ replaced_by self.old value)) }
        ensures held { IfErr result (λ r. (r.0 ≡ value) × (self.new ≡ looked_at self.old (r.1.count + 1)) × (2 ≤ r.1.count) × (r.1.count < 4294967295)) }
    {
        self.berth.replace(value)
    }

    /// Gives the unit back. The last one gives the payload out. The pass has the hold's steps from then on.
    pub fn leave(self, pass: &mut YardPass) -> Option<T>
        ensures pass { (pass.new.view.yard ≡ pass.old.view.yard) × (pass.new.next ≡ pass.old.next) }
        ensures value { IfSome result (λ v. Some v ≡ self.payload) }
        ensures steps { LeftBy result (id_at self.yard self.block) self.seat self.steps pass.old.view.spent pass.new.view.spent }
    {
        let Self { berth } = self;
        berth.leave(pass)
    }
}
