//! Mutexes.
ghost use Rattle.std.specs.Prelude.{◌≡◌, IfOk, OnOk, OnErr, length};
ghost use Rattle.juses.specs.Desk.{make_mutex_reply, lock_reply, unlock_reply};
ghost use Rattle.juses.specs.Keeping.{after_make_mutex, after_lock, after_unlock, with_holding, mutex_at};
ghost use Rattle.juses.specs.Tables.{made_in};
ghost use Rattle.std.specs.Prelude.{IsSome};

use crate::desk::Desk;
use crate::desk::pyxes::MOST_MADE;
use crate::kept::Holding;
use crate::uses::{MutexId, Reply};
use jdata::{Fault, NoMemory, Path};

impl Desk {
    pub(super) fn make_mutex(&mut self, who: Path) -> Result<Reply, NoMemory>
        ensures reply { IfOk result (λ replied. replied ≡ make_mutex_reply (length (made_in self.old.mutexes who)) who) }
        ensures state { OnOk result (self.new ≡ after_make_mutex self.old who) }
        ensures unchanged { OnErr result (self.new ≡ self.old) }
    {
        let made = self.mutexes.count(who.parts()) as u64;
        if made >= MOST_MADE {
            return Ok(Reply::Refused(Fault::Limit));
        }
        self.mutexes.push(who.parts(), Holding::Free)?;
        Ok(Reply::Mutex(MutexId {
            path: who,
            number: made as u32 + 1,
        }))
    }

    fn hold(&mut self, mutex: &MutexId, holding: Holding)
        requires { IsSome (mutex_at self.old mutex.now.path mutex.now.number) }
        ensures { self.new ≡ with_holding self.old mutex.now.path mutex.now.number holding }
    {
        let _before = self
            .mutexes
            .replace(mutex.path.parts(), mutex.number, holding);
    }

    // No reply where another holds it.
    pub(super) fn lock(&mut self, who: Path, mutex: &MutexId) -> Option<Reply>
        ensures reply { result ≡ lock_reply who (mutex_at self.old mutex.now.path mutex.now.number) }
        ensures state { self.new ≡ after_lock self.old who mutex.now.path mutex.now.number (mutex_at self.old mutex.now.path mutex.now.number) }
    {
        match self.mutexes.get(mutex.path.parts(), mutex.number) {
            Some(Holding::Free) => {
                self.hold(mutex, Holding::Held(who));
                Some(Reply::Done)
            }
            Some(Holding::Held(holder)) => {
                if who.parts() == holder.parts() {
                    Some(Reply::Refused(Fault::Concurrency))
                } else {
                    None
                }
            }
            None => Some(Reply::Refused(Fault::Domain)),
        }
    }

    pub(super) fn unlock(&mut self, who: &Path, mutex: &MutexId) -> Reply
        ensures reply { result ≡ unlock_reply who.now (mutex_at self.old mutex.now.path mutex.now.number) }
        ensures state { self.new ≡ after_unlock self.old who.now mutex.now.path mutex.now.number (mutex_at self.old mutex.now.path mutex.now.number) }
    {
        match self.mutexes.get(mutex.path.parts(), mutex.number) {
            Some(Holding::Free) => Reply::Refused(Fault::Concurrency),
            Some(Holding::Held(holder)) => {
                if who.parts() != holder.parts() {
                    return Reply::Refused(Fault::Concurrency);
                }
                self.hold(mutex, Holding::Free);
                Reply::Done
            }
            None => Reply::Refused(Fault::Domain),
        }
    }
}
