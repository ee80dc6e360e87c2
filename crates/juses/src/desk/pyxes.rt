//! Pyxes: those that are set by hand are made and set, and all are opened.
ghost use Rattle.std.specs.Prelude.{◌≡◌, IfOk, OnOk, OnErr, length};
ghost use Rattle.juses.specs.Desk.{open_reply, task_reply, pyx_reply, opened, make_pyx_reply, set_reply};
ghost use Rattle.juses.specs.Keeping.{after_make_pyx, after_set, pyx_at};
ghost use Rattle.juses.specs.Standing.{phase_in};
ghost use Rattle.juses.specs.Tables.{made_in};

use crate::desk::Desk;
use crate::kept::{Phase, Setting};
use crate::uses::{Ended, Reply};
use jdata::{Fault, NoMemory, Path, PyxId};
use std::alloc::Global;

/// How many pyxes, and how many mutexes, an activity makes at most.
pub(super) const MOST_MADE: u64 = 4_294_967_295;

fn opened(alloc: Global, outcome: &Ended) -> Result<Reply, NoMemory>
    ensures { IfOk result (λ replied. replied ≡ opened outcome.now) }
{
    match outcome {
        Ended::Value(value) => Ok(Reply::Value(value.copy(alloc)?)),
        Ended::Raised(fault) => Ok(Reply::Refused(*fault)),
    }
}

impl Desk {
    fn open_task(&self, task: &Path) -> Result<Option<Reply>, NoMemory>
        ensures { IfOk result (λ replied. replied ≡ task_reply (phase_in self.now.tasks task.now)) }
    {
        match self.phase(task) {
            Some(Phase::Over(outcome)) => Ok(Some(opened(self.alloc, outcome)?)),
            _ => Ok(None),
        }
    }

    fn open_set(&self, pyx: &PyxId) -> Result<Option<Reply>, NoMemory>
        ensures { IfOk result (λ replied. replied ≡ pyx_reply (pyx_at self.now pyx.now.path pyx.now.number)) }
    {
        match self.pyxes.get(pyx.path.parts(), pyx.number) {
            Some(Setting::Set(outcome)) => Ok(Some(opened(self.alloc, outcome)?)),
            _ => Ok(None),
        }
    }

    // What the pyx holds; none while it is unset.
    pub(super) fn open(&self, pyx: &PyxId) -> Result<Option<Reply>, NoMemory>
        ensures { IfOk result (λ replied. replied ≡ open_reply pyx.now.number (phase_in self.now.tasks pyx.now.path) (pyx_at self.now pyx.now.path pyx.now.number)) }
    {
        match pyx.number {
            0 => self.open_task(&pyx.path),
            _ => self.open_set(pyx),
        }
    }

    pub(super) fn make_pyx(&mut self, who: Path) -> Result<Reply, NoMemory>
        ensures reply { IfOk result (λ replied. replied ≡ make_pyx_reply (length (made_in self.old.pyxes who)) who) }
        ensures state { OnOk result (self.new ≡ after_make_pyx self.old who) }
        ensures unchanged { OnErr result (self.new ≡ self.old) }
    {
        let made = self.pyxes.count(who.parts()) as u64;
        if made >= MOST_MADE {
            return Ok(Reply::Refused(Fault::Limit));
        }
        self.pyxes.push(who.parts(), Setting::Unset)?;
        Ok(Reply::Pyx(PyxId {
            path: who,
            number: made as u32 + 1,
        }))
    }

    pub(super) fn set_pyx(&mut self, pyx: &PyxId, outcome: Ended) -> Reply
        ensures reply { result ≡ set_reply (pyx_at self.old pyx.now.path pyx.now.number) }
        ensures state { self.new ≡ after_set self.old pyx.now.path pyx.now.number outcome (pyx_at self.old pyx.now.path pyx.now.number) }
    {
        match self.pyxes.get(pyx.path.parts(), pyx.number) {
            Some(Setting::Unset) => {
                let _unset = self
                    .pyxes
                    .replace(pyx.path.parts(), pyx.number, Setting::Set(outcome));
                Reply::Done
            }
            Some(Setting::Set(_)) => Reply::Refused(Fault::Concurrency),
            None => Reply::Refused(Fault::Domain),
        }
    }
}
