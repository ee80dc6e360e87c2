//! The desk: the session's state, which answers one use at a time.
ghost use Rattle.std.specs.Prelude.{◌≡◌, ◌<◌, ◌^◌, ◌++◌, IfOk, OnOk, OnErr, Some, length};

use crate::by_maker::ByMaker;
use crate::kept::{Holding, Phase, Setting};
use crate::locales::Locales;
use crate::uses::{Cause, Halt, Reply, Use};
use jdata::{Bytes, Name, NoMemory, Path};
use std::alloc::Global;
use std::marker::Model;
use std::mem;

mod copies;
mod due;
mod mutexes;
mod pyxes;
mod tasks;
mod threads;

/// The session's state: names with their values in each locale; tasks, pyxes and mutexes by their
/// makers; the made threads; and what was printed.
///
/// The printed bytes, handed out or not, are fewer than 2^64.
#[derive(Debug, Drop)]
pub struct Desk {
    alloc: Global,
    locales: Locales,
    tasks: ByMaker<Phase>,
    pyxes: ByMaker<Setting>,
    mutexes: ByMaker<Holding>,
    // the started tasks, the first in front
    order: Vec<Path>,
    // the pools of the made threads
    threads: Vec<u8>,
    // printed and not handed out
    waiting: Vec<u8>,
    // how many printed bytes were handed out
    handed: u64,
    closed: Option<Cause>,
    workers: u16,
}

impl Model for Desk {
    ghost use Rattle.juses.specs.Standing.{Kept};

    ghost Value = { Kept };

    ghost use Rattle.jterm.specs.contracts.term.Term as term;
    ghost use Rattle.juses.specs.contracts.kept.Phase as phase;
    ghost use Rattle.juses.specs.contracts.kept.Setting as setting;
    ghost use Rattle.std.specs.Coded.{codes};

    ghost coded = { Prim.hlevel (codes, term.the_row.coded, phase.the_row.coded, setting.the_row.coded) };

    ghost use Rattle.juses.specs.Limits.{IsWithin};

    ghost view = { λ a. record { locales = a.locales; tasks = a.tasks; pyxes = a.pyxes; mutexes = a.mutexes; order = a.order.items; threads = a.threads.items; waiting = a.waiting.items; handed = a.handed; closed = a.closed; workers = a.workers } };

    ghost invariant = { λ a. IsWithin a.tasks a.order.items a.threads.items a.waiting.items a.handed a.workers };
}

impl Desk {
    ghost use Rattle.juses.specs.Desk.{State, first, named};
    ghost use Rattle.juses.specs.Entries.{IsLonger, started_by};
    ghost use Rattle.juses.specs.Keeping.{first_kept, sought, kept_reply, kept_after};
    ghost use Rattle.juses.specs.Standing.{Stands, Answers, OnlyMoves, HaltsRightly, HandsOut, emptied, closed_by};

    /// The state of a new session, with this number of workers: the locales `base` and `z`, and no
    /// names, no tasks, no pyxes, no mutexes and no made threads.
    pub fn new(alloc: Global, workers: u16) -> Result<Desk, NoMemory>
        ensures empty { IfOk result (λ desk. desk ≡ first_kept workers) }
        ensures stands { IfOk result (λ desk. Stands desk (first workers)) }
    {
        let locales = Locales::new(alloc)?;
        Ok(Desk {
            alloc,
            locales,
            tasks: ByMaker::new(alloc),
            pyxes: ByMaker::new(alloc),
            mutexes: ByMaker::new(alloc),
            order: Vec::new(alloc),
            threads: Vec::new(alloc),
            waiting: Vec::new(alloc),
            handed: 0,
            closed: None,
            workers,
        })
    }

    /// The reply to a use that the activity makes on the thread, and the state after it.
    ///
    /// A closed desk answers `Closed` with its cause, and an open one `Wait` exactly where the use
    /// has no reply now. After an `Err` the desk is as before.
    pub fn answer(&mut self, who: Path, thread: u16, asked: Use) -> Result<Reply, Halt>
        ensures ok { IfOk result (λ replied. Answers self.old who thread asked replied self.new) }
        ensures child { IfOk result (λ replied. IsLonger who (started_by asked replied)) }
        ensures only { OnOk result (OnlyMoves self.old self.new) }
        ensures halts { HaltsRightly thread self.old who asked result }
        ensures unchanged { OnErr result (self.new ≡ self.old) }
    {
        if let Some(cause) = self.closed {
            return Err(Halt::Closed(cause));
        }
        match self.answer_open(who, thread, asked) {
            Ok(Some(reply)) => Ok(reply),
            Ok(None) => Err(Halt::Wait),
            Err(NoMemory) => Err(Halt::NoMemory),
        }
    }

    // No reply: it has to wait.
    fn answer_open(&mut self, who: Path, thread: u16, asked: Use) -> Result<Option<Reply>, NoMemory>
        ensures reply { IfOk result (λ replied. replied ≡ kept_reply self.old who thread asked) }
        ensures state { OnOk result (self.new ≡ kept_after self.old who thread asked) }
        ensures unchanged { OnErr result (self.new ≡ self.old) }
    {
        match asked {
            Use::Read { from, name } => Ok(Some(self.read(&from, &name)?)),
            Use::Write { place, name, value } => {
                self.locales.put(place, name, value)?;
                Ok(Some(Reply::Done))
            }
            Use::Print { bytes } => {
                self.print(bytes)?;
                Ok(Some(Reply::Done))
            }
            Use::Start { pool, work } => Ok(Some(self.start(who, pool, work)?)),
            Use::Begin => Ok(self.begin_use(&who, thread)),
            Use::End { outcome } => Ok(self.end(&who, outcome)),
            Use::Open { pyx } => self.open(&pyx),
            Use::MakePyx => Ok(Some(self.make_pyx(who)?)),
            Use::SetPyx { pyx, outcome } => Ok(Some(self.set_pyx(&pyx, outcome))),
            Use::MakeMutex => Ok(Some(self.make_mutex(who)?)),
            Use::Lock { mutex } => Ok(self.lock(who, &mutex)),
            Use::Unlock { mutex } => Ok(Some(self.unlock(&who, &mutex))),
            Use::MakeThread { pool } => Ok(Some(self.make_thread(pool)?)),
            Use::Threads => Ok(Some(self.made_threads())),
            Use::PoolState { pool } => Ok(Some(self.pool_state(pool))),
            Use::Current => Ok(Some(Reply::Number(thread as i64))),
        }
    }

    fn read(&self, from: &Name, name: &Name) -> Result<Reply, NoMemory>
        ensures { IfOk result (λ replied. replied ≡ named (sought self.now.locales from.now name.now)) }
    {
        match self.locales.find(from, name) {
            Some(value) => Ok(Reply::Named(value.copy(self.alloc)?)),
            None => Ok(Reply::Nothing),
        }
    }

    // Refused where there would be 2^64 printed bytes.
    fn print(&mut self, bytes: Bytes) -> Result<(), NoMemory>
        ensures ok { OnOk result (self.new ≡ record self.old { waiting = self.old.waiting ++ bytes }) }
        ensures err { OnErr result (self.new ≡ self.old) }
    {
        let printed = self.handed + self.waiting.len() as u64;
        if bytes.items().len() as u64 > u64::MAX - printed {
            return Err(NoMemory);
        }
        self.waiting.extend_from_slice(bytes.items())?;
        Ok(())
    }

    /// How many tasks were started.
    pub fn tasks(&self) -> u64
        ensures { result ≡ length self.now.order }
    {
        self.order.len() as u64
    }

    /// The printed bytes that weren't handed out yet, in order. It takes no memory.
    pub fn take_prints(&mut self) -> Bytes
        ensures bytes { result ≡ self.old.waiting }
        ensures rest { self.new ≡ emptied self.old }
        ensures hands_out { HandsOut self.old result self.new }
        ensures few { self.new.handed < 2 ^ 64 }
    {
        self.handed += self.waiting.len() as u64;
        Bytes::of(mem::replace(&mut self.waiting, Vec::new(self.alloc)))
    }

    /// Closes the desk, so that no later use is answered. The first cause counts. It takes no
    /// memory.
    pub fn close(&mut self, cause: Cause)
        ensures closed { self.new ≡ closed_by self.old cause }
        ensures stands { (s : State) → Stands self.old s → Stands self.new s }
    {
        if self.closed.is_none() {
            self.closed = Some(cause);
        }
    }

    /// The cause with which the desk was closed; none where it wasn't.
    pub fn closed(&self) -> Option<Cause>
        ensures { result ≡ self.now.closed }
    {
        self.closed
    }
}
