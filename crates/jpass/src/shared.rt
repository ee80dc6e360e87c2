//! A desk under a turn.
ghost use Rattle.std.specs.Prelude.{◌≡◌, [], IfOk, OnOk, OnErr};
ghost use Rattle.juses.specs.Keeping.{first_kept};
ghost use Rattle.jpass.specs.Stood.{StoodFor, IsAnswered, IsBegun, mark_of};

use jdata::{NoMemory, Path};
use jturn::Logged;
use juses::{Desk, Entry, Halt, Reply, Use, Why, Work};
use std::alloc::Global;

/// The desk that passes share. It stands for each history after which it is in this state and in
/// which each reply is the desk's.
#[derive(Drop)]
pub struct SharedDesk {
    pub desk: Desk,
}

impl Logged for SharedDesk {
    ghost use Rattle.std.specs.Prelude.{[], ◌∷◌};
    ghost use Rattle.jpass.specs.Stood.{StoodFor, mark_of};

    type Entry = Entry;

    ghost stands_for = { λ s log. StoodFor s.desk log };

    ghost mark = { λ s. mark_of s.desk };

    ghost constant = { λ s. s.desk.workers ∷ [] };
}

impl SharedDesk {
    /// The desk of a new session with this number of workers. Nothing was asked yet.
    pub fn new(alloc: Global, workers: u16) -> Result<SharedDesk, NoMemory>
        ensures empty { IfOk result (λ shared. shared.desk ≡ first_kept workers) }
        ensures stands { IfOk result (λ shared. StoodFor shared.desk []) }
    {
        let desk = Desk::new(alloc, workers)?;
        Ok(SharedDesk { desk })
    }
    // Asks the desk, by a copy of the use.
    pub(crate) fn answer(&mut self, who: &Path, thread: u16, asked: &Use) -> Result<Reply, Halt>
        ensures answer { IsAnswered self.old.desk who.now thread asked.now result self.new.desk }
        ensures mark { OnOk result (mark_of self.new.desk ≡ mark_of self.old.desk) }
        ensures unchanged { OnErr result (self.new ≡ self.old) }
    {
        match self.desk.copy_use(asked) {
            Ok(copy) => self.desk.answer(*who, thread, copy),
            Err(NoMemory) => Err(Halt::NoMemory),
        }
    }

    // Begins the task that is asked for. Where there is none, `Err` has why it isn't known, if it isn't.
    pub(crate) fn begin(&mut self, thread: u16, why: &Why) -> Result<(Path, Work), Option<Halt>>
        ensures answer { IsBegun self.old.desk thread why.now result self.new.desk }
        ensures mark { OnOk result (mark_of self.new.desk ≡ mark_of self.old.desk) }
        ensures unchanged { OnErr result (self.new ≡ self.old) }
    {
        match self.desk.begin(thread, *why) {
            Ok(Some(given)) => Ok(given),
            Ok(None) => Err(None),
            Err(halt) => Err(Some(halt)),
        }
    }
}
