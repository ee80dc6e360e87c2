//! A session on one thread.
ghost use Rattle.std.specs.Prelude.{◌≡◌, [], IfOk, IfErr, IfSome, IsNone, OnOk, OnErr};
ghost use Rattle.juses.specs.Closing.{ClosedWith};
ghost use Rattle.juses.specs.Desk.{first};
ghost use Rattle.juses.specs.Entries.{entry, pyx_of, IsLonger, started_by};
ghost use Rattle.juses.specs.Keeping.{first_kept};
ghost use Rattle.juses.specs.Leading.{Leads, leads_nowhere, leads_on};
ghost use Rattle.juses.specs.Standing.{Stands, OnlyMoves, HaltsRightly, Refuses, Delays, HandsOut, emptied, closed_by, refused_by};
ghost use Rattle.juses.specs.Told.{IsDue, nothing, replied, asked_for, refusing, handed_out, closed_with};

use crate::desk::Desk;
use crate::uses::{Cause, Halt, Reply, Use, Uses, Why, Work};
use jdata::{Bytes, NoMemory, Path, PyxId};
use std::alloc::Global;
use std::marker::Model;

/// A session on one thread: one desk, which contracts see. Each task is run at its start.
#[derive(Debug, Drop)]
pub struct Solo {
    desk: Desk,
}

impl Model for Solo {
    ghost use Rattle.juses.specs.Standing.{Kept};

    ghost Value = { Kept };

    ghost use Rattle.jterm.specs.contracts.term.Term as term;
    ghost use Rattle.juses.specs.contracts.kept.Phase as phase;
    ghost use Rattle.juses.specs.contracts.kept.Setting as setting;
    ghost use Rattle.std.specs.Coded.{codes};

    ghost coded = { Prim.hlevel (codes, term.the_row.coded, phase.the_row.coded, setting.the_row.coded) };

    ghost view = { λ a. a.desk };
}

impl Solo {
    /// A new session with this number of workers in its desk.
    pub fn new(alloc: Global, workers: u16) -> Result<Solo, NoMemory>
        ensures empty { IfOk result (λ solo. solo ≡ first_kept workers) }
        ensures stands { IfOk result (λ solo. Stands solo (first workers)) }
    {
        let desk = Desk::new(alloc, workers)?;
        Ok(Solo { desk })
    }

    pub fn desk(&self) -> &Desk
        ensures { result.now ≡ self.now }
    {
        &self.desk
    }

    // There is nothing to wait for once each started task has ended.
    fn ended(&self) -> Result<Option<(Path, Work)>, Halt>
        ensures ok { IfOk result (λ given. Leads self.now (asked_for 0 Why.Ending given) self.now) }
        ensures none { IfOk result (λ given. IsNone given) }
        ensures halts { IfErr result (λ halt. Delays self.now Why.Ending halt) }
    {
        if self.desk.has_unended() {
            return Err(Halt::Wait);
        }
        Ok(None)
    }

    // The task of this pyx, where it waits: it runs from now on.
    fn begun(&mut self, pyx: &PyxId) -> Option<(Path, Work)>
        ensures leads { Leads self.old (asked_for 0 (Why.Started pyx.now) result) self.new }
        ensures task { IfSome result (λ g. pyx.now ≡ pyx_of g.0) }
    {
        if pyx.number != 0 {
            return None;
        }
        let Some(work) = self.desk.begin_task(&pyx.path, 0) else {
            return None;
        };
        Some((pyx.path, work))
    }
}

impl Uses for Solo {
    ghost leads = { Leads };

    ghost drained = { λ d. d.waiting ≡ [] };

    ghost refuses = { Refuses };

    ghost delays = { Delays };

    ghost heads = { λ _. Unit {0} };

    ghost thread = { λ _. 0 };

    /// Answers one use, on thread 0. A use without a reply closes the session.
    fn call(&mut self, who: Path, asked: Use) -> Result<Reply, Halt>
        ensures ok { IfOk result (λ reply. Leads self.old (replied (entry who 0 asked reply)) self.new) }
        ensures child { IfOk result (λ reply. IsLonger who (started_by asked reply)) }
        ensures err { IfErr result (λ why. Leads self.old (refusing why) self.new) }
        ensures only { OnOk result (OnlyMoves self.old self.new) }
        ensures halts { IfErr result (λ why. Refuses self.new who asked why) }
        ensures rightly { HaltsRightly 0 self.old who asked result }
        ensures unchanged { IfErr result (λ why. self.new ≡ refused_by self.old why) }
    {
        match self.desk.answer(who, 0, asked) {
            Ok(reply) => Ok(reply),
            Err(Halt::Wait) => {
                self.desk.close(Cause::Stuck);
                Err(Halt::Wait)
            }
            Err(Halt::NoMemory) => Err(Halt::NoMemory),
            Err(Halt::Closed(cause)) => Err(Halt::Closed(cause)),
        }
    }

    /// The task that was just started, to be run at once. No other task waits for a thread.
    fn due(&mut self, _who: Path, why: Why) -> Result<Option<(Path, Work)>, Halt>
        ensures ok { IfOk result (λ given. Leads self.old (asked_for 0 why given) self.new) }
        ensures task { IfOk result (λ given. IfSome given (λ g. IsDue why g.0)) }
        ensures err { IfErr result (λ halt. Leads self.old nothing self.new) }
        ensures halts { IfErr result (λ halt. Delays self.new why halt) }
        ensures unchanged { OnErr result (self.new ≡ self.old) }
    {
        if let Some(cause) = self.desk.closed() {
            return Err(Halt::Closed(cause));
        }
        match why {
            Why::Started(pyx) => Ok(self.begun(&pyx)),
            Why::Opening(_) => Ok(None),
            Why::Working(_) => Ok(None),
            Why::Ending => self.ended(),
        }
    }

    /// The printed bytes that weren't taken yet, in order.
    fn take_prints(&mut self) -> Bytes
        ensures leads { Leads self.old (handed_out result) self.new }
        ensures all { self.new.waiting ≡ [] }
        ensures bytes { result ≡ self.old.waiting }
        ensures rest { self.new ≡ emptied self.old }
        ensures hands_out { HandsOut self.old result self.new }
    {
        self.desk.take_prints()
    }

    /// Closes the session. The first cause counts.
    fn close(&mut self, cause: Cause)
        ensures leads { Leads self.old (closed_with cause) self.new }
        ensures closed { ClosedWith Refuses self.old self.new cause }
        ensures first { self.new ≡ closed_by self.old cause }
    {
        self.desk.close(cause);
    }

    ghost stays = { leads_nowhere };

    ghost joins = { leads_on };

    ghost same_thread = { λ s t p l. Prim.search };

    ghost stays_head = { λ s t p l h. h };
}
