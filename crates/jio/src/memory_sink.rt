//! Prints kept in memory, some of whose writes can be made to fail.
ghost use Rattle.std.specs.Prelude.{◌≡◌, ◌≤◌, ◌<◌, ◌↔◌, [], true, Some, IsTrue};
ghost use Rattle.jio.specs.Counts.{counted};
ghost use Rattle.jio.specs.Memory.{NextFails};

use crate::sink::{Sent, Sink};
use std::alloc::Global;
use std::marker::Model;

/// Prints kept in memory. The calls whose numbers are in its list fail, and take nothing.
#[derive(Drop)]
pub struct MemSink {
    taken: Vec<u8>,
    failing: Vec<u64>,
    calls: u64,
    faults: u64,
    whole: bool,
}

impl Model for MemSink {
    ghost use Rattle.std.specs.Prelude.{◌≤◌, Some};
    ghost use Rattle.jio.specs.Memory.{MemoryWrites};

    ghost Value = { MemoryWrites };

    ghost view = { λ s. record { writes = record { took = Some s.taken.items; faults = s.faults; whole = s.whole; calls = s.calls }; failing = s.failing.items } };

    ghost invariant = { λ s. s.faults ≤ s.calls };
}

impl MemSink {
    /// A sink that took nothing yet. The calls whose numbers, from 1, are in `failing` fail.
    pub fn new(alloc: Global, failing: Vec<u64>) -> MemSink
        ensures fresh { result.writes ≡ record { took = Some []; faults = 0; whole = true; calls = 0 } }
        ensures failing { result.failing ≡ failing.items }
    {
        MemSink {
            taken: Vec::new(alloc),
            failing,
            calls: 0,
            faults: 0,
            whole: true,
        }
    }

    /// The bytes that it took.
    pub fn taken(&self) -> &[u8]
        ensures { self.now.writes.took ≡ Some result.now }
    {
        &self.taken
    }

    // Counts a call, and says whether it fails.
    fn begin_call(&mut self) -> bool
        ensures fails { IsTrue result ↔ NextFails self.old.writes.calls self.old.failing }
        ensures same { self.new ≡ record self.old { writes = record self.old.writes { calls = counted self.old.writes.calls } } }
        ensures room { IsTrue result → self.new.writes.faults < self.new.writes.calls }
    {
        if self.calls == u64::MAX {
            return false;
        }
        self.calls += 1;
        self.failing.contains(&self.calls)
    }
}

impl Sink for MemSink {
    ghost use Rattle.std.specs.Prelude.{◌≡◌, ◌≤◌, ◌↔◌};
    ghost use Rattle.jio.specs.Counts.{counted};
    ghost use Rattle.jio.specs.Memory.{NextFails};
    ghost use Rattle.jio.specs.Sink.{TookAll, TookNothing, FailedToWrite, OnAll, OnNoMemory, OnFailed};
    ghost use Rattle.jio.specs.declared.sink.Sent.TheVariants as sent;

    ghost writes = { λ s. s.writes };

    fn write(&mut self, piece: &[u8]) -> Sent
        ensures all { OnAll result (TookAll self.old.writes piece.now self.new.writes) }
        ensures no_memory { OnNoMemory result (TookNothing self.old.writes self.new.writes) }
        ensures failed { OnFailed result (FailedToWrite self.old.writes piece.now self.new.writes) }
        ensures count { self.old.writes.faults ≤ self.new.writes.faults }
        ensures calls { self.new.writes.calls ≡ counted self.old.writes.calls }

        // Just the calls of the list fail, and a failing call takes nothing.
        ensures fails { (result ≡ sent.Failed) ↔ NextFails self.old.writes.calls self.old.failing }
        ensures nothing { result ≡ sent.Failed → self.new.writes.took ≡ self.old.writes.took }
        ensures list { self.new.failing ≡ self.old.failing }
    {
        if self.begin_call() {
            self.faults += 1;
            self.whole = false;
            return Sent::Failed;
        }
        match self.taken.extend_from_slice(piece) {
            Ok(()) => Sent::All,
            Err(_) => {
                self.whole = false;
                Sent::NoMemory
            }
        }
    }
}
