//! A script in memory, some of whose reads can be made to fail.
ghost use Rattle.std.specs.Prelude.{◌≡◌, ◌≤◌, ◌<◌, ◌+◌, ◌↔◌, length, take, min, Some, None, IsTrue};
ghost use Rattle.jio.specs.Counts.{counted};
ghost use Rattle.jio.specs.Memory.{NextFails};

use crate::counts::first_at;
use crate::source::{Got, Source};
use std::marker::Model;

/// A script in memory. The calls whose numbers are in its list fail, and give nothing.
#[derive(Drop)]
pub struct MemSource {
    bytes: Vec<u8>,
    at: usize,
    most: usize,
    failing: Vec<u64>,
    calls: u64,
    faults: u64,
    // how many bytes had been given at the first fault, and at the first end
    broken: Option<u64>,
    ended: Option<u64>,
}

impl Model for MemSource {
    ghost use Rattle.std.specs.Prelude.{◌≤◌, length, drop, Some};
    ghost use Rattle.jio.specs.Memory.{MemoryReads};

    ghost Value = { MemoryReads };

    ghost view = { λ s. record {
      reads = record { left = Some (drop s.at s.bytes.items); given = s.at; faults = s.faults; broken = s.broken; ended = s.ended };
      most = s.most;
      failing = s.failing.items;
      calls = s.calls;
    } };

    ghost invariant = { λ s. (s.at ≤ length s.bytes.items) × (1 ≤ s.most) × (s.faults ≤ s.calls) };
}

impl MemSource {
    /// A source of these bytes, at most `most` of them a call. The calls whose numbers, from 1, are in `failing` fail.
    pub fn new(bytes: Vec<u8>, most: usize, failing: Vec<u64>) -> MemSource
        requires { 1 ≤ most }
        ensures fresh { result.reads ≡ record { left = Some bytes.items; given = 0; faults = 0; broken = None; ended = None } }
        ensures kept { (result.most ≡ most) × (result.failing ≡ failing.items) × (result.calls ≡ 0) }
    {
        MemSource {
            bytes,
            at: 0,
            most,
            failing,
            calls: 0,
            faults: 0,
            broken: None,
            ended: None,
        }
    }

    /// The bytes that are left.
    pub fn left(&self) -> &[u8]
        ensures { self.now.reads.left ≡ Some result.now }
    {
        &self.bytes[self.at..]
    }

    // Counts a call, and says whether it fails.
    fn begin_call(&mut self) -> bool
        ensures fails { IsTrue result ↔ NextFails self.old.calls self.old.failing }
        ensures same { self.new ≡ record self.old { calls = counted self.old.calls } }
        ensures room { IsTrue result → self.new.reads.faults < self.new.calls }
    {
        if self.calls == u64::MAX {
            return false;
        }
        self.calls += 1;
        self.failing.contains(&self.calls)
    }
}

// Copies as many bytes as there are, fit and may be given, and says how many.
fn copy_front(from: &[u8], most: usize, into: &mut [u8]) -> usize
    ensures count { result ≡ min (min (length from.now) (length into.old)) most }
    ensures front { take result into.new ≡ take result from.now }
{
    let count = from.len().min(into.len()).min(most);
    into[..count].copy_from_slice(&from[..count]);
    count
}

impl Source for MemSource {
    ghost use Rattle.std.specs.Prelude.{◌≡◌, ◌≤◌, ◌<◌, ◌↔◌, length, take};
    ghost use Rattle.jio.specs.Counts.{counted};
    ghost use Rattle.jio.specs.Source.{GaveBytes, MetTheEnd, FailedToRead, OnBytes, OnEnd, OnFailed};
    ghost use Rattle.jio.specs.Memory.{NextFails};
    ghost use Rattle.jio.specs.declared.source.Got.TheVariants as got;

    ghost reads = { λ s. s.reads };

    fn read(&mut self, into: &mut [u8]) -> Got
        requires { 0 < length into.old }
        ensures bytes { OnBytes result (λ n. (1 ≤ n) × (n ≤ length into.new) × GaveBytes self.old.reads (take n into.new) self.new.reads) }
        ensures end { OnEnd result (MetTheEnd self.old.reads self.new.reads) }
        ensures failed { OnFailed result (FailedToRead self.old.reads self.new.reads) }
        ensures count { self.old.reads.faults ≤ self.new.reads.faults }

        // Just the calls of the list fail, and no call gives more than it may.
        ensures fails { (result ≡ got.Failed) ↔ NextFails self.old.calls self.old.failing }
        ensures most { OnBytes result (λ n. n ≤ self.old.most) }
        ensures list { (self.new.failing ≡ self.old.failing) × (self.new.most ≡ self.old.most) }
        ensures calls { self.new.calls ≡ counted self.old.calls }
    {
        if self.begin_call() {
            self.faults += 1;
            self.broken = first_at(self.broken, self.at as u64);
            return Got::Failed;
        }
        let count = copy_front(self.left(), self.most, into);
        if count == 0 {
            self.ended = first_at(self.ended, self.at as u64);
            return Got::End;
        }
        self.at += count;
        Got::Bytes(count)
    }
}
