//! A script read from one of std's readers.
ghost use Rattle.std.specs.Prelude.{◌≡◌, ◌≤◌, None};
ghost use Rattle.std.specs.Io.KnownBytes.{Keeps};
ghost use Rattle.jio.specs.Counts.{Rises};
ghost use Rattle.jio.specs.Source as source;
ghost use Rattle.jio.specs.declared.source.Got.TheVariants.{Failed};

use crate::counts::{counted, first_at};
use crate::source::{Got, Source};
use std::io::Read;

/// Reads from a reader, and tells of its bytes what the reader tells. Each error is a fault.
#[derive(Drop)]
pub struct StdSource<R: Read> {
    from: R,
    given: u64,
    faults: u64,
    // how many bytes had been given at the first fault, and at the first end
    broken: Option<u64>,
    ended: Option<u64>,
}

impl<R: Read> StdSource<R> {
    pub fn new(from: R) -> StdSource<R>
        ensures reader { result.from ≡ from }
        ensures fresh { (result.given ≡ 0) × (result.faults ≡ 0) × (result.broken ≡ None) × (result.ended ≡ None) }
    {
        StdSource {
            from,
            given: 0,
            faults: 0,
            broken: None,
            ended: None,
        }
    }

    // The count stands still at its end.
    fn fail(&mut self) -> Got
        ensures failed { result ≡ Failed }
        ensures reader { self.new.from ≡ self.old.from }
        ensures given { self.new.given ≡ self.old.given }
        ensures rises { Rises self.old.faults self.new.faults }
        ensures least { self.old.faults ≤ self.new.faults }
        ensures broken { self.new.broken ≡ source.first_at self.old.broken self.old.given }
        ensures ended { self.new.ended ≡ self.old.ended }
    {
        self.faults = counted(self.faults);
        self.broken = first_at(self.broken, self.given);
        Got::Failed
    }
}

impl<R: Read> Source for StdSource<R> {
    ghost reads = { λ s. record { left = R.remaining s.from; given = s.given; faults = s.faults; broken = s.broken; ended = s.ended } };

    fn read(&mut self, into: &mut [u8]) -> Got {
        // A number that could pass its type is a fault, and nothing is read.
        if self.given > u64::MAX - into.len() as u64 {
            return self.fail();
        }
        match self.from.read(into) {
            Ok(0) => {
                self.ended = first_at(self.ended, self.given);
                Got::End
            }
            Ok(count) => {
                self.given += count as u64;
                Got::Bytes(count)
            }
            Err(_) => self.fail(),
        }
    }
}
