//! Prints written to one of std's writers.
ghost use Rattle.std.specs.Prelude.{◌≡◌, true, IsTrue};
ghost use Rattle.std.specs.Io.KnownBytes.{Appends};
ghost use Rattle.jio.specs.Sink.{TookPart};

use crate::counts::counted;
use crate::sink::{Sent, Sink};
use std::io::Write;

/// Writes to a writer, and tells of its bytes what the writer tells. Each error is a fault, and so is a writer that
/// takes nothing of a piece that isn't empty.
#[derive(Drop)]
pub struct StdSink<W: Write> {
    to: W,
    faults: u64,
    whole: bool,
    calls: u64,
}

impl<W: Write> StdSink<W> {
    pub fn new(to: W) -> StdSink<W>
        ensures writer { result.to ≡ to }
        ensures fresh { (result.faults ≡ 0) × (result.whole ≡ true) × (result.calls ≡ 0) }
    {
        StdSink {
            to,
            faults: 0,
            whole: true,
            calls: 0,
        }
    }

    // Whether the writer took the whole piece.
    fn send(&mut self, piece: &[u8]) -> bool
        ensures all { IsTrue result → Appends (W.contents self.old.to) (W.contents self.new.to) piece.now }
        ensures part { TookPart (W.contents self.old.to) (W.contents self.new.to) piece.now }
        ensures faults { self.new.faults ≡ self.old.faults }
        ensures whole { self.new.whole ≡ self.old.whole }
        ensures calls { self.new.calls ≡ self.old.calls }
    {
        let mut rest = piece;
        while !rest.is_empty() {
            match self.to.write(rest) {
                Ok(0) => return false,
                Ok(count) => rest = &rest[count..],
                Err(_) => return false,
            }
        }
        self.to.flush().is_ok()
    }
}

impl<W: Write> Sink for StdSink<W> {
    ghost writes = { λ s. record { took = W.contents s.to; faults = s.faults; whole = s.whole; calls = s.calls } };

    fn write(&mut self, piece: &[u8]) -> Sent {
        self.calls = counted(self.calls);
        if self.send(piece) {
            return Sent::All;
        }
        self.faults = counted(self.faults);
        self.whole = false;
        Sent::Failed
    }
}
