//! Where prints go.
ghost use Rattle.std.specs.Prelude.{◌≡◌, ◌≤◌};
ghost use Rattle.jio.specs.Counts.{counted};
ghost use Rattle.jio.specs.Sink.{Writes, TookAll, TookNothing, FailedToWrite, OnAll, OnNoMemory, OnFailed};

/// What became of one write.
#[derive(Clone, Copy, Debug, PartialEq, Eq)]
pub enum Sent {
    /// The whole piece was taken.
    All,
    /// There was no memory for it, and nothing of it was taken.
    NoMemory,
    /// The outside failed after a beginning of the piece, perhaps an empty one.
    Failed,
}

/// What a session prints, written piece by piece.
pub trait Sink {
    /// What was taken where the sink tells it, how many writes there were, and whether each was answered
    /// [`Sent::All`].
    ghost writes: { Self → Writes };

    /// Writes a piece. A fault is answered only where the count of faults rose, and nothing else raises it.
    fn write(&mut self, piece: &[u8]) -> Sent
        ensures all { OnAll result (TookAll (writes self.old) piece.now (writes self.new)) }
        ensures no_memory { OnNoMemory result (TookNothing (writes self.old) (writes self.new)) }
        ensures failed { OnFailed result (FailedToWrite (writes self.old) piece.now (writes self.new)) }
        ensures count { (writes self.old).faults ≤ (writes self.new).faults }
        ensures calls { (writes self.new).calls ≡ counted (writes self.old).calls };
}
