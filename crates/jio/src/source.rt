//! Where a script comes from.
ghost use Rattle.std.specs.Prelude.{◌≤◌, ◌<◌, length, take};
ghost use Rattle.jio.specs.Source.{Reads, GaveBytes, MetTheEnd, FailedToRead, OnBytes, OnEnd, OnFailed};

/// What one read gave.
#[derive(Clone, Copy, Debug, PartialEq, Eq)]
pub enum Got {
    /// This many bytes, at least one, at the front of the buffer.
    Bytes(usize),
    /// Nothing is left.
    End,
    /// The outside failed, and gave nothing.
    Failed,
}

/// A script, read piece by piece.
pub trait Source {
    /// What is left where the source tells it, what was given, and which reads failed or met the end.
    ghost reads: { Self → Reads };

    /// Reads the next bytes into the front of a buffer that isn't empty. An end or a fault leaves what is left as it
    /// was. A fault is answered only where the count of faults rose, and nothing else raises it.
    fn read(&mut self, into: &mut [u8]) -> Got
        requires { 0 < length into.old }
        ensures bytes { OnBytes result (λ n. (1 ≤ n) × (n ≤ length into.new) × GaveBytes (reads self.old) (take n into.new) (reads self.new)) }
        ensures end { OnEnd result (MetTheEnd (reads self.old) (reads self.new)) }
        ensures failed { OnFailed result (FailedToRead (reads self.old) (reads self.new)) }
        ensures count { (reads self.old).faults ≤ (reads self.new).faults };
}
