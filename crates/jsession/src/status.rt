//! How a session ends.

/// How a session ended.
#[derive(Clone, Copy, Debug, PartialEq, Eq)]
pub enum Status {
    /// The script was read to its end, and run.
    Done,
    /// There are words that the program doesn't take; nothing was read.
    Usage,
    /// The script couldn't be read to its end.
    ReadFault,
    /// What was printed couldn't be written.
    WriteFault,
    /// There was no memory.
    NoMemory,
    /// The script has more than 16,777,216 bytes.
    TooLong,
}
