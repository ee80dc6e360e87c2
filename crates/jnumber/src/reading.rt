//! What a run may mean.

/// What a run of letters, digits, underscores and points means where it stands for a number.
#[derive(Clone, Copy, Debug, PartialEq, Eq)]
pub enum Read {
    /// The run spells this number.
    Number(i64),
    /// The run is `_` alone, which stands for no limit.
    Wide,
    /// The run is no number, or one beyond 64 signed bits.
    Not,
}
