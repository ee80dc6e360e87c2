//! Holds that are brought together, so that the law of counts can be read off.
ghost use Rattle.std.specs.Prelude.{◌≡◌};

use crate::seats::Seats;

/// Holds of one block. Its only bytes are the block's number. It cannot be dropped: `part` and `only` give the holds back.
pub struct Gathered<T> {
    pub(crate) block: u32,
    pub(crate) seats: Seats<Option<T>>,
}
