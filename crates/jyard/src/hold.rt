//! The holds of a yard's blocks, and what refuses a call of theirs.
ghost use Rattle.std.specs.Prelude.{◌≡◌};

use crate::table::Seat;

/// The largest word that a block can have.
pub const MOST: u64 = 4_294_967_295;

/// One unit of one block. Its only bytes are the block's number. It cannot be dropped: it ends by `leave`.
pub struct Hold<T> {
    pub(crate) block: u32,
    pub(crate) seat: Seat<Option<T>>,
}

/// Other holds have the block too: `count` have it.
#[derive(Clone, Copy, PartialEq, Eq, Debug, Drop)]
pub struct Held {
    pub count: u64,
}

/// Why a block was not shared.
#[derive(Clone, Copy, PartialEq, Eq, Debug, Drop)]
pub enum NoShare {
    /// The block has as many holds as there can be.
    Many { count: u64 },
    /// Between the look and the exchange the word changed.
    Moved { expected: u64, found: u64 },
}

/// Why a kept hold has no second one.
#[derive(Clone, Copy, PartialEq, Eq, Debug, Drop)]
pub enum NotShared {
    /// The yard has no room for another owner.
    NoMemory,
    /// The block was not shared.
    Refused(NoShare),
}

impl<T> Hold<T> {
    /// The block's number, below the number of the yard's blocks.
    pub fn block(&self) -> u32
        ensures { result ≡ self.now.block }
    {
        self.block
    }
}
