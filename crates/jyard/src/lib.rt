//! Blocks with counts: a yard of them, which several threads hold, read at the same time, and write only where one hold is the last.
#![tactic(auto)]

mod gathered;
mod gathered_calls;
mod ground;
mod hold;
mod hold_calls;
mod kept;
mod kept_calls;
mod lends;
mod rows;
mod seats;
mod shelf;
mod strip;
mod table;
#[cfg(test)]
mod tests;
mod view;
mod yard;
mod yard_calls;

pub use gathered::Gathered;
pub use hold::{Held, Hold, MOST, NoShare, NotShared};
pub use kept::Kept;
pub use yard::{Yard, YardPass};
