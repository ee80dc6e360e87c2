//! A ticket turn over one state, with one history of what was done to it. The history is not stored: it exists in proofs alone.
#![tactic(auto)]

mod board;
mod guard;
mod lends;
mod logged;
mod pass;
mod plays;
mod steps;
mod turn;

pub use guard::Guard;
pub use logged::Logged;
pub use pass::TurnPass;
pub use turn::Turn;
