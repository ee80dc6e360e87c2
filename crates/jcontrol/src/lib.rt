//! Control words: what the body of a definition means, and which of its sentences is next.
#![tactic(auto)]

mod frame;
mod prepared;
mod rounds;

pub use frame::{Frame, Reply, Step};
pub use prepared::{Act, Prepared, after, refuses};
pub use rounds::{body_lasts, enough_rounds, lasts_less};

#[cfg(test)]
mod tests;
