//! Arrays as the evaluator hands them on: an integer that stands alone takes no memory.
#![tactic(auto)]

mod array;
mod room;
mod whole;

pub use array::Array;
pub use room::{Room, Spot};
pub use whole::integers;

#[cfg(test)]
mod tests;
