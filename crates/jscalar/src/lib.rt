//! The scalar verbs on atoms: each gives the exact integer, or its fault.
#![tactic(auto)]

mod choices;
mod divisors;
pub mod dyads;
mod fitting;
mod laws;
mod loops;
pub mod monads;
mod powers;
mod quotients;
mod roots;
mod rows;
#[cfg(test)]
mod tests;
mod truths;

pub use dyads::two;
pub use laws::{divisor_is_greatest, residue_is_within, roots_undo_powers, ways_are_by_factorials};
pub use loops::{each, fill};
pub use monads::one;
pub use rows::{Dyad, Monad, OnRight, Turned};
