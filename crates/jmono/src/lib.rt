//! The scalar monads on arrays.
#![tactic(auto)]

mod monads;
#[cfg(test)]
mod tests;

pub use monads::{each_integer, scalar1};
