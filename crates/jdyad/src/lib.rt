//! The scalar dyads on arrays.
#![tactic(auto)]

mod agreement;
mod buffers;
mod comparison;
mod kinds;
mod numbers;
mod place;
mod scalar;

pub use scalar::scalar2;

#[cfg(test)]
mod tests;
