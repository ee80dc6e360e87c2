//! What a body keeps between its steps: its result, and the values of its tests.
#![tactic(auto)]

mod items;
mod kept;
mod taken;
mod tested;

pub use kept::Kept;

#[cfg(test)]
mod tests;
