//! Callers of passes: threads that write names into one desk.
#![tactic(auto)]

mod bindings;
mod desks;
#[cfg(test)]
mod tests;
mod writing;

pub use bindings::{Binding, write_all};
pub use desks::new_turn;
pub use writing::both_write;
