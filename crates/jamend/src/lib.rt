//! Amend, `}`: an array with items or a cell replaced.
#![tactic(auto)]

mod amending;
mod checks;
mod naming;
mod replacing;

pub use amending::amend;
