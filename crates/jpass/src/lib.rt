//! Uses of one desk by many threads, each use in a turn of its own.
#![tactic(auto)]

#[cfg(test)]
mod callers;
mod helped;
mod pass;
mod shared;
#[cfg(test)]
mod tests;
mod turns;

pub use pass::Pass;
pub use shared::SharedDesk;
