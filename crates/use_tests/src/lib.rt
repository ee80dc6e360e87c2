//! Uses and the desk, worked by hand from their definitions.
#![tactic(auto)]

#[cfg(test)]
mod uses;
