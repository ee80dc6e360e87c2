//! Amended arrays, worked by hand from their definition.
#![tactic(auto)]

#[cfg(test)]
mod amends;
