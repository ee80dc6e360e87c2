//! The verbs that make, shape, cut and join arrays, worked by hand from their definitions.
#![tactic(auto)]

#[cfg(test)]
mod structure;
