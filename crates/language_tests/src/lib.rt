//! Sentences, worked by hand from their definitions.
#![tactic(auto)]

#[cfg(test)]
mod sentences;
