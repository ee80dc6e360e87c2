//! Definitions from their text and bodies prepared, worked by hand from their definitions.
#![tactic(auto)]

#[cfg(test)]
mod definitions;
#[cfg(test)]
mod preparing;
