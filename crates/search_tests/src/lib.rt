//! Searching and sorting, worked by hand from their definitions.
#![tactic(auto)]

#[cfg(test)]
mod searching;
#[cfg(test)]
mod sorting;
