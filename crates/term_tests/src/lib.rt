//! Terms and the parsing table, worked by hand from their definitions.
#![tactic(auto)]

#[cfg(test)]
mod parsing;
#[cfg(test)]
mod terms;
