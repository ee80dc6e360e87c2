//! Scalar verbs between the numbers of a list.
#![tactic(auto)]

mod folding;
mod prefixing;
mod suffixing;
#[cfg(test)]
mod tests;

pub use folding::inserted;
pub use prefixing::prefixes;
pub use suffixing::suffixes;
