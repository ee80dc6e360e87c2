//! The display of arrays as rows of characters.
#![tactic(auto)]

mod axes;
mod blocks;
mod boxes;
mod formatting;
mod planes;
mod showing;
#[cfg(test)]
mod tests;
mod widths;
mod writing;

pub use formatting::format;
pub use showing::display;
