//! The parsing table: which row acts on the parts of a sentence that were read.
#![tactic(auto)]

mod class;
mod table;

pub use class::Class;
pub use table::{Act, Group, awaits_target, step};
