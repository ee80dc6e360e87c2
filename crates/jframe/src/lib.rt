//! Cells of arrays, and the assembly of results into one array.
#![tactic(auto)]

mod assembly;
mod common;
mod items;
mod joining;
mod kinds;
mod padding;
mod pairs;
mod parted;
mod parting;
mod ranks;
mod results;

pub use assembly::assemble;
pub use items::join_arrays;
pub use kinds::common_kind;
pub use pairs::{WholeDyad, at_ranks, repeats};
pub use parted::Cells;
pub use parting::{cells, fill_cell};
pub use ranks::{WholeMonad, at_rank};
pub use results::Results;
