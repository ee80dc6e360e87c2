//! Pieces of arrays: by equal items, and by the intervals between frets.
#![tactic(auto)]

mod counting;
mod cutting;
mod frets;
mod intervals;
mod key;
mod picking;
mod pieces;
mod run;

pub use counting::{further_axes, item_count};
pub use cutting::Cutting;
pub use intervals::{cut_alone, cut_by};
pub use key::classes;
pub use pieces::{Pieces, PlaceList};
pub use run::Run;
