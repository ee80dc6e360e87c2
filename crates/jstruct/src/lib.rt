//! The verbs that make, shape, cut and join arrays.
#![tactic(auto)]

mod arguments;
mod axes;
mod change;
mod ends;
mod joins;
mod laying;
mod made;
mod reversing;
mod shaping;
mod sides;
mod taking;
mod transposing;

pub use axes::transpose_by;
pub use ends::{head, tail};
pub use joins::{join, join_items, laminate};
pub use reversing::reverse;
pub use shaping::{itemize, ravel, ravel_items, reshape, shape_of};
pub use sides::{cap, cap_dyad, left, right, same};
pub use taking::{behead, curtail, drop, rotate, take};
pub use transposing::transpose;
