//! The plain data of the interpreter: arrays, faults and names, with no threads and no outside.
#![tactic(auto)]

mod fault;
mod gathering;
mod item;
mod leaf;
mod measure;
mod name;
mod noun;
mod path;
mod primitive;
mod sequence;
mod spelling;
mod tree;

pub use fault::{Fault, NoMemory, Trouble};
pub use gathering::{copy_range, gather};
pub use item::{Item, filled, push_fills};
pub use leaf::Leaf;
pub use measure::{MAX_RANK, product_of, product_within};
pub use name::Name;
pub use noun::{Atom, Kind, Noun};
pub use path::{Path, PyxId};
pub use primitive::Primitive;
pub use sequence::{Axes, Bytes, IntList, NameList, Sequence};
pub use spelling::{spellings_differ, words_tell_verbs};
pub use tree::{BadTree, Cell, CellList, Leaves, Tree};

#[cfg(test)]
mod spelling_tests;
#[cfg(test)]
mod tests;
