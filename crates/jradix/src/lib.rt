//! Numbers by their digits in given bases, and the digits of numbers.
#![tactic(auto)]

mod bits;
mod narrow;
mod taking;
mod value;

pub use bits::binary;
pub use taking::digits;
pub use value::{base, base_two};
