//! Numbers as text: how a number is spelled in a sentence, read and written.
#![tactic(auto)]

mod laws;
mod reader;
mod reading;
#[cfg(test)]
mod tests;
mod writer;

pub use laws::{each_run_has_one_reading, read_is_spelled, written_is_read, written_is_shortest};
pub use reader::read;
pub use reading::Read;
pub use writer::write;
