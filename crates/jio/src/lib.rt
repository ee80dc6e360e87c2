//! The outside of a session: where a script comes from, and where its prints go.
//!
//! A session reads by [`Source`] and writes by [`Sink`]. Each comes in two kinds: in memory, whose bytes contracts
//! know and whose calls can be made to fail, and over std's readers and writers, of whose bytes is told what those tell.
#![tactic(auto)]

mod counts;
mod memory_sink;
mod memory_source;
mod sink;
mod source;
mod std_sink;
mod std_source;

pub use memory_sink::MemSink;
pub use memory_source::MemSource;
pub use sink::{Sent, Sink};
pub use source::{Got, Source};
pub use std_sink::StdSink;
pub use std_source::StdSource;

#[cfg(test)]
mod tests;
