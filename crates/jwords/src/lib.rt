//! Lines and words: how a script is cut into lines, and a line into words.
#![tactic(auto)]

mod alphabet;
mod cutting;
mod finding;
mod laws;
mod lines;
mod listed;
mod naming;
mod quoting;
mod running;
mod span_cutting;
mod span_finding;
#[cfg(test)]
mod tests;
mod trim;
mod word;

pub use alphabet::is_blank;
pub use cutting::words;
pub use laws::{each_line_has_one_outcome, each_text_has_one_outcome, each_verb_is_a_word};
pub use lines::{Line, next_line};
pub use naming::{is_name, is_plain};
pub use span_cutting::spans;
pub use trim::trimmed;
pub use word::{SpanFault, Word, WordFault, WordKind};
