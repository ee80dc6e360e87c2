//! The verbs of boxes.
#![tactic(auto)]

mod contents;
mod made;
mod texts;
mod verbs;

pub use texts::words;
pub use verbs::{disclose, enclose, level, link, raze};
