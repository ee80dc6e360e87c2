//! Derived verbs as plans: what is applied next, and what becomes of its answer.
#![tactic(auto)]

mod arguments;
mod climbing;
mod copies;
mod counted;
mod modifiers;
mod parts;
mod pieces;
mod plan;
mod repeating;
mod series;
mod several;
mod steps;
mod trains;

pub use arguments::Arguments;
pub use modifiers::derived;
pub use plan::{After, Plan};
pub use repeating::Repetition;
