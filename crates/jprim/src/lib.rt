//! The primitive verbs: a table of what each gives, and the calls that give it.
#![tactic(auto)]

mod dyads;
mod looking;
mod monads;
mod opening;
mod ranked;
mod verbs;

pub use opening::opens;
pub use verbs::{dyad, monad};
