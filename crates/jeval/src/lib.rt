//! Sentences: the words of a line, executed from right to left, with the uses that they make.
#![tactic(auto)]

mod activity;
mod applying;
mod building;
mod cells;
mod constants;
mod direct;
mod end;
mod eval;
mod execution;
mod laws;
mod operators;
mod queue;
mod rows;
mod sentence;
mod showing;
mod stack;
mod state;
mod targets;
mod verbs;

pub use end::EvalEnd;
pub use eval::Eval;
pub use laws::execution_law;
pub use sentence::{LINE_LIMIT, Shown};
pub use state::State;
