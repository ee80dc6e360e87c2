//! Terms: what a name can stand for, and what modifiers and trains make; and the parts of a sentence.
#![tactic(auto)]

mod acts;
mod datum;
mod forms;
mod levels;
mod obverses;
mod part;
mod ranking;
mod speech;
mod stack;
mod term;
mod words;

pub use acts::{adverb, conj, fork, hook};
pub use datum::Datum;
pub use forms::Form;
pub use levels::MOST_LEVELS;
pub use part::Part;
pub use ranking::ranks;
pub use speech::Speech;
pub use stack::Stack;
pub use term::{Locative, LocativeList, RankList, Term, copy_name};
pub use words::{Adv, Con};
