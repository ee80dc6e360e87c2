//! Definitions from their text.
#![tactic(auto)]

mod backward;
mod body;
mod checking;
mod defining;
mod forward;
mod kind;
mod laws;
mod naming;
mod needs;
mod parting;
mod reading;
mod shared;
mod spot;
mod stretch;
mod taking;
mod valence;
mod walking;

pub use body::Form;
pub use checking::reads;
pub use defining::definition;
pub use kind::{Kind, Looping};
pub use laws::each_part_stands;
pub use needs::need;
pub use reading::{
    Change, Part, each_text_is_had_back, preparing_agrees, reading_is_exact, words_are_counted,
};
pub use shared::Body;
pub use taking::Need;
pub use valence::Definition;
pub use walking::prepared;
