//! Uses: the questions that an activity asks of the session, and who answers them.
#![tactic(auto)]

mod activity_laws;
mod by_maker;
mod desk;
mod kept;
mod laws;
mod locales;
mod solo;
mod uses;

pub use activity_laws::{activities_law, faithful_law, solo_law};
pub use desk::Desk;
pub use kept::{Holding, Phase, Setting};
pub use laws::{
    alone_law, desk_law, determinism_law, history_law, next_law, one_thread_law, prefix_law,
};
pub use solo::Solo;
pub use uses::{Cause, Ended, Entry, Halt, MutexId, Reply, Use, Uses, Waiting, Why, Work};
