//! Sessions: the sentences of a script, run one after another, with what they print.
#![tactic(auto)]

mod items;
mod reading;
mod running;
mod session;
mod status;

pub use reading::Reading;
pub use session::run;
pub use status::Status;

#[cfg(test)]
mod tests;
