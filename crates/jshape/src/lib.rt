//! Shapes of arrays: their axes, the frames and cells that a rank parts them into, and agreement.
#![tactic(auto)]

mod agreement;
mod rank;
mod shape;
#[cfg(test)]
mod tests;

pub use agreement::agree;
pub use shape::Shape;
