//! Verbs that make places and look for them.
#![tactic(auto)]

mod cells;
mod classes;
mod codes;
mod counting;
mod finding;
mod grading;
mod intervals;
mod keys;
mod laws;
mod number;
mod ordering;
mod places;
mod repeating;
mod stepping;

pub use classes::classify;
pub use counting::integers;
pub use finding::{first_places, index_of, last_index_of, less, matched, member, nub, sieve};
pub use grading::{grade_down, grade_up, sort_down, sort_up};
pub use intervals::interval_index;
pub use laws::{each_array_has_one_grade, equal_items_match, nub_has_each_item_once};
pub use repeating::indices;
pub use stepping::steps;
