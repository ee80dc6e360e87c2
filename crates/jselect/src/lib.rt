//! Verbs that count and pick items: tally, copy, from and fetch.
#![tactic(auto)]

mod choosing;
mod copying;
mod fetching;
mod items;
mod listing;
mod numbers;
mod place;
mod view;
mod whole;

pub use choosing::{from, from_among, numbers_boxed};
pub use copying::{copy, further_axes, is_alone, item_count, tally};
pub use fetching::fetch;
pub use items::{push_times, run};
pub use listing::{both_axes, items_named, places_of};
pub use numbers::{are_counts, count_at, served, total_of};
pub use place::cell_number;
pub use whole::{array, limited};
