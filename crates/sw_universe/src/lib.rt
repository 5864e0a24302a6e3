//! The finite universe of a Skolem form: its ground terms, and how many instances there are over them.
#![tactic(auto)]

mod counting;
mod laws;
mod listing;
pub mod sizes;
pub mod universe;

pub use laws::{
    universe_is_closed, universe_is_inhabited, universe_is_sorted, values_are_in_range,
};
pub use sizes::{Size, count_instances, query_size};
pub use universe::Universe;
