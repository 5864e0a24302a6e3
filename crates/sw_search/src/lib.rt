//! A search: what is told of a protocol, the spaces of the templates that there are, so many workers and a
//! budget.
#![tactic(auto)]

pub mod asking;
pub mod classes;
pub mod finishing;
pub mod laws;
pub mod listing;
mod searching;
pub mod telling;

pub use classes::Classes;
pub use laws::{one_report, reports_say_the_same};
pub use searching::search;
pub use telling::Told;
