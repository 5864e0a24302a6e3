//! The one log that workers append to: each entry at its place for good, and looks that only grow.
#![tactic(auto)]

pub mod entry;
pub mod rule;
pub mod seats;

pub use entry::{Entry, copy_body, copy_entries};
pub use rule::LogView;
pub use seats::{Appended, LogSeat, SharedLog};
