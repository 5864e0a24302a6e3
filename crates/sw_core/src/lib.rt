//! The core machine: every list of steps that workers on shared claims, log and pool can take, and
//! records that replay.
#![tactic(auto)]

mod copy;
mod draws;
pub mod gathered;
mod holders;
pub mod laws;
pub mod part;
pub mod record;
mod replaying;
mod state;
pub mod steps;

pub use copy::{copy_filter, copy_kept};
pub use part::{Made, Part};
pub use record::{Entry, Kept, Record, Round, Settled};
pub use replaying::{is_record, replay, steps_of};
pub use state::State;
pub use steps::{End, Step};
