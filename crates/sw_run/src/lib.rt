//! The top of swiss: from the words of a command line and the bytes of a source to what is written.
#![tactic(auto)]

mod answer;
mod faults;
mod input;
pub mod laws;
mod report;
mod told;
mod top;

pub use faults::Fault;
pub use report::Report;
pub use told::{Refusal, tell};
pub use top::{Status, run, run_check};
