//! Laws of instances and refutations beside those that the check stands on: there is one answer at most.
#![tactic(auto)]

mod laws;

pub use laws::{ground_is_one, refutation_has_one_verdict};
