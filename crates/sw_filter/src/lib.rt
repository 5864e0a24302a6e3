//! Filters: counterexamples that are kept, what each of them refutes and when it is live, and views
//! of them.
#![tactic(auto)]

mod admitting;
pub mod candidates;
pub mod filter;
mod laws;
mod live;
pub mod view;

pub use admitting::{Admitted, admit};
pub use candidates::Candidates;
pub use filter::{Filter, Mode};
pub use laws::{good_does_not_join, good_is_not_missed, good_stays, live_refuter_counters};
pub use live::{are_true, is_live};
pub use view::{Mark, Shown, View};
