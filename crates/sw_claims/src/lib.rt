//! Numbered parts that threads draw, each once and none left out, and one reason to stop.
#![tactic(auto)]

pub mod rule;
pub mod seats;
pub mod sharing;
pub mod workers;

pub use rule::{ClaimView, MOST_PARTS, MOST_SEATS};
pub use seats::{ClaimSeat, Claims, Drawn};
pub use sharing::share_out;
pub use workers::fork;
